//! What a file that is compiled for a load meets: versions made for parents, and live blueprints, with the tables of their programs.
ghost use Rattle.std.specs.Prelude.{◌≡◌};
ghost use Rattle.std.specs.Option.{option_map};
ghost use Rattle.std.specs.Str.{chars};
ghost use Rattle.lp_efuns.specs.Names.{AreNamed};
ghost use Rattle.lp_instr.specs.EfunList.{is_name};
ghost use Rattle.lp_meaning.specs.FileLoads.{made_for as made_in};
ghost use Rattle.lp_meaning.specs.WorldSteps.{is_clone_name as is_clone};
ghost use Rattle.lp_loaded.specs.Present.{serial_of, tables_in, version_at, version_in};
ghost use Rattle.lp_loading.specs.Present.{IsReadyFor, all_made, version_named as named, version_of_file as version_of};
ghost use Rattle.lp_making.specs.Objects.{program_at};
ghost use Rattle.lp_world.specs.Rows.{row_at};

use crate::job::MadeFor;
use lp_code::names::Names2;
use lp_code::tables::Tables;
use lp_compile::loaded::Loaded;
use lp_objects::objects::Objects;
use lp_values::id::{ObjId, ProgId};
use lp_world::live::Live;
use lp_world::objects::ObjectTable;
use lp_world::versions::{ProgramState, VersionTable};
use std::marker::Model;

/// The live state, the versions that a load made for parents, and the names of the simul efuns. The state stands for a world.
#[derive(Drop)]
pub(crate) struct Present<'a> {
    live: &'a Live,
    made: &'a [MadeFor],
    simuls: &'a Names2,
}

impl<'a> Model for Present<'a> {
    ghost use Rattle.lp_loading.specs.Present.{IsReadyFor, Sight};

    ghost Value = { Sight };

    ghost use Rattle.lp_world.specs.contracts.live.Live as l;
    ghost use Rattle.std.specs.Coded.{codes};

    ghost coded = { Prim.hlevel (codes, l.the_row.coded) };

    ghost view = { λ p. record { live = p.live.now; made = p.made.now; simuls = p.simuls.now } };

    ghost invariant = { λ p. IsReadyFor p.live.now };
}

/// What is loaded in a state that stands for a world.
pub(crate) fn present_in<'a>(live: &'a Live, made: &'a [MadeFor], simuls: &'a Names2) -> Present<'a>
    requires ready { IsReadyFor live.now }
    ensures { result ≡ record { live = live.now; made = made.now; simuls = simuls.now } }
{
    Present { live, made, simuls }
}

/// Whether a text spells a name.
fn is_spelled(name: &[char], text: &str) -> bool
    ensures { result ≡ is_name name.now (chars text.now) }
{
    let mut rest = text;
    for c in name {
        match rest.strip_prefix(*c) {
            Some(behind) => rest = behind,
            None => return false,
        }
    }
    rest.is_empty()
}

/// The version that a load made for the parent with a name.
fn made_for(made: &[MadeFor], name: &str) -> Option<ProgId>
    ensures { result ≡ made_in (all_made made.now) (chars name.now) }
{
    match made {
        [m, rest @ ..] => {
            if is_spelled(m.name.as_slice(), name) {
                Some(m.version)
            } else {
                made_for(rest, name)
            }
        }
        [] => None,
    }
}

/// Whether a name has a `#`, as those of clones alone have.
fn is_clone_name(name: &[u8]) -> bool
    ensures { result ≡ is_clone name.now }
{
    name.contains(&35)
}

/// The live blueprint with a name.
fn blueprint(names: &Objects, name: &str) -> Option<ObjId>
    requires named { AreNamed names.now }
    ensures { result ≡ serial_of names.now name.now }
{
    if is_clone_name(name.as_bytes()) {
        return None;
    }
    names.find(name)
}

/// The version of an object that is there.
pub(crate) fn version_of_object(objects: &ObjectTable, ob: ObjId) -> Option<ProgId>
    ensures { result ≡ version_in (row_at objects.now ob.0) }
{
    match objects.get(ob) {
        Some(o) => Some(o.program),
        None => None,
    }
}

/// The version of the live blueprint with a name.
fn blueprint_version(live: &Live, name: &str) -> Option<ProgId>
    requires named { AreNamed live.now.names }
    ensures { result ≡ version_at live.now (serial_of live.now.names name.now) }
{
    match blueprint(&live.names, name) {
        Some(ob) => version_of_object(&live.objects, ob),
        None => None,
    }
}

/// The version of the parent with a name: the one made for it, or else that of its live blueprint. Takes no memory.
pub(crate) fn version_named(live: &Live, made: &[MadeFor], name: &str) -> Option<ProgId>
    requires named { AreNamed live.now.names }
    ensures { result ≡ named (all_made made.now) live.now name.now }
{
    match made_for(made, name) {
        Some(v) => Some(v),
        None => blueprint_version(live, name),
    }
}

/// The version of the parent with a file, whose path ends in `.c`. Takes no memory.
pub(crate) fn version_of_file(live: &Live, made: &[MadeFor], path: &str) -> Option<ProgId>
    requires { AreNamed live.now.names }
    ensures { result ≡ version_of (all_made made.now) live.now path.now }
{
    match path.strip_suffix(".c") {
        Some(name) => version_named(live, made, name),
        None => None,
    }
}

/// The tables of a version whose program is in memory.
fn tables_of(versions: &VersionTable, p: ProgId) -> Option<&Tables>
    ensures { option_map (λ t. t.now) result ≡ tables_in (program_at versions.now p) }
{
    match versions.get(p) {
        Some(v) => match &v.state {
            ProgramState::Resident(program) => Some(&program.raw().tables),
            ProgramState::Swapped(_) => None,
        },
        None => None,
    }
}

impl Loaded for Present<'_> {
    ghost use Rattle.lp_loading.specs.Present.{all_made, known_of};

    ghost known = { λ p. known_of (all_made p.made) p.live };

    ghost simuls = { λ p. p.simuls };

    fn parent(&self, path: &str) -> Option<(ProgId, &Tables)> {
        match version_of_file(self.live, self.made, path) {
            Some(p) => match tables_of(&self.live.versions, p) {
                Some(tables) => Some((p, tables)),
                None => None,
            },
            None => None,
        }
    }

    fn simul(&self) -> &Names2 {
        self.simuls
    }
}
