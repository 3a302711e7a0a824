//! What names mean.
ghost use Rattle.std.specs.Prelude.{◌≡◌, IfOk, List, false, filter, option_copied, true, ℕ};
ghost use Rattle.lp_instr.specs.EfunList.{efun_named};
ghost use Rattle.lp_tree.specs.UnitView.{unit_of};
ghost use Rattle.lp_types_expr.specs.Calls.{callee_of};
ghost use Rattle.lp_types_expr.specs.Known.{Nobody, as_efun, as_function, has_path, is_strict, is_strong, known_function, of_these, plain_callee, variable_kind};
ghost use Rattle.lp_types_expr.specs.ParentRows.{found_of, parent_has};
ghost use Rattle.lp_types_expr.specs.Scopes.{visible};
ghost use Rattle.lp_types_expr.specs.Signatures.{inherited_kind, last_shown, of_parents, or_else, own_prototype};
ghost use Rattle.lp_types_expr.specs.Surroundings.{around_of};

use crate::around::Surroundings;
use crate::called::Called;
use crate::chosen::Chosen;
use crate::items::{functions, prototypes, variables};
use crate::named::{chosen_of, each_of};
use crate::parent::Parent;
use crate::parents::{find, shown};
use crate::scopes::Scopes;
use crate::signature::Signature;
use crate::simuls::has;
use crate::tables::inherited;
use lp_code::names::Names2;
use lp_code::tables::Tables;
use lp_instr::efun::Efun;
use lp_tree::chars::Chars;
use lp_tree::pragma::TypeMode;
use lp_tree::types::TypeName;
use lp_tree::unit::Unit;
use std::alloc::{AllocError, Global};

// A call of a function, if there is one.
fn as_called(function: Option<&Signature>) -> Called<'_>
    ensures { callee_of result ≡ as_function (option_copied function.entry) Nobody }
{
    match function {
        None => Called::Nobody,
        Some(signature) => Called::AFunction(signature),
    }
}

// Whom a call calls that names the path of these parents.
fn call_of<'a>(each: &'a [Parent], parent: &Chars, name: &Chars) -> Called<'a>
    ensures { callee_of result ≡ found_of (filter (parent_has parent.now) each.now) name.now }
{
    match chosen_of(each, parent.as_slice()) {
        Chosen::Nothing => Called::Nobody,
        Chosen::Several => Called::TwoParents,
        Chosen::One(place) => match each.get(place) {
            None => Called::Nobody,
            Some(one) => as_called(find(&one.shown, name)),
        },
    }
}

impl<'a> Surroundings<'a> {
    /// Makes the maps, in time in proportion to the items of the unit and the rows of the parents. The names of the simul
    /// efuns are borrowed: how many there are takes no time and no memory here.
    #[tactic(auto, unfolding(crate::specs::Surroundings::around_of))]
    pub fn new(
        alloc: Global,
        mode: TypeMode,
        unit: &'a Unit,
        parents: &'a [Tables],
        simuls: &'a Names2,
    ) -> Result<Surroundings<'a>, AllocError>
        ensures { IfOk result (λ s. around_of s ≡ record { mode = mode; items = unit_of unit.now; parents = parents.now; simuls = simuls.now }) }
    {
        let functions = functions(alloc, unit.items.as_slice())?;
        let prototypes = prototypes(alloc, unit.items.as_slice())?;
        let kinds = variables(alloc, unit.items.as_slice())?;
        let inherited = inherited(alloc, parents)?;
        let shown = shown(alloc, parents)?;
        let each = each_of(alloc, parents)?;
        Ok(Surroundings {
            alloc,
            mode,
            unit,
            parents,
            simuls,
            functions,
            prototypes,
            kinds,
            inherited,
            shown,
            each,
        })
    }

    /// Whether types are to fit.
    #[tactic(auto, unfolding(crate::specs::Surroundings::around_of))]
    pub fn is_strong(&self) -> bool
        ensures { result ≡ is_strong (around_of self.now).mode }
    {
        match self.mode {
            TypeMode::Weak => false,
            TypeMode::Strong | TypeMode::Strict => true,
        }
    }

    /// Whether functions and parameters are to have types.
    #[tactic(auto, unfolding(crate::specs::Surroundings::around_of))]
    pub fn is_strict(&self) -> bool
        ensures { result ≡ is_strict (around_of self.now).mode }
    {
        match self.mode {
            TypeMode::Weak | TypeMode::Strong => false,
            TypeMode::Strict => true,
        }
    }

    /// The type of the variable that a name means: of a local, else of the file's variable, else of a parent's.
    #[tactic(auto, unfolding(crate::specs::Surroundings::around_of))]
    pub fn variable_kind(&self, scopes: &Scopes, name: &Chars) -> Option<TypeName>
        ensures { result ≡ variable_kind (around_of self.now) (visible scopes.now) name.now }
    {
        match scopes.local_kind(name) {
            Some(kind) => Some(kind),
            None => match self.kinds.get(name.as_slice()) {
                Some(kind) => Some(*kind),
                None => self.inherited_kind(name),
            },
        }
    }

    /// The type of the variable of the last parent that shows one with the name.
    #[tactic(auto, unfolding(crate::specs::Surroundings::around_of))]
    pub fn inherited_kind(&self, name: &Chars) -> Option<TypeName>
        ensures { result ≡ inherited_kind (around_of self.now).parents name.now }
    {
        self.inherited.get(name.as_slice()).copied()
    }

    // The file's own prototype, else what a parent declares.
    fn declared_function(&self, name: &Chars) -> Option<&Signature>
        ensures { option_copied result ≡ or_else (own_prototype (unit_of self.now.unit.now) name.now) (last_shown false self.now.parents.now name.now) }
    {
        match self.prototypes.get(name.as_slice()) {
            Some(signature) => Some(signature),
            None => self.shown.rows.get(name.as_slice()),
        }
    }

    // A parent's function, else one that is only declared.
    fn other_function(&self, name: &Chars) -> Option<&Signature>
        ensures { option_copied result ≡ or_else (last_shown true self.now.parents.now name.now) (or_else (own_prototype (unit_of self.now.unit.now) name.now) (last_shown false self.now.parents.now name.now)) }
    {
        match self.shown.bodies.get(name.as_slice()) {
            Some(signature) => Some(signature),
            None => self.declared_function(name),
        }
    }

    // The function that a name means: the file's own, else a parent's, else one that is only declared.
    #[tactic(auto, unfolding(crate::specs::Surroundings::around_of))]
    fn known_function(&self, name: &Chars) -> Option<&Signature>
        ensures { option_copied result ≡ known_function (around_of self.now) name.now }
    {
        match self.functions.get(name.as_slice()) {
            Some(signature) => Some(signature),
            None => self.other_function(name),
        }
    }

    /// Whom `name(..)` calls: a function of the file or its parents, else a simul efun, else an efun. Takes no longer with more
    /// of them, unless there is no memory for the letters of the name.
    #[tactic(auto, unfolding(crate::specs::Surroundings::around_of))]
    pub fn plain_callee(&self, name: &Chars) -> Called<'_>
        ensures { callee_of result ≡ plain_callee (around_of self.now) name.now }
    {
        match self.known_function(name) {
            Some(signature) => Called::AFunction(signature),
            None => {
                if has(self.alloc, self.simuls, name.as_slice()) {
                    return Called::ASimul;
                }
                efun_callee(name)
            }
        }
    }

    /// Whom `::name(..)` calls.
    #[tactic(auto, unfolding(crate::specs::Surroundings::around_of))]
    pub fn parent_callee(&self, name: &Chars) -> Called<'_>
        ensures { callee_of result ≡ as_function (of_parents (around_of self.now).parents name.now) Nobody }
    {
        as_called(find(&self.shown, name))
    }

    /// Whom `"parent"::name(..)` calls.
    #[tactic(auto, unfolding(crate::specs::Surroundings::around_of))]
    pub fn named_callee(&self, parent: &Chars, name: &Chars) -> Called<'_>
        ensures { callee_of result ≡ of_these (filter (has_path parent.now) (around_of self.now).parents) name.now }
    {
        call_of(self.each.as_slice(), parent, name)
    }
}

/// Whom `efun::name(..)` calls.
pub fn efun_callee(name: &Chars) -> Called<'static>
    ensures { callee_of result ≡ as_efun (efun_named name.now) }
{
    match Efun::named(name.as_slice()) {
        None => Called::Nobody,
        Some(efun) => Called::AnEfun(efun),
    }
}
