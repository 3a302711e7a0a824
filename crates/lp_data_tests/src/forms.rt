//! Places of faults in forms, of which a script sees none, and texts that are longer than a text of a script may be.
ghost use Rattle.std.specs.Prelude.{All, IsTrue};
ghost use Rattle.lp_cells.specs.Cells.{IsThere};

use lp_cells::cells::Cells;
use lp_format::fault::FormatFault;
use lp_format::fault::FormatFault::{BadFormat, TooLong};
use lp_format::names::Names;
use lp_format::sprintf::sprintf;
use lp_values::id::ObjId;
use lp_values::text::{Text, code_points};
use lp_values::value::{Living, Value};
use std::alloc::Global;
use std::marker::Model;
use std::process::Abort;
use std::test::Fail;

/// Objects with an even serial are live. Serials 1 and 2 have the first name, serial 4 has the second.
#[derive(Drop)]
struct Objects {
    first: &'static str,
    second: &'static str,
}

impl Living for Objects {
    ghost use Rattle.std.specs.Prelude.{nat_eq, ◌%◌};

    ghost live = { λ _ o. nat_eq (o.0 % 2) 0 };

    fn is_live(&self, id: ObjId) -> bool {
        id.0 % 2 == 0
    }
}

impl Names for Objects {
    ghost use Rattle.std.specs.Prelude.{nat_eq, if◌then◌else◌, Some, None};
    ghost use Rattle.std.specs.Str.{chars};

    ghost name = { λ t o. if nat_eq o.0 1 then Some (chars t.first.now) else if nat_eq o.0 2 then Some (chars t.first.now) else if nat_eq o.0 4 then Some (chars t.second.now) else None };

    fn name_of(&self, id: ObjId) -> Option<&str> {
        if id.0 == 1 {
            return Some(self.first);
        }
        if id.0 == 2 {
            return Some(self.first);
        }
        if id.0 == 4 { Some(self.second) } else { None }
    }
}

/// The objects of the tests.
fn some_objects() -> Objects {
    Objects {
        first: "/obj/sword",
        second: "/ö/größe",
    }
}

/// Cells, where each array or mapping that a cell names is there.
#[derive(Drop)]
struct World {
    alloc: Global,
    cells: Cells,
}

impl Model for World {
    ghost use Rattle.lp_cells.specs.Cells.{Store, IsClosed};

    ghost Value = { Store };

    ghost view = { λ w. w.cells };

    ghost invariant = { λ w. IsClosed w.cells };
}

impl World {
    /// No cells.
    fn new(alloc: Global) -> World {
        World {
            alloc,
            cells: Cells::new(alloc),
        }
    }

    /// Whether the arrays and mappings among these values are there.
    fn has_all(&self, values: &[Value]) -> bool
        ensures { IsTrue result → All (IsThere self.now) values.now }
    {
        values.iter().all(|v| self.cells.is_there(v))
    }

    /// The text of a form and its arguments.
    fn format(&self, rt: &impl Abort, form: &[char], args: &[Value]) -> Result<Text, FormatFault> {
        assert!(rt; self.has_all(args));
        sprintf(self.alloc, form, args, &self.cells, &some_objects())
    }
}

/// Many times one code point.
fn many(alloc: Global, n: u32, c: char) -> Result<Vec<char>, Fail> {
    let mut all = Vec::new(alloc);
    for _ in 0..n {
        all.push(c)?;
    }
    Ok(all)
}

/// How many code points the text of a form has.
fn size(
    rt: &impl Abort,
    world: &World,
    form: &[char],
    args: &[Value],
) -> Result<usize, FormatFault> {
    Ok(world.format(rt, form, args)?.as_slice().len())
}

/// How often a letter stands in front of a form and in its one argument, and how long the text is, or why there is none.
type Row = (u32, &'static str, u32, Result<usize, FormatFault>);

const ROWS: [Row; 11] = [
    (0, "%q", 0, Err(BadFormat { at: 0 })),
    (1, "%ä", 0, Err(BadFormat { at: 1 })),
    (2, "%", 0, Err(BadFormat { at: 2 })),
    (1, "%-05.2s%%é%q", 1, Err(BadFormat { at: 11 })),
    (0, "%s%S", 6, Err(BadFormat { at: 2 })),
    (100000, "%q", 0, Err(BadFormat { at: 100000 })),
    (100001, "%q", 0, Err(TooLong)),
    (100001, "", 0, Err(TooLong)),
    (0, "%s", 100001, Err(TooLong)),
    (0, "%.3s", 100001, Ok(3)),
    (0, "%.9999s", 100001, Ok(9999)),
];

/// Whether a form comes to this.
fn comes_to(rt: &impl Abort, alloc: Global, row: &Row) -> Result<bool, Fail> {
    let world = World::new(alloc);
    let mut form = many(alloc, row.0, 'ä')?;
    form.extend_from_slice(code_points(alloc, row.1)?.as_slice())?;
    let text = Value::Str(Text::from_vec(alloc, many(alloc, row.2, 'ä')?)?);
    let args = vec![in alloc; text]?;
    let found = size(rt, &world, form.as_slice(), args.as_slice());
    Ok(found == row.3)
}

#[test]
fn forms(rt: HostRuntime) -> Result<(), Fail> {
    for row in &ROWS {
        assert!(rt; comes_to(&rt, rt.alloc(), row)?, "{} {}", row.0, row.1);
    }
    Ok(())
}
