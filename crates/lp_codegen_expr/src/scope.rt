//! What names mean.
ghost use Rattle.std.specs.Prelude.{◌≡◌};
ghost use Rattle.lp_language.specs.Scope.{slot_of};
ghost use Rattle.lp_codegen_expr.specs.Names.{callee_in, layout_of, parent_called_in, parent_with_in, row_in, variable_in_scope};

use crate::index::Index;
use lp_instr::efun::Efun;
use lp_tree::chars::Chars;

/// What a name of a variable means.
#[derive(Clone, Copy, Drop)]
pub enum Variable {
    /// A local, by its slot.
    Local(usize),
    /// A global, by its place.
    Global(usize),
    /// Nothing.
    Nothing,
}

/// Whom a call by a name calls.
#[derive(Clone, Copy, Drop)]
pub enum Called {
    /// The function with this row.
    Row(usize),
    /// A simul efun.
    Simul,
    /// An efun.
    Efun(Efun),
    /// Nobody.
    Nobody,
}

/// What is known of the names of a file, beside its locals. It is made once for a file.
#[derive(Drop)]
pub struct Layout {
    /// The names of the variables that can be seen.
    pub globals: Index,
    /// Their places.
    pub places: Vec<usize>,
    /// The names of the rows of the table.
    pub rows: Index,
    /// The names of the rows of each parent's table.
    pub parents: Vec<Index>,
    /// The names that `::` finds in a parent.
    pub inherited: Index,
    /// The parents where it finds them.
    pub inherited_from: Vec<usize>,
    /// The names by which parents are called.
    pub parent_names: Index,
    /// The parents that are called so.
    pub parent_numbers: Vec<usize>,
    /// The simul efuns.
    pub simuls: Index,
}

/// What names mean at a place of a file.
#[derive(Drop)]
pub struct Scope {
    /// What is known of the file's names.
    pub layout: Layout,
    /// The locals that can be seen, by their slots: at most 255, of which a later one hides an earlier one of its name.
    pub locals: Vec<Chars>,
}

/// The last place of a name in a short list, if it is there.
pub fn find(names: &[Chars], name: &Chars) -> Option<usize>
    ensures { result ≡ slot_of names.now name.now }
{
    let mut found = None;
    for (i, other) in names.iter().enumerate() {
        if other.as_slice() == name.as_slice() {
            found = Some(i);
        }
    }
    found
}

/// What a name of a variable means. Takes no memory.
pub fn look_up(scope: &Scope, name: &Chars) -> Variable
    ensures { result ≡ variable_in_scope (layout_of scope.now.layout) scope.now.locals.items name.now }
{
    match find(scope.locals.as_slice(), name) {
        Some(k) => Variable::Local(k),
        None => match scope.layout.globals.place(name) {
            Some(k) => match scope.layout.places.get(k) {
                Some(place) => Variable::Global(*place),
                None => Variable::Nothing,
            },
            None => Variable::Nothing,
        },
    }
}

/// Whom a call by a name calls. Takes no memory.
pub fn callee(layout: &Layout, name: &Chars) -> Called
    ensures { result ≡ callee_in (layout_of layout.now) name.now }
{
    match layout.rows.place(name) {
        Some(k) => Called::Row(k),
        None => match layout.simuls.place(name) {
            Some(_) => Called::Simul,
            None => match Efun::named(name.as_slice()) {
                Some(e) => Called::Efun(e),
                None => Called::Nobody,
            },
        },
    }
}

/// The parent in which `::` finds a name. Takes no memory.
pub fn parent_with(layout: &Layout, name: &Chars) -> Option<usize>
    ensures { result ≡ parent_with_in (layout_of layout.now) name.now }
{
    match layout.inherited.place(name) {
        Some(k) => layout.inherited_from.get(k).copied(),
        None => None,
    }
}

/// The parent that is called by a name. Takes no memory.
pub fn parent_called(layout: &Layout, name: &Chars) -> Option<usize>
    ensures { result ≡ parent_called_in (layout_of layout.now) name.now }
{
    match layout.parent_names.place(name) {
        Some(k) => layout.parent_numbers.get(k).copied(),
        None => None,
    }
}

/// The row of a name in a parent's table. Takes no memory.
pub fn parent_row(layout: &Layout, parent: usize, name: &Chars) -> Option<usize>
    ensures { result ≡ row_in (layout_of layout.now) parent name.now }
{
    match layout.parents.get(parent) {
        Some(rows) => rows.place(name),
        None => None,
    }
}
