//! What is round an expression.
ghost use Rattle.std.specs.Prelude.{◌≡◌, List, false, filter, true, ℕ};
ghost use Rattle.lp_tree.specs.UnitView.{unit_of};
ghost use Rattle.lp_types_expr.specs.Known.{has_path, of_these};
ghost use Rattle.lp_types_expr.specs.NameMaps.{named};
ghost use Rattle.lp_types_expr.specs.ParentRows.{found_of, parent_has};
ghost use Rattle.lp_types_expr.specs.Signatures.{inherited_kind, last_shown, own_function, own_kind, own_prototype};

use crate::parent::Parent;
use crate::shown::Shown;
use crate::signature::Signature;
use lp_code::names::Names2;
use lp_code::tables::Tables;
use lp_tree::pragma::TypeMode;
use lp_tree::types::TypeName;
use lp_tree::unit::Unit;
use std::alloc::Global;
use std::collections::HashMap;

/// What is round the expressions of a file: how closely types are checked, what the file declares, the tables of its
/// parents in the order of the inherits, and the names of the simul efuns, which are borrowed with their own map. Names are
/// found by maps. The allocator is for the letters of a name that is looked for among the simul efuns.
#[derive(Drop)]
pub struct Surroundings<'a> {
    pub(crate) alloc: Global,
    pub(crate) mode: TypeMode,
    pub(crate) unit: &'a Unit,
    pub(crate) parents: &'a [Tables],
    pub(crate) simuls: &'a Names2,
    pub(crate) functions: HashMap<Vec<char>, Signature>,
    pub(crate) prototypes: HashMap<Vec<char>, Signature>,
    pub(crate) kinds: HashMap<Vec<char>, TypeName>,
    pub(crate) inherited: HashMap<Vec<char>, TypeName>,
    pub(crate) shown: Shown,
    pub(crate) each: Vec<Parent>,
    ghost own_functions: { (w : List ℕ) → named functions w ≡ own_function (unit_of unit.now) w },
    ghost own_prototypes: { (w : List ℕ) → named prototypes w ≡ own_prototype (unit_of unit.now) w },
    ghost own_kinds: { (w : List ℕ) → named kinds w ≡ own_kind (unit_of unit.now) w },
    ghost inherited_kinds: { (w : List ℕ) → named inherited w ≡ inherited_kind parents.now w },
    ghost bodies: { (w : List ℕ) → named shown.bodies w ≡ last_shown true parents.now w },
    ghost rows: { (w : List ℕ) → named shown.rows w ≡ last_shown false parents.now w },
    ghost each_parent: { (p w : List ℕ) → found_of (filter (parent_has p) each.items) w ≡ of_these (filter (has_path p) parents.now) w },
}
