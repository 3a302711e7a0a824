//! Records of objects.
use crate::list::{Cells, Pairs, Values};
use lp_values::id::{CellId, ObjId};
use lp_values::text::Text;

/// A value of a record.
#[derive(Debug, Drop)]
pub enum Packed {
    /// An integer.
    Int(i64),
    /// A text.
    Str(Text),
    /// An array that is not in the record.
    Arr(CellId),
    /// A mapping that is not in the record.
    Map(CellId),
    /// An object.
    Obj(ObjId),
    /// The array of the record at this place.
    OwnArr(u32),
    /// The mapping of the record at this place.
    OwnMap(u32),
}

/// An array or a mapping in a record.
#[derive(Debug, Drop)]
pub enum PackedCell {
    /// An array.
    Array(Values),
    /// A mapping.
    Mapping(Pairs),
}

/// The variables of an object, with the arrays and mappings that nothing else names.
#[derive(Debug, Drop)]
pub struct Record {
    /// The object.
    pub owner: ObjId,
    /// The values of its variables.
    pub vars: Values,
    /// The arrays and mappings of its own.
    pub cells: Cells,
}
