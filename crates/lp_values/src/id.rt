//! Serial numbers. Each is given out once and never again.

/// The serial of an array or a mapping.
#[derive(Clone, Copy, Debug, PartialEq, Eq, Hash)]
pub struct CellId(pub u64);

/// The serial of an object.
#[derive(Clone, Copy, Debug, PartialEq, Eq, Hash)]
pub struct ObjId(pub u64);

/// The serial of a program's version.
#[derive(Clone, Copy, Debug, PartialEq, Eq, Hash)]
pub struct ProgId(pub u64);
