//! What is known of functions of one name.
use lp_values::id::ProgId;

/// Some versions: the first, and whether another differs from it.
#[derive(Clone, Copy, Debug, PartialEq, Eq)]
pub struct Versions {
    pub first: Option<ProgId>,
    pub several: bool,
}

/// The versions in which functions of one name stand: of all, and of those that may not be overridden.
#[derive(Clone, Copy, Debug, PartialEq, Eq)]
pub struct Standing {
    pub all: Versions,
    pub nomask: Option<Versions>,
}
