//! Locals, and what they hide.
use crate::local::Local;

/// A local, and the place of the local that it hides, if it hides one.
#[derive(Drop)]
pub struct Row {
    pub local: Local,
    pub hidden: Option<usize>,
}
