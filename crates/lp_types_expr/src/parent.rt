//! A parent, as its child sees it.
use crate::shown::Shown;

/// A parent's path, without `.c`, and what it shows.
#[derive(Drop)]
pub struct Parent {
    pub(crate) path: Vec<char>,
    pub(crate) shown: Shown,
}
