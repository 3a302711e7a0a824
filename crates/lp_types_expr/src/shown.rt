//! What parents show, by names.
use crate::signature::Signature;
use std::collections::HashMap;

/// What the last parent shows that has a name: of functions with a body, and of all.
#[derive(Drop)]
pub struct Shown {
    pub(crate) bodies: HashMap<Vec<char>, Signature>,
    pub(crate) rows: HashMap<Vec<char>, Signature>,
}
