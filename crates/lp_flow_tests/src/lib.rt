//! What no clause says of the code of trees that no source spells. What code of sources does is shown by the cases
//! `statements`, `switches`, `expressions`, `statements_in_statements` and `deep_trees`, and which names have none by
//! `unknown_names`.
//!
//! The tests stand here and not beside the code, so that no library is proved twice.
#![tactic(auto)]

#[cfg(test)]
mod trees;
