//! What no clause says of the lines of telnet streams and of records. Saved and restored text is shown by the cases
//! `saved_text` and `restored_text`.
//!
//! The tests stand here and not beside the code, so that no library is proved twice.
#![tactic(auto)]

#[cfg(test)]
mod lines;
#[cfg(test)]
mod records;
