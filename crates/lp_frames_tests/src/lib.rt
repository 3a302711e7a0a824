//! What the clauses of frames say, on small programs that run.
//!
//! The tests stand here and not beside the code, so that no library is proved twice.
#![tactic(auto)]

#[cfg(test)]
mod build;
#[cfg(test)]
mod entering;
#[cfg(test)]
mod leaving;
