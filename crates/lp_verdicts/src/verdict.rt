//! Verdicts.
use lp_io::Octets;

/// What a test came to.
#[derive(Debug, Drop)]
pub enum Verdict {
    /// It answered another value than 0.
    Pass,
    /// It answered 0.
    Fail,
    /// It ended with an error or a throw that nobody caught, with this text in UTF-8, as its line shows it.
    Error(Octets),
    /// It spent the budget of its call.
    Spent,
}
