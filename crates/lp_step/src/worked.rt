//! What an operator came to.
use lp_values::error::RunError;
use lp_values::value::Value;

/// What an operator came to, with its prices.
#[derive(Drop)]
pub enum Worked {
    /// A value.
    Value(Value),
    /// An error.
    Error(RunError),
    /// The budget is spent: before it acted, or at the price of its result, which is made then.
    Spent,
}
