//! What an efun on files comes to.
use lp_values::error::RunError;
use lp_values::value::Value;

/// What saving or restoring comes to, before the price of its result is paid.
#[derive(Debug, Drop)]
pub enum Outcome {
    /// A value.
    Value(Value),
    /// A run-time error.
    Error(RunError),
}
