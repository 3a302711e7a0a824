//! What is told of the tests of a mudlib: verdicts, their lines, and the report.
#![tactic(auto)]

pub mod line;
mod put;
mod reading;
mod shown;
pub mod verdict;

pub use line::{Line, is_clean, report_of};
pub use put::{line_of, missing_line};
pub use reading::read_verdict;
pub use shown::shown_text;
pub use verdict::Verdict;
