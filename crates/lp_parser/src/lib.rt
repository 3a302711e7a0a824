//! Units of LPC sources.
#![tactic(auto)]

pub mod before;
pub mod focus;
pub mod law;
pub mod machine;
pub mod params;
pub mod reading;
pub mod top;

pub use lp_parser_expr::fault::ParseFault;
pub use reading::parse;
