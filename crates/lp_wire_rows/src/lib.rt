//! Happenings over a small driver, and the events, records and bytes that are heard of them: rows on which the checker computes
//! the definitions of what is heard.
#![tactic(auto)]

ghost use Rattle.lp_wire_rows.specs.Rows.{HeardRows};

/// Rows of what is heard: a line in pieces; two connections to one master; happenings that a script has no item for; ticks; the operator's
/// orders; slow connections.
pub fn rows_of_what_is_heard()
    ensures { HeardRows }
{}
