//! Text messages and their lines, bytes of outputs and their messages: rows on which the checker computes the definitions.
#![tactic(auto)]

ghost use Rattle.lp_door_rows.specs.Rows.{DoorRows};

/// Rows of lines and messages: plain ones and empty ones, bytes that no line has, marks, and bytes that are no text.
pub fn rows_of_lines_and_messages()
    ensures { DoorRows }
{}
