//! Whether functions, switches and tables are as they have to be.
ghost use Rattle.std.specs.Prelude.{◌≡◌, ◌↔◌, ◌<◌, ◌≤◌, IfOk, IsTrue, length, nat_lt};
ghost use Rattle.lp_code.specs.Inside.{AreTables};
ghost use Rattle.lp_verify.specs.Rows.{are_inside, are_rows, are_switches, is_switch, row_fits, rows_rise};

use crate::stand::{case_place, have_texts};
use lp_code::program::{FunRow, RawProgram, SwitchRow};
use lp_instr::instr::Case;

fn row_fits(places: usize, low: usize, row: &FunRow) -> bool
    ensures { result ≡ row_fits places low row.now }
{
    let from = row.from as usize;
    low <= from && from < places && row.params as u16 <= row.locals
}

fn rows_rise(places: usize, rows: &[FunRow]) -> bool
    ensures { result ≡ rows_rise places 0 rows.now }
{
    let mut low = 0usize;
    for row in rows {
        if !row_fits(places, low, row) {
            return false;
        }
        low = row.from as usize + 1;
    }
    true
}

/// Whether functions begin as they have to.
pub(crate) fn are_rows(places: usize, rows: &[FunRow]) -> bool
    ensures { result ≡ are_rows places rows.now }
{
    match rows.first() {
        None => places == 0,
        Some(first) => first.from == 0 && rows_rise(places, rows),
    }
}

fn are_inside(places: usize, cases: &[Case]) -> bool
    ensures { result ≡ are_inside places cases.now }
{
    for case in cases {
        if case_place(case) as usize >= places {
            return false;
        }
    }
    true
}

fn is_switch(raw: &RawProgram, row: &SwitchRow) -> bool
    ensures { result ≡ is_switch raw.now row.now }
{
    let places = raw.instrs.as_slice().len();
    let cases = row.cases.as_slice();
    let other = (row.other as usize) < places;
    other && are_inside(places, cases) && have_texts(raw.consts.as_slice().len(), cases)
}

/// Whether all switches are as they have to be.
pub(crate) fn are_switches(raw: &RawProgram) -> bool
    ensures { result ≡ are_switches raw.now raw.now.switches }
{
    for row in raw.switches.as_slice() {
        if !is_switch(raw, row) {
            return false;
        }
    }
    true
}
