//! Scans of texts.
ghost use Rattle.std.specs.Prelude.{◌≡◌, ◌+◌, ◌<◌, ◌≤◌, ◌^◌, ◌++◌, ◌∷◌, [], All, IfOk, OnOk, codes, length, map, pos, slice_get};
ghost use Rattle.std.specs.Option.{option_map};
ghost use Rattle.lp_cells.specs.Cells.{IsThere, Store};
ghost use Rattle.lp_isa.specs.Machine.{marked};
ghost use Rattle.lp_language.specs.Course.{State};
ghost use Rattle.lp_language.specs.Operations.{scan_faults, scan_texts, scanned_value};
ghost use Rattle.lp_ops.specs.Operands.{Opened, operand, size_of};
ghost use Rattle.lp_ops.specs.Prices.{share};
ghost use Rattle.lp_text.specs.Forms.{count_of, fault_of, parts};
ghost use Rattle.lp_text.specs.Scans.{scanned};
ghost use Rattle.lp_values.specs.Errors.{bad_arg, plain};
ghost use Rattle.lp_world.specs.Matches.{laid};
ghost use Rattle.lp_step.specs.Scans.{AreFound, Scans, ScansOn, Tells, mark};
ghost use Rattle.lp_step.specs.Steps.{Keeps, Performs};

use crate::fault::StepFault;
use crate::next::Next;
use crate::stack::{pay, pop, push};
use lp_cells::cells::Cells;
use lp_instr::instr::Instr;
use lp_ops::price::binary_before;
use lp_text::fault::TextFault;
use lp_text::form::wanted;
use lp_text::scan::{Scanned, scan};
use lp_tree::operator::BinOp;
use lp_values::error::{ErrorKind, RunError};
use lp_values::value::{Living, Value, as_read};
use lp_world::frame::Frame;
use lp_world::live::Live;
use lp_world::objects::ObjectTable;
use std::alloc::{AllocError, Global};

/// What a scan came to.
#[derive(Drop)]
pub enum Scanning {
    /// What it assigns, in order.
    Values(Vec<Scanned>),
    /// An error.
    Error(RunError),
    /// The budget is spent, before anything was looked at.
    Spent,
}

/// An error of this kind.
fn failed(alloc: Global, kind: ErrorKind) -> Result<Scanning, StepFault>
    ensures { IfOk result (λ d. d ≡ Scanning.Error (plain kind)) }
{
    Ok(Scanning::Error(RunError::plain(alloc, kind)?))
}

/// The error of an operand that is no text. Operands count from 1.
fn bad_operand(alloc: Global, number: u64) -> Result<Scanning, StepFault>
    ensures { IfOk result (λ d. d ≡ Scanning.Error (bad_arg number (codes "sscanf"))) }
{
    Ok(Scanning::Error(RunError::bad_arg(alloc, number, "sscanf")?))
}

/// What a form without a fault assigns. A text that is longer than a text may be, which no operation makes,
/// answers as where memory is wanting.
fn values(alloc: Global, text: &[char], form: &[char]) -> Result<Scanning, StepFault>
    ensures { IfOk result (AreFound (scanned (parts form.now) text.now)) }
{
    match scan(alloc, text, form) {
        Ok(found) => Ok(Scanning::Values(found)),
        Err(_) => Err(StepFault::NoMemory),
    }
}

/// A scan of a text by a form, for so many places.
fn scan_by(alloc: Global, text: &[char], form: &[char], places: u32) -> Result<Scanning, StepFault>
    ensures { (state : State) → IfOk result (Tells (scan_faults (fault_of (parts form.now)) (count_of (parts form.now)) places (map scanned_value (scanned (parts form.now) text.now)) state) state) }
{
    match wanted(form) {
        Ok(count) => {
            if (places as u64) < count {
                return failed(alloc, ErrorKind::TooFewArgs);
            }
            values(alloc, text, form)
        }
        Err(TextFault::BadFormat { .. }) => failed(alloc, ErrorKind::BadFormat),
        Err(_) => Err(StepFault::NoMemory),
    }
}

/// The same of a text, where the form has to be a text.
fn scan_text<L: Living>(
    alloc: Global,
    text: &[char],
    form: &Value,
    live: &L,
    places: u32,
) -> Result<Scanning, StepFault>
    ensures { (cells : Store) (state : State) → IfOk result (Tells (scan_texts (Opened.Chars text.now) (operand (L.live live.now) cells form.now) places state) state) }
{
    match as_read(form, live) {
        Some(Value::Str(form)) => scan_by(alloc, text, form.as_slice(), places),
        _ => bad_operand(alloc, 2),
    }
}

/// The same, where both have to be texts.
fn scan_values<L: Living>(
    alloc: Global,
    x: &Value,
    form: &Value,
    live: &L,
    places: u32,
) -> Result<Scanning, StepFault>
    ensures { (cells : Store) (state : State) → IfOk result (Tells (scan_texts (operand (L.live live.now) cells x.now) (operand (L.live live.now) cells form.now) places state) state) }
{
    match as_read(x, live) {
        Some(Value::Str(text)) => scan_text(alloc, text.as_slice(), form, live, places),
        _ => bad_operand(alloc, 1),
    }
}

/// The same with its price, which is that of `+` before it acts.
fn scan_paid<L: Living>(
    alloc: Global,
    x: &Value,
    form: &Value,
    cells: &Cells,
    live: &L,
    places: u32,
    budget: &mut u64,
) -> Result<Scanning, StepFault>
    requires text { IsThere cells.now x.now }
    requires form { IsThere cells.now form.now }
    ensures { IfOk result (λ d. Scans (1 + share (size_of (operand (L.live live.now) cells.now x.now) + size_of (operand (L.live live.now) cells.now form.now))) (scan_texts (operand (L.live live.now) cells.now x.now) (operand (L.live live.now) cells.now form.now) places) budget.old d budget.new) }
{
    let price = binary_before(BinOp::Add, x, form, cells, live);
    let is_paid = pay(budget, price);
    if is_paid {
        return scan_values(alloc, x, form, live, places);
    }
    Ok(Scanning::Spent)
}

/// Takes a text and a form from the stack, and scans.
fn scan_top(
    alloc: Global,
    stack: &mut Vec<Value>,
    cells: &Cells,
    objects: &ObjectTable,
    places: u32,
    budget: &mut u64,
) -> Result<Scanning, StepFault>
    requires operands { 2 ≤ length stack.old.items }
    requires there { All (IsThere cells.now) stack.old.items }
    ensures { IfOk result (λ d. ScansOn places stack.old.items stack.new.items objects.now cells.now budget.old d budget.new) }
{
    let form = pop(stack);
    let x = pop(stack);
    scan_paid(alloc, &x, &form, cells, objects, places, budget)
}

/// What is assigned, as a value. A text keeps its memory.
fn value_of(x: &Scanned) -> Result<Value, AllocError>
    ensures { IfOk result (λ v. v ≡ scanned_value x.now) }
{
    match x {
        Scanned::Int(n) => Ok(Value::Int(*n)),
        Scanned::Text(text) => Ok(Value::Str(text.copy()?)),
    }
}

/// Puts the value at a place with 1 above it on top, or 0 twice where there is none.
fn push_mark(stack: &mut Vec<Value>, found: &[Scanned], i: usize) -> Result<(), StepFault>
    ensures { OnOk result (stack.new.items ≡ laid stack.old.items (mark (option_map scanned_value (slice_get found.now i)))) }
{
    match found.get(i) {
        Some(x) => {
            push(stack, value_of(x)?)?;
            push(stack, Value::Int(1))
        }
        None => {
            push(stack, Value::Int(0))?;
            push(stack, Value::Int(0))
        }
    }
}

/// Puts what is assigned on top, for so many places, the first of them last.
fn push_marks(stack: &mut Vec<Value>, found: &[Scanned], places: u32) -> Result<(), StepFault>
    ensures { OnOk result (stack.new.items ≡ laid stack.old.items (marked places (map scanned_value found.now) [])) }
{
    let mut left = places as usize;
    while left > 0 {
        left -= 1;
        push_mark(stack, found, left)?;
    }
    Ok(())
}

/// Puts on top how many values were assigned, and these for so many places.
fn push_found(stack: &mut Vec<Value>, found: Vec<Scanned>, places: u32) -> Result<(), StepFault>
    ensures { OnOk result (stack.new.items ≡ laid (stack.old.items ++ Value.Int (pos (length found.items)) ∷ []) (marked places (map scanned_value found.items) [])) }
{
    push(stack, Value::Int(found.len() as i64))?;
    push_marks(stack, found.as_slice(), places)
}

/// Scans a text by a form for so many places: takes both, and leaves how many values were assigned, and above
/// that for each place its value and 1, or 0 twice, the first place on top.
pub fn scan_operator(
    live: &Live,
    stack: &mut Vec<Value>,
    frame: &mut Frame,
    budget: &mut u64,
    places: u32,
) -> Result<Next, StepFault>
    requires room { frame.old.at + 1 < 2 ^ 32 }
    requires operands { 2 ≤ length stack.old.items }
    requires there { All (IsThere live.now.cells) stack.old.items }
    ensures table { IfOk result (λ n. Performs (Instr.Scan places) live.now stack.old.items frame.old budget.old n live.now stack.new.items frame.new budget.new) }
    ensures keeps { IfOk result (λ n. Keeps live.now stack.old.items n live.now stack.new.items) }
{
    match scan_top(
        live.alloc,
        stack,
        &live.cells,
        &live.objects,
        places,
        budget,
    )? {
        Scanning::Values(found) => {
            push_found(stack, found, places)?;
            frame.at += 1;
            Ok(Next::Again)
        }
        Scanning::Error(e) => Ok(Next::Error(e)),
        Scanning::Spent => Ok(Next::Spent),
    }
}
