//! What the log tells of a stop.
ghost use Rattle.std.specs.Prelude.{◌≡◌, ◌++◌, IfOk, IsSome, List, OnOk, Some, codes, option_map, slice_get};
ghost use Rattle.std.specs.Str.{chars};
ghost use Rattle.lp_code.specs.declared.program.RawProgram.{RawProgram as Raw};
ghost use Rattle.lp_language.specs.Resolve.{without_c};
ghost use Rattle.lp_language.specs.World.{World};
ghost use Rattle.lp_meaning.specs.Askers.{cause_text};
ghost use Rattle.lp_targets.specs.Brought.{Brings, program_at};
ghost use Rattle.lp_values.specs.Errors.{without_newline};
ghost use Rattle.lp_world.specs.Closed.{IsClosed};
ghost use Rattle.lp_world.specs.Stands.{Stands};
ghost use Rattle.lp_asking.specs.Endings.{cause_of};
ghost use Rattle.lp_beginning.specs.Beginning.{StandsStill};
ghost use Rattle.lp_beginning.specs.Reports.{IsFunctionName, IsObjectName, IsPlaceText, IsPlaceTextIf, IsProgramName, IsStopText, place_words};

use lp_asking::ending::{Cause, Place};
use lp_asking::truth::Truthful;
use lp_code::program::RawProgram;
use lp_efuns::names::ends_in_c;
use lp_reaching::{bring_program, program_of};
use lp_residence::answers::EnterFault;
use lp_types_expr::names::letters;
use lp_values::id::{ObjId, ProgId};
use lp_values::text::{Text, code_points};
use lp_world::live::Live;
use std::alloc::{AllocError, Global};

// Words

/// Puts words behind a text.
fn add(alloc: Global, text: &mut Vec<char>, words: &str) -> Result<(), AllocError>
    ensures { OnOk result (text.new.items ≡ text.old.items ++ chars words.now) }
{
    let more = code_points(alloc, words)?;
    text.extend_from_slice(more.as_slice())
}

/// The same characters, to keep.
fn copied(alloc: Global, text: &[char]) -> Result<Vec<char>, AllocError>
    ensures { IfOk result (λ v. v.items ≡ text.now) }
{
    text.to_vec(alloc)
}

/// A path without `.c` at its end.
fn without_c(path: &[char]) -> &[char]
    ensures { result.now ≡ without_c path.now }
{
    if ends_in_c(path) {
        return &path[..path.len() - 2];
    }
    path
}

/// A text without a newline at its end.
fn without_newline(text: &[char]) -> &[char]
    ensures { result.now ≡ without_newline text.now }
{
    let n = text.len();
    if n > 0 && text[n - 1] == '\n' {
        return &text[..n - 1];
    }
    text
}

/// What is said of a cause, without a newline at its end.
fn cause_text(alloc: Global, cause: &Cause) -> Result<Vec<char>, AllocError>
    ensures { IfOk result (λ v. v.items ≡ cause_text (cause_of cause.now)) }
{
    match cause {
        Cause::Thrown(_) => code_points(alloc, "Throw without catch"),
        Cause::Failed(e) => copied(alloc, without_newline(e.text.as_slice())),
        Cause::Spent => code_points(alloc, "Too long evaluation. Execution aborted."),
    }
}

// Places

/// The name of a function of a program.
fn name_in(alloc: Global, raw: &RawProgram, fun: u16) -> Result<Vec<char>, AllocError>
    ensures { IfOk result (λ v. (name : _) → option_map (λ f. f.name) (slice_get raw.now.funs fun) ≡ Some name → v.items ≡ name) }
{
    match raw.funs.as_slice().get(fun as usize) {
        Some(row) => letters(alloc, row.name.as_str()),
        None => Err(AllocError),
    }
}

/// The name of a function of a version whose program is in memory.
fn function_name(live: &Live, p: ProgId, fun: u16) -> Result<Vec<char>, AllocError>
    requires { IsSome (program_at live.now.versions p) }
    ensures { IfOk result (λ v. IsFunctionName live.now p fun v.items) }
{
    match program_of(&live.versions, p) {
        Some(program) => name_in(live.alloc, program.raw(), fun),
        None => Err(AllocError),
    }
}

/// The path of a version's file, without `.c`. Where the state does not have the version, the answer is want of memory.
fn program_name(live: &Live, p: ProgId) -> Result<Vec<char>, AllocError>
    ensures { IfOk result (λ v. IsProgramName live.now p v.items) }
{
    match live.versions.get(p) {
        Some(v) => copied(live.alloc, without_c(v.path.as_slice())),
        None => Err(AllocError),
    }
}

/// The name of an object. Where it is not known any more, which is after the end of the turn in which the object died, the answer is
/// want of memory.
pub fn object_name(live: &Live, o: ObjId) -> Result<Vec<char>, AllocError>
    ensures { IfOk result (λ v. IsObjectName live.now o v.items) }
{
    match live.names.name(o) {
        Some(name) => code_points(live.alloc, name),
        None => Err(AllocError),
    }
}

/// ` [FUNCTION of PROGRAM, object OBJECT]`.
fn place_words(
    alloc: Global,
    function: &[char],
    program: &[char],
    object: &[char],
) -> Result<Vec<char>, AllocError>
    ensures { IfOk result (λ v. v.items ≡ place_words function.now program.now object.now) }
{
    let mut text = code_points(alloc, " [")?;
    text.extend_from_slice(function)?;
    add(alloc, &mut text, " of ")?;
    text.extend_from_slice(program)?;
    add(alloc, &mut text, ", object ")?;
    text.extend_from_slice(object)?;
    add(alloc, &mut text, "]")?;
    Ok(text)
}

/// What is said of a place whose program is in memory.
fn place_inside(live: &Live, at: Place) -> Result<Vec<char>, AllocError>
    requires { IsSome (program_at live.now.versions at.program) }
    ensures { IfOk result (λ v. (told : _) → IsPlaceText told live.now at v.items) }
{
    let function = function_name(live, at.program, at.fun)?;
    let program = program_name(live, at.program)?;
    let object = object_name(live, at.this)?;
    place_words(
        live.alloc,
        function.as_slice(),
        program.as_slice(),
        object.as_slice(),
    )
}

/// What is said of a place. The program in whose text it is comes into memory.
fn place_text<W: Truthful>(
    live: &mut Live,
    swap: &mut W,
    at: Place,
) -> Result<Vec<char>, EnterFault>
    requires closed { IsClosed live.old }
    ensures text { IfOk result (λ v. IsPlaceText (W.content swap.old) live.old at v.items) }
    ensures brings { Brings (W.content swap.old) (W.content swap.new) (W.last swap.new) (W.read_faults swap.old) (W.read_faults swap.new) (W.write_faults swap.old) (W.write_faults swap.new)
        (W.is_truthful swap.old) (W.is_truthful swap.new) (W.is_honest swap.old) (W.is_honest swap.new) live.old live.new result }
    ensures closed { IsClosed live.new }
    ensures stands { OnOk result (StandsStill (W.content swap.old) live.old (W.content swap.new) live.new) }
{
    match bring_program(live, swap, at.program) {
        Ok(()) => match place_inside(live, at) {
            Ok(text) => Ok(text),
            Err(_) => Err(EnterFault::NoMemory),
        },
        Err(e) => Err(e),
    }
}

/// What is said of a place, if there is one.
fn place_text_if<W: Truthful>(
    live: &mut Live,
    swap: &mut W,
    at: Option<Place>,
) -> Result<Vec<char>, EnterFault>
    requires closed { IsClosed live.old }
    ensures text { IfOk result (λ v. IsPlaceTextIf (W.content swap.old) live.old at v.items) }
    ensures brings { Brings (W.content swap.old) (W.content swap.new) (W.last swap.new) (W.read_faults swap.old) (W.read_faults swap.new) (W.write_faults swap.old) (W.write_faults swap.new)
        (W.is_truthful swap.old) (W.is_truthful swap.new) (W.is_honest swap.old) (W.is_honest swap.new) live.old live.new result }
    ensures closed { IsClosed live.new }
    ensures stands { OnOk result (StandsStill (W.content swap.old) live.old (W.content swap.new) live.new) }
{
    match at {
        Some(at) => place_text(live, swap, at),
        None => Ok(Vec::new(live.alloc)),
    }
}

// Stops

/// The text of a stop with this cause, where that is said of its place.
fn stop_words(alloc: Global, cause: &Cause, place: &[char]) -> Result<Text, AllocError>
    ensures { IfOk result (λ t. t ≡ codes "error: " ++ cause_text (cause_of cause.now) ++ place.now) }
{
    let mut text = code_points(alloc, "error: ")?;
    let words = cause_text(alloc, cause)?;
    text.extend_from_slice(words.as_slice())?;
    text.extend_from_slice(place)?;
    Text::from_vec(alloc, text)
}

/// The text of the log record of a stop: `error: CAUSE [FUNCTION of PROGRAM, object OBJECT]`, without the place where there is
/// none. The program in whose text the place is comes into memory.
///
/// # Errors
/// `Swap` where the read of that program failed, or gave other bytes than were written; it is out still. `NoMemory` where memory
/// ran out, and where the device did not tell the truth. It also comes where the version, the function or the name of the
/// object is not known any more, which is after the end of the turn in which the stop was.
pub fn stop_text<W: Truthful>(
    live: &mut Live,
    swap: &mut W,
    cause: &Cause,
    at: Option<Place>,
) -> Result<Text, EnterFault>
    requires closed { IsClosed live.old }
    ensures text { IfOk result (λ t. IsStopText (W.content swap.old) live.old cause.now at t) }
    ensures brings { Brings (W.content swap.old) (W.content swap.new) (W.last swap.new) (W.read_faults swap.old) (W.read_faults swap.new) (W.write_faults swap.old) (W.write_faults swap.new)
        (W.is_truthful swap.old) (W.is_truthful swap.new) (W.is_honest swap.old) (W.is_honest swap.new) live.old live.new result }
    ensures closed { IsClosed live.new }
    ensures stands { OnOk result (StandsStill (W.content swap.old) live.old (W.content swap.new) live.new) }
{
    match place_text_if(live, swap, at) {
        Ok(place) => match stop_words(live.alloc, cause, place.as_slice()) {
            Ok(text) => Ok(text),
            Err(_) => Err(EnterFault::NoMemory),
        },
        Err(e) => Err(e),
    }
}
