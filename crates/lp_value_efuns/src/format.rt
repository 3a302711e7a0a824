//! Formatted texts, what is written of values, and names of objects.
ghost use Rattle.std.specs.Prelude.{◌≡◌, All, Bool, IfOk};
ghost use Rattle.std.specs.Str.{chars};
ghost use Rattle.lp_values.specs.declared.id.ObjId.{ObjId};
ghost use Rattle.lp_cells.specs.Cells.{IsClosed, IsThere, Store};
ghost use Rattle.lp_format.specs.Forms.{pieces};
ghost use Rattle.lp_format.specs.Formatted.{formatted};
ghost use Rattle.lp_format.specs.Spelled.{spelled};
ghost use Rattle.lp_ops.specs.Operands.{opened};
ghost use Rattle.lp_ops.specs.Operators.{text};
ghost use Rattle.lp_meaning.specs.WorldSteps.{is_clone_name};
ghost use Rattle.lp_meaning.specs.ComputingEfuns.{as_text};
ghost use Rattle.lp_value_efuns.specs.Computed.{called, is_clone, written};

use crate::argument::bad;
use lp_cells::cells::Cells;
use lp_format::fault::FormatFault;
use lp_format::names::Names;
use lp_format::sprintf::sprintf;
use lp_instr::efun::Efun;
use lp_ops::effect::{Effect, refused};
use lp_values::decimal::signed_spelling;
use lp_values::error::ErrorKind;
use lp_values::id::ObjId;
use lp_values::text::Text;
use lp_values::value::{Living, Value};
use std::alloc::{AllocError, Global};

/// `sprintf`: the text that a form makes of its arguments, or the refusal. A bad argument counts the form as the first.
pub fn formatted<L: Living + Names>(
    alloc: Global,
    form: &[char],
    args: &[Value],
    cells: &Cells,
    names: &L,
) -> Result<Effect, AllocError>
    requires closed { IsClosed cells.now }
    requires there { All (IsThere cells.now) args.now }
    ensures { IfOk result (λ e. e ≡ as_text Efun.Sprintf (formatted (L.live names.now) (spelled (L.live names.now) (L.name names.now) cells.now) args.now (pieces form.now))) }
{
    match sprintf(alloc, form, args, cells, names) {
        Ok(text) => Ok(Effect::Gives(Value::Str(text))),
        Err(FormatFault::BadFormat { .. }) => refused(alloc, ErrorKind::BadFormat),
        Err(FormatFault::TooFewArgs) => refused(alloc, ErrorKind::TooFewArgs),
        Err(FormatFault::BadArg { n }) => bad(alloc, Efun::Sprintf, n),
        Err(FormatFault::TooLong) => refused(alloc, ErrorKind::TextTooLong),
        Err(FormatFault::NoMemory) => Err(AllocError),
    }
}

/// `to_string`: a text as it is, an integer in decimal, an object's name; arrays and mappings are not shown.
pub fn written<N: Names>(alloc: Global, v: &Value, names: &N) -> Result<Effect, AllocError>
    ensures { IfOk result (λ e. (live : ObjId → Bool) (cells : Store) → e ≡ text (written (N.name names.now) (opened live cells v.now))) }
{
    Ok(Effect::Gives(Value::Str(text_of(alloc, v, names)?)))
}

/// What is written of a value.
#[tactic(auto, using(crate::proofs::FormatLemmas::array_chars, crate::proofs::FormatLemmas::mapping_chars))]
fn text_of<N: Names>(alloc: Global, v: &Value, names: &N) -> Result<Text, AllocError>
    ensures { IfOk result (λ t. (live : ObjId → Bool) (cells : Store) → t ≡ written (N.name names.now) (opened live cells v.now)) }
{
    match v {
        Value::Int(n) => Text::from_vec(alloc, signed_spelling(alloc, *n)?),
        Value::Str(s) => s.copy(),
        Value::Arr(_) => Text::from_str(alloc, "<ARRAY>"),
        Value::Map(_) => Text::from_str(alloc, "<MAPPING>"),
        Value::Obj(o) => Text::from_str(alloc, name_of(*o, names)),
    }
}

/// The name of an object, or no letters.
#[tactic(auto, using(crate::proofs::FormatLemmas::empty_chars))]
fn name_of<N: Names>(o: ObjId, names: &N) -> &str
    ensures { chars result.now ≡ called (N.name names.now) o }
{
    match names.name_of(o) {
        Some(name) => name,
        None => "",
    }
}

/// `clonep`: whether a value that was read is a clone. Takes no memory.
pub fn is_clone<N: Names>(v: &Value, names: &N) -> bool
    ensures { (live : ObjId → Bool) (cells : Store) → result ≡ is_clone (N.name names.now) (opened live cells v.now) }
{
    match v {
        Value::Obj(o) => is_clone_name(name_of(*o, names)),
        _ => false,
    }
}

/// Whether a `#` stands in a name, as in those of clones alone.
fn is_clone_name(name: &str) -> bool
    ensures { result ≡ is_clone_name (chars name.now) }
{
    let mut rest = name.chars();
    while let Some(c) = rest.next() {
        if c == '#' {
            return true;
        }
    }
    false
}
