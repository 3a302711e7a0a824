//! The programs in whose texts functions stand.
ghost use Rattle.std.specs.Prelude.{◌≡◌, IfOk, IsSome, List};
ghost use Rattle.lp_cells.specs.Cells.{IsThere, Store};
ghost use Rattle.lp_code.specs.declared.program.RawProgram.{RawProgram as Raw};
ghost use Rattle.lp_language.specs.Resolve.{without_c};
ghost use Rattle.lp_language.specs.World.{World};
ghost use Rattle.lp_values.specs.declared.value.Value.{Value as V};
ghost use Rattle.lp_world.specs.Closed.{IsClosed};
ghost use Rattle.lp_world.specs.Rows.{row_at};
ghost use Rattle.lp_world.specs.Stands.{Stands};
ghost use Rattle.lp_targets.specs.Brought.{Brings};
ghost use Rattle.lp_object_efuns.specs.Exists.{IsProgramValue, IsWhereItStands};

use crate::names::{is_plain, length_without_c, text_of};
use lp_frames::entry::Callee;
use lp_residence::answers::EnterFault;
use lp_swapfile::SwapFile;
use lp_targets::functions::function_in;
use lp_targets::wants::Want;
use lp_values::id::ObjId;
use lp_values::text::Text;
use lp_values::value::Value;
use lp_world::live::Live;
use std::alloc::{AllocError, Global};

/// A path without `.c` at its end, as a value.
fn path_value(alloc: Global, path: &Text) -> Result<Value, AllocError>
    ensures { IfOk result (λ v. v ≡ V.Str (without_c path.now)) }
{
    let letters = path.as_slice();
    let n = length_without_c(letters);
    Ok(Value::Str(Text::from_slice(alloc, &letters[..n])?))
}

/// The path without `.c` of the version of a callee, as a value, or 0 where there is none. The answer is want of memory too
/// where the state has no such version.
fn program_value(live: &Live, callee: Option<Callee>) -> Result<Value, AllocError>
    ensures value { IfOk result (λ v. IsProgramValue live.now callee v) }
    ensures there { IfOk result (λ v. (cells : Store) → IsThere cells v) }
{
    match callee {
        Some(c) => match live.versions.path(c.program) {
            Some(path) => path_value(live.alloc, path),
            None => Err(AllocError),
        },
        None => Ok(Value::Int(0)),
    }
}

/// The same of the function of a name in an object, where it is not private. The program of the object's version comes into
/// memory.
fn program_named<W: SwapFile>(
    live: &mut Live,
    swap: &mut W,
    ob: ObjId,
    name: &str,
) -> Result<Value, EnterFault>
    requires closed { IsClosed live.old }
    requires there { IsSome (row_at live.old.objects ob.0) }
    ensures brings { Brings (W.content swap.old) (W.content swap.new) (W.last swap.new) (W.read_faults swap.old) (W.read_faults swap.new) (W.write_faults swap.old) (W.write_faults swap.new)
        (W.is_truthful swap.old) (W.is_truthful swap.new) (W.is_honest swap.old) (W.is_honest swap.new) live.old live.new result }
    ensures closed { IsClosed live.new }
    ensures stands { W.is_truthful swap.new → (programs : List Raw) (w : World) → Stands (W.content swap.old) programs live.old w → Stands (W.content swap.new) programs live.new w }
    ensures found { W.is_truthful swap.new → IfOk result (λ v. IsWhereItStands (W.content swap.old) live.old ob name.now v) }
    ensures there { IfOk result (λ v. (cells : Store) → IsThere cells v) }
{
    match function_in(live, swap, ob, Want::NotPrivate, name) {
        Ok(callee) => match program_value(live, callee) {
            Ok(v) => Ok(v),
            Err(_) => Err(EnterFault::NoMemory),
        },
        Err(e) => Err(e),
    }
}

/// The same by a text. One that is not of ASCII is the name of no function, and then nothing is read.
pub(crate) fn program_found<W: SwapFile>(
    live: &mut Live,
    swap: &mut W,
    ob: ObjId,
    name: &[char],
) -> Result<Value, EnterFault>
    requires closed { IsClosed live.old }
    requires there { IsSome (row_at live.old.objects ob.0) }
    ensures brings { Brings (W.content swap.old) (W.content swap.new) (W.last swap.new) (W.read_faults swap.old) (W.read_faults swap.new) (W.write_faults swap.old) (W.write_faults swap.new)
        (W.is_truthful swap.old) (W.is_truthful swap.new) (W.is_honest swap.old) (W.is_honest swap.new) live.old live.new result }
    ensures closed { IsClosed live.new }
    ensures stands { W.is_truthful swap.new → (programs : List Raw) (w : World) → Stands (W.content swap.old) programs live.old w → Stands (W.content swap.new) programs live.new w }
    ensures found { W.is_truthful swap.new → IfOk result (λ v. IsWhereItStands (W.content swap.old) live.old ob name.now v) }
    ensures there { IfOk result (λ v. (cells : Store) → IsThere cells v) }
{
    if !is_plain(name) {
        return Ok(Value::Int(0));
    }
    match text_of(live.alloc, name) {
        Ok(text) => program_named(live, swap, ob, text.as_str()),
        Err(_) => Err(EnterFault::NoMemory),
    }
}
