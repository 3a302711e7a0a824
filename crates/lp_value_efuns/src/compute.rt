//! One call of an efun that computes.
ghost use Rattle.std.specs.Prelude.{◌≡◌, All, IfOk, map, true};
ghost use Rattle.lp_values.specs.declared.id.ObjId.{ObjId};
ghost use Rattle.lp_cells.specs.Cells.{IsClosed, IsThere, KeepsThere};
ghost use Rattle.lp_ops.specs.Effects.{Meets, within};
ghost use Rattle.lp_ops.specs.Operands.{opened, operand};
ghost use Rattle.lp_language.specs.Course.{State};
ghost use Rattle.lp_language.specs.Operations.{cells_of, living};
ghost use Rattle.lp_meaning.specs.EfunArguments.{arg, opened_args};
ghost use Rattle.lp_meaning.specs.ComputingEfuns.{computes, name_in};
ghost use Rattle.lp_value_efuns.specs.Computed.{computed};

use crate::argument::{argument, int_in, items_in, rest, text_in};
use crate::format::{formatted, is_clone, written};
use crate::kind::{is_array, is_int, is_mapping, is_object, is_text};
use crate::list::{allocated, contents, copied, keys, made_mapping, member};
use crate::number::{greatest, least, sizeof, text_len, to_int, without_sign};
use crate::text::{capitalized, exploded, imploded, lowered, place_in, raised, trimmed};
use lp_cells::cells::Cells;
use lp_format::names::Names;
use lp_instr::efun::Efun;
use lp_ops::effect::{Effect, carry_out};
use lp_ops::fault::OpFault;
use lp_ops::int::{int, truth};
use lp_values::value::{Living, Value};
use std::alloc::{AllocError, Global};

/// What an efun of this group gives for arguments whose kinds and number have been looked at. A result in a new cell is
/// made; on a refusal nothing changes. Another efun gives 0.
///
/// The objects are those of a state where the same ones are live and each of these has the name that `live` gives.
pub fn compute<L: Living + Names>(
    alloc: Global,
    efun: Efun,
    args: &[Value],
    cells: &mut Cells,
    live: &L,
) -> Result<Value, OpFault>
    requires closed { IsClosed cells.old }
    requires there { All (IsThere cells.old) args.now }
    ensures value { (s : State) → living s ≡ L.live live.now → ((o : ObjId) → L.live live.now o ≡ true → name_in s.world o ≡ L.name live.now o) → cells_of s ≡ cells.old → Meets (computes efun s args.now (opened_args s args.now)) cells.old cells.new result }
    ensures stay { KeepsThere cells.old cells.new }
    ensures closed { IsClosed cells.new × IfOk result (IsThere cells.new) }
{
    let effect = effect_of(alloc, efun, args, cells, live)?;
    carry_out(alloc, effect, cells)
}

/// What an efun does with its arguments, up to the limits of length.
fn effect_of<L: Living + Names>(
    alloc: Global,
    efun: Efun,
    args: &[Value],
    cells: &Cells,
    live: &L,
) -> Result<Effect, AllocError>
    requires closed { IsClosed cells.now }
    requires there { All (IsThere cells.now) args.now }
    ensures { IfOk result (λ e. within e ≡ within (computed efun (L.live live.now) (L.name live.now) cells.now args.now (arg (map (operand (L.live live.now) cells.now) args.now) 0) (arg (map (operand (L.live live.now) cells.now) args.now) 1) (arg (map (operand (L.live live.now) cells.now) args.now) 2))) }
{
    let a = argument(args, 0, live)?;
    let b = argument(args, 1, live)?;
    let c = argument(args, 2, live)?;
    of_read(alloc, efun, args, &a, &b, &c, cells, live)
}

/// What an efun does with its first three arguments as read, up to the limits of length.
fn of_read<L: Living + Names>(
    alloc: Global,
    efun: Efun,
    args: &[Value],
    a: &Value,
    b: &Value,
    c: &Value,
    cells: &Cells,
    live: &L,
) -> Result<Effect, AllocError>
    requires closed { IsClosed cells.now }
    requires there { All (IsThere cells.now) args.now }
    requires first { IsThere cells.now a.now }
    requires second { IsThere cells.now b.now }
    ensures { IfOk result (λ e. within e ≡ within (computed efun (L.live live.now) (L.name live.now) cells.now args.now (opened (L.live live.now) cells.now a.now) (opened (L.live live.now) cells.now b.now) (opened (L.live live.now) cells.now c.now))) }
{
    match efun {
        Efun::Clonep => Ok(truth(is_clone(a, live))),
        Efun::Objectp => Ok(truth(is_object(a))),
        Efun::Intp => Ok(truth(is_int(a))),
        Efun::Stringp => Ok(truth(is_text(a))),
        Efun::Pointerp => Ok(truth(is_array(a))),
        Efun::Mappingp => Ok(truth(is_mapping(a))),
        Efun::Strlen => Ok(text_len(text_in(a))),
        Efun::Explode => exploded(alloc, text_in(a), text_in(b)),
        Efun::Implode => imploded(alloc, items_in(a, cells), text_in(b)),
        Efun::LowerCase => lowered(alloc, text_in(a)),
        Efun::UpperCase => raised(alloc, text_in(a)),
        Efun::Capitalize => capitalized(alloc, text_in(a)),
        Efun::Strstr => Ok(place_in(text_in(a), text_in(b), int_in(c))),
        Efun::Trim => trimmed(alloc, text_in(a)),
        Efun::Sprintf => formatted(alloc, text_in(a), rest(args), cells, live),
        Efun::ToInt => to_int(alloc, a),
        Efun::ToString => written(alloc, a, live),
        Efun::Sizeof => sizeof(alloc, a, cells, live),
        Efun::Allocate => allocated(alloc, int_in(a)),
        Efun::Member => Ok(member(a, b, cells, live)),
        Efun::Copy => copied(alloc, a, cells, live),
        Efun::MIndices => keys(alloc, a, cells, live),
        Efun::MValues => contents(alloc, a, cells, live),
        Efun::Mkmapping => made_mapping(alloc, items_in(a, cells), items_in(b, cells), live),
        Efun::Min => Ok(int(least(int_in(a), int_in(b)))),
        Efun::Max => Ok(int(greatest(int_in(a), int_in(b)))),
        Efun::Abs => without_sign(alloc, int_in(a)),
        _ => Ok(int(0)),
    }
}
