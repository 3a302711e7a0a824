//! What efuns cost: a part that is paid before an efun acts, and a part for its result.
ghost use Rattle.std.specs.Prelude.{◌≡◌, ◌+◌, All, if◌then◌else◌};
ghost use Rattle.lp_cells.specs.Cells.{IsThere, Store};
ghost use Rattle.lp_ops.specs.Operands.{operand, size_of};
ghost use Rattle.lp_ops.specs.Prices.{share, size_made, total_size};
ghost use Rattle.lp_ops.specs.Effects.{Yields};
ghost use Rattle.lp_ops.specs.declared.effect.Effect.{Effect};
ghost use Rattle.lp_language.specs.Course.{State};
ghost use Rattle.lp_language.specs.Operations.{cells_of, living};
ghost use Rattle.lp_meaning.specs.EfunArguments.{has_share, price_after, price_before};

use lp_cells::cells::Cells;
use lp_instr::efun::Efun;
use lp_ops::price::{literal_before, size};
use lp_values::value::{Living, Value};

/// How much of a length is paid: one of so many.
const SHARE: u64 = 16;

/// Whether an efun pays for the lengths of its arguments and of its result: those that make or go over texts, arrays
/// or mappings do.
pub fn has_share(efun: Efun) -> bool
    ensures { result ≡ has_share efun }
{
    match efun {
        Efun::AllInventory
        | Efun::Write
        | Efun::TellObject
        | Efun::TellRoom
        | Efun::Say
        | Efun::Printf
        | Efun::Users => true,
        Efun::Explode
        | Efun::Implode
        | Efun::LowerCase
        | Efun::UpperCase
        | Efun::Capitalize
        | Efun::Strstr
        | Efun::Trim => true,
        Efun::Sprintf | Efun::Sscanf | Efun::ToString => true,
        Efun::Allocate
        | Efun::Member
        | Efun::Copy
        | Efun::Filter
        | Efun::Map
        | Efun::MIndices
        | Efun::MValues
        | Efun::Mkmapping => true,
        Efun::ReadFile | Efun::WriteFile | Efun::SaveObject | Efun::RestoreObject => true,
        _ => false,
    }
}

/// What a call of an efun costs before it acts: 1, and the share of the lengths of all arguments together, as read, where
/// it has one. Takes no memory.
pub fn price_before<L: Living>(efun: Efun, args: &[Value], cells: &Cells, live: &L) -> u128
    requires { All (IsThere cells.now) args.now }
    ensures { (s : State) → living s ≡ L.live live.now → cells_of s ≡ cells.now → result ≡ price_before efun args.now s }
{
    price_by_share(efun, args, cells, live)
}

/// The same, by what is live and the cells.
fn price_by_share<L: Living>(efun: Efun, args: &[Value], cells: &Cells, live: &L) -> u128
    requires { All (IsThere cells.now) args.now }
    ensures { result ≡ 1 + (if has_share efun then share (total_size (L.live live.now) cells.now args.now) else 0) }
{
    // Lengths are looked at only where they are paid for: the length of a mapping may take a walk.
    if has_share(efun) {
        return literal_before(args, cells, live);
    }
    1
}

/// What a result of this length costs after the efun. Takes no memory.
pub fn price_after(efun: Efun, length: u64) -> u64
    ensures { result ≡ price_after efun length }
{
    if has_share(efun) {
        return length / SHARE;
    }
    0
}

/// What a result costs after an efun, by its length as read: of one that was given, and of one that was made. Takes no
/// memory.
pub fn price_of_result<L: Living>(efun: Efun, v: &Value, cells: &Cells, live: &L) -> u64
    requires { IsThere cells.now v.now }
    ensures read { result ≡ price_after efun (size_of (operand (L.live live.now) cells.now v.now)) }
    ensures made { (effect : Effect) (old : Store) → Yields effect old cells.now v.now → result ≡ price_after efun (size_made (L.live live.now) old effect) }
{
    if has_share(efun) {
        return price_after(efun, size(v, cells, live));
    }
    0
}
