//! Whether arguments are of the kinds that an efun takes.
ghost use Rattle.std.specs.Prelude.{◌≡◌, ℕ, suc, Bool, List, map, drop, pos};
ghost use Rattle.lp_values.specs.declared.id.ObjId.{ObjId};
ghost use Rattle.lp_values.specs.declared.value.Value.{Value as V};
ghost use Rattle.lp_cells.specs.Cells.{Store};
ghost use Rattle.lp_ops.specs.Operands.{opened, operand};
ghost use Rattle.lp_instr.specs.EfunKinds.{kinds};
ghost use Rattle.lp_meaning.specs.EfunArguments.{first_bad, fits};
ghost use Rattle.lp_value_efuns.specs.Kinds.{kind_of, kinds_of};
ghost use Rattle.std.specs.Option.{option_map};

use lp_instr::efun::Efun;
use lp_values::value::{Living, Value, as_read};

/// What an argument may be.
#[derive(Clone, Copy, Debug, PartialEq, Eq)]
pub enum Kind {
    /// An integer.
    AnInt,
    /// A text.
    AText,
    /// A live object.
    AnObject,
    /// An array.
    AnArray,
    /// A mapping.
    AMapping,
    /// Any value.
    Anything,
    /// A text or a live object.
    TextOrObject,
    /// An array, a mapping or a text.
    CellOrText,
}

/// The kinds of an efun's arguments. Those beyond them may be anything.
pub fn kinds(efun: Efun) -> &'static [Kind]
    ensures { kinds_of result.now ≡ kinds efun }
{
    match efun {
        Efun::ThisObject
        | Efun::ThisPlayer
        | Efun::ThisInteractive
        | Efun::EnableCommands
        | Efun::Unshadow
        | Efun::QueryVerb
        | Efun::Users
        | Efun::Time => &[],
        Efun::PreviousObject | Efun::SetHeartBeat | Efun::Random | Efun::Allocate | Efun::Abs => {
            &[Kind::AnInt]
        }
        Efun::CallOther => &[Kind::Anything, Kind::AText],
        Efun::CloneObject => &[Kind::TextOrObject],
        Efun::LoadObject
        | Efun::FindObject
        | Efun::Command
        | Efun::NotifyFail
        | Efun::Say
        | Efun::Printf
        | Efun::RemoveCallOut
        | Efun::FindCallOut
        | Efun::RaiseError
        | Efun::Strlen
        | Efun::LowerCase
        | Efun::UpperCase
        | Efun::Capitalize
        | Efun::Trim
        | Efun::Sprintf
        | Efun::ReadFile
        | Efun::FileSize
        | Efun::Rm
        | Efun::SaveObject
        | Efun::RestoreObject => &[Kind::AText],
        Efun::Destruct
        | Efun::ObjectName
        | Efun::LoadName
        | Efun::ProgramName
        | Efun::Living
        | Efun::Interactive
        | Efun::Shadow
        | Efun::QueryShadowing
        | Efun::Environment
        | Efun::AllInventory
        | Efun::FirstInventory
        | Efun::NextInventory
        | Efun::RemoveInteractive => &[Kind::AnObject],
        Efun::Clonep
        | Efun::Objectp
        | Efun::Intp
        | Efun::Stringp
        | Efun::Pointerp
        | Efun::Mappingp
        | Efun::Write
        | Efun::Throw
        | Efun::ToInt
        | Efun::ToString
        | Efun::Sizeof
        | Efun::Copy => &[Kind::Anything],
        Efun::FunctionExists => &[Kind::AText, Kind::AnObject],
        Efun::Present => &[Kind::TextOrObject, Kind::AnObject],
        Efun::MoveObject => &[Kind::AnObject, Kind::TextOrObject],
        Efun::AddAction | Efun::Strstr => &[Kind::AText, Kind::AText, Kind::AnInt],
        Efun::InputTo | Efun::CallOut => &[Kind::AText, Kind::AnInt],
        Efun::TellObject | Efun::TellRoom => &[Kind::AnObject, Kind::AText],
        Efun::Exec => &[Kind::AnObject, Kind::AnObject],
        Efun::Explode | Efun::Sscanf | Efun::WriteFile => &[Kind::AText, Kind::AText],
        Efun::Implode => &[Kind::AnArray, Kind::AText],
        Efun::Member => &[Kind::CellOrText, Kind::Anything],
        Efun::Filter | Efun::Map => &[Kind::AnArray, Kind::AText, Kind::AnObject],
        Efun::MIndices | Efun::MValues => &[Kind::AMapping],
        Efun::MDelete => &[Kind::AMapping, Kind::Anything],
        Efun::Mkmapping => &[Kind::AnArray, Kind::AnArray],
        Efun::Min | Efun::Max => &[Kind::AnInt, Kind::AnInt],
    }
}

/// Whether an argument, as read, is of a kind. A destructed object is an integer.
pub fn fits<L: Living>(kind: Kind, v: &Value, live: &L) -> bool
    ensures { (cells : Store) → result ≡ fits (kind_of kind) (operand (L.live live.now) cells v.now) }
{
    match as_read(v, live) {
        Some(v) => is_of(kind, v),
        None => matches!(kind, Kind::AnInt | Kind::Anything),
    }
}

/// Whether a value that was read is of a kind.
fn is_of(kind: Kind, v: &Value) -> bool
    ensures { (live : ObjId → Bool) (cells : Store) → result ≡ fits (kind_of kind) (opened live cells v.now) }
{
    match v {
        Value::Int(_) => matches!(kind, Kind::AnInt | Kind::Anything),
        Value::Str(_) => matches!(
            kind,
            Kind::AText | Kind::Anything | Kind::TextOrObject | Kind::CellOrText
        ),
        Value::Arr(_) => matches!(kind, Kind::AnArray | Kind::Anything | Kind::CellOrText),
        Value::Map(_) => matches!(kind, Kind::AMapping | Kind::Anything | Kind::CellOrText),
        Value::Obj(_) => matches!(kind, Kind::AnObject | Kind::Anything | Kind::TextOrObject),
    }
}

/// The number, counted from 1, of the first argument that is of another kind than the efun takes, or none where all fit.
/// Takes no memory.
pub fn first_bad<L: Living>(efun: Efun, args: &[Value], live: &L) -> Option<u64>
    ensures { (cells : Store) → result ≡ first_bad 1 (kinds efun) (map (operand (L.live live.now) cells) args.now) }
{
    first_other(kinds(efun), args, live)
}

/// The number, counted from 1, of the first argument that is of another kind than the one at its place.
fn first_other<L: Living>(kinds: &[Kind], args: &[Value], live: &L) -> Option<u64>
    ensures { (cells : Store) → result ≡ first_bad 1 (kinds_of kinds.now) (map (operand (L.live live.now) cells) args.now) }
{
    let mut i = 0;
    while i < kinds.len() {
        if i == args.len() {
            return None;
        }
        if !fits(kinds[i], &args[i], live) {
            return Some(i as u64 + 1);
        }
        i += 1;
    }
    None
}
