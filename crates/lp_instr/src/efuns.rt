//! What is known of each efun: its number, its name, and how many arguments it takes.
ghost use Rattle.std.specs.Prelude.{◌≡◌, ◌<◌, ◌↔◌, IsTrue, Some, slice_get};
ghost use Rattle.lp_instr.specs.EfunList.{Allows, AreNumbered, AreNamed, arity, efun_in, efun_name, efun_named, efuns, efuns_of_length, from_on, from_to, is_name};

use crate::efun::Efun;

/// How many arguments an efun takes.
#[derive(Clone, Copy, Debug, PartialEq, Eq)]
pub struct Arity {
    /// At least.
    pub least: u32,
    /// At most, or None where any number more is taken.
    pub most: Option<u32>,
}

fn from_to(least: u32, most: u32) -> Arity
    ensures { result ≡ from_to least most }
{
    Arity {
        least,
        most: Some(most),
    }
}

fn from_on(least: u32) -> Arity
    ensures { result ≡ from_on least }
{
    Arity { least, most: None }
}

/// The efuns in the order of their numbers.
const EFUNS: [Efun; 83] = [
    Efun::ThisObject,
    Efun::ThisPlayer,
    Efun::ThisInteractive,
    Efun::PreviousObject,
    Efun::CallOther,
    Efun::CloneObject,
    Efun::LoadObject,
    Efun::FindObject,
    Efun::Destruct,
    Efun::ObjectName,
    Efun::LoadName,
    Efun::ProgramName,
    Efun::Clonep,
    Efun::Objectp,
    Efun::Intp,
    Efun::Stringp,
    Efun::Pointerp,
    Efun::Mappingp,
    Efun::Living,
    Efun::Interactive,
    Efun::FunctionExists,
    Efun::EnableCommands,
    Efun::Shadow,
    Efun::QueryShadowing,
    Efun::Unshadow,
    Efun::Environment,
    Efun::AllInventory,
    Efun::FirstInventory,
    Efun::NextInventory,
    Efun::Present,
    Efun::MoveObject,
    Efun::AddAction,
    Efun::Command,
    Efun::QueryVerb,
    Efun::NotifyFail,
    Efun::InputTo,
    Efun::Write,
    Efun::TellObject,
    Efun::TellRoom,
    Efun::Say,
    Efun::Printf,
    Efun::Users,
    Efun::Exec,
    Efun::RemoveInteractive,
    Efun::Time,
    Efun::SetHeartBeat,
    Efun::CallOut,
    Efun::RemoveCallOut,
    Efun::FindCallOut,
    Efun::Random,
    Efun::Throw,
    Efun::RaiseError,
    Efun::Strlen,
    Efun::Explode,
    Efun::Implode,
    Efun::LowerCase,
    Efun::UpperCase,
    Efun::Capitalize,
    Efun::Strstr,
    Efun::Trim,
    Efun::Sprintf,
    Efun::Sscanf,
    Efun::ToInt,
    Efun::ToString,
    Efun::Sizeof,
    Efun::Allocate,
    Efun::Member,
    Efun::Copy,
    Efun::Filter,
    Efun::Map,
    Efun::MIndices,
    Efun::MValues,
    Efun::MDelete,
    Efun::Mkmapping,
    Efun::Min,
    Efun::Max,
    Efun::Abs,
    Efun::ReadFile,
    Efun::WriteFile,
    Efun::FileSize,
    Efun::Rm,
    Efun::SaveObject,
    Efun::RestoreObject,
];

/// The efun at a place of a list.
fn at_place(efuns: &[Efun], place: u32) -> Option<Efun>
    ensures { result ≡ slice_get efuns.now place }
{
    efuns.get(place as usize).copied()
}

/// Whether a name has these letters.
fn is_name(letters: &[u8], name: &[char]) -> bool
    ensures { result ≡ is_name letters.now name.now }
{
    if letters.len() != name.len() {
        return false;
    }
    for i in 0..letters.len() {
        if letters[i] as u32 != name[i] as u32 {
            return false;
        }
    }
    true
}

/// The first of some efuns that has a name.
fn among(efuns: &[Efun], name: &[char]) -> Option<Efun>
    ensures { result ≡ efun_in efuns.now name.now }
{
    for efun in efuns {
        if is_name(efun.name().as_bytes(), name) {
            return Some(*efun);
        }
    }
    None
}

/// The efuns whose names have so many letters.
fn of_length(letters: usize) -> &'static [Efun]
    ensures { result.now ≡ efuns_of_length letters }
{
    match letters {
        2 => &[Efun::Rm],
        3 => &[Efun::Say, Efun::Map, Efun::Min, Efun::Max, Efun::Abs],
        4 => &[Efun::Intp, Efun::Exec, Efun::Time, Efun::Trim, Efun::Copy],
        5 => &[Efun::Write, Efun::Users, Efun::Throw],
        6 => &[
            Efun::Clonep,
            Efun::Living,
            Efun::Shadow,
            Efun::Printf,
            Efun::Random,
            Efun::Strlen,
            Efun::Strstr,
            Efun::Sscanf,
            Efun::ToInt,
            Efun::Sizeof,
            Efun::Member,
            Efun::Filter,
        ],
        7 => &[
            Efun::Objectp,
            Efun::Stringp,
            Efun::Present,
            Efun::Command,
            Efun::Explode,
            Efun::Implode,
            Efun::Sprintf,
        ],
        8 => &[
            Efun::Destruct,
            Efun::Pointerp,
            Efun::Mappingp,
            Efun::Unshadow,
            Efun::InputTo,
            Efun::CallOut,
            Efun::Allocate,
            Efun::MValues,
            Efun::MDelete,
        ],
        9 => &[
            Efun::LoadName,
            Efun::TellRoom,
            Efun::ToString,
            Efun::MIndices,
            Efun::Mkmapping,
            Efun::ReadFile,
            Efun::FileSize,
        ],
        10 => &[
            Efun::CallOther,
            Efun::AddAction,
            Efun::QueryVerb,
            Efun::LowerCase,
            Efun::UpperCase,
            Efun::Capitalize,
            Efun::WriteFile,
        ],
        11 => &[
            Efun::ThisObject,
            Efun::ThisPlayer,
            Efun::LoadObject,
            Efun::FindObject,
            Efun::ObjectName,
            Efun::Interactive,
            Efun::Environment,
            Efun::MoveObject,
            Efun::NotifyFail,
            Efun::TellObject,
            Efun::RaiseError,
            Efun::SaveObject,
        ],
        12 => &[Efun::CloneObject, Efun::ProgramName],
        13 => &[Efun::AllInventory, Efun::FindCallOut],
        14 => &[Efun::NextInventory, Efun::SetHeartBeat, Efun::RestoreObject],
        15 => &[
            Efun::PreviousObject,
            Efun::FunctionExists,
            Efun::EnableCommands,
            Efun::QueryShadowing,
            Efun::FirstInventory,
            Efun::RemoveCallOut,
        ],
        16 => &[Efun::ThisInteractive],
        18 => &[Efun::RemoveInteractive],
        _ => &[],
    }
}

impl Efun {
    /// Its number, counted from 0.
    pub fn number(self) -> u32
        ensures { slice_get efuns result ≡ Some self }
    {
        self as u32
    }

    /// The efun with a number, or None where there is none.
    pub fn from_number(number: u32) -> Option<Efun>
        ensures { result ≡ slice_get efuns number }
    {
        at_place(&EFUNS, number)
    }

    /// Its name, in letters of ASCII.
    pub fn name(self) -> &'static str
        ensures { result.now ≡ efun_name self }
    {
        match self {
            Efun::ThisObject => "this_object",
            Efun::ThisPlayer => "this_player",
            Efun::ThisInteractive => "this_interactive",
            Efun::PreviousObject => "previous_object",
            Efun::CallOther => "call_other",
            Efun::CloneObject => "clone_object",
            Efun::LoadObject => "load_object",
            Efun::FindObject => "find_object",
            Efun::Destruct => "destruct",
            Efun::ObjectName => "object_name",
            Efun::LoadName => "load_name",
            Efun::ProgramName => "program_name",
            Efun::Clonep => "clonep",
            Efun::Objectp => "objectp",
            Efun::Intp => "intp",
            Efun::Stringp => "stringp",
            Efun::Pointerp => "pointerp",
            Efun::Mappingp => "mappingp",
            Efun::Living => "living",
            Efun::Interactive => "interactive",
            Efun::FunctionExists => "function_exists",
            Efun::EnableCommands => "enable_commands",
            Efun::Shadow => "shadow",
            Efun::QueryShadowing => "query_shadowing",
            Efun::Unshadow => "unshadow",
            Efun::Environment => "environment",
            Efun::AllInventory => "all_inventory",
            Efun::FirstInventory => "first_inventory",
            Efun::NextInventory => "next_inventory",
            Efun::Present => "present",
            Efun::MoveObject => "move_object",
            Efun::AddAction => "add_action",
            Efun::Command => "command",
            Efun::QueryVerb => "query_verb",
            Efun::NotifyFail => "notify_fail",
            Efun::InputTo => "input_to",
            Efun::Write => "write",
            Efun::TellObject => "tell_object",
            Efun::TellRoom => "tell_room",
            Efun::Say => "say",
            Efun::Printf => "printf",
            Efun::Users => "users",
            Efun::Exec => "exec",
            Efun::RemoveInteractive => "remove_interactive",
            Efun::Time => "time",
            Efun::SetHeartBeat => "set_heart_beat",
            Efun::CallOut => "call_out",
            Efun::RemoveCallOut => "remove_call_out",
            Efun::FindCallOut => "find_call_out",
            Efun::Random => "random",
            Efun::Throw => "throw",
            Efun::RaiseError => "raise_error",
            Efun::Strlen => "strlen",
            Efun::Explode => "explode",
            Efun::Implode => "implode",
            Efun::LowerCase => "lower_case",
            Efun::UpperCase => "upper_case",
            Efun::Capitalize => "capitalize",
            Efun::Strstr => "strstr",
            Efun::Trim => "trim",
            Efun::Sprintf => "sprintf",
            Efun::Sscanf => "sscanf",
            Efun::ToInt => "to_int",
            Efun::ToString => "to_string",
            Efun::Sizeof => "sizeof",
            Efun::Allocate => "allocate",
            Efun::Member => "member",
            Efun::Copy => "copy",
            Efun::Filter => "filter",
            Efun::Map => "map",
            Efun::MIndices => "m_indices",
            Efun::MValues => "m_values",
            Efun::MDelete => "m_delete",
            Efun::Mkmapping => "mkmapping",
            Efun::Min => "min",
            Efun::Max => "max",
            Efun::Abs => "abs",
            Efun::ReadFile => "read_file",
            Efun::WriteFile => "write_file",
            Efun::FileSize => "file_size",
            Efun::Rm => "rm",
            Efun::SaveObject => "save_object",
            Efun::RestoreObject => "restore_object",
        }
    }

    /// The efun with a name, or None where there is none. Compares it with the names of its length alone.
    pub fn named(name: &[char]) -> Option<Efun>
        ensures { result ≡ efun_named name.now }
    {
        among(of_length(name.len()), name)
    }

    /// How many arguments it takes.
    pub fn arity(self) -> Arity
        ensures { result ≡ arity self }
    {
        match self {
            Efun::InputTo | Efun::Printf | Efun::Sprintf => from_on(1),
            Efun::CallOther | Efun::CallOut | Efun::Sscanf | Efun::Filter | Efun::Map => from_on(2),
            Efun::ThisObject
            | Efun::ThisPlayer
            | Efun::ThisInteractive
            | Efun::EnableCommands
            | Efun::Unshadow
            | Efun::QueryVerb
            | Efun::Users
            | Efun::Time => from_to(0, 0),
            Efun::PreviousObject
            | Efun::ObjectName
            | Efun::LoadName
            | Efun::ProgramName
            | Efun::Interactive
            | Efun::Environment
            | Efun::AllInventory
            | Efun::FirstInventory
            | Efun::NextInventory => from_to(0, 1),
            Efun::CloneObject
            | Efun::LoadObject
            | Efun::FindObject
            | Efun::Destruct
            | Efun::Clonep
            | Efun::Objectp
            | Efun::Intp
            | Efun::Stringp
            | Efun::Pointerp
            | Efun::Mappingp
            | Efun::Living
            | Efun::Shadow
            | Efun::QueryShadowing
            | Efun::Command
            | Efun::NotifyFail
            | Efun::Write
            | Efun::Say
            | Efun::RemoveInteractive
            | Efun::SetHeartBeat
            | Efun::RemoveCallOut
            | Efun::FindCallOut
            | Efun::Random
            | Efun::Throw
            | Efun::RaiseError
            | Efun::Strlen
            | Efun::LowerCase
            | Efun::UpperCase
            | Efun::Capitalize
            | Efun::Trim
            | Efun::ToInt
            | Efun::ToString
            | Efun::Sizeof
            | Efun::Allocate
            | Efun::Copy
            | Efun::MIndices
            | Efun::MValues
            | Efun::Abs
            | Efun::ReadFile
            | Efun::FileSize
            | Efun::Rm
            | Efun::SaveObject
            | Efun::RestoreObject => from_to(1, 1),
            Efun::FunctionExists | Efun::Present => from_to(1, 2),
            Efun::MoveObject
            | Efun::TellObject
            | Efun::TellRoom
            | Efun::Exec
            | Efun::Explode
            | Efun::Implode
            | Efun::Member
            | Efun::MDelete
            | Efun::Mkmapping
            | Efun::Min
            | Efun::Max
            | Efun::WriteFile => from_to(2, 2),
            Efun::AddAction | Efun::Strstr => from_to(2, 3),
        }
    }

    /// Whether it may be called with so many arguments.
    pub fn allows(self, args: u32) -> bool
        ensures { IsTrue result ↔ Allows self args }
    {
        let arity = self.arity();
        arity.least <= args && arity.most.is_none_or(|most| args <= most)
    }
}

/// The law of numbers: each efun stands at one place of the list.
pub fn law_numbers()
    ensures { AreNumbered }
{}

/// The law of names: each efun is found by its name, and by no other.
pub fn law_names()
    ensures { AreNamed }
{}
