//! Programs for tests.
use lp_code::listed::Listed;
use lp_code::name::Name;
use lp_code::program::{FunRow, RawProgram, SwitchRow};
use lp_code::slots::Slots;
use lp_code::tables::{Slot, Tables, VarRow};
use lp_instr::instr::{Case, Instr};
use lp_tree::keyword::Base;
use lp_tree::path::FilePath;
use lp_tree::pragma::Pragmas;
use lp_tree::types::TypeName;
use lp_values::id::ProgId;
use lp_values::text::Text;
use lp_verify::fault::VerifyFault;
use lp_verify::verify::verify;
use std::alloc::{AllocError, Global};

const MIXED: TypeName = TypeName {
    base: Base::Mixed,
    stars: 0,
};

/// What differs between programs of two texts, one switch, one parent and two variables.
#[derive(Clone, Copy)]
pub struct Form<'a> {
    /// The instructions of all functions.
    pub instrs: &'a [Instr],
    /// Where each function begins, how many parameters it has, and how many locals.
    pub funs: &'a [(u32, u8, u16)],
    /// The labels of the switch.
    pub cases: &'a [Case],
    /// The place where none of them fits.
    pub other: u32,
    /// The names of the slots.
    pub slots: &'a [&'a str],
    /// How many operands the stack may hold.
    pub max_height: u32,
}

/// The form of one function with one local, of two labels and one slot.
pub fn plain(instrs: &[Instr], max_height: u32) -> Form<'_> {
    Form {
        instrs,
        funs: &[(0, 1, 1)],
        cases: &[Case::Ints(1, 3, 0), Case::Text(1, 0)],
        other: 0,
        slots: &["f"],
        max_height,
    }
}

fn function(alloc: Global, row: &(u32, u8, u16)) -> Result<FunRow, AllocError> {
    Ok(FunRow {
        name: Name::from_str(alloc, "f")?,
        from: row.0,
        params: row.1,
        locals: row.2,
    })
}

fn functions(alloc: Global, rows: &[(u32, u8, u16)]) -> Result<Listed<FunRow>, AllocError> {
    let mut all = Vec::new(alloc);
    for row in rows {
        all.push(function(alloc, row)?)?;
    }
    Ok(Listed::from_vec(all))
}

fn switches(alloc: Global, cases: &[Case], other: u32) -> Result<Listed<SwitchRow>, AllocError> {
    let row = SwitchRow {
        cases: Listed::from_vec(Vec::from_slice(alloc, cases)?),
        other,
    };
    Ok(Listed::from_vec(vec![in alloc; row]?))
}

fn texts(alloc: Global) -> Result<Listed<Text>, AllocError> {
    let mut all = Vec::new(alloc);
    all.push(Text::from_str(alloc, "x")?)?;
    all.push(Text::from_str(alloc, "\u{e9}")?)?;
    Ok(Listed::from_vec(all))
}

fn slot(alloc: Global, name: &str) -> Result<Slot, AllocError> {
    Ok(Slot {
        name: Name::from_str(alloc, name)?,
        part: 1,
        fun: 0,
        mods: 4,
        answer: MIXED,
        params: Listed::from_vec(vec![in alloc; MIXED]?),
    })
}

fn slots(alloc: Global, names: &[&str]) -> Result<Slots, AllocError> {
    let mut all = Vec::new(alloc);
    for name in names {
        all.push(slot(alloc, name)?)?;
    }
    Slots::from_vec(alloc, all)
}

fn variable(alloc: Global, name: &str) -> Result<VarRow, AllocError> {
    Ok(VarRow {
        name: Name::from_str(alloc, name)?,
        part: 1,
        mods: 0,
        kind: MIXED,
    })
}

fn variables(alloc: Global) -> Result<Listed<VarRow>, AllocError> {
    let mut all = Vec::new(alloc);
    all.push(variable(alloc, "a")?)?;
    all.push(variable(alloc, "b")?)?;
    Ok(Listed::from_vec(all))
}

/// The tables of a program with slots of these names.
pub fn tables(alloc: Global, names: &[&str]) -> Result<Tables, AllocError> {
    Ok(Tables {
        path: FilePath::from_str(alloc, "/a")?,
        parents: Listed::from_vec(vec![in alloc; ProgId(1)]?),
        parts: Listed::from_vec(vec![in alloc; ProgId(1), ProgId(2)]?),
        vars: variables(alloc)?,
        slots: slots(alloc, names)?,
        pragmas: Pragmas::new(),
    })
}

/// The program of a form.
pub fn program(alloc: Global, form: &Form<'_>) -> Result<RawProgram, AllocError> {
    Ok(RawProgram {
        instrs: Listed::from_vec(Vec::from_slice(alloc, form.instrs)?),
        consts: texts(alloc)?,
        switches: switches(alloc, form.cases, form.other)?,
        funs: functions(alloc, form.funs)?,
        tables: tables(alloc, form.slots)?,
        max_height: form.max_height,
    })
}

/// Where the program of a form is unsound, or None where it is sound.
pub fn fault(alloc: Global, form: &Form<'_>) -> Result<Option<usize>, AllocError> {
    match verify(alloc, program(alloc, form)?) {
        Ok(_program) => Ok(None),
        Err(VerifyFault::Unsound { at }) => Ok(Some(at)),
        Err(VerifyFault::NoMemory) => Err(AllocError),
    }
}
