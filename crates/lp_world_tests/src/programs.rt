//! Programs of variables and one function.
use lp_code::listed::Listed;
use lp_code::name::Name;
use lp_code::program::{FunRow, Program, RawProgram};
use lp_code::slots::Slots;
use lp_code::tables::{Tables, VarRow};
use lp_instr::instr::Instr;
use lp_tree::keyword::Base;
use lp_tree::path::FilePath;
use lp_tree::pragma::Pragmas;
use lp_tree::types::TypeName;
use lp_values::id::ProgId;
use lp_verify::verify::verify;
use lp_world::shared::SharedProgram;
use std::alloc::{AllocError, Global};

const MIXED: TypeName = TypeName {
    base: Base::Mixed,
    stars: 0,
};

fn variable_row(alloc: Global, name: &str) -> Result<VarRow, AllocError> {
    Ok(VarRow {
        name: Name::from_str(alloc, name)?,
        part: 0,
        mods: 0,
        kind: MIXED,
    })
}

// So many rows of variables.
fn variable_rows(alloc: Global, n: u32) -> Result<Vec<VarRow>, AllocError> {
    let mut rows = Vec::new(alloc);
    for _ in 0..n {
        rows.push(variable_row(alloc, "x")?)?;
    }
    Ok(rows)
}

// These versions, and behind them the one with a number.
fn parts(alloc: Global, parents: &[ProgId], number: u64) -> Result<Vec<ProgId>, AllocError> {
    let mut all = Vec::from_slice(alloc, parents)?;
    all.push(ProgId(number))?;
    Ok(all)
}

// The tables of such a program. Each parent has one part.
fn tables(alloc: Global, parents: &[ProgId], number: u64, n: u32) -> Result<Tables, AllocError> {
    Ok(Tables {
        path: FilePath::from_str(alloc, "/a")?,
        parents: Listed::from_vec(Vec::from_slice(alloc, parents)?),
        parts: Listed::from_vec(parts(alloc, parents, number)?),
        slots: Slots::from_vec(alloc, Vec::new(alloc))?,
        vars: Listed::from_vec(variable_rows(alloc, n)?),
        pragmas: Pragmas::new(),
    })
}

// The program of a version with these parents and this number, of so many variables and of one function of these
// instructions, with one local.
fn raw_program(
    alloc: Global,
    parents: &[ProgId],
    number: u64,
    n: u32,
    instrs: &[Instr],
) -> Result<RawProgram, AllocError> {
    let function = FunRow {
        name: Name::from_str(alloc, "f")?,
        from: 0,
        params: 0,
        locals: 1,
    };
    Ok(RawProgram {
        instrs: Listed::from_vec(Vec::from_slice(alloc, instrs)?),
        consts: Listed::from_vec(Vec::new(alloc)),
        switches: Listed::from_vec(Vec::new(alloc)),
        funs: Listed::from_vec(vec![in alloc; function]?),
        tables: tables(alloc, parents, number, n)?,
        max_height: 25000,
    })
}

fn sound_program(
    alloc: Global,
    parents: &[ProgId],
    number: u64,
    n: u32,
    instrs: &[Instr],
) -> Result<Program, AllocError> {
    match verify(alloc, raw_program(alloc, parents, number, n, instrs)?) {
        Ok(program) => Ok(program),
        Err(_) => Err(AllocError),
    }
}

/// The program of a version with these parents, each of one part, and this number, of so many variables and of one function of
/// these instructions, with one local. They are to be sound.
pub fn child(
    alloc: Global,
    parents: &[ProgId],
    number: u64,
    n: u32,
    instrs: &[Instr],
) -> Result<SharedProgram, AllocError> {
    SharedProgram::new(alloc, sound_program(alloc, parents, number, n, instrs)?)
}

/// The same of a version without parents.
pub fn program(
    alloc: Global,
    number: u64,
    n: u32,
    instrs: &[Instr],
) -> Result<SharedProgram, AllocError> {
    child(alloc, &[], number, n, instrs)
}
