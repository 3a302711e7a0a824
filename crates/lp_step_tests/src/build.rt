//! Programs of one function.
use lp_code::listed::Listed;
use lp_code::name::Name;
use lp_code::program::{FunRow, Program, RawProgram, SwitchRow};
use lp_code::slots::Slots;
use lp_code::tables::{Slot, Tables};
use lp_instr::instr::{Case, Instr};
use lp_step::fault::StepFault;
use lp_tree::keyword::Base;
use lp_tree::path::FilePath;
use lp_tree::pragma::Pragmas;
use lp_tree::types::TypeName;
use lp_values::id::{ObjId, ProgId};
use lp_values::text::Text;
use lp_verify::fault::VerifyFault;
use lp_verify::verify::verify;
use lp_world::frame::Frame;
use lp_world::shared::SharedProgram;
use std::alloc::{AllocError, Global};

/// The switches of a program: one where its code has one. From 1 to 3 it goes on at 3, at the second text at 5,
/// and else at 7.
fn switches(alloc: Global, instrs: &[Instr]) -> Result<Vec<SwitchRow>, AllocError> {
    let mut rows = Vec::new(alloc);
    if instrs.contains(&Instr::Switch(0)) {
        rows.push(SwitchRow {
            cases: Listed::from_vec(vec![in alloc; Case::Ints(1, 3, 3), Case::Text(1, 5)]?),
            other: 7,
        })?;
    }
    Ok(rows)
}

/// The texts of each program.
fn texts(alloc: Global) -> Result<Vec<Text>, AllocError> {
    Ok(vec![in alloc;
        Text::from_str(alloc, "abc")?,
        Text::from_str(alloc, "b")?,
        Text::from_str(alloc, "%d")?,
        Text::from_str(alloc, "12")?,
    ]?)
}

/// The row of the function in the table of names.
fn slot(alloc: Global) -> Result<Slot, AllocError> {
    Ok(Slot {
        name: Name::from_str(alloc, "f")?,
        part: 0,
        fun: 0,
        mods: 4,
        answer: TypeName {
            base: Base::Mixed,
            stars: 0,
        },
        params: Listed::from_vec(Vec::new(alloc)),
    })
}

/// Tables of one name and one parent.
fn tables(alloc: Global) -> Result<Tables, AllocError> {
    Ok(Tables {
        path: FilePath::from_str(alloc, "/a")?,
        parents: Listed::from_vec(vec![in alloc; ProgId(0)]?),
        parts: Listed::from_vec(vec![in alloc; ProgId(0), ProgId(1)]?),
        slots: Slots::from_vec(alloc, vec![in alloc; slot(alloc)?]?)?,
        vars: Listed::from_vec(Vec::new(alloc)),
        pragmas: Pragmas::new(),
    })
}

/// A program of one function with three locals, which begins with the first of these instructions.
fn raw_program(alloc: Global, instrs: &[Instr]) -> Result<RawProgram, AllocError> {
    let function = FunRow {
        name: Name::from_str(alloc, "f")?,
        from: 0,
        params: 0,
        locals: 3,
    };
    Ok(RawProgram {
        instrs: Listed::from_vec(Vec::from_slice(alloc, instrs)?),
        consts: Listed::from_vec(texts(alloc)?),
        switches: Listed::from_vec(switches(alloc, instrs)?),
        funs: Listed::from_vec(vec![in alloc; function]?),
        tables: tables(alloc)?,
        max_height: 25000,
    })
}

/// The program of these instructions, which the verifier has to take.
fn sound_program(alloc: Global, instrs: &[Instr]) -> Result<Option<Program>, AllocError> {
    match verify(alloc, raw_program(alloc, instrs)?) {
        Ok(program) => Ok(Some(program)),
        Err(VerifyFault::Unsound { .. }) => Ok(None),
        Err(VerifyFault::NoMemory) => Err(AllocError),
    }
}

/// A frame that begins with the first of these instructions, if they are sound.
pub fn frame(alloc: Global, instrs: &[Instr]) -> Result<Option<Frame>, StepFault> {
    let Some(program) = sound_program(alloc, instrs)? else {
        return Ok(None);
    };
    Ok(Some(Frame {
        this: ObjId(0),
        program: ProgId(0),
        part: 0,
        base: 0,
        at: 0,
        bottom: 0,
        fun: 0,
        catches: Vec::new(alloc),
        code: SharedProgram::new(alloc, program)?,
    }))
}
