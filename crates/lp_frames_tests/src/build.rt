//! Programs and stacks for tests.
use lp_code::listed::Listed;
use lp_code::name::Name;
use lp_code::program::{FunRow, RawProgram};
use lp_code::slots::Slots;
use lp_code::tables::Tables;
use lp_frames::entry::{Callee, enter};
use lp_instr::instr::Instr;
use lp_step::fault::StepFault;
use lp_tree::path::FilePath;
use lp_tree::pragma::Pragmas;
use lp_values::id::{ObjId, ProgId};
use lp_values::value::Value;
use lp_verify::verify::verify;
use lp_world::frame::Frame;
use lp_world::shared::SharedProgram;
use std::alloc::{AllocError, Global};

fn tables(alloc: Global) -> Result<Tables, AllocError> {
    Ok(Tables {
        path: FilePath::from_str(alloc, "/a")?,
        parents: Listed::from_vec(Vec::new(alloc)),
        parts: Listed::from_vec(vec![in alloc; ProgId(1)]?),
        slots: Slots::from_vec(alloc, Vec::new(alloc))?,
        vars: Listed::from_vec(Vec::new(alloc)),
        pragmas: Pragmas::new(),
    })
}

fn function(alloc: Global, from: u32, params: u8, locals: u16) -> Result<FunRow, AllocError> {
    Ok(FunRow {
        name: Name::from_str(alloc, "f")?,
        from,
        params,
        locals,
    })
}

fn raw(alloc: Global, params: u8, locals: u16) -> Result<RawProgram, AllocError> {
    Ok(RawProgram {
        instrs: Listed::from_vec(vec![in alloc; Instr::ReturnZero, Instr::ReturnZero]?),
        consts: Listed::from_vec(Vec::new(alloc)),
        switches: Listed::from_vec(Vec::new(alloc)),
        funs: Listed::from_vec(vec![in alloc;
            function(alloc, 0, 0, 0)?,
            function(alloc, 1, params, locals)?,
        ]?),
        tables: tables(alloc)?,
        max_height: 5,
    })
}

/// A program of two functions, of which the second one has so many parameters and locals.
pub fn program(alloc: Global, params: u8, locals: u16) -> Result<SharedProgram, AllocError> {
    match verify(alloc, raw(alloc, params, locals)?) {
        Ok(program) => SharedProgram::new(alloc, program),
        Err(_fault) => Err(AllocError),
    }
}

/// The integers from 1 up.
pub fn numbers(alloc: Global, n: u8) -> Result<Vec<Value>, AllocError> {
    let mut stack = Vec::new(alloc);
    for i in 0..n {
        stack.push(Value::Int(i as i64 + 1))?;
    }
    Ok(stack)
}

/// Enters the second function, if there are two and so many arguments.
pub fn enter_second(
    alloc: Global,
    stack: &mut Vec<Value>,
    code: SharedProgram,
    args: u32,
) -> Result<Frame, StepFault> {
    if code.raw().funs.as_slice().len() < 2 {
        return Err(StepFault::NoMemory);
    }
    if stack.len() < args as usize {
        return Err(StepFault::NoMemory);
    }
    let callee = Callee {
        this: ObjId(3),
        program: ProgId(1),
        part: 2,
        base: 4,
        fun: 1,
    };
    enter(alloc, stack, code, callee, args)
}

/// Whether these integers lie on the stack.
pub fn is_laid(stack: &[Value], expected: &[i64]) -> bool {
    if stack.len() != expected.len() {
        return false;
    }
    for i in 0..expected.len() {
        match &stack[i] {
            Value::Int(n) => {
                if *n != expected[i] {
                    return false;
                }
            }
            _ => return false,
        }
    }
    true
}
