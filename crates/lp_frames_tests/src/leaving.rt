//! Values and errors.
use crate::build::{enter_second, is_laid, numbers, program};
use lp_frames::leaving::{leave, unwind};
use lp_step::fault::StepFault;
use lp_values::value::Value;
use lp_world::frame::{Catch, Frame};
use std::alloc::{AllocError, Global};
use std::test::Fail;

fn enter_on(alloc: Global, stack: &mut Vec<Value>, args: u32) -> Result<Frame, StepFault> {
    let code = program(alloc, 2, 3)?;
    enter_second(alloc, stack, code, args)
}

/// Leaves a function that was entered with one argument on the integers from 1 to 4.
fn left(alloc: Global, under: u32) -> Result<Vec<Value>, StepFault> {
    let mut stack = numbers(alloc, 4)?;
    let frame = enter_on(alloc, &mut stack, 1)?;
    if frame.bottom < under {
        return Err(StepFault::NoMemory);
    }
    leave(&mut stack, &frame, under, Value::Int(9))?;
    Ok(stack)
}

fn leaves(alloc: Global, under: u32, expected: &[i64]) -> Result<bool, AllocError> {
    match left(alloc, under) {
        Ok(stack) => Ok(is_laid(&stack, expected)),
        Err(_fault) => Err(AllocError),
    }
}

#[test]
fn values(rt: HostRuntime) -> Result<(), Fail> {
    let alloc = rt.alloc();
    assert!(rt;
        leaves(alloc, 0, &[1, 2, 3, 9])?,
        "in place of the argument"
    );
    assert!(rt; leaves(alloc, 2, &[1, 9])?, "and of two operands below it");
    Ok(())
}

/// Ends a function with an error. Its caller has one argument and, if this says so, an open catch above its locals.
fn unwound(alloc: Global, is_open: bool) -> Result<(bool, Vec<Value>), StepFault> {
    let mut stack = numbers(alloc, 2)?;
    let mut caller = enter_on(alloc, &mut stack, 1)?;
    if is_open {
        caller.catches.push(Catch { to: 7, height: 4 })?;
    }
    stack.push(Value::Int(5))?;
    stack.push(Value::Int(6))?;
    let frame = enter_on(alloc, &mut stack, 1)?;
    let is_caught = unwind(&mut stack, &frame, 0, &mut caller, Value::Int(9))?;
    Ok((is_caught, stack))
}

fn unwinds(alloc: Global, is_open: bool, expected: &[i64]) -> Result<bool, AllocError> {
    match unwound(alloc, is_open) {
        Ok((is_caught, stack)) => {
            if is_caught != is_open {
                return Ok(false);
            }
            Ok(is_laid(&stack, expected))
        }
        Err(_fault) => Err(AllocError),
    }
}

#[test]
fn errors(rt: HostRuntime) -> Result<(), Fail> {
    let alloc = rt.alloc();
    assert!(rt;
        unwinds(alloc, true, &[1, 2, 0, 0, 9])?,
        "to the height of the catch"
    );
    assert!(rt; unwinds(alloc, false, &[1, 2, 0, 0, 5])?, "cut alone");
    Ok(())
}
