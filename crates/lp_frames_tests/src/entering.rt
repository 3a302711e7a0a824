//! Arguments and locals.
use crate::build::{enter_second, is_laid, numbers, program};
use std::alloc::{AllocError, Global};
use std::test::Fail;

/// Whether these integers lie on a stack of the integers from 1 to 4 after a function was entered.
fn lays(
    alloc: Global,
    params: u8,
    locals: u16,
    args: u32,
    expected: &[i64],
) -> Result<bool, AllocError> {
    let code = program(alloc, params, locals)?;
    let mut stack = numbers(alloc, 4)?;
    match enter_second(alloc, &mut stack, code, args) {
        Ok(_frame) => Ok(is_laid(&stack, expected)),
        Err(_fault) => Err(AllocError),
    }
}

#[test]
fn locals(rt: HostRuntime) -> Result<(), Fail> {
    let alloc = rt.alloc();
    assert!(rt; lays(alloc, 0, 0, 0, &[1, 2, 3, 4])?);
    assert!(rt; lays(alloc, 2, 2, 2, &[1, 2, 3, 4])?);
    assert!(rt; lays(alloc, 2, 2, 3, &[1, 2, 3])?, "a surplus argument");
    assert!(rt;
        lays(alloc, 2, 4, 3, &[1, 2, 3, 0, 0])?,
        "a surplus argument is no local"
    );
    assert!(rt; lays(alloc, 0, 0, 4, &[])?, "all are surplus");
    assert!(rt;
        lays(alloc, 3, 3, 1, &[1, 2, 3, 4, 0, 0])?,
        "missing arguments"
    );
    assert!(rt; lays(alloc, 1, 3, 1, &[1, 2, 3, 4, 0, 0])?, "other locals");
    Ok(())
}
