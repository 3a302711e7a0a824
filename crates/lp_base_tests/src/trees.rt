//! Lines, texts and pragmas of trees.
use lp_tree::chars::Chars;
use lp_tree::expr::Expr;
use lp_tree::fault::FaultKind;
use lp_tree::keyword::Base;
use lp_tree::path::FilePath;
use lp_tree::pragma::{Pragmas, TypeMode};
use lp_tree::stmt::Stmt;
use lp_tree::unit::Item;
use std::alloc::{AllocError, Global};
use std::test::Fail;

/// Whether a variable and an inherit tell their lines.
fn have_items_lines(alloc: Global) -> Result<bool, AllocError> {
    let path = Chars::from_vec(alloc, Vec::new(alloc))?;
    let inherit = Item::Inherit { line: 7, path };
    let first = inherit.line();
    drop(inherit);
    let var = Item::Var {
        line: 8,
        mods: Vec::new(alloc),
        base: Base::Int,
        ones: Vec::new(alloc),
    };
    let second = var.line();
    drop(var);
    Ok(first == 7 && second == 8)
}

/// The line of a loop, whose condition and body have other ones.
fn line_of_loop(alloc: Global) -> Result<u32, AllocError> {
    let body = Box::new(alloc, Stmt::Empty { line: 9 })?;
    let test = Expr::Int { line: 8, value: 1 };
    let stmt = Stmt::While {
        line: 6,
        test,
        body,
    };
    let line = stmt.line();
    drop(stmt);
    Ok(line)
}

/// The line of a statement, which is let go.
fn line_of(stmt: Stmt) -> u32 {
    let line = stmt.line();
    drop(stmt);
    line
}

/// Whether short statements tell their lines.
fn have_short_lines(alloc: Global) -> bool {
    let stmts = Vec::new(alloc);
    line_of(Stmt::Block { line: 1, stmts }) == 1
        && line_of(Stmt::Empty { line: 2 }) == 2
        && line_of(Stmt::Break { line: 3 }) == 3
        && line_of(Stmt::Continue { line: 4 }) == 4
        && line_of(Stmt::Return {
            line: 5,
            value: None,
        }) == 5
}

/// Whether a copy of a text has its letters, also when the text is gone.
fn is_copied(alloc: Global) -> Result<bool, AllocError> {
    let text = Chars::from_vec(alloc, ['a', '\u{e9}'].to_vec(alloc)?)?;
    let twin = text.copy()?;
    drop(text);
    Ok(twin.as_slice() == ['a', '\u{e9}'].as_slice())
}

/// Whether paths are spelled as they were given.
fn is_path_spelled(alloc: Global) -> Result<bool, AllocError> {
    let path = FilePath::from_str(alloc, "/obj/box.c")?;
    let text = String::from_str(alloc, "/a")?;
    Ok(path.as_str() == "/obj/box.c" && FilePath::from_string(text).as_str() == "/a")
}

#[test]
fn trees_tell_their_lines(rt: HostRuntime) -> Result<(), Fail> {
    assert!(rt; have_items_lines(rt.alloc())?);
    assert!(rt; line_of_loop(rt.alloc())? == 6);
    assert!(rt; have_short_lines(rt.alloc()));
    assert!(rt; is_copied(rt.alloc())?);
    assert!(rt; is_path_spelled(rt.alloc())?);
    Ok(())
}

#[test]
fn texts_and_pragmas(rt: HostRuntime) {
    assert!(rt; FaultKind::NoFile.text() == "no such file");
    assert!(rt; FaultKind::Lex.text() == "bad token");
    assert!(rt; FaultKind::Aborted.text() == "load aborted");
    let pragmas = Pragmas::new();
    assert!(rt; pragmas.types == TypeMode::Weak);
    assert!(rt; !pragmas.no_clone && !pragmas.no_inherit && !pragmas.no_shadow);
}
