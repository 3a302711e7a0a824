//! What a file declares.
ghost use Rattle.std.specs.Prelude.{IfErr, IfOk};
ghost use Rattle.lp_layout.specs.Layout.{IsSpelled};
ghost use Rattle.lp_front.specs.Reading.{IsNamed, IsOf, IsToldOf, IsUnitNamed, IsWhy, items_of};

use crate::names::law_spelled;
use lp_files::store::Store;
use lp_parser::parse;
use lp_parser_expr::fault::ParseFault;
use lp_preproc::compiled::expand;
use lp_preproc::fault::PreFault;
use lp_preproc_laws::signs::law_unsigned;
use lp_tree::fault::{Fault, FaultKind};
use lp_tree::path::FilePath;
use lp_tree::pragma::Pragmas;
use lp_tree::unit::Unit;
use std::alloc::Global;
use thiserror::Error;

/// What was read of a file.
#[derive(Drop)]
pub struct Declared {
    /// What it declares.
    pub unit: Unit,
    /// Its pragmas.
    pub pragmas: Pragmas,
}

/// Why nothing was read of a file.
#[derive(Debug, Drop, Error)]
pub enum ReadFault {
    /// Its first fault: of its expansion, or else of the unit that its tokens should spell.
    #[error("a fault in the file")]
    At(Fault),
    #[error("out of memory")]
    NoMemory,
}

// A fault of a file, named by it.
fn named(alloc: Global, path: &str, line: u32, kind: FaultKind) -> ReadFault
    ensures { IsNamed path.now line kind result }
{
    match FilePath::from_str(alloc, path) {
        Ok(file) => ReadFault::At(Fault { file, line, kind }),
        Err(_) => ReadFault::NoMemory,
    }
}

// A fault of a file's unit, named by the file.
fn unit_fault(alloc: Global, path: &str, fault: ParseFault) -> ReadFault
    ensures { IsUnitNamed path.now fault result }
{
    match fault {
        ParseFault::NoMemory => ReadFault::NoMemory,
        ParseFault::Unexpected { line } => named(alloc, path, line, FaultKind::Unexpected),
        ParseFault::TooNested { line } => named(alloc, path, line, FaultKind::TooNested),
    }
}

// What is told of a file that has no expansion.
fn expansion_fault(fault: PreFault) -> ReadFault
    ensures { IsToldOf fault result }
{
    match fault {
        PreFault::At(fault) => ReadFault::At(fault),
        PreFault::NoMemory => ReadFault::NoMemory,
    }
}

/// What a file declares. The fault that an `Err` tells is its first: of its expansion, or else of the unit that its tokens
/// spell. Takes time in proportion to the file and what it includes.
pub fn read_file(alloc: Global, files: &Store, path: &str) -> Result<Declared, ReadFault>
    ensures read { IfOk result (IsOf files.now path.now) }
    ensures spelled { IfOk result (λ d. IsSpelled (items_of d)) }
    ensures fault { IfErr result (IsWhy files.now path.now) }
{
    law_unsigned();
    law_spelled();
    match expand(alloc, files, path) {
        Ok(expanded) => match parse(alloc, expanded.tokens.as_slice()) {
            Ok(unit) => Ok(Declared {
                unit,
                pragmas: expanded.pragmas,
            }),
            Err(fault) => Err(unit_fault(alloc, path, fault)),
        },
        Err(fault) => Err(expansion_fault(fault)),
    }
}
