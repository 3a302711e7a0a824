//! The encoding of programs.
ghost use Rattle.std.specs.Prelude.{IfOk};
ghost use Rattle.lp_code.specs.Programs.{IsProgram};
ghost use Rattle.lp_code.specs.declared.program.RawProgram.{RawProgram as Raw};
ghost use Rattle.lp_encoding.specs.Programs.{IsEncoding, GivesWhole, IsDecoded, IsPrefixFree, program};

use crate::coded::Coded;
use crate::fault::DecodeFault;
use crate::reader::Reader;
use lp_code::program::{Program, RawProgram};
use lp_instr::efuns::law_numbers;
use lp_verify::fault::VerifyFault;
use lp_verify::verify::verify;
use std::alloc::{AllocError, Global};

/// The encoding of a program.
///
/// # Errors
///
/// Want of memory, which it also is where a list or a text has more than 2^32 - 1 items.
pub fn encode(alloc: Global, program: &Program) -> Result<Vec<u8>, AllocError>
    ensures { IfOk result (λ v. IsEncoding program.now v.items) }
{
    let mut out = Vec::new(alloc);
    program.raw().put(alloc, &mut out)?;
    Ok(out)
}

/// The parts of a program, sound or not, that all of the bytes spell.
fn whole(alloc: Global, bytes: &[u8]) -> Result<RawProgram, DecodeFault>
    ensures { GivesWhole result (program.read bytes.now) }
{
    let mut reader = Reader::new(bytes);
    let raw = RawProgram::take(alloc, &mut reader)?;
    if reader.left() != 0 {
        return Err(DecodeFault::NoRecord);
    }
    Ok(raw)
}

/// The program with an encoding. Its time is linear in the bytes, and in what `verify` takes.
///
/// # Errors
///
/// `NoRecord` exactly where no program has this encoding. Only want of memory is free.
pub fn decode(alloc: Global, bytes: &[u8]) -> Result<Program, DecodeFault>
    // What is read is a program with this encoding.
    ensures read { IfOk result (λ p. IsProgram p × IsEncoding p bytes.now) }
    // Where a program has this encoding, it is what is read, unless memory runs out.
    ensures only { (p : Raw) → IsProgram p → IsEncoding p bytes.now → IsDecoded p result }
{
    law_numbers();
    let raw = whole(alloc, bytes)?;
    match verify(alloc, raw) {
        Ok(program) => Ok(program),
        Err(VerifyFault::NoMemory) => Err(DecodeFault::NoMemory),
        Err(VerifyFault::Unsound { .. }) => Err(DecodeFault::NoRecord),
    }
}

/// No encoding begins another: bytes that begin with the encodings of two programs begin with that of one. So one program at
/// most has an encoding.
pub fn law_prefix_free()
    ensures { IsPrefixFree }
{
    law_numbers();
}
