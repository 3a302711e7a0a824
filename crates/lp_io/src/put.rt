//! Writing a whole piece.
ghost use Rattle.std.specs.Prelude.{◌≡◌, ◌≤◌, OnOk, OnErr};
ghost use Rattle.lp_io.specs.Counts.{Counts};
ghost use Rattle.lp_io.specs.Told.{after_adding, IsCut, is_failed, is_zero_taken};

use crate::outside::{Failed, Sink};
use thiserror::Error;

/// Why a piece was not written whole.
#[derive(Debug, PartialEq, Eq, Drop, Error)]
pub enum PutFault {
    #[error("the output failed")]
    Failed,
    #[error("the output takes no more")]
    ZeroTaken,
}

/// Writes the whole piece, by as many writes as the sink needs. It takes no memory.
///
/// - `Failed`: a write failed, and the count of faults rose.
/// - `ZeroTaken`: a write took no byte of the rest, and the count of such writes rose.
///
/// After either a front of the piece was written, and at least its last byte was not. No count
/// changes but the one that the answer names.
pub fn put_all<K: Sink>(out: &mut K, piece: &[u8]) -> Result<(), PutFault>
    ensures whole { OnOk result (K.written out.new ≡ after_adding (K.written out.old) piece.now) }
    ensures cut { OnErr result (IsCut (K.written out.old) (K.written out.new) piece.now) }
    ensures faults { Counts (is_failed result) (K.faults out.old) (K.faults out.new) }
    ensures no_fall { K.faults out.old ≤ K.faults out.new }
    ensures zeros { Counts (is_zero_taken result) (K.zeros out.old) (K.zeros out.new) }
    ensures zeros_no_fall { K.zeros out.old ≤ K.zeros out.new }
{
    let mut done = 0;
    while done < piece.len() {
        match out.write(&piece[done..]) {
            Ok(0) => return Err(PutFault::ZeroTaken),
            Ok(taken) => done += taken,
            Err(Failed) => return Err(PutFault::Failed),
        }
    }
    Ok(())
}
