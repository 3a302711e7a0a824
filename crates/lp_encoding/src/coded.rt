//! Values that have an encoding.
ghost use Rattle.std.specs.Prelude.{◌≡◌, ◌++◌, OnOk};
ghost use Rattle.lp_encoding.specs.Forms.{Form, Gives};

use crate::fault::DecodeFault;
use crate::reader::Reader;
use std::alloc::{AllocError, Global};

/// A type whose values are spelled in bytes by one form.
pub trait Coded: Drop {
    ghost form: { Form Self };

    /// Adds the spelling of the value. What has none is want of memory.
    fn put(&self, alloc: Global, out: &mut Vec<u8>) -> Result<(), AllocError>
        ensures fits { OnOk result (form.Fits self.now) }
        ensures spelled { OnOk result (out.new.items ≡ out.old.items ++ form.spelled self.now) };

    /// Takes the value at the front.
    fn take(alloc: Global, reader: &mut Reader) -> Result<Self, DecodeFault>
        ensures { Gives result reader.new (form.read reader.old) };
}
