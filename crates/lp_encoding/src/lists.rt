//! Lists.
ghost use Rattle.std.specs.Prelude.{◌≡◌, ◌<◌, ◌^◌, ◌++◌, All, OnOk, length};
ghost use Rattle.std.specs.List.{flat_map};
ghost use Rattle.lp_encoding.specs.Forms.{Gives, items_at, list};

use crate::coded::Coded;
use crate::fault::DecodeFault;
use crate::reader::Reader;
use lp_code::listed::Listed;
use std::alloc::{AllocError, Global};

/// Adds the spellings of values, one behind the other.
fn put_items<T: Coded>(alloc: Global, items: &[T], out: &mut Vec<u8>) -> Result<(), AllocError>
    ensures fits { OnOk result (All T.form.Fits items.now) }
    ensures spelled { OnOk result (out.new.items ≡ out.old.items ++ flat_map T.form.spelled items.now) }
{
    for item in items {
        item.put(alloc, out)?;
    }
    Ok(())
}

/// Adds the spelling of a list.
pub fn put_list<T: Coded>(alloc: Global, items: &[T], out: &mut Vec<u8>) -> Result<(), AllocError>
    ensures fits { OnOk result ((list T.form).Fits items.now) }
    ensures spelled { OnOk result (out.new.items ≡ out.old.items ++ (list T.form).spelled items.now) }
{
    let Ok(count) = u32::try_from(items.len()) else {
        return Err(AllocError);
    };
    count.put(alloc, out)?;
    put_items(alloc, items, out)
}

/// Takes so many values.
fn take_items<T: Coded>(
    alloc: Global,
    count: u32,
    reader: &mut Reader,
) -> Result<Listed<T>, DecodeFault>
    ensures { Gives result reader.new (items_at T.form.read count reader.old) }
{
    let mut items = Vec::new(alloc);
    for _ in 0..count {
        items.push(T::take(alloc, reader)?)?;
    }
    Ok(Listed::from_vec(items))
}

impl<T: Coded> Coded for Listed<T> {
    ghost form = { list T.form };

    fn put(&self, alloc: Global, out: &mut Vec<u8>) -> Result<(), AllocError> {
        put_list(alloc, self.as_slice(), out)
    }

    fn take(alloc: Global, reader: &mut Reader) -> Result<Listed<T>, DecodeFault> {
        let count = u32::take(alloc, reader)?;
        let items = take_items(alloc, count, reader)?;
        Ok(items)
    }
}
