//! Numbers and flags.
ghost use Rattle.std.specs.Int.{w8, w16, w32, w64};
ghost use Rattle.lp_encoding.specs.Forms.{integer, number};
ghost use Rattle.lp_encoding.specs.Programs.{flag};

use crate::coded::Coded;
use crate::fault::DecodeFault;
use crate::reader::Reader;
use std::alloc::{AllocError, Global};

impl Coded for u8 {
    ghost form = { number w8 };

    fn put(&self, _alloc: Global, out: &mut Vec<u8>) -> Result<(), AllocError> {
        let value = *self;
        out.extend_from_slice(&value.to_le_bytes())?;
        Ok(())
    }

    fn take(_alloc: Global, reader: &mut Reader) -> Result<u8, DecodeFault> {
        let Some(front) = reader.front(1) else {
            return Err(DecodeFault::NoRecord);
        };
        Ok(u8::from_le_bytes([front[0]]))
    }
}

impl Coded for u16 {
    ghost form = { number w16 };

    fn put(&self, _alloc: Global, out: &mut Vec<u8>) -> Result<(), AllocError> {
        let value = *self;
        out.extend_from_slice(&value.to_le_bytes())?;
        Ok(())
    }

    fn take(_alloc: Global, reader: &mut Reader) -> Result<u16, DecodeFault> {
        let Some(front) = reader.front(2) else {
            return Err(DecodeFault::NoRecord);
        };
        Ok(u16::from_le_bytes([front[0], front[1]]))
    }
}

impl Coded for u32 {
    ghost form = { number w32 };

    fn put(&self, _alloc: Global, out: &mut Vec<u8>) -> Result<(), AllocError> {
        let value = *self;
        out.extend_from_slice(&value.to_le_bytes())?;
        Ok(())
    }

    fn take(_alloc: Global, reader: &mut Reader) -> Result<u32, DecodeFault> {
        let Some(front) = reader.front(4) else {
            return Err(DecodeFault::NoRecord);
        };
        Ok(u32::from_le_bytes([front[0], front[1], front[2], front[3]]))
    }
}

impl Coded for u64 {
    ghost form = { number w64 };

    fn put(&self, _alloc: Global, out: &mut Vec<u8>) -> Result<(), AllocError> {
        let value = *self;
        out.extend_from_slice(&value.to_le_bytes())?;
        Ok(())
    }

    fn take(_alloc: Global, reader: &mut Reader) -> Result<u64, DecodeFault> {
        let Some(front) = reader.front(8) else {
            return Err(DecodeFault::NoRecord);
        };
        Ok(u64::from_le_bytes([
            front[0], front[1], front[2], front[3], front[4], front[5], front[6], front[7],
        ]))
    }
}

impl Coded for i64 {
    ghost form = { integer };

    fn put(&self, _alloc: Global, out: &mut Vec<u8>) -> Result<(), AllocError> {
        let value = *self;
        out.extend_from_slice(&value.to_le_bytes())?;
        Ok(())
    }

    fn take(_alloc: Global, reader: &mut Reader) -> Result<i64, DecodeFault> {
        let Some(front) = reader.front(8) else {
            return Err(DecodeFault::NoRecord);
        };
        Ok(i64::from_le_bytes([
            front[0], front[1], front[2], front[3], front[4], front[5], front[6], front[7],
        ]))
    }
}

impl Coded for bool {
    ghost form = { flag };

    fn put(&self, alloc: Global, out: &mut Vec<u8>) -> Result<(), AllocError> {
        u8::from(*self).put(alloc, out)
    }

    fn take(alloc: Global, reader: &mut Reader) -> Result<bool, DecodeFault> {
        match u8::take(alloc, reader)? {
            0 => Ok(false),
            1 => Ok(true),
            _ => Err(DecodeFault::NoRecord),
        }
    }
}
