//! Numbers from the high byte on, and flags.
#![tactic(auto, unfolding(crate::specs::Parts::number_bytes, crate::specs::Reading::number_at, crate::specs::Reading::raw_at))]

ghost use Rattle.fields.specs.Codecs.{u8_codec, u16_codec, u32_codec, u64_codec};
ghost use Rattle.fields.specs.Kinds.{flag_codec};

use crate::codecs::Field;
use crate::readers::{Malformed, Reader};
use byteorder::{BigEndian, ByteOrder};
use fab_base::NoMem;

impl Field for u8 {
    ghost codec = { u8_codec };

    fn put(&self, out: &mut Vec<u8>) -> Result<(), NoMem> {
        Ok(out.push(*self)?)
    }

    fn take(from: &mut Reader<'_>) -> Result<u8, Malformed> {
        Ok(from.raw(1)?[0])
    }
}

impl Field for u16 {
    ghost codec = { u16_codec };

    fn put(&self, out: &mut Vec<u8>) -> Result<(), NoMem> {
        Ok(out.extend_from_slice(&self.to_be_bytes())?)
    }

    fn take(from: &mut Reader<'_>) -> Result<u16, Malformed> {
        Ok(BigEndian::read_u16(from.raw(2)?))
    }
}

impl Field for u32 {
    ghost codec = { u32_codec };

    fn put(&self, out: &mut Vec<u8>) -> Result<(), NoMem> {
        Ok(out.extend_from_slice(&self.to_be_bytes())?)
    }

    fn take(from: &mut Reader<'_>) -> Result<u32, Malformed> {
        Ok(BigEndian::read_u32(from.raw(4)?))
    }
}

impl Field for u64 {
    ghost codec = { u64_codec };

    fn put(&self, out: &mut Vec<u8>) -> Result<(), NoMem> {
        Ok(out.extend_from_slice(&self.to_be_bytes())?)
    }

    fn take(from: &mut Reader<'_>) -> Result<u64, Malformed> {
        Ok(BigEndian::read_u64(from.raw(8)?))
    }
}

/// A byte, 0 for false and 1 for true.
impl Field for bool {
    ghost codec = { flag_codec };

    fn put(&self, out: &mut Vec<u8>) -> Result<(), NoMem> {
        u8::from(*self).put(out)
    }

    fn take(from: &mut Reader<'_>) -> Result<bool, Malformed> {
        let left = from.rest.len();
        match from.take()? {
            0u8 => Ok(false),
            1 => Ok(true),
            _ => Err(Malformed { left }),
        }
    }
}
