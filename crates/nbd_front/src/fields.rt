//! Numbers within bytes, from the high byte on.
#![tactic(auto, unfolding(crate::specs::Wire::field))]

ghost use Rattle.std.specs.Prelude.{◌≡◌, ◌+◌, ◌≤◌, length};
ghost use Rattle.nbd_front.specs.Wire.{field};

use byteorder::{BigEndian, ByteOrder};

// The number in two bytes from a place on.
pub(crate) fn u16_at(bytes: &[u8], at: usize) -> u16
    requires { at + 2 ≤ length bytes.now }
    ensures { result ≡ field at 2 bytes.now }
{
    let (_, rest) = bytes.split_at(at);
    BigEndian::read_u16(rest)
}

// The number in four bytes from a place on.
pub(crate) fn u32_at(bytes: &[u8], at: usize) -> u32
    requires { at + 4 ≤ length bytes.now }
    ensures { result ≡ field at 4 bytes.now }
{
    let (_, rest) = bytes.split_at(at);
    BigEndian::read_u32(rest)
}

// The number in eight bytes from a place on.
pub(crate) fn u64_at(bytes: &[u8], at: usize) -> u64
    requires { at + 8 ≤ length bytes.now }
    ensures { result ≡ field at 8 bytes.now }
{
    let (_, rest) = bytes.split_at(at);
    BigEndian::read_u64(rest)
}
