//! Numbers among bytes, the lowest byte first. Each call asks that the bytes which it names lie in the slice.
ghost use Rattle.std.specs.Prelude.{◌≡◌, ◌+◌, ◌≤◌, length};
ghost use Rattle.tcmu_types.specs.ByteFields.{le, field, put};
ghost use Rattle.tcmu_types.specs.Overwriting.{zeros};

use crate::overwrite;
use byteorder::{ByteOrder, LittleEndian};

/// Writes a number over the two bytes from `at` on.
pub fn put_u16(into: &mut [u8], at: usize, value: u16)
    requires { at + 2 ≤ length into.old }
    ensures { into.new ≡ put into.old at (le 2 value) }
{
    LittleEndian::write_u16(&mut into[at..], value);
}

/// Writes a number over the four bytes from `at` on.
pub fn put_u32(into: &mut [u8], at: usize, value: u32)
    requires { at + 4 ≤ length into.old }
    ensures { into.new ≡ put into.old at (le 4 value) }
{
    LittleEndian::write_u32(&mut into[at..], value);
}

/// Writes a number over the eight bytes from `at` on.
pub fn put_u64(into: &mut [u8], at: usize, value: u64)
    requires { at + 8 ≤ length into.old }
    ensures { into.new ≡ put into.old at (le 8 value) }
{
    LittleEndian::write_u64(&mut into[at..], value);
}

/// Writes a number over the byte at `at`.
pub fn put_u8(into: &mut [u8], at: usize, value: u8)
    requires { at + 1 ≤ length into.old }
    ensures { into.new ≡ put into.old at (le 1 value) }
{
    put_bytes(into, at, &[value]);
}

/// Makes `count` bytes from `at` on zero.
pub fn put_zeros(into: &mut [u8], at: usize, count: usize)
    requires { at + count ≤ length into.old }
    ensures { into.new ≡ put into.old at (zeros count) }
{
    into[at..at + count].fill(0);
}

/// Writes bytes over those from `at` on.
#[tactic(auto, unfolding(crate::specs::ByteFields::put))]
pub fn put_bytes(into: &mut [u8], at: usize, bytes: &[u8])
    requires { at + length bytes.now ≤ length into.old }
    ensures { into.new ≡ put into.old at bytes.now }
{
    overwrite(into, at, bytes);
}

/// The number in the two bytes from `at` on.
#[tactic(auto, unfolding(crate::specs::ByteFields::field))]
pub fn le_u16_at(bytes: &[u8], at: usize) -> u16
    requires { at + 2 ≤ length bytes.now }
    ensures { result ≡ field 2 at bytes.now }
{
    LittleEndian::read_u16(&bytes[at..])
}

/// The number in the four bytes from `at` on.
#[tactic(auto, unfolding(crate::specs::ByteFields::field))]
pub fn le_u32_at(bytes: &[u8], at: usize) -> u32
    requires { at + 4 ≤ length bytes.now }
    ensures { result ≡ field 4 at bytes.now }
{
    LittleEndian::read_u32(&bytes[at..])
}

/// The number in the eight bytes from `at` on.
#[tactic(auto, unfolding(crate::specs::ByteFields::field))]
pub fn le_u64_at(bytes: &[u8], at: usize) -> u64
    requires { at + 8 ≤ length bytes.now }
    ensures { result ≡ field 8 at bytes.now }
{
    LittleEndian::read_u64(&bytes[at..])
}

/// The number in the byte at `at`.
#[tactic(auto, unfolding(crate::specs::ByteFields::field))]
pub fn u8_at(bytes: &[u8], at: usize) -> u8
    requires { at + 1 ≤ length bytes.now }
    ensures { result ≡ field 1 at bytes.now }
{
    bytes[at]
}
