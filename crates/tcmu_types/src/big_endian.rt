//! Numbers in bytes, with the highest byte first. Each call asks that the bytes which it names lie in the slice.
ghost use Rattle.std.specs.Prelude.{◌≡◌, ◌+◌, ◌≤◌, length};
ghost use Rattle.byteorder.specs.Endian.{big_from};

use byteorder::{BigEndian, ByteOrder};

/// The number in the two bytes from `at` on, the highest byte first.
pub fn be_u16_at(bytes: &[u8], at: usize) -> u16
    requires { at + 2 ≤ length bytes.now }
    ensures { result ≡ big_from at 2 bytes.now }
{
    BigEndian::read_u16(&bytes[at..])
}

/// The number in the four bytes from `at` on, the highest byte first.
pub fn be_u32_at(bytes: &[u8], at: usize) -> u32
    requires { at + 4 ≤ length bytes.now }
    ensures { result ≡ big_from at 4 bytes.now }
{
    BigEndian::read_u32(&bytes[at..])
}

/// The number in the eight bytes from `at` on, the highest byte first.
pub fn be_u64_at(bytes: &[u8], at: usize) -> u64
    requires { at + 8 ≤ length bytes.now }
    ensures { result ≡ big_from at 8 bytes.now }
{
    BigEndian::read_u64(&bytes[at..])
}
