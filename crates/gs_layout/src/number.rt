//! Numbers where they stand in bytes, the lowest byte first.

ghost use Rattle.std.specs.Prelude.{◌≡◌, ◌+◌, ◌≤◌, length};
ghost use Rattle.gs_layout.specs.Reading.{are_zeros, number_at};

use byteorder::{ByteOrder, LittleEndian};

/// Returns whether all of these bytes are zero.
pub fn are_zeros(bytes: &[u8]) -> bool
    ensures { result ≡ are_zeros bytes.now }
{
    bytes.iter().all(|byte| *byte == 0)
}

/// Returns the number of two bytes that stands at a place.
pub fn u16_at(bytes: &[u8], place: usize) -> u16
    requires { place + 2 ≤ length bytes.now }
    ensures { result ≡ number_at place 2 bytes.now }
{
    LittleEndian::read_u16(&bytes[place..])
}

/// Returns the number of four bytes that stands at a place.
pub fn u32_at(bytes: &[u8], place: usize) -> u32
    requires { place + 4 ≤ length bytes.now }
    ensures { result ≡ number_at place 4 bytes.now }
{
    LittleEndian::read_u32(&bytes[place..])
}

/// Returns the number of eight bytes that stands at a place.
pub fn u64_at(bytes: &[u8], place: usize) -> u64
    requires { place + 8 ≤ length bytes.now }
    ensures { result ≡ number_at place 8 bytes.now }
{
    LittleEndian::read_u64(&bytes[place..])
}

/// Returns the number of sixteen bytes that stands at a place.
pub fn u128_at(bytes: &[u8], place: usize) -> u128
    requires { place + 16 ≤ length bytes.now }
    ensures { result ≡ number_at place 16 bytes.now }
{
    LittleEndian::read_u128(&bytes[place..])
}
