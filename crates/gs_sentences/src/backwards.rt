//! Writing words and numbers into an array from its end.

ghost use Rattle.std.specs.Prelude.{◌≡◌, ◌≤◌, ◌+◌, ◌++◌, decimal, drop, length};
ghost use Rattle.std.specs.Str.{IsUtf8};

use itoa::{Buffer, write_digits};

/// Writes bytes so that they end here, and returns where they begin.
#[inline(always)]
fn put_bytes(array: &mut [u8], end: usize, bytes: &[u8]) -> usize
    requires { (length bytes.now ≤ end) × (end ≤ length array.old) }
    ensures start { result + length bytes.now ≡ end }
    ensures written { drop result array.new ≡ bytes.now ++ drop end array.old }
    ensures size { length array.new ≡ length array.old }
{
    let start = end - bytes.len();
    array[start..end].copy_from_slice(bytes);
    start
}

/// Writes bytes that are UTF-8 so that they end here, and returns where they begin.
#[inline(always)]
pub(crate) fn put_text(array: &mut [u8], end: usize, bytes: &[u8]) -> usize
    requires { (length bytes.now ≤ end) × (end ≤ length array.old) }
    ensures start { result + length bytes.now ≡ end }
    ensures written { drop result array.new ≡ bytes.now ++ drop end array.old }
    ensures utf8 { IsUtf8 bytes.now → IsUtf8 (drop end array.old) → IsUtf8 (drop result array.new) }
    ensures size { length array.new ≡ length array.old }
{
    put_bytes(array, end, bytes)
}

/// Writes a word so that it ends here, and returns where it begins. Byte by byte it takes no look whether the word overlaps with what is
/// written. The compiler puts the bytes of a word together that is known where it is compiled.
#[inline(always)]
pub(crate) fn put(array: &mut [u8], end: usize, word: &str) -> usize
    requires { (length word.now ≤ end) × (end ≤ length array.old) }
    ensures start { result + length word.now ≡ end }
    ensures written { drop result array.new ≡ word.now ++ drop end array.old }
    ensures utf8 { IsUtf8 (drop end array.old) → IsUtf8 (drop result array.new) }
    ensures size { length array.new ≡ length array.old }
{
    let bytes = word.as_bytes();
    let start = end - bytes.len();
    let mut n = 0;
    while n < bytes.len() {
        array[start + n] = bytes[n];
        n += 1;
    }
    start
}

/// Writes a number so that it ends here, and returns where it begins.
#[inline(always)]
pub(crate) fn put_number(array: &mut [u8], end: usize, number: u64) -> usize
    requires { (20 ≤ end) × (end ≤ length array.old) }
    ensures start { result ≤ end }
    ensures low { end ≤ result + 20 }
    ensures written { drop result array.new ≡ decimal number ++ drop end array.old }
    ensures utf8 { IsUtf8 (drop end array.old) → IsUtf8 (drop result array.new) }
    ensures size { length array.new ≡ length array.old }
{
    write_digits(number, array, end)
}

/// Writes a mask so that it ends here, and returns where it begins. One of 64 bits is written as a number.
#[inline(always)]
pub(crate) fn put_mask(array: &mut [u8], end: usize, mask: u128) -> usize
    requires { (39 ≤ end) × (end ≤ length array.old) }
    ensures start { result ≤ end }
    ensures low { end ≤ result + 39 }
    ensures written { drop result array.new ≡ decimal mask ++ drop end array.old }
    ensures utf8 { IsUtf8 (drop end array.old) → IsUtf8 (drop result array.new) }
    ensures size { length array.new ≡ length array.old }
{
    match u64::try_from(mask) {
        Ok(number) => put_number(array, end, number),
        Err(_) => put_long_mask(array, end, mask),
    }
}

/// Writes any mask so that it ends here, and returns where it begins.
fn put_long_mask(array: &mut [u8], end: usize, mask: u128) -> usize
    requires { (39 ≤ end) × (end ≤ length array.old) }
    ensures start { result ≤ end }
    ensures low { end ≤ result + 39 }
    ensures written { drop result array.new ≡ decimal mask ++ drop end array.old }
    ensures utf8 { IsUtf8 (drop end array.old) → IsUtf8 (drop result array.new) }
    ensures size { length array.new ≡ length array.old }
{
    let mut buffer = Buffer::new();
    put_text(array, end, buffer.format(mask).as_bytes())
}
