//! Records in a block of bytes.

ghost use Rattle.std.specs.Prelude.{◌≡◌, ◌+◌, ◌-◌, ◌%◌, ◌<◌, ◌^◌, ◌≤◌, length};
ghost use Rattle.gs_layout.specs.declared.message.Message.{Message};
ghost use Rattle.gs_layout.specs.Pad.{pad};
ghost use Rattle.gs_layout.specs.Spelling.{spelling};
ghost use Rattle.gs_ring.specs.Block.{Lies, put_at, record_index};
ghost use Rattle.gs_ring.specs.Peek.{message_of};
ghost use Rattle.gs_ring.specs.Places.{is_capacity, need, pad_bytes, pad_len, record_len};

use crate::memory::Memory;
use crate::peeked::Peeked;
use crate::place::Place;
use byteorder::{ByteOrder, LittleEndian};
use gs_layout::{ALIGNMENT, FRONT_LEN, KIND_AT, Message, PAD, u16_at};

/// The fewest bytes that a ring may have: an empty ring then takes any message, also behind a PAD.
pub const LEAST_CAPACITY: usize = 128;

/// The most bytes that a ring may have, so that the memory of one has a bound.
pub const MOST_CAPACITY: usize = 1_048_576;

/// Returns how many bytes of PAD stand before a record of so many bytes that is written at a place.
#[tactic(auto, unfolding(crate::specs::Places::pad_len))]
pub(crate) fn pad_len(place: Place, capacity: usize, len: usize) -> usize
    requires size { 0 < capacity }
    requires at { place.index ≡ place.count % capacity }
    ensures value { result ≡ pad_len capacity place.count len }
    ensures within { result ≤ capacity }
{
    let rest = capacity - place.index;
    if len <= rest { 0 } else { rest }
}

/// Returns how many bytes the message has in a ring.
pub(crate) fn record_len(message: &Message) -> usize
    ensures { result ≡ record_len message.now }
{
    gs_layout::message_len(message)
}

/// Makes a PAD of all these bytes.
fn fill_pad(out: &mut [u8])
    requires least { FRONT_LEN ≤ length out.old }
    requires most { length out.old ≤ u16.MAX }
    ensures { out.new ≡ pad (length out.old) }
{
    let len = out.len();
    LittleEndian::write_u16(out, len as u16);
    LittleEndian::write_u16(&mut out[KIND_AT..], PAD);
    out[FRONT_LEN..].fill(0);
}

/// Writes a PAD of so many bytes at an index of the block.
pub(crate) fn write_pad(block: &mut [u8], at: usize, len: usize)
    requires fits { at + len ≤ length block.old }
    requires some { 0 < len }
    requires whole { len % ALIGNMENT ≡ 0 }
    requires most { len ≤ u16.MAX }
    ensures { block.new ≡ put_at at (pad_bytes len) block.old }
{
    fill_pad(&mut block[at..at + len]);
}

/// Writes a message at an index of the block.
#[inline(always)]
pub(crate) fn write_record(block: &mut [u8], at: usize, message: &Message)
    requires { at + record_len message.now ≤ length block.old }
    ensures { block.new ≡ put_at at (spelling message.now) block.old }
{
    gs_layout::encode_message(message, &mut block[at..]);
}

/// Returns where the record begins in the block that is read at a place: behind its PAD, if it has one.
fn record_index(block: &Memory, place: Place) -> usize
    requires at { place.index ≡ place.count % length block.now.items }
    requires room { place.count % length block.now.items + FRONT_LEN ≤ block.now.touched }
    ensures { result ≡ record_index block.now.items place.count }
{
    if u16_at(&block.touched()[place.index..], KIND_AT) == PAD {
        0
    } else {
        place.index
    }
}

/// Lends the message that is read at a place, where it lies in the block.
pub(crate) fn message_at(block: &Memory, place: Place) -> Peeked<'_>
    requires at { place.index ≡ place.count % length block.now.items }
    requires lies { (m : Message) × Lies block.now place.count m }
    ensures { (m : Message) → Lies block.now place.count m → message_of result ≡ m }
{
    let start = record_index(block, place);
    let bytes = block.touched();
    let len = u16_at(bytes, start) as usize;
    Peeked::new(&bytes[start..start + len])
}

/// Returns how many bytes the message takes up that is read at a place, with its PAD.
pub(crate) fn span_at(block: &Memory, place: Place) -> usize
    requires size { 0 < length block.now.items }
    requires small { length block.now.items ≤ MOST_CAPACITY }
    requires at { place.index ≡ place.count % length block.now.items }
    requires lies { (m : Message) × Lies block.now place.count m }
    ensures { (m : Message) → Lies block.now place.count m → result ≡ need (length block.now.items) place.count (record_len m) }
{
    let len = u16_at(block.touched(), record_index(block, place)) as usize;
    pad_len(place, block.size(), len) + len
}

/// Returns whether a ring may have so many bytes.
pub(crate) fn is_capacity(capacity: usize) -> bool
    ensures { result ≡ is_capacity capacity }
{
    LEAST_CAPACITY <= capacity && capacity <= MOST_CAPACITY && capacity % ALIGNMENT == 0
}
