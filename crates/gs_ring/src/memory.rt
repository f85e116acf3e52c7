ghost use Rattle.std.specs.Prelude.{◌≡◌, ◌+◌, ◌%◌, ◌<◌, ◌≤◌, ◌^◌, IfOk, length, max, min, take};
ghost use Rattle.gs_layout.specs.Spelling.{spelling};
ghost use Rattle.gs_ring.specs.Block.{block_with, put_at};
ghost use Rattle.gs_ring.specs.Memory.{untouched};
ghost use Rattle.gs_ring.specs.Places.{pad_bytes, record_len};

use crate::block::{self, MOST_CAPACITY};
use crate::place::Place;
use gs_layout::{ALIGNMENT, Message};
use std::alloc::{AllocError, Global};
use std::marker::Model;

/// How many bytes are touched at a time, or more, so that it is rare.
const STEP: usize = 1024;

/// A block of bytes of a fixed size, zeros at first. Its memory is touched only as far as it was written.
#[derive(Drop)]
pub(crate) struct Memory {
    /// The bytes that were touched. Behind them there are zeros.
    bytes: Vec<u8>,
    size: usize,
}

impl Model for Memory {
    ghost use Rattle.std.specs.Prelude.{◌≤◌, length, vec_capacity};
    ghost use Rattle.gs_ring.specs.Memory.{MemoryState, filled_up};

    ghost Value = { MemoryState };

    ghost view = { λ m. record { items = filled_up m.bytes.items m.size; touched = length m.bytes.items } };

    ghost invariant = { λ m. (length m.bytes.items ≤ m.size) × (m.size ≤ vec_capacity m.bytes) };
}

impl Memory {
    /// Takes memory for so many bytes, and touches none.
    pub(crate) fn new(alloc: Global, size: usize) -> Result<Memory, AllocError>
        ensures { IfOk result (λ m. m ≡ untouched size) }
    {
        Ok(Memory {
            bytes: Vec::with_capacity(alloc, size)?,
            size,
        })
    }

    /// Returns how many bytes it has.
    pub(crate) fn size(&self) -> usize
        ensures { result ≡ length self.now.items }
    {
        self.size
    }

    /// Lends the bytes that were touched.
    pub(crate) fn touched(&self) -> &[u8]
        ensures value { result.now ≡ take self.now.touched self.now.items }
        ensures len { length result.now ≡ self.now.touched }
    {
        self.bytes.as_slice()
    }

    /// Writes a message of so many bytes at a place, behind a PAD of so many bytes. All that is written is
    /// touched before.
    #[inline(always)]
    pub(crate) fn write(&mut self, place: Place, pad: usize, message: &Message, len: usize)
        requires size { 0 < length self.old.items }
        requires small { length self.old.items ≤ MOST_CAPACITY }
        requires at { place.index ≡ place.count % length self.old.items }
        requires fits { place.count % length self.old.items + pad ≤ length self.old.items }
        requires whole { pad % ALIGNMENT ≡ 0 }
        requires most { pad ≤ u16.MAX }
        requires place { place.count + pad ≤ u64.MAX }
        requires len { len ≡ record_len message.now }
        requires behind { (place.count + pad) % length self.old.items + record_len message.now ≤ length self.old.items }
        ensures items { self.new.items ≡ block_with self.old.items place.count pad message.now }
        ensures touched { min (place.count % length self.old.items + (pad + record_len message.now)) (length self.old.items) ≤ self.new.touched }
        ensures more { self.old.touched ≤ self.new.touched }
        ensures few { self.new.touched ≤ max self.old.touched (place.count % length self.old.items + (pad + record_len message.now) + STEP) }
    {
        let start = if pad == 0 {
            place.index
        } else {
            self.write_pad(place, pad)
        };
        self.write_record(start, message, len);
    }

    /// Writes a PAD of so many bytes at a place, and returns the index behind it. All that is written is
    /// touched before. Few messages have a PAD before them.
    #[cold]
    #[inline(never)]
    fn write_pad(&mut self, place: Place, len: usize) -> usize
        requires size { 0 < length self.old.items }
        requires small { length self.old.items ≤ MOST_CAPACITY }
        requires at { place.index ≡ place.count % length self.old.items }
        requires fits { place.index + len ≤ length self.old.items }
        requires some { 0 < len }
        requires whole { len % ALIGNMENT ≡ 0 }
        requires most { len ≤ u16.MAX }
        requires place { place.count + len ≤ u64.MAX }
        ensures items { self.new.items ≡ put_at place.index (pad_bytes len) self.old.items }
        ensures behind { result ≡ (place.count + len) % length self.old.items }
        ensures touched { place.index + len ≤ self.new.touched }
        ensures more { self.old.touched ≤ self.new.touched }
        ensures few { self.new.touched ≤ max self.old.touched (place.index + len + STEP) }
    {
        self.touch(place.index + len);
        block::write_pad(self.bytes.as_mut_slice(), place.index, len);
        place.further(len, self.size).index
    }

    /// Writes a message of so many bytes at an index. All that is written is touched before.
    #[inline(always)]
    fn write_record(&mut self, at: usize, message: &Message, len: usize)
        requires small { length self.old.items ≤ MOST_CAPACITY }
        requires len { len ≡ record_len message.now }
        requires fits { at + record_len message.now ≤ length self.old.items }
        ensures items { self.new.items ≡ put_at at (spelling message.now) self.old.items }
        ensures touched { at + record_len message.now ≤ self.new.touched }
        ensures more { self.old.touched ≤ self.new.touched }
        ensures few { self.new.touched ≤ max self.old.touched (at + record_len message.now + STEP) }
    {
        self.touch(at + len);
        block::write_record(self.bytes.as_mut_slice(), at, message);
    }

    /// Makes sure that the bytes up to this end are touched, or all if it has fewer.
    #[inline(always)]
    fn touch(&mut self, end: usize)
        ensures items { self.new.items ≡ self.old.items }
        ensures touched { min end (length self.old.items) ≤ self.new.touched }
        ensures more { self.old.touched ≤ self.new.touched }
        ensures few { self.new.touched ≤ max self.old.touched (end + STEP) }
    {
        if end > self.bytes.len() {
            self.touch_more(end);
        }
    }

    /// Touches the bytes up to this end and at least [`STEP`] more of them, or all if it has fewer.
    #[cold]
    #[inline(never)]
    fn touch_more(&mut self, end: usize)
        ensures items { self.new.items ≡ self.old.items }
        ensures touched { self.new.touched ≡ min (max end (self.old.touched + STEP)) (length self.old.items) }
    {
        let len = end.max(self.bytes.len() + STEP).min(self.size);
        self.bytes.resize(len, 0).unwrap();
    }
}
