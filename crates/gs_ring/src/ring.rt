ghost use Rattle.std.specs.Prelude.{◌≡◌, ◌↔◌, ◌+◌, ◌-◌, ◌^◌, ◌<◌, ◌≤◌, List, [], ◌∷◌, ◌++◌, length, min, true, false, IfOk, IsErr, IsErrOf, MatchOption, OnOk, OnErr};
ghost use Rattle.gs_layout.specs.declared.message.Message.{Message};
ghost use Rattle.std.specs.Borrow.{sem};
ghost use Rattle.std.specs.Io.BufRead.{Rests};
ghost use Rattle.gs_ring.specs.Batches.{messages_of};
ghost use Rattle.gs_ring.specs.Ends.{Ahead, IsEmpty, Passed};
ghost use Rattle.gs_ring.specs.Peek.{message_of};
ghost use Rattle.gs_layout.specs.Spelling.{IsSpellable};
ghost use Rattle.gs_ring.specs.Places.{bytes, is_capacity, need, place_behind, rest};
ghost use Rattle.gs_ring.specs.RingState.{IsTight, empty, end, free, posts};

use crate::batch::Batch;
use crate::block;
use crate::ends::{MOST_POSTS, Poster, Ring, Taker};
use crate::fault::{Full, RingFault};
use crate::memory::Memory;
use crate::peeked::Peeked;
use crate::place::Place;
use crate::waiting::Waiting;
use gs_layout::Message;
use std::alloc::Global;
use std::marker::Model;

/// Messages in a block of bytes of fixed size, in the order in which they were posted.
///
/// Each lies there as its bytes, and none is split over the end of the block. If the rest of the block is too
/// short, a PAD fills it and the message stands at the block's start. Places are counted from 0 and never
/// wrap. Nothing but `new` allocates.
#[derive(Drop)]
pub struct ByteRing {
    block: Memory,
    /// The place of the first byte that was not consumed.
    read: Place,
    /// The place behind the last byte that was written.
    written: Place,
    /// How many messages were consumed, and how many were posted.
    consumed: u64,
    posts: u64,
}

impl Model for ByteRing {
    ghost use Rattle.gs_ring.specs.RingState.{RingState};
    ghost use Rattle.gs_ring.specs.Block.{IsHeld, ring_of};

    ghost Value = { RingState };

    ghost view = { λ r. ring_of r.block.items r.read.count r.written.count r.consumed r.posts };

    ghost invariant = { λ r. IsHeld r.block r.read r.written r.consumed r.posts };
}

impl ByteRing {
    /// Makes a ring of so many bytes to which nothing was posted.
    ///
    /// # Errors
    ///
    /// `BadCapacity` if [`ByteRing::is_capacity`] does not hold of `capacity`, and else `OutOfMemory` if out
    /// of memory.
    ///
    /// # Examples
    ///
    /// A ring of 128 bytes, to which a kernel posts:
    ///
    /// ```
    /// let Ok(bytes) = ByteRing::new(alloc, 128) else {
    ///     return None;
    /// };
    /// Kernel::new(alloc, SETTINGS, bytes).ok()
    /// ```
    pub fn new(alloc: Global, capacity: usize) -> Result<ByteRing, RingFault>
        ensures made { IfOk result (λ r. r ≡ empty capacity) }
        ensures bad { IsErrOf result RingFault.BadCapacity ↔ (is_capacity capacity ≡ false) }
    {
        if !ByteRing::is_capacity(capacity) {
            return Err(RingFault::BadCapacity);
        }
        Ok(ByteRing {
            block: Memory::new(alloc, capacity)?,
            read: Place { count: 0, index: 0 },
            written: Place { count: 0, index: 0 },
            consumed: 0,
            posts: 0,
        })
    }

    /// Returns whether a ring may have so many bytes: a multiple of [`ALIGNMENT`](gs_layout::ALIGNMENT) from [`LEAST_CAPACITY`] to
    /// [`MOST_CAPACITY`].
    pub fn is_capacity(capacity: usize) -> bool
        ensures { result ≡ is_capacity capacity }
    {
        block::is_capacity(capacity)
    }

    /// Returns how many bytes the block has.
    pub fn capacity(&self) -> usize
        ensures value { result ≡ self.now.capacity }
        ensures range { is_capacity result ≡ true }
    {
        self.block.size()
    }

    /// Returns how many bytes are free.
    pub fn free(&self) -> usize
        ensures value { result ≡ free self.now }
        ensures within { result ≤ self.now.capacity }
    {
        self.capacity() - (self.written.count - self.read.count) as usize
    }

    /// Returns how many bytes a record of so many bytes takes up that is posted next, with its PAD.
    pub fn need(&self, len: usize) -> usize
        requires { len ≤ u16.MAX }
        ensures { result ≡ need self.now.capacity (end self.now) len }
    {
        block::pad_len(self.written, self.block.size(), len) + len
    }

    /// Appends a message.
    ///
    /// # Errors
    ///
    /// `Full` exactly if the message needs more bytes than are free. The ring stays as it is.
    #[inline(always)]
    pub(crate) fn push(&mut self, message: &Message) -> Result<(), Full>
        requires few { posts self.old < MOST_POSTS }
        requires spellable { IsSpellable message.now }
        ensures exact { IsErr result ↔ IsTight self.old message.now }
        ensures ok { OnOk result (self.new ≡ record self.old { unread = self.old.unread ++ message.now ∷ [] }) }
        ensures full { OnErr result (self.new ≡ self.old) }
    {
        let len = block::record_len(message);
        let capacity = self.block.size();
        let pad = block::pad_len(self.written, capacity, len);
        if pad + len > self.free() {
            return Err(Full);
        }
        self.block.write(self.written, pad, message, len);
        self.written = self.written.further(pad + len, capacity);
        self.posts += 1;
        Ok(())
    }

    /// Lends the message that waits first, where it lies in the block, or returns `None` if none waits.
    pub fn first(&self) -> Option<Peeked<'_>>
        ensures { MatchOption result (IsEmpty self.now) (λ p. Ahead self.now (message_of p ∷ [])) }
    {
        if self.consumed == self.posts {
            return None;
        }
        Some(block::message_at(&self.block, self.read))
    }

    /// Lends the messages that wait, in order, each where it lies in the block. None is consumed.
    pub fn waiting(&self) -> Waiting<'_>
        ensures { result ≡ self.now.unread }
    {
        let (first, second) = self.front();
        let left = (self.posts - self.consumed) as usize;
        Waiting::new(first, second, left)
    }

    /// Takes the message that waits first.
    pub(crate) fn pop(&mut self)
        requires { 0 < length self.old.unread }
        ensures { (m : Message) → Ahead self.old (m ∷ []) → Passed self.old (m ∷ []) self.new }
    {
        let span = block::span_at(&self.block, self.read);
        self.read = self.read.further(span, self.block.size());
        self.consumed += 1;
    }

    /// Lends the bytes that were not consumed: those up to the end of the block, then those from its start.
    pub fn front(&self) -> (&[u8], &[u8])
        ensures value { result.0.now ++ result.1.now ≡ bytes self.now.capacity self.now.read self.now.unread }
        ensures all { end self.now ≡ self.now.read + (length result.0.now + length result.1.now) }
        ensures first { length result.0.now ≡ min (end self.now - self.now.read) (rest self.now.capacity self.now.read) }
    {
        let block = self.block.touched();
        let start = self.read.index;
        let used = (self.written.count - self.read.count) as usize;
        let first = used.min(self.block.size() - start);
        (&block[start..start + first], &block[..used - first])
    }

    /// Consumes the first messages, which take up so many bytes with their PADs.
    pub fn consume(&mut self, n: usize)
        requires { (ms : List Message) × Ahead self.old ms × (place_behind self.old.capacity self.old.read ms ≡ self.old.read + n) }
        ensures { (ms : List Message) → Ahead self.old ms → place_behind self.old.capacity self.old.read ms ≡ self.old.read + n → Passed self.old ms self.new }
    {
        let end = self.read.count + n as u64;
        while self.read.count < end {
            self.pop();
        }
    }
}

impl Poster for ByteRing {
    ghost use Rattle.std.proofs.Common.{refl, ◌∙◌};
    ghost use Rattle.gs_ring.specs.Ends.{Posted, Posted-counted, Posted-tells, Posted-within, SameCapacity};

    ghost posted = { Posted };

    ghost count = { posts };

    ghost consumed = { λ r. r.consumed };

    ghost tight = { IsTight };

    ghost same = { SameCapacity };

    #[inline(always)]
    fn post(&mut self, message: &Message) -> Result<(), Full>
        requires few { posts self.old < MOST_POSTS }
        requires spellable { IsSpellable message.now }
        ensures ring { SameCapacity self.old self.new }
        ensures posts { OnOk result ((xs : List Message) → Posted self.old xs → Posted self.new (xs ++ message.now ∷ [])) }
        ensures counts { OnOk result (posts self.new ≡ posts self.old + 1) }
        ensures stays { self.new.consumed ≡ self.old.consumed }
        ensures full { OnErr result (IsTight self.old message.now) }
        ensures still { OnErr result (IsTight self.new message.now) }
        ensures unchanged { OnErr result ((xs : List Message) → Posted self.old xs → Posted self.new xs) }
        ensures exact { IsErr result ↔ IsTight self.old message.now }
        ensures ok { OnOk result (self.new ≡ record self.old { unread = self.old.unread ++ message.now ∷ [] }) }
        ensures same { OnErr result (self.new ≡ self.old) }
    {
        self.push(message)
    }

    ghost counted = { Posted-counted };

    ghost within = { Posted-within };

    ghost tells = { Posted-tells };

    ghost same_refl = { λ p. refl };

    ghost same_trans = { λ p q r e f. f ∙ e };
}

impl Taker for ByteRing {
    ghost use Rattle.gs_ring.specs.contracts.ring.ByteRing.{the_row};
    ghost use Rattle.gs_ring.specs.Ends.{Ahead-begins, Passed-agrees, Passed-join, Passed-none};

    ghost passed = { Passed };

    ghost ahead = { Ahead };

    ghost idle = { IsEmpty };

    fn peek(&mut self) -> Option<Peeked<'_>> {
        self.first()
    }

    fn advance(&mut self) {
        self.pop();
    }

    fn batch(&mut self) -> Batch<'_>
        ensures none { messages_of result ≡ [] → IsEmpty self.old }
        ensures whole { messages_of result ≡ self.old.unread }
        ensures* after { sem 𝓛 (Rests the_row self.entry (λ new. Passed self.old [] new × Ahead new (messages_of result) × (messages_of result ≡ [] → (m : Message) (ms : List Message) → Ahead new (m ∷ ms) → ⊥))) }
    {
        Batch::Ring(self)
    }

    fn pass(&mut self, n: usize) {
        if n as u64 == self.posts - self.consumed {
            // Behind all that wait lies the place that is written next, so none of them is looked at.
            self.read = self.written;
            self.consumed = self.posts;
            return;
        }
        for _ in 0..n {
            self.pop();
        }
    }

    ghost passed_none = { Passed-none };

    ghost passed_join = { Passed-join };

    ghost begins = { Ahead-begins };

    ghost agrees = { Passed-agrees };
}

impl Ring for ByteRing {
    ghost use Rattle.gs_ring.specs.Ends.{Passed-same, Posted-ends, Posted-keeps, Posted-passes};

    ghost keeps = { Posted-keeps };

    ghost stays = { Passed-same };

    ghost passes = { Posted-passes };

    ghost ends = { Posted-ends };
}
