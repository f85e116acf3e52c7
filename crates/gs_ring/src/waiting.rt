ghost use Rattle.std.specs.Prelude.{◌≡◌, ◌==◌, ◌++◌, [], ◌∷◌, length};
ghost use Rattle.std.specs.Iterator.{YieldsFirst, item_count};
ghost use Rattle.gs_ring.specs.Block.{messages_in};
ghost use Rattle.gs_ring.specs.Segments.{AreSegments};

use crate::segments;
use gs_reader::MessageRef;
use std::marker::Model;

/// The messages of a ring that a walk has still to show, in the order in which they were posted. Each is
/// shown where it lies in the ring's block. Clauses see the list of what is left.
#[derive(Drop)]
pub struct Waiting<'a> {
    /// The bytes from the next one on to the end of the block, and those from its start on.
    first: &'a [u8],
    second: &'a [u8],
    /// How many are left.
    left: usize,
}

impl<'a> Model for Waiting<'a> {
    ghost use Rattle.std.specs.Prelude.{◌++◌, List};
    ghost use Rattle.gs_layout.specs.declared.message.Message.{Message};
    ghost use Rattle.gs_ring.specs.Block.{messages_in};
    ghost use Rattle.gs_ring.specs.Segments.{AreSegments};

    ghost Value = { List Message };

    ghost view = { λ w. messages_in w.left (w.first.now ++ w.second.now) };

    ghost invariant = { λ w. AreSegments w.first.now w.second.now w.left };
}

impl<'a> Waiting<'a> {
    /// Lends so many messages that stand in two segments.
    pub(crate) fn new(first: &'a [u8], second: &'a [u8], left: usize) -> Waiting<'a>
        requires { AreSegments first.now second.now left }
        ensures { result ≡ messages_in left (first.now ++ second.now) }
    {
        Waiting {
            first,
            second,
            left,
        }
    }

    /// Lends no message.
    pub(crate) fn none() -> Waiting<'a>
        ensures { result ≡ [] }
    {
        Waiting::new(&[], &[], 0)
    }

    /// Lends one message alone.
    pub(crate) fn one(message: MessageRef<'a>) -> Waiting<'a>
        ensures { result ≡ message.entry ∷ [] }
    {
        Waiting::new(message.as_bytes(), &[], 1)
    }

    /// Returns how many are left.
    pub fn len(&self) -> usize
        ensures { result ≡ length self.now }
    {
        self.left
    }

    /// Returns whether none is left.
    pub fn is_empty(&self) -> bool
        ensures { result ≡ (length self.now == 0) }
    {
        self.len() == 0
    }
}

impl<'a> Iterator for Waiting<'a> {
    type Item = MessageRef<'a>;

    ghost next_gives = { YieldsFirst (λ walk. walk) };

    ghost remaining = { item_count (λ walk. walk) };

    fn next(&mut self) -> Option<MessageRef<'a>> {
        if self.left == 0 {
            return None;
        }
        let (message, first, second) = segments::split_first(self.first, self.second);
        self.first = first;
        self.second = second;
        self.left -= 1;
        Some(message)
    }
}
