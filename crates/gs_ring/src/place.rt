ghost use Rattle.std.specs.Prelude.{◌≡◌, ◌+◌, ◌%◌, ◌<◌, ◌≤◌};

use crate::block::MOST_CAPACITY;

/// A place in a ring, counted from 0 without end, and beside it where that lies in the block: the count
/// modulo the ring's capacity. So no step divides.
#[derive(Clone, Copy)]
pub(crate) struct Place {
    pub(crate) count: u64,
    pub(crate) index: usize,
}

impl Place {
    /// Returns the place so many bytes further on, at most a block.
    #[tactic(auto, using(crate::proofs::Around::mod_further, crate::proofs::Around::mod_past))]
    pub(crate) fn further(self, bytes: usize, capacity: usize) -> Place
        requires at { self.index ≡ self.count % capacity }
        requires size { 0 < capacity }
        requires most { bytes ≤ capacity }
        requires small { capacity ≤ MOST_CAPACITY }
        requires low { self.count + bytes ≤ u64.MAX }
        ensures count { result.count ≡ self.count + bytes }
        ensures at { result.index ≡ (self.count + bytes) % capacity }
    {
        let count = self.count + bytes as u64;
        let index = self.index + bytes;
        if index < capacity {
            return Place { count, index };
        }
        Place {
            count,
            index: index - capacity,
        }
    }
}
