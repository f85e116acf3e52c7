//! The ring of an enclave, if both its ends are in one thread.

ghost use Rattle.std.specs.Prelude.{◌≡◌, ◌^◌, ◌<◌, ◌++◌, List, [], length};
ghost use Rattle.gs_journal.specs.History.{posted};
ghost use Rattle.gs_layout.specs.declared.message.Message.{Message};
ghost use Rattle.gs_link.specs.declared.poster.RtrbPoster.{RtrbPoster};
ghost use Rattle.gs_link.specs.Between.{Ahead, Gave, IsPairOf, Passed};

use crate::carry::entries;
use crate::enclave::Enclave;
use crate::site::Site;
use gs_link::RtrbTaker;

impl<L: Site> Enclave<L> {
    /// Lets the taker of the ring know of all that waits, and returns how many messages that are.
    pub(crate) fn look_beside(&mut self, taker: &mut RtrbTaker) -> usize
        requires { (p : RtrbPoster) → L.is_ring p → IsPairOf p taker.old }
        ensures same { self.new ≡ self.old }
        ensures passed { Passed taker.old [] taker.new }
        ensures few { result < 2 ^ 32 }
        ensures rest { (ms : List Message) × (rest : List Message) × Gave taker.new ms × (posted self.new.history ≡ ms ++ rest) × Ahead taker.new rest × (result ≡ length rest) }
    {
        let waiting = self.kernel.look_beside(taker);
        // Reads the count of entries to expose that few messages wait.
        let _few = entries(&self.kernel);
        waiting
    }
}
