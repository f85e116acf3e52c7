//! The kernel's ring, if both its ends are in one thread, and what is left of a kernel at its end.

ghost use Rattle.std.specs.Prelude.{◌≡◌, ◌++◌, List, [], length};
ghost use Rattle.gs_layout.specs.declared.message.Message.{Message};
ghost use Rattle.gs_journal.specs.History.{posted};
ghost use Rattle.gs_kernel.specs.Kernel.{SameKernel};

use crate::kernel::Kernel;
use gs_journal::Journal;
use gs_ring::{Beside, Poster, Taker};

impl<P: Poster> Kernel<P> {
    /// Lets the taker of its ring know of all that waits, and returns how many messages that are.
    pub fn look_beside<T: Taker>(&mut self, taker: &mut T) -> usize
    where
        P: Beside<T>,
        requires { P.pair self.old.poster taker.old }
        ensures same { SameKernel self.old self.new }
        ensures ring { P.same self.old.poster self.new.poster × P.pair self.new.poster taker.new }
        ensures stays { P.consumed self.new.poster ≡ P.consumed self.old.poster }
        ensures told { P.posted self.new.poster (posted self.new.history) }
        ensures passed { T.passed taker.old [] taker.new }
        ensures rest { (ms : List Message) × (rest : List Message) × P.gave taker.new ms × (posted self.new.history ≡ ms ++ rest) × T.ahead taker.new rest × (result ≡ length rest) }
    {
        // Reads a field to expose the invariant.
        let _settings = &self.settings;
        self.poster.look_beside(taker)
    }

    /// Ends the kernel, and gives its journal.
    pub fn into_journal(self) -> Journal
    where
        P: Drop,
        ensures { result.entries ≡ self.history }
    {
        self.journal
    }
}
