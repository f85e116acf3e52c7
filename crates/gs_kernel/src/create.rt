//! Threads are created.

ghost use Rattle.std.specs.Prelude.{◌≡◌, None};
ghost use Rattle.gs_layout.specs.Spelling.{IsSpellable};
ghost use Rattle.gs_kernel.specs.Kernel.{create_refusal, creation};

use crate::kernel::Kernel;
use gs_layout::{Change, Facts, MOST_TIDS, Message, Refusal};
use gs_ring::Poster;

impl<P: Poster> Kernel<P> {
    /// Returns the first message about a thread that can be created.
    pub(crate) fn creation(&self, facts: &Facts) -> Message
        requires { create_refusal self.now.settings self.now.history facts.now ≡ None }
        ensures value { result ≡ creation self.now.settings.first_tseq self.now.history facts.now }
        ensures spellable { IsSpellable result }
    {
        // Reads the fields to expose their ranges.
        let _name = facts.name.as_bytes();
        let _mask = facts.mask.bits();
        Message::Thread {
            tid: self.threads.len() as u32 + 1,
            tseq: self.settings.first_tseq + 1,
            change: Change::Created { facts: *facts },
        }
    }

    /// Returns the refusal that a creation has of its own.
    #[tactic(auto, unfolding(crate::specs::Kernel::create_refusal))]
    pub(crate) fn create_refusal(&self, facts: &Facts) -> Option<Refusal>
        ensures { result ≡ create_refusal self.now.settings self.now.history facts.now }
    {
        if self.is_bad_mask(facts.mask) {
            return Some(Refusal::EmptyMask);
        }
        if self.threads.len() >= MOST_TIDS as usize {
            return Some(Refusal::TidsSpent);
        }
        None
    }
}
