//! How an agent goes, and how the next one attaches.

ghost use Rattle.std.specs.Prelude.{◌≡◌, IfSome, None};
ghost use Rattle.gs_layout.specs.Spelling.{IsSpellable};
ghost use Rattle.gs_kernel.specs.declared.command.Command.{Command};
ghost use Rattle.gs_kernel.specs.Attaching.{activate_refusal, begin_refusal, leave_refusal};
ghost use Rattle.gs_kernel.specs.Legal.{effect, message_in};

use crate::effect::Effect;
use crate::kernel::Kernel;
use gs_journal::Entry;
use gs_layout::Refusal;
use gs_ring::Poster;

impl<P: Poster> Kernel<P> {
    /// Returns the refusal that an agent's leaving has of its own.
    #[tactic(auto, unfolding(crate::specs::Attaching::leave_refusal))]
    pub(crate) fn leave_refusal(&self) -> Option<Refusal>
        ensures { result ≡ leave_refusal self.now.history }
    {
        if !self.has_agent() {
            return Some(Refusal::NotActive);
        }
        None
    }

    /// Returns the refusal that a new agent's beginning has of its own.
    #[tactic(auto, unfolding(crate::specs::Attaching::begin_refusal))]
    pub(crate) fn begin_refusal(&self) -> Option<Refusal>
        ensures { result ≡ begin_refusal self.now.history }
    {
        if self.has_agent() {
            return Some(Refusal::StillAttached);
        }
        if self.is_last_generation() {
            return Some(Refusal::GenSpent);
        }
        None
    }

    /// Returns the refusal that an agent's becoming active on a CPU has of its own.
    #[tactic(auto, unfolding(crate::specs::Attaching::activate_refusal))]
    pub(crate) fn activate_refusal(&self, cpu: u16) -> Option<Refusal>
        ensures { result ≡ activate_refusal self.now.settings self.now.history self.now.paged cpu }
    {
        if !(self.attaching().is_some() && self.paged) {
            return Some(Refusal::NotAttaching);
        }
        self.take_refusal(cpu)
    }

    /// Returns what an agent's becoming active on a CPU adds that nothing refuses.
    pub(crate) fn activating(&self, cpu: u16) -> Effect
        requires { activate_refusal self.now.settings self.now.history self.now.paged cpu ≡ None }
        ensures value { result ≡ effect self.now.settings self.now.history (Command.Activate cpu) }
        ensures spellable { IfSome (message_in result) IsSpellable }
    {
        Effect::Append {
            victim: self.preemption(cpu),
            entry: Entry::Role {
                generation: self.attaching().unwrap_or(0),
                cpu,
            },
        }
    }
}
