//! The active agent hands over to another CPU.

ghost use Rattle.std.specs.Prelude.{◌≡◌, IfSome, None};
ghost use Rattle.gs_layout.specs.Spelling.{IsSpellable};
ghost use Rattle.gs_kernel.specs.declared.command.Command.{Command};
ghost use Rattle.gs_kernel.specs.Legal.{effect, message_in};
ghost use Rattle.gs_kernel.specs.Kernel.{hand_off_refusal};

use crate::effect::Effect;
use crate::kernel::Kernel;
use gs_journal::Entry;
use gs_layout::Refusal;
use gs_ring::Poster;

impl<P: Poster> Kernel<P> {
    /// Returns the refusal that a hand-off to a CPU has of its own.
    #[tactic(auto, unfolding(crate::specs::Kernel::hand_off_refusal))]
    pub(crate) fn hand_off_refusal(&self, cpu: u16) -> Option<Refusal>
        ensures { result ≡ hand_off_refusal self.now.settings self.now.history cpu }
    {
        if self.agents.active.is_none() {
            return Some(Refusal::NotActive);
        }
        if let Some(refusal) = self.take_refusal(cpu) {
            return Some(refusal);
        }
        if self.is_last_generation() {
            return Some(Refusal::GenSpent);
        }
        None
    }

    /// Returns what a hand-off to a CPU adds that nothing refuses.
    pub(crate) fn handing_over(&self, cpu: u16) -> Effect
        requires { hand_off_refusal self.now.settings self.now.history cpu ≡ None }
        ensures value { result ≡ effect self.now.settings self.now.history (Command.HandOff cpu) }
        ensures spellable { IfSome (message_in result) IsSpellable }
    {
        Effect::Append {
            victim: self.preemption(cpu),
            entry: Entry::Role {
                generation: self.next_generation(),
                cpu,
            },
        }
    }
}
