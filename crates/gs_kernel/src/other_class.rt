//! The other scheduling class takes CPUs and gives them back.

ghost use Rattle.std.specs.Prelude.{◌≡◌, ◌<◌, ℕ, IfSome, false};
ghost use Rattle.std.specs.Option.{option_map};
ghost use Rattle.gs_layout.specs.declared.message.Change.{Change};
ghost use Rattle.gs_layout.specs.declared.message.Message.{Message};
ghost use Rattle.gs_layout.specs.Spelling.{IsSpellable};
ghost use Rattle.gs_journal.specs.History.{on};
ghost use Rattle.gs_kernel.specs.Kernel.{give_refusal, is_spent_there, preemption, take_refusal};

use crate::kernel::Kernel;
use crate::land::is_agent_on;
use crate::settings::LAST_TSEQ;
use gs_layout::{Change, Message, Refusal};
use gs_ring::Poster;

impl<P: Poster> Kernel<P> {
    /// Returns PREEMPTED of the thread on a CPU, if there is one.
    #[inline(always)]
    pub(crate) fn preemption(&self, cpu: u16) -> Option<Message>
        requires cpu { cpu < self.now.settings.cpus }
        requires numbers { is_spent_there self.now.settings self.now.history (on self.now.history cpu) ≡ false }
        ensures value { result ≡ preemption self.now.settings self.now.history cpu }
        ensures spellable { IfSome result IsSpellable }
    {
        let (tid, tseq) = self.victim(cpu)?;
        Some(Message::Thread {
            tid,
            tseq,
            change: Change::Preempted { cpu },
        })
    }

    /// Returns the thread on a CPU, if there is one, and the number of the next message about it.
    #[inline(always)]
    pub(crate) fn victim(&self, cpu: u16) -> Option<(u32, u32)>
        requires cpu { cpu < self.now.settings.cpus }
        requires numbers { is_spent_there self.now.settings self.now.history (on self.now.history cpu) ≡ false }
        ensures value { option_map (λ (v : ℕ × ℕ). Message.Thread v.0 v.1 (Change.Preempted cpu)) result ≡ preemption self.now.settings self.now.history cpu }
        ensures spellable { IfSome result (λ v. IsSpellable (Message.Thread v.0 v.1 (Change.Preempted cpu))) }
    {
        let Some(tid) = self.running[cpu as usize] else {
            return None;
        };
        Some((tid, self.seq(tid) + 1))
    }

    /// Returns the refusal that the other class's taking a CPU has of its own.
    #[tactic(auto, unfolding(crate::specs::Kernel::take_refusal))]
    pub(crate) fn take_refusal(&self, cpu: u16) -> Option<Refusal>
        ensures { result ≡ take_refusal self.now.settings self.now.history cpu }
    {
        if cpu >= self.settings.cpus {
            return Some(Refusal::BadCpu);
        }
        if is_agent_on(cpu, self.agents.active) {
            return Some(Refusal::AgentThere);
        }
        if self.taken.has(cpu) {
            return Some(Refusal::CpuTaken);
        }
        if self.is_spent_there(cpu) {
            return Some(Refusal::SeqSpent);
        }
        None
    }

    /// Returns whether the thread on a CPU, if there is one, can have no more messages.
    pub(crate) fn is_spent_there(&self, cpu: u16) -> bool
        requires { cpu < self.now.settings.cpus }
        ensures { result ≡ is_spent_there self.now.settings self.now.history (on self.now.history cpu) }
    {
        match self.running[cpu as usize] {
            Some(tid) => self.seq(tid) == LAST_TSEQ,
            None => false,
        }
    }

    /// Returns the refusal that its giving a CPU back has of its own.
    #[tactic(auto, unfolding(crate::specs::Kernel::give_refusal))]
    pub(crate) fn give_refusal(&self, cpu: u16) -> Option<Refusal>
        ensures { result ≡ give_refusal self.now.settings self.now.history cpu }
    {
        if cpu >= self.settings.cpus {
            return Some(Refusal::BadCpu);
        }
        if !self.taken.has(cpu) {
            return Some(Refusal::NotTaken);
        }
        None
    }
}
