//! Replacing one agent by another.

ghost use Rattle.std.specs.Prelude.{◌≡◌, ◌≤◌, IfOk, OnErr, OnOk};
ghost use Rattle.gs_core.specs.Machine.{planning};
ghost use Rattle.gs_core.specs.Replacing.{Replaces};

use crate::machine::Machine;
use crate::stage::Stage;
use gs_policy::Counted;
use gs_replies::Reply;
use std::alloc::AllocError;

impl<P: Counted + Copy> Machine<P> {
    /// Replaces the agent by a new one, which plans by the same policy and becomes active on a CPU. The agent
    /// crashes, if one is active or attaches. A new one begins, is told of the threads that live in pages of
    /// at most `max`, and becomes active. After the first of these events that is refused, or that tears the
    /// enclave down, no other comes. Returns the reply of each.
    ///
    /// # Errors
    ///
    /// If out of memory for the replies. Then no event ran.
    ///
    /// # Examples
    ///
    /// After some events a new agent takes over, and drains what was posted meanwhile:
    ///
    /// ```
    /// machine.run(events)?;
    /// let replies = machine.replace(CPU, PAGE)?;
    /// write_all(lines, &replies)?;
    /// step(machine, &Event::Drain { max: u32::MAX }, lines)?;
    /// ```
    pub fn replace(&mut self, cpu: u16, max: u16) -> Result<Vec<Reply>, AllocError>
        requires { 1 ≤ max }
        ensures replaces { IfOk result (λ replies. Replaces cpu max (planning P.chosen self.old) replies.items (planning P.chosen self.new)) }
        ensures policy { OnOk result (self.new.policy ≡ self.old.policy) }
        ensures unchanged { OnErr result (self.new ≡ self.old) }
    {
        let most = self.kernel.created() / max as usize + 4;
        let mut replies = Vec::with_capacity(self.alloc, most)?;
        let mut next = Some(Stage::first(self.kernel.has_agent()));
        'stages: while let Some(stage) = next {
            let reply = self.step(&stage.event(cpu, max));
            next = stage.after(&reply);
            replies.push_reserved(reply);
        }
        Ok(replies)
    }
}
