ghost use Rattle.std.specs.Prelude.{◌≡◌, [], IfOk, OnOk, OnErr};
ghost use Rattle.gs_policy.specs.Shown.{shows};

use crate::choice::Choice;
use gs_beliefs::CpuBeliefs;
use gs_runq::RunQueue;
use gs_view::AgentView;
use std::alloc::{AllocError, Global};

/// How an agent chooses who runs where.
///
/// A policy decides by what it is shown. That is what the agent knows of each thread, whom it believes to run
/// on each CPU, which CPUs the other class holds, and who waits, in order. Its plan is a function of these,
/// `chosen`, which is the policy's own. Whatever it is, `safe` says that an agent may stamp it as it stands.
///
/// # Examples
///
/// What any policy plans, by what it is shown. docs/POLICIES.md leads through one of one's own:
///
/// ```
/// fn planned<P: Policy>(
///     alloc: Global,
///     policy: &P,
///     situation: &Situation,
/// ) -> Result<Vec<Choice>, AllocError> {
///     policy.plan(alloc, &situation.view, &situation.shown(), &situation.queue)
/// }
/// ```
pub trait Policy {
    ghost use Rattle.std.specs.Prelude.{List};
    ghost use Rattle.gs_runq.specs.Queue.{Apart};
    ghost use Rattle.gs_policy.specs.declared.choice.Choice.{Choice};
    ghost use Rattle.gs_policy.specs.Shown.{Shown};
    ghost use Rattle.gs_policy.specs.Safe.{IsSafePlan};

    /// The plan: what it chooses by what it is shown.
    ghost chosen: { Self → Shown → List Choice };

    /// Returns the choices, in the order in which they were made. `view` is what the agent knows of each thread. `cpus` is
    /// what it believes of each CPU, and which ones the other class holds. `queue` is who waits: class 0 before class 1,
    /// each thread once. It changes nothing.
    ///
    /// # Errors
    ///
    /// `AllocError` if out of memory for the choices.
    fn plan(
        &self,
        alloc: Global,
        view: &AgentView,
        cpus: &CpuBeliefs<'_>,
        queue: &RunQueue,
    ) -> Result<Vec<Choice>, AllocError>
        ensures { IfOk result (λ r. r.items ≡ chosen self.now (shows view.now.entries cpus.now queue.now)) };

    /// Puts the choices of [`Policy::plan`] into a list, in place of what was there.
    ///
    /// It is for a list that is kept from one plan to the next, so that a plan asks for no memory once the list has
    /// room. This body asks for a new list each time, and is for policies that do not write their own.
    ///
    /// # Errors
    ///
    /// `AllocError` if out of memory for the choices. The list is empty then.
    fn plan_into(
        &self,
        alloc: Global,
        view: &AgentView,
        cpus: &CpuBeliefs<'_>,
        queue: &RunQueue,
        choices: &mut Vec<Choice>,
    ) -> Result<(), AllocError>
        ensures ok { OnOk result (choices.new.items ≡ chosen self.now (shows view.now.entries cpus.now queue.now)) }
        ensures err { OnErr result (choices.new.items ≡ []) }
    {
        choices.clear();
        *choices = self.plan(alloc, view, cpus, queue)?;
        Ok(())
    }

    /// Law: of threads that wait, each once, the plan is safe to stamp.
    ghost safe: { (p : Self) (s : Shown) → Apart s.queue → IsSafePlan s (chosen p s) };
}
