//! Whether a view is what the kernel knows.

ghost use Rattle.std.specs.Prelude.{◌≡◌, ◌⊎◌, ◌↔◌, ℕ, ◌<◌, IsTrue, None, Some, length};
ghost use Rattle.gs_layout.specs.View.{look_up};
ghost use Rattle.gs_journal.specs.History.{created};
ghost use Rattle.gs_journal.specs.State.{state};
ghost use Rattle.gs_runner.specs.Settles.{AreKnown, AreSame};

use crate::same::same_facts;
use gs_kernel::Kernel;
use gs_layout::{Facts, Known};
use gs_link::RtrbPoster;
use gs_view::AgentView;

/// Returns whether these facts, at this number, are what is known.
fn is_that(known: &Known, facts: &Facts, tseq: u32) -> bool
    ensures { IsTrue result ↔ (known.now ≡ record { facts = facts.now; tseq = tseq }) }
{
    known.tseq == tseq && same_facts(&known.facts, facts)
}

/// Returns whether the kernel knows of a thread these facts, at this number.
fn is_known(kernel: &Kernel<RtrbPoster>, tid: u32, facts: &Facts, tseq: u32) -> bool
    ensures { IsTrue result ↔ (state kernel.now.settings.first_tseq kernel.now.history tid ≡ Some (record { facts = facts.now; tseq = tseq })) }
{
    match kernel.known(tid) {
        Some(known) => is_that(&known, facts, tseq),
        None => false,
    }
}

/// Returns whether a view knows of a thread what the kernel knows.
fn is_same(view: &AgentView, kernel: &Kernel<RtrbPoster>, tid: u32) -> bool
    ensures { IsTrue result ↔ (look_up view.now.entries tid ≡ state kernel.now.settings.first_tseq kernel.now.history tid) }
{
    match view.get(tid) {
        Some((facts, tseq)) => is_known(kernel, tid, facts, tseq),
        None => kernel.known(tid).is_none(),
    }
}

/// Returns whether the kernel knows all that a view knows.
fn are_known(view: &AgentView, kernel: &Kernel<RtrbPoster>) -> bool
    ensures exact { IsTrue result ↔ AreKnown (state kernel.now.settings.first_tseq kernel.now.history) view.now.entries }
    ensures listed { AreKnown (look_up view.now.entries) view.now.entries }
{
    for (tid, facts, tseq) in view.walk() {
        if !is_known(kernel, tid, facts, tseq) {
            return false;
        }
    }
    true
}

/// Returns whether a view knows of each thread that ever was what the kernel knows.
fn are_same(view: &AgentView, kernel: &Kernel<RtrbPoster>) -> bool
    ensures exact { IsTrue result ↔ AreSame (state kernel.now.settings.first_tseq kernel.now.history) (look_up view.now.entries) (length (created kernel.now.history)) }
    ensures others { (t : ℕ) → (t ≡ 0) ⊎ (length (created kernel.now.history) < t) → state kernel.now.settings.first_tseq kernel.now.history t ≡ None }
{
    let count = kernel.created() as u32;
    let mut tid = 0;
    'walk: while tid < count {
        tid += 1;
        if !is_same(view, kernel, tid) {
            return false;
        }
    }
    true
}

/// Returns whether a view is what the kernel knows of the threads that live. It does not allocate.
pub(crate) fn knows_all(view: &AgentView, kernel: &Kernel<RtrbPoster>) -> bool
    ensures { IsTrue result ↔ (look_up view.now.entries ≡ state kernel.now.settings.first_tseq kernel.now.history) }
{
    are_known(view, kernel) && are_same(view, kernel)
}
