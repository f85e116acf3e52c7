ghost use Rattle.std.specs.Prelude.{◌≡◌, ◌≤◌, [], true, IfOk, OnOk, OnErr, length};
ghost use Rattle.std.specs.Iterator.{YieldsFirst, item_count};
ghost use Rattle.gs_layout.specs.View.{look_up};
ghost use Rattle.gs_runq.specs.Queue.{order};
ghost use Rattle.gs_policy.specs.Candidates.{choices_of, plan_among};
ghost use Rattle.gs_policy.specs.Shown.{shows};

use crate::candidates::Candidates;
use crate::choice::Choice;
use gs_beliefs::CpuBeliefs;
use gs_runq::{QueueWalk, RunQueue};
use gs_status::MOST_CPUS;
use gs_view::AgentView;
use std::alloc::{AllocError, Global};
use std::marker::Model;

/// The choices of the waiting threads among some CPUs, one thread after another, until no CPU can be
/// chosen any more.
#[derive(Drop)]
struct Choices<'a> {
    view: &'a AgentView,
    threads: QueueWalk<'a>,
    left: Candidates,
}

impl<'a> Model for Choices<'a> {
    ghost use Rattle.std.specs.Prelude.{List};
    ghost use Rattle.gs_policy.specs.declared.choice.Choice.{Choice as ChoiceOf};
    ghost use Rattle.gs_policy.specs.Walks.{choices_left};

    ghost Value = { List ChoiceOf };

    ghost view = { choices_left };
}

impl<'a> Iterator for Choices<'a> {
    type Item = Choice;

    ghost next_gives = { YieldsFirst (λ xs. xs) };

    ghost remaining = { item_count (λ xs. xs) };

    #[tactic(auto, using(crate::proofs::Left::planned_spent))]
    #[inline(always)]
    fn next(&mut self) -> Option<Choice> {
        while !self.left.are_spent() {
            let tid = self.threads.next()?;
            if let Some(choice) = self.left.choose(self.view, tid) {
                return Some(choice);
            }
        }
        None
    }
}

/// Walks the choices of all that wait. There are no more of them than threads, nor than there may be CPUs.
#[tactic(auto, using(crate::proofs::Left::planned_few, crate::proofs::Most::planned_most))]
fn choose<'a>(view: &'a AgentView, queue: &'a RunQueue, all: Candidates) -> Choices<'a>
    ensures choices { result ≡ choices_of all (look_up view.now.entries) (order queue.now) }
    ensures few { length result ≤ length (order queue.now) }
    ensures most { length result ≤ MOST_CPUS }
{
    Choices {
        view,
        threads: queue.walk(),
        left: all,
    }
}

/// Returns the choices of the waiting threads among these CPUs, one thread after another. Each takes the
/// least free one of its mask, or else the least one of its mask that its class may take from somebody, and
/// so uses that CPU up. A thread that is unknown, or for which no CPU is left, has no choice.
///
/// The walk ends as soon as no CPU is left. There are no more choices than CPUs or threads, and they are
/// allocated at once.
///
/// # Errors
///
/// `AllocError` if out of memory for the choices.
pub fn plan_among(
    alloc: Global,
    view: &AgentView,
    cpus: &CpuBeliefs<'_>,
    queue: &RunQueue,
    all: Candidates,
) -> Result<Vec<Choice>, AllocError>
    ensures { IfOk result (λ r. r.items ≡ plan_among all (shows view.now.entries cpus.now queue.now)) }
{
    let most = queue.len().min(cpus.cpus() as usize);
    let mut plan = Vec::with_capacity(alloc, most)?;
    plan.extend(choose(view, queue, all))?;
    Ok(plan)
}

/// Puts the choices that [`plan_among`] makes of these CPUs into a list, in place of what was there.
///
/// It allocates nothing if the list has room for as many choices as threads wait, or for [`MOST_CPUS`]. There are
/// never more.
///
/// # Errors
///
/// `AllocError` if out of memory for the choices. The list is empty then.
#[inline(always)]
pub fn plan_among_into(
    view: &AgentView,
    queue: &RunQueue,
    all: Candidates,
    choices: &mut Vec<Choice>,
) -> Result<(), AllocError>
    ensures ok { OnOk result (choices.new.items ≡ choices_of all (look_up view.now.entries) (order queue.now)) }
    ensures err { OnErr result (choices.new.items ≡ []) }
{
    let most = queue.len().min(MOST_CPUS as usize);
    choices.clear();
    choices.reserve(most)?;
    for choice in choose(view, queue, all) {
        choices.push_reserved(choice);
    }
    Ok(())
}

/// Returns how many choices [`plan_among`] makes of these CPUs. It does not allocate.
pub fn count_among(view: &AgentView, queue: &RunQueue, all: Candidates) -> usize
    ensures { result ≡ length (choices_of all (look_up view.now.entries) (order queue.now)) }
{
    // No more choices than threads that wait, so that their number fits.
    let _most = queue.len();
    choose(view, queue, all).count()
}

/// Returns whether these CPUs serve all that wait: each has a choice among them. It does not allocate, and
/// goes through no more threads than there may be CPUs.
pub(crate) fn serve_all(view: &AgentView, queue: &RunQueue, all: Candidates) -> bool
    ensures { result ≡ true → length (choices_of all (look_up view.now.entries) (order queue.now)) ≡ length (order queue.now) }
{
    let waiting = queue.len();
    if waiting > MOST_CPUS as usize {
        return false;
    }
    count_among(view, queue, all) == waiting
}
