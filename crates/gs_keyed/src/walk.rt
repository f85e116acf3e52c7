ghost use Rattle.std.specs.Prelude.{◌≡◌, IfOk, length};
ghost use Rattle.gs_layout.specs.View.{look_up};
ghost use Rattle.gs_keyed.specs.Order.{in_order};
ghost use Rattle.gs_policy.specs.Candidates.{choices_of};
ghost use Rattle.gs_policy.specs.Shown.{shows};

use crate::key::Key;
use crate::order::{in_order, next_in_order};
use gs_beliefs::CpuBeliefs;
use gs_policy::{Candidates, Choice};
use gs_runq::RunQueue;
use gs_view::AgentView;
use std::alloc::{AllocError, Global};

/// Returns the choices of the waiting threads among these CPUs, one thread after another in the order of their keys.
/// Each chooses as in [`gs_policy::plan_among`].
///
/// # Errors
///
/// `AllocError` if out of memory for the order or the choices.
pub fn plan_by_key<K: Key>(
    alloc: Global,
    key: &K,
    view: &AgentView,
    cpus: &CpuBeliefs<'_>,
    queue: &RunQueue,
    all: Candidates,
) -> Result<Vec<Choice>, AllocError>
    ensures { IfOk result (λ r. r.items ≡ choices_of all (look_up view.now.entries) (in_order (K.key_of key.now) (shows view.now.entries cpus.now queue.now))) }
{
    let order = in_order(alloc, key, view, cpus, queue)?;
    let most = order.len().min(cpus.cpus() as usize);
    let mut plan = Vec::with_capacity(alloc, most)?;
    let mut left = all;
    for rank in &order {
        if left.are_spent() {
            return Ok(plan);
        }
        let Some(choice) = left.choose(view, rank.tid) else {
            continue;
        };
        plan.push(choice)?;
    }
    Ok(plan)
}

/// Returns how many choices [`plan_by_key`] makes of these CPUs. It does not allocate: for each thread that it comes to
/// it goes through all that wait.
pub fn count_by_key<K: Key>(
    key: &K,
    view: &AgentView,
    cpus: &CpuBeliefs<'_>,
    queue: &RunQueue,
    all: Candidates,
) -> usize
    ensures { result ≡ length (choices_of all (look_up view.now.entries) (in_order (K.key_of key.now) (shows view.now.entries cpus.now queue.now))) }
{
    // No more choices than threads that wait, so that their number fits.
    let _most = queue.len();
    let mut left = all;
    let mut count = 0;
    let mut last = None;
    while !left.are_spent() {
        let Some(rank) = next_in_order(key, view, cpus, queue, last) else {
            return count;
        };
        last = Some(rank);
        if left.choose(view, rank.tid).is_some() {
            count += 1;
        }
    }
    count
}
