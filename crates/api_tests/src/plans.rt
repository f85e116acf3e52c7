//! Plans as tables have them.

use gs_policy::Choice;
use gs_runq::QueueWalk;

/// The choices of a plan, in order: the CPU and the thread of each, and whether it preempts.
pub(crate) type Plan = &'static [(u16, u32, bool)];

/// Whether a plan has just these choices, in this order.
pub(crate) fn is_plan(choices: &[Choice], expected: &[(u16, u32, bool)]) -> bool {
    let mut expected = expected.iter();
    for choice in choices {
        if expected.next() != Some(&(choice.cpu, choice.tid, choice.preempt)) {
            return false;
        }
    }
    expected.next().is_none()
}

/// Whether a walk over those who wait shows just these, in this order.
pub(crate) fn is_order(mut waiting: QueueWalk<'_>, tids: &[u32]) -> bool {
    for tid in tids {
        if waiting.next() != Some(*tid) {
            return false;
        }
    }
    waiting.next().is_none()
}
