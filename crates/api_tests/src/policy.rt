//! Plans of small queues, by each policy and through its trait.

mod first_only;
mod zero_preempts;

ghost use Rattle.std.specs.Prelude.{◌≤◌, IfOk};

use crate::messages::Told::Creation;
use crate::plans::{Plan, is_plan};
use crate::policy::first_only::FirstOnly;
use crate::policy::zero_preempts::ZeroPreempts;
use gs_beliefs::{Beliefs, CpuBeliefs};
use gs_layout::{Class, MOST_TIDS, Parcel};
use gs_policy::{
    AnyPolicy, Choice, Counted, FirstCome, Policy, TwoClass, leaves_none, plans_in_order,
};
use gs_reader::MessageRef;
use gs_runq::RunQueue;
use gs_status::{MOST_CPUS, Mask};
use gs_view::AgentView;
use std::alloc::{AllocError, Global};

const TWO_TICKS: TwoClass = TwoClass { slice: 2 };

/// What an agent knows and believes, and what each policy plans then. The agent has CPU 0.
struct Row {
    /// The classes of threads 1 and 2, and the mask that both have.
    classes: (Class, Class),
    mask: u128,
    /// Who waits, and in which class of the queue.
    waits: &'static [(u32, Class)],
    cpus: u16,
    /// How many ticks thread 1 has had on CPU 1, if it is believed to run there.
    ticks: Option<u16>,
    /// The thread that a stamp on CPU 1 names.
    stamped: Option<u32>,
    /// The CPUs that the other class holds.
    taken: u128,
    first_come: Plan,
    /// The plan of two classes with a slice of two ticks.
    two_class: Plan,
    /// The plan for the thread alone that waits first.
    first_only: Plan,
    /// The plan if only threads of class 0 preempt.
    zero_preempts: Plan,
}

const ROWS: [Row; 11] = [
    // Threads take the least free CPUs.
    Row {
        classes: (Class::Zero, Class::Zero),
        mask: 6,
        waits: &[(1, Class::Zero), (2, Class::Zero)],
        cpus: 3,
        ticks: None,
        stamped: None,
        taken: 0,
        first_come: &[(1, 1, false), (2, 2, false)],
        two_class: &[(1, 1, false), (2, 2, false)],
        first_only: &[(1, 1, false)],
        zero_preempts: &[(1, 1, false), (2, 2, false)],
    },
    // Nobody waits.
    Row {
        classes: (Class::Zero, Class::Zero),
        mask: 6,
        waits: &[],
        cpus: 3,
        ticks: None,
        stamped: None,
        taken: 0,
        first_come: &[],
        two_class: &[],
        first_only: &[],
        zero_preempts: &[],
    },
    // A thread of class 0 preempts one of class 1, and nobody if the first come first.
    Row {
        classes: (Class::One, Class::Zero),
        mask: 3,
        waits: &[(2, Class::Zero)],
        cpus: 2,
        ticks: Some(0),
        stamped: None,
        taken: 0,
        first_come: &[],
        two_class: &[(1, 2, true)],
        first_only: &[],
        zero_preempts: &[(1, 2, true)],
    },
    // One of class 1 waits for the slice of another, which is not over after one tick, and is after two.
    Row {
        classes: (Class::One, Class::One),
        mask: 2,
        waits: &[(2, Class::One)],
        cpus: 2,
        ticks: Some(1),
        stamped: None,
        taken: 0,
        first_come: &[],
        two_class: &[],
        first_only: &[],
        zero_preempts: &[],
    },
    Row {
        classes: (Class::One, Class::One),
        mask: 2,
        waits: &[(2, Class::One)],
        cpus: 2,
        ticks: Some(2),
        stamped: None,
        taken: 0,
        first_come: &[],
        two_class: &[(1, 2, true)],
        first_only: &[],
        zero_preempts: &[],
    },
    // CPU 1 is stamped, and CPU 2 is the only one that the other class does not hold.
    Row {
        classes: (Class::Zero, Class::Zero),
        mask: u128::MAX,
        waits: &[(1, Class::Zero), (2, Class::Zero)],
        cpus: 128,
        ticks: None,
        stamped: Some(9),
        taken: 0xffff_ffff_ffff_ffff_ffff_ffff_ffff_fffb,
        first_come: &[(2, 1, false)],
        two_class: &[(2, 1, false)],
        first_only: &[(2, 1, false)],
        zero_preempts: &[(2, 1, false)],
    },
    // Two CPUs for two threads, and then one.
    Row {
        classes: (Class::One, Class::Zero),
        mask: 6,
        waits: &[(1, Class::Zero), (2, Class::Zero)],
        cpus: 3,
        ticks: None,
        stamped: None,
        taken: 0,
        first_come: &[(1, 1, false), (2, 2, false)],
        two_class: &[(1, 1, false), (2, 2, false)],
        first_only: &[(1, 1, false)],
        zero_preempts: &[(1, 1, false), (2, 2, false)],
    },
    Row {
        classes: (Class::One, Class::Zero),
        mask: 6,
        waits: &[(1, Class::Zero), (2, Class::Zero)],
        cpus: 2,
        ticks: None,
        stamped: None,
        taken: 0,
        first_come: &[(1, 1, false)],
        two_class: &[(1, 1, false)],
        first_only: &[(1, 1, false)],
        zero_preempts: &[(1, 1, false)],
    },
    // None that is free, and one that runs a thread of class 1.
    Row {
        classes: (Class::One, Class::Zero),
        mask: 6,
        waits: &[(2, Class::Zero)],
        cpus: 2,
        ticks: Some(0),
        stamped: None,
        taken: 0,
        first_come: &[],
        two_class: &[(1, 2, true)],
        first_only: &[],
        zero_preempts: &[(1, 2, true)],
    },
    // It runs on a CPU that the other class holds.
    Row {
        classes: (Class::One, Class::Zero),
        mask: 6,
        waits: &[(2, Class::Zero)],
        cpus: 2,
        ticks: Some(9),
        stamped: None,
        taken: 0b010,
        first_come: &[],
        two_class: &[],
        first_only: &[],
        zero_preempts: &[],
    },
    // None is left for whoever comes last.
    Row {
        classes: (Class::One, Class::One),
        mask: 6,
        waits: &[(2, Class::One), (1, Class::One)],
        cpus: 3,
        ticks: None,
        stamped: None,
        taken: 0b010,
        first_come: &[(2, 2, false)],
        two_class: &[(2, 2, false)],
        first_only: &[(2, 2, false)],
        zero_preempts: &[(2, 2, false)],
    },
];

/// What an agent has in mind.
#[derive(Drop)]
struct Situation {
    view: AgentView,
    cpus: Beliefs,
    taken: Mask,
    queue: RunQueue,
}

impl Situation {
    /// What a policy is shown of its CPUs.
    fn shown(&self) -> CpuBeliefs<'_> {
        CpuBeliefs {
            beliefs: &self.cpus,
            taken: self.taken,
        }
    }
}

/// A view that knows threads 1 and 2 of a row.
fn known(alloc: Global, row: &Row) -> Option<AgentView> {
    let (first, second) = row.classes;
    let mut view = AgentView::new(alloc);
    for (tid, class) in [(1, first), (2, second)] {
        let Some(created) = Creation(tid, 1, class, row.mask, "web").message() else {
            return None;
        };
        let parcel = Parcel::new(&created);
        let _ = view.apply(MessageRef::in_parcel(&parcel)).ok()?;
    }
    Some(view)
}

/// A queue in which nobody waits, with room for every thread that there can be.
fn roomy(alloc: Global) -> Result<RunQueue, AllocError>
    ensures { IfOk result (λ queue. MOST_TIDS ≤ queue.room) }
{
    let mut queue = RunQueue::new(alloc);
    queue.reserve(MOST_TIDS)?;
    Ok(queue)
}

/// A queue in which those of a row wait, each of them once.
fn waiting(alloc: Global, row: &Row) -> Option<RunQueue> {
    let mut queue = roomy(alloc).ok()?;
    for (tid, class) in row.waits {
        if *tid < 1 || *tid > MOST_TIDS || queue.has(*tid) {
            return None;
        }
        queue.push(*tid, *class);
    }
    Some(queue)
}

/// What is believed of the CPUs of a row.
fn believed(alloc: Global, row: &Row) -> Option<Beliefs> {
    if row.cpus > MOST_CPUS {
        return None;
    }
    let mut cpus = Beliefs::new(alloc, row.cpus, Some(0)).ok()?;
    if let Some(ticks) = row.ticks {
        cpus.place(1, 1, 1);
        for _ in 0..ticks {
            cpus.tick(1);
        }
    }
    if let Some(tid) = row.stamped {
        cpus.stamp(1, tid);
    }
    Some(cpus)
}

/// The situation of a row.
fn situation_of(alloc: Global, row: &Row) -> Option<Situation> {
    Some(Situation {
        view: known(alloc, row)?,
        cpus: believed(alloc, row)?,
        taken: Mask::new(row.taken),
        queue: waiting(alloc, row)?,
    })
}

/// What a policy plans, by its trait alone.
fn planned<P: Policy>(
    alloc: Global,
    policy: &P,
    situation: &Situation,
) -> Result<Vec<Choice>, AllocError> {
    policy.plan(alloc, &situation.view, &situation.shown(), &situation.queue)
}

/// What a policy puts into a list that had another choice, by its trait alone.
fn planned_into<P: Policy>(
    alloc: Global,
    policy: &P,
    situation: &Situation,
) -> Result<Vec<Choice>, AllocError> {
    let mut choices = Vec::new(alloc);
    choices.push(choice(2, 9, true))?;
    policy.plan_into(
        alloc,
        &situation.view,
        &situation.shown(),
        &situation.queue,
        &mut choices,
    )?;
    Ok(choices)
}

/// How many choices a policy counts, by its trait alone.
fn counted<P: Counted>(policy: &P, situation: &Situation) -> usize {
    policy.count(&situation.view, &situation.shown(), &situation.queue)
}

/// Whether a policy plans this, and puts it into a list.
fn plans<P: Policy>(alloc: Global, policy: &P, situation: &Situation, expected: Plan) -> bool {
    let made = planned(alloc, policy, situation);
    let put = planned_into(alloc, policy, situation);
    match (made, put) {
        (Ok(made), Ok(put)) => is_plan(&made, expected) && is_plan(&put, expected),
        _ => false,
    }
}

/// Whether a policy plans this, and counts as many choices.
fn counts<P: Counted>(alloc: Global, policy: &P, situation: &Situation, expected: Plan) -> bool {
    plans(alloc, policy, situation, expected) && counted(policy, situation) == expected.len()
}

/// Whether each policy plans as a row says.
fn is_planned(alloc: Global, row: &Row) -> bool {
    let Some(situation) = situation_of(alloc, row) else {
        return false;
    };
    let either_first = AnyPolicy::FirstCome(FirstCome);
    let either_two = AnyPolicy::TwoClass(TWO_TICKS);
    counts(alloc, &FirstCome, &situation, row.first_come)
        && counts(alloc, &either_first, &situation, row.first_come)
        && counts(alloc, &TWO_TICKS, &situation, row.two_class)
        && counts(alloc, &either_two, &situation, row.two_class)
        && plans(alloc, &FirstOnly, &situation, row.first_only)
        && counts(alloc, &ZeroPreempts, &situation, row.zero_preempts)
}

fn choice(cpu: u16, tid: u32, preempt: bool) -> Choice {
    Choice { cpu, tid, preempt }
}

#[test]
fn plans_each_row(rt: HostRuntime) {
    for (index, row) in ROWS.iter().enumerate() {
        let well = is_planned(rt.alloc(), row);
        assert!(rt; well, "row {index}");
    }
}

#[test]
fn policies_are_values(rt: HostRuntime) {
    assert_eq!(rt; FirstCome, FirstCome);
    assert_ne!(rt; TWO_TICKS, TwoClass { slice: 3 });
    assert_ne!(rt;
        AnyPolicy::TwoClass(TWO_TICKS),
        AnyPolicy::FirstCome(FirstCome)
    );
    assert_ne!(rt; choice(1, 2, true), choice(1, 2, false));
    plans_in_order();
    leaves_none();
}
