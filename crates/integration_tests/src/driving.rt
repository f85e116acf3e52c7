//! A policy of one's own in the role of an agent. Threads come to it out of the kernel's ring, and what it
//! chooses goes to the kernel by the slots.

use crate::BothEnds;
use gs_agent::Role;
use gs_kernel::{Executed, Kernel, Landing, Settings};
use gs_layout::{Class, Facts, Name, Outcome};
use gs_policy::{Choice, Policy};
use gs_ring::ByteRing;
use gs_slots::{Flags, Region, SlotState, Stamp};
use gs_status::Mask;
use std::alloc::Global;
use std::test::Fail;

/// Four CPUs, the agent on CPU 0, and a journal that never fills here.
const SETTINGS: Settings = Settings {
    cpus: 4,
    first_tseq: 0,
    first_generation: 1,
    history: 100,
};

/// A kernel, the role of its agent, and the slots between them.
#[derive(Drop)]
struct Enclave<P> {
    kernel: Kernel<ByteRing>,
    role: Role<P>,
    region: Region,
}

impl<P> Enclave<P> {
    /// An enclave without threads, whose agent plans by this policy.
    fn new(alloc: Global, policy: P) -> Option<Enclave<P>>
    where
        P: Drop,
    {
        let ring = ByteRing::new(alloc, 1024).ok()?;
        Some(Enclave {
            kernel: Kernel::new(alloc, SETTINGS, ring).ok()?,
            role: Role::new(alloc, policy, 4, 1, 0).ok()?,
            region: Region::new(alloc, 4).ok()?,
        })
    }
}

/// A runnable thread that may run on every CPU but the agent's.
fn facts(class: Class) -> Option<Facts> {
    Some(Facts {
        runnable: true,
        mask: Mask::new(0b1110),
        class,
        name: Name::new(b"web")?,
    })
}

/// Creates a thread of each class, in order. Returns whether all were created.
fn create(kernel: &mut Kernel<ByteRing>, classes: &[Class]) -> bool {
    for class in classes {
        let Some(facts) = facts(*class) else {
            return false;
        };
        if !matches!(kernel.create(&facts), Ok(Executed::Done)) {
            return false;
        }
    }
    true
}

/// Stamps each choice of a plan into the slot of its CPU. Returns whether all were stamped.
fn stamp<P>(role: &mut Role<P>, region: &mut Region, plan: &[Choice]) -> bool {
    for choice in plan {
        if choice.cpu >= region.cpus() {
            return false;
        }
        let slot = region.slot(choice.cpu);
        let flags = Flags::single(choice.preempt);
        if role.stamp(slot, choice.tid, flags).is_err() {
            return false;
        }
    }
    true
}

/// A turn of the agent. Choices and landings are a CPU and a thread.
#[derive(Clone, Copy)]
struct Turn {
    /// The threads that are created before it, by their classes. They are numbered from 1.
    created: &'static [Class],
    /// The CPUs that the other class holds.
    taken: u128,
    /// The choices, of which none preempts.
    plan: &'static [(u16, u32)],
    /// The threads that are stamped on the four CPUs behind it.
    stamped: [Option<u32>; 4],
    /// The first thread that waits behind it.
    waits: Option<u32>,
    /// The threads that are placed, if the slots land then.
    placed: Option<&'static [(u16, u32)]>,
    /// The thread that is believed to run on the last CPU then.
    believed: Option<u32>,
}

/// Whether these are the choices.
fn is_plan(plan: &[Choice], wanted: &[(u16, u32)]) -> bool {
    for (choice, (cpu, tid)) in plan.iter().zip(wanted) {
        let wanted = Choice {
            cpu: *cpu,
            tid: *tid,
            preempt: false,
        };
        if *choice != wanted {
            return false;
        }
    }
    plan.len() == wanted.len()
}

/// The agent takes in what the kernel has told, decides, and stamps its choices. Returns whether that is the
/// plan.
fn plans<P: Policy>(alloc: Global, enclave: &mut Enclave<P>, turn: &Turn) -> bool {
    let drained = enclave.role.drain(&mut enclave.kernel.taker(), 9);
    if drained.stop.is_some() {
        return false;
    }
    let Ok(plan) = enclave.role.decide(alloc, Mask::new(turn.taken)) else {
        return false;
    };
    is_plan(&plan, turn.plan) && stamp(&mut enclave.role, &mut enclave.region, &plan)
}

/// Whether what is in the slots are stamps of these threads, as they were created.
fn holds(region: &Region, stamped: &[Option<u32>]) -> bool {
    for (cpu, tid) in (0..4).zip(stamped) {
        let wanted = match *tid {
            Some(tid) => SlotState::Stamped {
                stamp: Stamp {
                    generation: 1,
                    tid,
                    tseq: 1,
                    flags: Flags::NONE,
                },
            },
            None => SlotState::Idle,
        };
        if cpu >= region.cpus() || region.state(cpu) != Ok(wanted) {
            return false;
        }
    }
    true
}

/// Whether these threads were placed on the CPUs of their slots, as they were created.
fn are_placed(landings: &[Landing], wanted: &[(u16, u32)]) -> bool {
    for (landing, (cpu, tid)) in landings.iter().zip(wanted) {
        let wanted = Landing {
            cpu: *cpu,
            tid: *tid,
            outcome: Outcome::Placed,
            seen: 1,
            at: Some(*cpu),
        };
        if *landing != wanted {
            return false;
        }
    }
    landings.len() == wanted.len()
}

/// The stamped slots of all CPUs land, and the agent learns what became of them. Returns whether these were
/// placed.
fn lands<P>(alloc: Global, enclave: &mut Enclave<P>, wanted: &[(u16, u32)]) -> bool {
    if enclave.region.cpus() != enclave.kernel.settings().cpus {
        return false;
    }
    let all = Mask::new(0b1111);
    let Ok(landings) = enclave.kernel.txns_commit(alloc, &mut enclave.region, all) else {
        return false;
    };
    enclave.role.collect(&mut enclave.region);
    are_placed(&landings, wanted)
}

/// Whether a turn goes as it has to.
fn goes<P: Policy>(alloc: Global, enclave: &mut Enclave<P>, turn: &Turn) -> bool {
    if !create(&mut enclave.kernel, turn.created) || !plans(alloc, enclave, turn) {
        return false;
    }
    if !holds(&enclave.region, &turn.stamped) || enclave.role.waiting().next() != turn.waits {
        return false;
    }
    if let Some(placed) = turn.placed {
        if !lands(alloc, enclave, placed) {
            return false;
        }
    }
    enclave.role.believed(3).map(|running| running.tid) == turn.believed
}

/// The first turn of an enclave that plans from both ends that goes otherwise.
fn first_wrong(alloc: Global, turns: &[Turn]) -> Option<usize> {
    let Some(mut enclave) = Enclave::new(alloc, BothEnds) else {
        return Some(0);
    };
    for (i, turn) in turns.iter().enumerate() {
        if !goes(alloc, &mut enclave, turn) {
            return Some(i);
        }
    }
    None
}

/// Class 0 from the low end, class 1 from the high one. Who was stamped is not planned again, and of those who come
/// only the first finds a CPU that was not.
const FROM_BOTH_ENDS: [Turn; 3] = [
    Turn {
        created: &[Class::Zero, Class::One],
        taken: 0,
        plan: &[(1, 1), (3, 2)],
        stamped: [None, Some(1), None, Some(2)],
        waits: None,
        placed: None,
        believed: None,
    },
    Turn {
        created: &[],
        taken: 0,
        plan: &[],
        stamped: [None, Some(1), None, Some(2)],
        waits: None,
        placed: None,
        believed: None,
    },
    Turn {
        created: &[Class::One, Class::Zero],
        taken: 0,
        plan: &[(2, 4)],
        stamped: [None, Some(1), Some(4), Some(2)],
        waits: Some(3),
        placed: None,
        believed: None,
    },
];

/// A CPU that the other class holds is passed over.
const LAST_CPU_TAKEN: [Turn; 1] = [Turn {
    created: &[Class::Zero, Class::One],
    taken: 0b1000,
    plan: &[(1, 1), (2, 2)],
    stamped: [None, Some(1), Some(2), None],
    waits: None,
    placed: None,
    believed: None,
}];

/// A thread of class 0 waits while threads of class 1 run.
const NOBODY_PREEMPTED: [Turn; 2] = [
    Turn {
        created: &[Class::Zero, Class::One, Class::One],
        taken: 0,
        plan: &[(1, 1), (3, 2), (2, 3)],
        stamped: [None, Some(1), Some(3), Some(2)],
        waits: None,
        placed: Some(&[(1, 1), (2, 3), (3, 2)]),
        believed: Some(2),
    },
    Turn {
        created: &[Class::Zero],
        taken: 0,
        plan: &[],
        stamped: [None; 4],
        waits: Some(4),
        placed: None,
        believed: Some(2),
    },
];

#[test]
fn plans_from_both_ends(rt: HostRuntime) {
    assert_eq!(rt; first_wrong(rt.alloc(), &FROM_BOTH_ENDS), None);
    assert_eq!(rt; first_wrong(rt.alloc(), &LAST_CPU_TAKEN), None);
    assert_eq!(rt; first_wrong(rt.alloc(), &NOBODY_PREEMPTED), None);
}
