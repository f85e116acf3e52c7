//! What a machine and a kernel show to those who call them, beyond the lines of their replies.

use gs_agent::Drained;
use gs_core::{Config, ConfigFault, Event, Machine, Reply};
use gs_kernel::{Command, Executed, Kernel, Landing, Settings, ThreadEvent};
use gs_layout::{Class, Facts, Name, Outcome};
use gs_policy::{AnyPolicy, Choice, FirstCome, TwoClass};
use gs_ring::ByteRing;
use gs_slots::{Flags, SlotState, Stamp};
use gs_status::Mask;
use std::alloc::Global;
use std::test::Fail;

const TWO_CPUS: Config<AnyPolicy> = Config {
    cpus: 2,
    ring: 128,
    first_tseq: 0,
    first_generation: 1,
    history: 100,
    policy: AnyPolicy::FirstCome(FirstCome),
};

const THREE_CPUS: Config<AnyPolicy> = Config {
    cpus: 3,
    ring: 256,
    ..TWO_CPUS
};

/// Configurations with two faults or one, and the first of them.
const FAULTS: [(Config<AnyPolicy>, ConfigFault); 4] = [
    (
        Config {
            cpus: 129,
            ring: 0,
            ..TWO_CPUS
        },
        ConfigFault::BadCpus,
    ),
    (
        Config {
            ring: 132,
            first_generation: 0,
            ..TWO_CPUS
        },
        ConfigFault::BadRing,
    ),
    (
        Config {
            first_tseq: u32::MAX,
            history: 1,
            ..TWO_CPUS
        },
        ConfigFault::BadFirst,
    ),
    (
        Config {
            history: 16_777_217,
            ..TWO_CPUS
        },
        ConfigFault::BadHistory,
    ),
];

/// The first row of `FAULTS` that comes out otherwise.
fn first_wrong_fault(alloc: Global) -> Option<usize> {
    for (i, (config, fault)) in FAULTS.iter().enumerate() {
        if Machine::new(alloc, *config).err() != Some(*fault) {
            return Some(i);
        }
    }
    None
}

/// A look at a machine, and what it has to show.
#[derive(Clone, Copy)]
enum Look {
    /// The status word of a thread.
    Status(u32, Option<u64>),
    /// The thread that is on a CPU, by the first entries of the journal, so many.
    OnCpu(usize, u16, Option<u32>),
    /// Whether the other class holds a CPU.
    Taken(u16, bool),
    /// The thread that the agent believes to run on a CPU.
    Believed(u16, Option<u32>),
    /// How many threads the agent knows, `None` if there is no agent.
    Known(Option<usize>),
    /// How many slots there are.
    Slots(u16),
    /// Whether the slot of a CPU is idle.
    Idle(u16, bool),
    /// A transaction by its number: its CPU, and the generation, the thread and the number that it is stamped with.
    Transaction(u32, Option<(u16, u32, u32, u32)>),
}

fn stamped(machine: &Machine<AnyPolicy>, number: u32) -> Option<(u16, u32, u32, u32)> {
    let transaction = machine.transaction(number)?;
    let slot = transaction.slot;
    Some((transaction.cpu, slot.generation, slot.tid, slot.tseq))
}

fn is_idle(machine: &Machine<AnyPolicy>, cpu: u16) -> bool {
    let region = machine.region();
    cpu < region.cpus() && region.state(cpu) == Ok(SlotState::Idle)
}

fn believed(machine: &Machine<AnyPolicy>, cpu: u16) -> Option<u32> {
    Some(machine.role()?.believed(cpu)?.tid)
}

fn known(machine: &Machine<AnyPolicy>) -> Option<usize> {
    Some(machine.role()?.view().len())
}

/// Whether a look shows what it has to.
fn is_so(machine: &Machine<AnyPolicy>, look: Look) -> bool {
    match look {
        Look::Status(tid, wanted) => machine.kernel().status(tid) == wanted,
        Look::OnCpu(count, cpu, wanted) => machine.kernel().journal().on_cpu(count, cpu) == wanted,
        Look::Taken(cpu, wanted) => machine.kernel().taken().has(cpu) == wanted,
        Look::Believed(cpu, wanted) => believed(machine, cpu) == wanted,
        Look::Known(wanted) => known(machine) == wanted,
        Look::Slots(wanted) => machine.region().cpus() == wanted,
        Look::Idle(cpu, wanted) => is_idle(machine, cpu) == wanted,
        Look::Transaction(number, wanted) => stamped(machine, number) == wanted,
    }
}

/// The CPU that the thread of the first landing is on then.
fn first_place(landings: &[Landing]) -> Option<u32> {
    let at = landings.first()?.at?;
    Some(at as u32)
}

/// The number that a reply has and its lines may not show: that of the first transaction, or the CPU that the thread
/// of the first landing is on.
fn number_of(reply: &Reply) -> Option<u32> {
    match reply {
        Reply::Stamped { number } => Some(*number),
        Reply::Decided { first, .. } => Some(*first),
        Reply::Landed { landings, .. } => first_place(landings.as_slice()),
        _ => None,
    }
}

/// An event, the number that its reply has, and what is to be seen behind it.
type Row<'a> = (Event<AnyPolicy>, Option<u32>, &'a [Look]);

/// The first event that comes out otherwise, or behind which something else is seen.
fn first_wrong(machine: &mut Machine<AnyPolicy>, rows: &[Row<'_>]) -> Option<usize> {
    for (i, (event, number, looks)) in rows.iter().enumerate() {
        if number_of(&machine.step(event)) != *number {
            return Some(i);
        }
        for look in *looks {
            if !is_so(machine, *look) {
                return Some(i);
            }
        }
    }
    None
}

/// The same, of a new machine.
fn first_wrong_of_new(
    alloc: Global,
    config: Config<AnyPolicy>,
    rows: &[Row<'_>],
) -> Result<Option<usize>, ConfigFault> {
    let mut machine = Machine::new(alloc, config)?;
    Ok(first_wrong(&mut machine, rows))
}

fn tell(command: Command) -> Event<AnyPolicy> {
    Event::Kernel { command }
}

/// A runnable thread that may run on these CPUs is created.
fn creation(mask: u128) -> Option<Event<AnyPolicy>> {
    let facts = Facts {
        runnable: true,
        mask: Mask::new(mask),
        class: Class::Zero,
        name: Name::new(b"web")?,
    };
    Some(tell(Command::Create { facts }))
}

fn stamp(cpu: u16, tid: u32) -> Event<AnyPolicy> {
    Event::Stamp {
        cpu,
        tid,
        flags: Flags::NONE,
    }
}

fn commit(mask: u128) -> Event<AnyPolicy> {
    Event::Commit {
        mask: Mask::new(mask),
    }
}

fn happens(event: ThreadEvent) -> Event<AnyPolicy> {
    tell(Command::Thread { tid: 1, event })
}

/// The other class takes a CPU off which it takes a thread, and gives it back.
#[test]
fn shows_a_taken_cpu(rt: HostRuntime) -> Result<(), Fail> {
    let rows: [Row<'_>; 6] = [
        (creation(3).ok_or("a name")?, None, &[]),
        (Event::Drain { max: 1 }, None, &[Look::Idle(1, true)]),
        (stamp(1, 1), Some(1), &[Look::Idle(1, false)]),
        (
            commit(2),
            Some(1),
            &[
                Look::OnCpu(3, 1, Some(1)),
                Look::Status(1, Some(0x0000_0701_0000_0001)),
                Look::Status(2, None),
                Look::Transaction(0, None),
                Look::Transaction(1, Some((1, 1, 1, 1))),
                Look::Transaction(2, None),
            ],
        ),
        (
            tell(Command::Take { cpu: 1 }),
            None,
            &[
                Look::Taken(1, true),
                Look::Status(1, Some(0x0000_03ff_0000_0002)),
            ],
        ),
        (
            tell(Command::Give { cpu: 1 }),
            None,
            &[Look::Taken(1, false)],
        ),
    ];
    assert_eq!(rt; first_wrong_of_new(rt.alloc(), TWO_CPUS, &rows)?, None);
    Ok(())
}

/// A thread that is placed blocks, which the agent has not heard yet, and dies.
#[test]
fn shows_a_thread(rt: HostRuntime) -> Result<(), Fail> {
    let rows: [Row<'_>; 7] = [
        (creation(3).ok_or("a name")?, None, &[]),
        (Event::Drain { max: 1 }, None, &[]),
        (stamp(1, 1), Some(1), &[]),
        (commit(2), Some(1), &[]),
        (happens(ThreadEvent::Wake), None, &[]),
        (
            happens(ThreadEvent::Block),
            None,
            &[Look::Known(Some(1)), Look::Slots(2), Look::Idle(1, true)],
        ),
        (
            happens(ThreadEvent::Die),
            None,
            &[Look::Status(1, Some(0x0000_00ff_0000_0003))],
        ),
    ];
    assert_eq!(rt; first_wrong_of_new(rt.alloc(), TWO_CPUS, &rows)?, None);
    Ok(())
}

/// What the policy plans is stamped under numbers that go on, and once it landed the agent believes it.
#[test]
fn shows_decisions(rt: HostRuntime) -> Result<(), Fail> {
    let creation = creation(6).ok_or("a name")?;
    let rows: [Row<'_>; 9] = [
        (Event::Decide, Some(1), &[]),
        (creation, None, &[]),
        (creation, None, &[]),
        (tell(Command::Take { cpu: 1 }), None, &[]),
        (Event::Drain { max: 2 }, None, &[]),
        (Event::Decide, Some(1), &[]),
        (tell(Command::Give { cpu: 1 }), None, &[]),
        (Event::Decide, Some(2), &[]),
        (
            commit(6),
            Some(1),
            &[Look::Believed(1, Some(2)), Look::Believed(2, Some(1))],
        ),
    ];
    assert_eq!(rt; first_wrong_of_new(rt.alloc(), THREE_CPUS, &rows)?, None);
    Ok(())
}

/// A plan for which too few numbers are left takes none.
#[test]
fn shows_a_refused_decision(rt: HostRuntime) -> Result<(), Fail> {
    let short = Config {
        history: 3,
        policy: AnyPolicy::TwoClass(TwoClass { slice: 1 }),
        ..THREE_CPUS
    };
    let on_last = creation(4).ok_or("a name")?;
    let on_first = creation(2).ok_or("a name")?;
    let rows: [Row<'_>; 9] = [
        (on_last, None, &[]),
        (on_first, None, &[]),
        (Event::Drain { max: 2 }, None, &[]),
        (stamp(1, 2), Some(1), &[]),
        (stamp(2, 1), Some(2), &[]),
        (commit(6), None, &[]),
        (Event::Decide, None, &[Look::Transaction(3, None)]),
        (stamp(2, 2), Some(3), &[]),
        (Event::Decide, Some(4), &[]),
    ];
    assert_eq!(rt; first_wrong_of_new(rt.alloc(), short, &rows)?, None);
    Ok(())
}

/// An agent crashes with a stamp in a slot. The next one knows nothing until it is told, and finds the slots idle.
#[test]
fn shows_an_upgrade(rt: HostRuntime) -> Result<(), Fail> {
    let policy = AnyPolicy::TwoClass(TwoClass { slice: 1 });
    let rows: [Row<'_>; 8] = [
        (creation(3).ok_or("a name")?, None, &[]),
        (Event::Drain { max: 1 }, None, &[Look::Known(Some(1))]),
        (stamp(1, 1), Some(1), &[Look::Idle(1, false)]),
        (
            Event::Crash,
            None,
            &[Look::Known(None), Look::Believed(1, None)],
        ),
        (
            Event::Begin { policy },
            None,
            &[Look::Known(Some(0)), Look::Idle(1, true)],
        ),
        (Event::Page { max: 9 }, None, &[Look::Known(Some(1))]),
        (tell(Command::Activate { cpu: 0 }), None, &[]),
        (
            Event::Decide,
            Some(2),
            &[
                Look::Transaction(1, Some((1, 1, 1, 1))),
                Look::Transaction(2, Some((1, 2, 1, 1))),
            ],
        ),
    ];
    assert_eq!(rt; first_wrong_of_new(rt.alloc(), TWO_CPUS, &rows)?, None);
    Ok(())
}

#[test]
fn opens_no_faulty_machine(rt: HostRuntime) {
    assert_eq!(rt; first_wrong_fault(rt.alloc()), None);
}

/// A kernel of two CPUs with one thread, which may run on both.
fn with_one(alloc: Global) -> Option<Kernel<ByteRing>> {
    let settings = Settings {
        cpus: 2,
        first_tseq: 0,
        first_generation: 1,
        history: 100,
    };
    let facts = Facts {
        runnable: true,
        mask: Mask::new(3),
        class: Class::Zero,
        name: Name::new(b"web")?,
    };
    let ring = ByteRing::new(alloc, 128).ok()?;
    let mut kernel = Kernel::new(alloc, settings, ring).ok()?;
    if matches!(kernel.create(&facts), Ok(Executed::Done)) {
        Some(kernel)
    } else {
        None
    }
}

/// Whether a transaction that places the thread on CPU 1 lands so, with no slot at all.
fn lands(kernel: &mut Kernel<ByteRing>, outcome: Outcome) -> bool {
    let stamp = Stamp {
        generation: 1,
        tid: 1,
        tseq: 1,
        flags: Flags::NONE,
    };
    let landing = Landing {
        cpu: 1,
        tid: 1,
        outcome,
        seen: 1,
        at: Some(1),
    };
    kernel.settings().cpus == 2 && kernel.land_stamp(1, &stamp) == Ok(landing)
}

#[test]
fn lands_without_a_slot(rt: HostRuntime) -> Result<(), Fail> {
    let mut kernel = with_one(rt.alloc()).ok_or("a kernel")?;
    assert!(rt; lands(&mut kernel, Outcome::Placed));
    assert!(rt; lands(&mut kernel, Outcome::AlreadyPlaced));
    Ok(())
}

/// The only choice of a list.
fn only_choice(choices: &[Choice]) -> Option<(u16, u32, bool)> {
    match choices {
        [Choice { cpu, tid, preempt }] => Some((*cpu, *tid, *preempt)),
        _ => None,
    }
}

/// The CPU, the thread and the outcome of the only landing of a list.
fn only_landing(landings: &[Landing]) -> Option<(u16, u32, Outcome)> {
    match landings {
        [landing] => Some((landing.cpu, landing.tid, landing.outcome)),
        _ => None,
    }
}

/// Whether a drain, a decision and a commit put their answers where they are told. A second decision has no choice, and the list
/// none of the first.
fn answers_where_told(
    machine: &mut Machine<AnyPolicy>,
    choices: &mut Vec<Choice>,
    landings: &mut Vec<Landing>,
) -> bool {
    let mut drained = Drained::NOTHING;
    let followed = machine.drain(9, &mut drained);
    let first = machine.decide(choices);
    let choice = only_choice(choices.as_slice());
    let torn = machine.commit(Mask::new(2), landings);
    let next = machine.decide(choices);
    (followed, drained.count) == (Ok(()), 1)
        && (first, choice) == (Ok(1), Some((1, 1, false)))
        && (torn, only_landing(landings.as_slice())) == (Ok(false), Some((1, 1, Outcome::Placed)))
        && (next, choices.len()) == (Ok(2), 0)
}

#[test]
fn puts_answers_where_it_is_told(rt: HostRuntime) -> Result<(), Fail> {
    let created = creation(3).ok_or("a name")?;
    let (mut choices, mut landings) = (Vec::new(rt.alloc()), Vec::new(rt.alloc()));
    let mut machine = Machine::new(rt.alloc(), TWO_CPUS)?;
    machine.step(&created);
    assert!(rt; answers_where_told(&mut machine, &mut choices, &mut landings));
    Ok(())
}
