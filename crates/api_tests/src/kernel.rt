//! How agents leave a kernel and how the next one comes, and what a kernel's pages tell.

use crate::messages::Tried;
use gs_dump::Page;
use gs_journal::{Entry, Journal};
use gs_kernel::{Command, Executed, Kernel, Landing, Settings, ThreadEvent};
use gs_layout::{Change, Class, Facts, Message, Name, Outcome, Refusal};
use gs_ring::ByteRing;
use gs_slots::{Flags, Region, SlotMut, Stamp};
use gs_status::Mask;
use std::alloc::Global;

/// The generation of the first agent: one more is the last.
const FIRST: u32 = 4_294_967_294;

/// The last generation.
const LAST: u32 = 4_294_967_295;

/// A thread of a page: its tid, its number and its CPU.
type Shown = (u32, u32, Option<u16>);

/// What is done with a kernel.
#[derive(Clone, Copy)]
enum Deed {
    /// A runnable thread that may run on these CPUs is created.
    Create(u128),
    /// Something happens to a thread.
    Thread(u32, ThreadEvent),
    /// The agent that attaches becomes active on a CPU.
    Activate(u16),
    /// The kernel serves another command.
    Serve(Command),
    /// On a CPU lands what the active agent stamped: a thread, at a number.
    Run(u16, u32, u32),
    /// A page is given from a tid on, of at most so many threads, and these stand in it, and where the next begins.
    Page(u32, u16, &'static [Shown], Option<u32>),
    /// The same, which the kernel does not remember.
    Dump(u32, u16, &'static [Shown], Option<u32>),
    /// Nothing: the last entry but one is looked at.
    LastButOne,
}

use Deed::{Activate, Create, Dump, LastButOne, Run, Serve, Thread};

/// What a deed came to.
#[derive(Clone, Copy, PartialEq, Eq, Debug)]
enum Came {
    /// A message was posted about a thread: its tid and its number.
    Posted(u32, u32),
    /// The same, if the thread was taken off this CPU.
    TakenOff(u32, u32, u16),
    /// A thread was placed.
    Placed,
    /// The other class took a CPU, or gave it back.
    OtherClass,
    /// The agent left.
    Left,
    /// An agent of this generation began to attach.
    Begun(u32),
    /// An agent of this generation became active on this CPU.
    Role(u32, u16),
    /// The page was as the deed says.
    Told,
    /// It was refused.
    Refused(Refusal),
    /// The enclave was torn down.
    Torn,
}

use Came::{Begun, Left, OtherClass, Placed, Posted, Refused, Role, TakenOff, Told, Torn};

/// The active agent, the generation of the one that attaches, and whether the last page was given.
type Agents = (Option<(u32, u16)>, Option<u32>, bool);

/// What is done, what it came to, and the agents then.
type Row = (Deed, Came, Agents);

const ACTIVE: Agents = (Some((FIRST, 0)), None, false);

const NONE: Agents = (None, None, false);

const ATTACHING: Agents = (None, Some(LAST), false);

const PAGED: Agents = (None, Some(LAST), true);

const NEXT: Agents = (Some((LAST, 1)), None, true);

const LEAVE: Deed = Serve(Command::Leave);

const BEGIN: Deed = Serve(Command::Begin);

/// Of six threads, 1 runs on CPU 1 and 5 on CPU 2; 3 is blocked, 4 waits, and 2 and 6 are dead.
const SIX: [Row; 12] = [
    (Create(7), Posted(1, 5), ACTIVE),
    (Create(7), Posted(2, 5), ACTIVE),
    (Create(7), Posted(3, 5), ACTIVE),
    (Create(7), Posted(4, 5), ACTIVE),
    (Create(7), Posted(5, 5), ACTIVE),
    (Create(7), Posted(6, 5), ACTIVE),
    (Run(1, 1, 5), Placed, ACTIVE),
    (Run(2, 3, 5), Placed, ACTIVE),
    (Thread(3, ThreadEvent::Block), Posted(3, 6), ACTIVE),
    (Run(2, 5, 5), Placed, ACTIVE),
    (Thread(2, ThreadEvent::Die), Posted(2, 6), ACTIVE),
    (Thread(6, ThreadEvent::Die), Posted(6, 6), ACTIVE),
];

/// The active agent leaves, and the next one begins.
const LEAVES: [Row; 11] = [
    (BEGIN, Refused(Refusal::StillAttached), ACTIVE),
    (Activate(1), Refused(Refusal::NotAttaching), ACTIVE),
    (
        Deed::Page(1, 9, &[], None),
        Refused(Refusal::NotAttaching),
        ACTIVE,
    ),
    (
        Dump(1, 9, &[], None),
        Refused(Refusal::NotAttaching),
        ACTIVE,
    ),
    (LEAVE, Left, NONE),
    (LEAVE, Refused(Refusal::NotActive), NONE),
    (Activate(1), Refused(Refusal::NotAttaching), NONE),
    (
        Deed::Page(1, 9, &[], None),
        Refused(Refusal::NotAttaching),
        NONE,
    ),
    (BEGIN, Begun(LAST), ATTACHING),
    (BEGIN, Refused(Refusal::StillAttached), ATTACHING),
    (Activate(1), Refused(Refusal::NotAttaching), ATTACHING),
];

/// Pages that are not the last, and pages that the kernel does not remember.
const PAGES: [Row; 11] = [
    (Deed::Page(1, 0, &[], Some(1)), Told, ATTACHING),
    (Deed::Page(2, 0, &[], Some(3)), Told, ATTACHING),
    (
        Deed::Page(0, 1, &[(1, 5, Some(1))], Some(3)),
        Told,
        ATTACHING,
    ),
    (
        Deed::Page(1, 2, &[(1, 5, Some(1)), (3, 6, None)], Some(4)),
        Told,
        ATTACHING,
    ),
    (
        Deed::Page(3, 2, &[(3, 6, None), (4, 5, None)], Some(5)),
        Told,
        ATTACHING,
    ),
    (Dump(4, 1, &[(4, 5, None)], Some(5)), Told, ATTACHING),
    (
        Dump(4, 2, &[(4, 5, None), (5, 5, Some(2))], None),
        Told,
        ATTACHING,
    ),
    // Only the dead are from here on, and here there is no thread.
    (Dump(6, 9, &[], None), Told, ATTACHING),
    (Dump(7, 0, &[], None), Told, ATTACHING),
    (Dump(LAST, 9, &[], None), Told, ATTACHING),
    (Activate(1), Refused(Refusal::NotAttaching), ATTACHING),
];

/// The last page, and what takes the agent's CPU.
const LAST_PAGE: [Row; 11] = [
    (
        Deed::Page(4, 65_535, &[(4, 5, None), (5, 5, Some(2))], None),
        Told,
        PAGED,
    ),
    (
        Deed::Page(4, 9, &[], None),
        Refused(Refusal::NotAttaching),
        PAGED,
    ),
    (Dump(4, 9, &[], None), Refused(Refusal::NotAttaching), PAGED),
    (Activate(3), Refused(Refusal::BadCpu), PAGED),
    (Activate(128), Refused(Refusal::BadCpu), PAGED),
    (Serve(Command::Take { cpu: 0 }), OtherClass, PAGED),
    (Activate(0), Refused(Refusal::CpuTaken), PAGED),
    (Create(7), Posted(7, 5), PAGED),
    // Over a running thread, which is told so.
    (Activate(1), Role(LAST, 1), NEXT),
    (LastButOne, TakenOff(1, 6, 1), NEXT),
    (Activate(2), Refused(Refusal::NotAttaching), NEXT),
];

/// No generation is left for a third agent.
const LAST_LEAVES: [Row; 3] = [
    (BEGIN, Refused(Refusal::StillAttached), NEXT),
    (LEAVE, Left, (None, None, true)),
    (BEGIN, Refused(Refusal::GenSpent), (None, None, true)),
];

/// An agent that attaches leaves before it was told of anything.
const LEAVES_EARLY: [Row; 4] = [
    (LEAVE, Left, NONE),
    (BEGIN, Begun(LAST), ATTACHING),
    (LEAVE, Left, NONE),
    (BEGIN, Refused(Refusal::GenSpent), NONE),
];

/// With no thread the first page is the last. A page of no thread does for that.
const NO_THREADS: [Row; 5] = [
    (LEAVE, Left, NONE),
    (BEGIN, Begun(LAST), ATTACHING),
    (Deed::Page(1, 0, &[], None), Told, PAGED),
    (Activate(1), Role(LAST, 1), NEXT),
    (LastButOne, Begun(LAST), NEXT),
];

/// The ring is full: the thread that the next agent takes off cannot be told so.
const FULL: [Row; 13] = [
    (Create(7), Posted(1, 5), ACTIVE),
    (Create(7), Posted(2, 5), ACTIVE),
    (Create(7), Posted(3, 5), ACTIVE),
    (Create(7), Posted(4, 5), ACTIVE),
    (Run(1, 4, 5), Placed, ACTIVE),
    (LEAVE, Left, NONE),
    (BEGIN, Begun(LAST), ATTACHING),
    (Deed::Page(4, 1, &[(4, 5, Some(1))], None), Told, PAGED),
    (Activate(1), Torn, (None, None, true)),
    (Activate(1), Refused(Refusal::Gone), (None, None, true)),
    (
        Deed::Page(1, 9, &[], None),
        Refused(Refusal::Gone),
        (None, None, true),
    ),
    (LEAVE, Refused(Refusal::Gone), (None, None, true)),
    (BEGIN, Refused(Refusal::Gone), (None, None, true)),
];

/// A kernel of three CPUs whose threads' numbers begin above 4, with a ring of so many bytes.
fn kernel_with(alloc: Global, ring: usize) -> Option<Kernel<ByteRing>> {
    let settings = Settings {
        cpus: 3,
        first_tseq: 4,
        first_generation: FIRST,
        history: 100,
    };
    let ring = ByteRing::new(alloc, ring).ok()?;
    Kernel::new(alloc, settings, ring).ok()
}

/// What an entry tells.
fn entry_of(entry: &Entry) -> Came {
    match entry {
        Entry::Posted { message } => posted(message),
        Entry::Placed { .. } => Placed,
        Entry::Role { generation, cpu } => Role(*generation, *cpu),
        Entry::Begin { generation } => Begun(*generation),
        Entry::Left => Left,
        Entry::Taken { .. } | Entry::Given { .. } => OtherClass,
        Entry::Torn => Torn,
    }
}

/// What a message tells. None here is of a timer.
fn posted(message: &Message) -> Came {
    match message {
        Message::Thread { tid, tseq, change } => match change {
            Change::Preempted { cpu } => TakenOff(*tid, *tseq, *cpu),
            _ => Posted(*tid, *tseq),
        },
        Message::TimerTick { .. } => OtherClass,
    }
}

fn came_of(kernel: &Kernel<ByteRing>, came: Result<Executed, Refusal>) -> Came {
    match came {
        Ok(Executed::Done) => entry_of(&kernel.last().entry()),
        Ok(Executed::Torn) => Torn,
        Err(refusal) => Refused(refusal),
    }
}

fn create(kernel: &mut Kernel<ByteRing>, mask: u128) -> Option<Came> {
    let facts = Facts {
        runnable: true,
        mask: Mask::new(mask),
        class: Class::Zero,
        name: Name::new(b"web")?,
    };
    let came = kernel.create(&facts);
    Some(came_of(kernel, came))
}

/// A command executed by its own call, or by the one for all.
fn execute(kernel: &mut Kernel<ByteRing>, command: &Command) -> Came {
    let came = match command {
        Command::Leave => kernel.leave(),
        Command::Begin => kernel.begin(),
        Command::Activate { cpu } => kernel.activate(*cpu),
        _ => kernel.execute(command),
    };
    came_of(kernel, came)
}

/// Something happens to a thread, which the kernel is told as a command.
fn happen(kernel: &mut Kernel<ByteRing>, tid: u32, event: ThreadEvent) -> Came {
    execute(kernel, &Command::Thread { tid, event })
}

fn run(kernel: &mut Kernel<ByteRing>, cpu: u16, tid: u32, tseq: u32) -> Option<Came> {
    let (generation, _) = kernel.active()?;
    if cpu >= kernel.settings().cpus {
        return None;
    }
    let stamp = Stamp {
        generation,
        tid,
        tseq,
        flags: Flags::NONE,
    };
    match kernel.land_stamp(cpu, &stamp) {
        Ok(landing) if landing.outcome == Outcome::Placed => Some(Placed),
        _ => None,
    }
}

/// Whether just these threads stand in a page, each as it was created but for its number and its CPU, and the next
/// one begins here.
fn is_page(page: &Page, threads: &[Shown], next: Option<u32>) -> bool {
    let mut records = page.records.iter();
    for thread in threads {
        let Some(record) = records.next() else {
            return false;
        };
        let facts = &record.known.facts;
        let named = facts.mask == Mask::new(7) && facts.name.as_bytes() == b"web".as_slice();
        if !named || (record.tid, record.known.tseq, record.cpu) != *thread {
            return false;
        }
    }
    records.next().is_none() && page.next == next
}

/// What a page came to: nothing if it is another one.
fn told(page: Result<Page, Refusal>, threads: &[Shown], next: Option<u32>) -> Option<Came> {
    match page {
        Ok(page) => {
            if is_page(&page, threads, next) {
                Some(Told)
            } else {
                None
            }
        }
        Err(refusal) => Some(Refused(refusal)),
    }
}

/// What the last entry but one tells.
fn last_but_one(journal: &Journal) -> Option<Came> {
    match journal.len() {
        0 | 1 => None,
        len => Some(entry_of(&journal.entry(len - 2))),
    }
}

/// What a deed came to, if it could be done.
fn came_to(alloc: Global, kernel: &mut Kernel<ByteRing>, deed: &Deed) -> Option<Came> {
    match deed {
        Deed::Create(mask) => create(kernel, *mask),
        Deed::Thread(tid, event) => Some(happen(kernel, *tid, *event)),
        Deed::Activate(cpu) => Some(execute(kernel, &Command::Activate { cpu: *cpu })),
        Deed::Serve(command) => Some(execute(kernel, command)),
        Deed::Run(cpu, tid, tseq) => run(kernel, *cpu, *tid, *tseq),
        Deed::Page(from, max, threads, next) => {
            told(kernel.page(alloc, *from, *max), threads, *next)
        }
        Deed::Dump(from, max, threads, next) => {
            told(kernel.dump(alloc, *from, *max), threads, *next)
        }
        Deed::LastButOne => last_but_one(kernel.journal()),
    }
}

fn agents(kernel: &Kernel<ByteRing>) -> Agents {
    (kernel.active(), kernel.attaching(), kernel.is_paged())
}

/// The first row that comes to something else, or after which there are other agents.
fn first_wrong(alloc: Global, kernel: &mut Kernel<ByteRing>, rows: &[Row]) -> Option<usize> {
    for (index, (deed, came, after)) in rows.iter().enumerate() {
        if came_to(alloc, kernel, deed) != Some(*came) || agents(kernel) != *after {
            return Some(index);
        }
    }
    None
}

/// Tries rows on a new kernel.
fn tried(alloc: Global, ring: usize, rows: &[Row]) -> Tried {
    match kernel_with(alloc, ring) {
        Some(mut kernel) => Tried::with(first_wrong(alloc, &mut kernel, rows)),
        None => Tried::NotMade,
    }
}

// A function for each table: a proof is cheaper if it sees one table alone.
fn try_six(alloc: Global, kernel: &mut Kernel<ByteRing>) -> Option<usize> {
    first_wrong(alloc, kernel, &SIX)
}

fn try_leaves(alloc: Global, kernel: &mut Kernel<ByteRing>) -> Option<usize> {
    first_wrong(alloc, kernel, &LEAVES)
}

fn try_pages(alloc: Global, kernel: &mut Kernel<ByteRing>) -> Option<usize> {
    first_wrong(alloc, kernel, &PAGES)
}

fn try_last_page(alloc: Global, kernel: &mut Kernel<ByteRing>) -> Option<usize> {
    first_wrong(alloc, kernel, &LAST_PAGE)
}

fn try_last_leaves(alloc: Global, kernel: &mut Kernel<ByteRing>) -> Option<usize> {
    first_wrong(alloc, kernel, &LAST_LEAVES)
}

fn try_leaves_early(alloc: Global) -> Tried {
    tried(alloc, 1024, &LEAVES_EARLY)
}

fn try_no_threads(alloc: Global) -> Tried {
    tried(alloc, 1024, &NO_THREADS)
}

fn try_full(alloc: Global) -> Tried {
    tried(alloc, 160, &FULL)
}

/// The first row of each table that comes out otherwise, of a kernel that goes through them in order.
fn first_wrongs(alloc: Global, kernel: &mut Kernel<ByteRing>) -> [Option<usize>; 5] {
    [
        try_six(alloc, kernel),
        try_leaves(alloc, kernel),
        try_pages(alloc, kernel),
        try_last_page(alloc, kernel),
        try_last_leaves(alloc, kernel),
    ]
}

/// The same of a new kernel.
fn first_wrongs_of_new(alloc: Global) -> Option<[Option<usize>; 5]> {
    match kernel_with(alloc, 1024) {
        Some(mut kernel) => Some(first_wrongs(alloc, &mut kernel)),
        None => None,
    }
}

#[test]
fn tells_the_next_agent(rt: HostRuntime) {
    assert_eq!(rt; first_wrongs_of_new(rt.alloc()), Some([None; 5]));
}

#[test]
fn agents_come_and_go(rt: HostRuntime) {
    let early = try_leaves_early(rt.alloc());
    let no_threads = try_no_threads(rt.alloc());
    let full = try_full(rt.alloc());
    assert_eq!(rt;
        (early, no_threads, full),
        (Tried::Well, Tried::Well, Tried::Well)
    );
}

/// CPU 1's slot after it landed malformed.
const REFUSED: [u8; 32] = [
    2, 0, 1, 0, 0, 0, 0, 0, 0, 0, 0, 0, 0, 0, 0, 0, 13, 0, 255, 255, 0, 0, 0, 0, 0, 0, 0, 0, 0, 0,
    0, 0,
];

/// Writes ones into each byte of a slot.
fn break_slot(slot: SlotMut<'_>) {
    let mut slot = slot;
    *slot.bytes() = [255; 32];
}

/// What landed if the slots of CPUs 0 and 1 are broken and that of CPU 1 is committed, and how many entries
/// came of it. `None` if the kernel has fewer than two CPUs, or if out of memory.
fn commit_broken(
    alloc: Global,
    kernel: &mut Kernel<ByteRing>,
    region: &mut Region,
) -> Option<(Vec<Landing>, usize)> {
    let before = kernel.journal().len();
    if region.cpus() < 2 || region.cpus() != kernel.settings().cpus {
        return None;
    }
    break_slot(region.slot(0));
    break_slot(region.slot(1));
    let mask = Mask::new(2);
    let landings = kernel.txns_commit(alloc, region, mask).ok()?;
    let entries = kernel.journal().len();
    Some((landings, entries.saturating_sub(before)))
}

/// Whether just a malformed slot of CPU 1 landed.
fn are_malformed(landings: &[Landing]) -> bool {
    let wanted = Landing {
        cpu: 1,
        tid: 0,
        outcome: Outcome::Malformed,
        seen: 0,
        at: None,
    };
    landings.len() == 1 && landings.first() == Some(&wanted)
}

/// Whether a malformed slot lands in this kernel as that, and nothing else comes of it.
fn commits_malformed(alloc: Global, kernel: &mut Kernel<ByteRing>, region: &mut Region) -> bool {
    match commit_broken(alloc, kernel, region) {
        Some((landings, entries)) => are_malformed(&landings) && entries == 0,
        None => false,
    }
}

/// The same with slots that are idle at first, and whether it leaves its own bytes in them.
fn leaves_malformed(alloc: Global, kernel: &mut Kernel<ByteRing>) -> bool {
    match Region::new(alloc, kernel.settings().cpus) {
        Ok(mut region) => commits_malformed(alloc, kernel, &mut region) && is_left(&region),
        Err(_) => false,
    }
}

/// Whether a malformed slot lands as that in a new kernel, leaves its own bytes, and nothing else comes of it.
fn lands_malformed(alloc: Global) -> Option<bool> {
    match kernel_with(alloc, 128) {
        Some(mut kernel) => Some(leaves_malformed(alloc, &mut kernel)),
        None => None,
    }
}

/// Whether the slot of CPU 0 is broken, and that of CPU 1 says that it was.
fn is_left(region: &Region) -> bool {
    region.cpus() >= 2 && *region.bytes(0) == [255; 32] && *region.bytes(1) == REFUSED
}

#[test]
fn a_malformed_slot_lands(rt: HostRuntime) {
    assert_eq!(rt; lands_malformed(rt.alloc()), Some(true));
}
