//! What a machine shows.

use crate::mind::Mind;
use crate::told::tell_all;
use gs_agent::Drained;
use gs_core::{Machine, Transaction};
use gs_dump::DumpRecord;
use gs_journal::{Entry, Journal};
use gs_kernel::Kernel;
use gs_layout::{Known, Message};
use gs_policy::AnyPolicy;
use gs_ring::ByteRing;
use gs_slots::{Malformed, Region, SlotState};
use gs_status::Mask;
use std::alloc::{AllocError, Global};

/// What is looked at.
#[derive(Clone, Copy)]
pub(crate) enum Look {
    /// The threads that live.
    State,
    /// What the agent knows of each thread.
    View,
    /// The messages that wait.
    Unread,
    /// The entries of the journal.
    Journal,
    /// The state of each slot.
    Slots,
    /// The transactions.
    Transactions,
    /// Who is active or attaches.
    Agent,
    /// How many threads were created, and the CPUs that the other class holds.
    Tables,
    /// Where the next page begins, and whether the last one was given.
    NextPage,
    /// Who is believed to run on each CPU, and who waits, in order.
    Mind,
    /// How many messages a drain took in, and what they were to the agent.
    Drained,
}

impl Look {
    /// Returns its name.
    pub(crate) fn name(self) -> &'static str {
        match self {
            Look::State => "state",
            Look::View => "view",
            Look::Unread => "unread",
            Look::Journal => "journal",
            Look::Slots => "slots",
            Look::Transactions => "transactions",
            Look::Agent => "agent",
            Look::Tables => "tables",
            Look::NextPage => "next page",
            Look::Mind => "mind",
            Look::Drained => "drained",
        }
    }
}

/// The agent that is there.
#[derive(Clone, Copy, PartialEq)]
pub(crate) struct Agent {
    /// The generation and the CPU of the one that is active.
    pub(crate) active: Option<(u32, u16)>,
    /// The generation of the one that attaches.
    attaching: Option<u32>,
    /// The generation of the role, if there is one.
    role: Option<u32>,
    /// Whether the enclave was torn down.
    torn: bool,
}

/// What the kernel keeps beside the threads that live.
#[derive(Clone, Copy, PartialEq)]
struct Tables {
    /// How many threads were created.
    created: usize,
    /// The CPUs that the other class holds.
    taken: Mask,
}

/// The pages that an agent needs.
#[derive(Clone, Copy, PartialEq)]
struct Pages {
    /// Where the next one begins.
    next: Option<u32>,
    /// Whether the kernel gave the last one.
    are_given: bool,
}

/// All that a machine shows.
#[derive(Drop)]
pub(crate) struct Looks {
    pub(crate) state: Vec<DumpRecord>,
    pub(crate) view: Vec<(u32, Known)>,
    pub(crate) unread: Vec<Message>,
    journal: Vec<Entry>,
    pub(crate) slots: Vec<Result<SlotState, Malformed>>,
    transactions: Vec<Transaction>,
    pub(crate) agent: Agent,
    tables: Tables,
    pages: Pages,
    /// `None` after a drain that took in messages: then it is not looked at.
    mind: Option<Mind>,
}

/// Returns what the agent knows of each thread, in increasing order of tid: nothing, if there is none.
fn view_of(alloc: Global, machine: &Machine<AnyPolicy>) -> Result<Vec<(u32, Known)>, AllocError> {
    let mut view = Vec::new(alloc);
    if let Some(role) = machine.role() {
        for (tid, facts, tseq) in role.view().walk() {
            let facts = *facts;
            view.push((tid, Known { facts, tseq }))?;
        }
    }
    Ok(view)
}

/// Returns the messages that wait, in order.
fn unread_of(alloc: Global, kernel: &Kernel<ByteRing>) -> Result<Vec<Message>, AllocError> {
    let waiting = kernel.poster().waiting();
    waiting.map(|message| message.message()).collect(alloc)
}

/// Returns what is in each slot.
fn slots_of(
    alloc: Global,
    region: &Region,
) -> Result<Vec<Result<SlotState, Malformed>>, AllocError> {
    let mut slots = Vec::new(alloc);
    for cpu in 0..region.cpus() {
        slots.push(region.state(cpu))?;
    }
    Ok(slots)
}

/// Returns all transactions, in order.
fn transactions_of(
    alloc: Global,
    machine: &Machine<AnyPolicy>,
) -> Result<Vec<Transaction>, AllocError> {
    let mut transactions = Vec::new(alloc);
    for number in 1..u32::MAX {
        match machine.transaction(number) {
            Some(transaction) => transactions.push(transaction)?,
            None => break,
        }
    }
    Ok(transactions)
}

/// Appends a copy of an item.
fn add_copy<T: Copy + Drop>(items: &mut Vec<T>, item: &T) -> Result<(), AllocError> {
    items.push(*item)?;
    Ok(())
}

/// Returns all entries, in order.
fn entries_of(alloc: Global, journal: &Journal) -> Result<Vec<Entry>, AllocError> {
    let mut entries = Vec::new(alloc);
    for place in 0..journal.len() {
        add_copy(&mut entries, &journal.entry(place))?;
    }
    Ok(entries)
}

/// Returns a copy of items.
fn copied<T: Copy + Drop>(alloc: Global, items: &[T]) -> Result<Vec<T>, AllocError> {
    let mut copy = Vec::new(alloc);
    copy.extend_from_slice(items)?;
    Ok(copy)
}

impl Agent {
    fn of(machine: &Machine<AnyPolicy>) -> Agent {
        let kernel = machine.kernel();
        Agent {
            active: kernel.active(),
            attaching: kernel.attaching(),
            role: machine.role().map(|role| role.generation()),
            torn: kernel.is_torn(),
        }
    }
}

impl Tables {
    fn of(kernel: &Kernel<ByteRing>) -> Tables {
        Tables {
            created: kernel.created(),
            taken: kernel.taken(),
        }
    }
}

impl Pages {
    fn of(machine: &Machine<AnyPolicy>) -> Pages {
        Pages {
            next: machine.role().and_then(|role| role.next_page()),
            are_given: machine.kernel().is_paged(),
        }
    }
}

impl Looks {
    /// Takes all looks at a machine.
    pub(crate) fn take(alloc: Global, machine: &Machine<AnyPolicy>) -> Result<Looks, AllocError> {
        let kernel = machine.kernel();
        Ok(Looks {
            state: kernel.live_threads(alloc)?,
            view: view_of(alloc, machine)?,
            unread: unread_of(alloc, kernel)?,
            journal: entries_of(alloc, kernel.journal())?,
            slots: slots_of(alloc, machine.region())?,
            transactions: transactions_of(alloc, machine)?,
            agent: Agent::of(machine),
            tables: Tables::of(kernel),
            pages: Pages::of(machine),
            mind: Some(Mind::of(alloc, machine)?),
        })
    }

    /// Takes in the first messages that wait, so many, as an agent does: it knows more then, and they do not wait. Returns what
    /// they were to it.
    pub(crate) fn take_in(&mut self, alloc: Global, count: usize) -> Result<Drained, AllocError> {
        if count > 0 {
            self.mind = None;
        }
        let (taken, rest) = self.unread.split_at(count.min(self.unread.len()));
        let drained = tell_all(&mut self.view, taken)?;
        self.unread = copied(alloc, rest)?;
        Ok(drained)
    }

    /// Returns the first look that others show otherwise.
    pub(crate) fn difference(&self, others: &Looks) -> Option<Look> {
        let same = [
            (Look::State, self.state == others.state),
            (Look::View, self.view == others.view),
            (Look::Unread, self.unread == others.unread),
            (Look::Journal, self.journal == others.journal),
            (Look::Slots, self.slots == others.slots),
            (Look::Transactions, self.transactions == others.transactions),
            (Look::Agent, self.agent == others.agent),
            (Look::Tables, self.tables == others.tables),
            (Look::NextPage, self.pages == others.pages),
            (Look::Mind, self.mind.is_none() || self.mind == others.mind),
        ];
        same.iter()
            .find(|(_, is_same)| !is_same)
            .map(|(look, _)| *look)
    }
}
