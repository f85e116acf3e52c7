//! An entry as the journal keeps it: 16 bytes, whatever it says.

ghost use Rattle.std.specs.Prelude.{◌≡◌, length};
ghost use Rattle.gs_layout.specs.declared.message.Message.TheVariants.{Thread};
ghost use Rattle.gs_journal.specs.declared.entry.Entry.TheVariants.{Posted};
ghost use Rattle.gs_journal.specs.Narrow.{IsWithin, packed, packed_change, packed_message, unpacked};

use crate::entry::Entry;
use crate::wide::NewMask;
use gs_layout::{Change, Facts, Message};

/// An entry without what is wide of it. A message's thread and number stand beside its change.
#[derive(Clone, Copy)]
pub(crate) enum Narrow {
    /// A creation, whose facts stand at this place of a list of their own.
    Created {
        place: u32,
        tid: u32,
        tseq: u32,
    },
    /// A new mask, which stands at this place of a list of its own, with what it made of the thread's stay.
    Affinity {
        place: u32,
        tid: u32,
        tseq: u32,
    },
    Wakeup {
        tid: u32,
        tseq: u32,
    },
    Blocked {
        cpu: u16,
        tid: u32,
        tseq: u32,
    },
    Preempted {
        cpu: u16,
        tid: u32,
        tseq: u32,
    },
    Yield {
        cpu: u16,
        tid: u32,
        tseq: u32,
    },
    Dead {
        cpu: Option<u16>,
        tid: u32,
        tseq: u32,
    },
    Tick {
        cpu: u16,
    },
    Placed {
        cpu: u16,
        tid: u32,
        tseq: u32,
        generation: u32,
    },
    Role {
        cpu: u16,
        generation: u32,
    },
    Begin {
        generation: u32,
    },
    Left,
    Taken {
        cpu: u16,
    },
    Given {
        cpu: u16,
    },
    Torn,
}

const _: () = prove!(size_of::<Narrow>() == 16);

impl Narrow {
    /// Makes it of a change of a thread, of which what is wide stands at these places.
    #[inline(always)]
    fn of_change(facts: u32, masks: u32, tid: u32, tseq: u32, change: &Change) -> Narrow
        ensures { result ≡ packed_change facts masks tid tseq change.now }
    {
        match change {
            Change::Created { .. } => Narrow::Created {
                place: facts,
                tid,
                tseq,
            },
            Change::Affinity { .. } => Narrow::Affinity {
                place: masks,
                tid,
                tseq,
            },
            Change::Blocked { cpu } => Narrow::Blocked {
                cpu: *cpu,
                tid,
                tseq,
            },
            Change::Wakeup => Narrow::Wakeup { tid, tseq },
            Change::Preempted { cpu } => Narrow::Preempted {
                cpu: *cpu,
                tid,
                tseq,
            },
            Change::Yield { cpu } => Narrow::Yield {
                cpu: *cpu,
                tid,
                tseq,
            },
            Change::Dead { cpu } => Narrow::Dead {
                cpu: *cpu,
                tid,
                tseq,
            },
        }
    }

    /// Makes it of a message, of which what is wide stands at these places.
    #[inline(always)]
    fn of_message(facts: u32, masks: u32, message: &Message) -> Narrow
        ensures { result ≡ packed_message facts masks message.now }
    {
        match message {
            Message::Thread { tid, tseq, change } => Narrow::of_change(
                facts, masks, *tid, *tseq, change,
            ),
            Message::TimerTick { cpu } => Narrow::Tick { cpu: *cpu },
        }
    }

    /// Makes it of an entry, of which what is wide stands at these places.
    #[inline(always)]
    pub(crate) fn of(facts: u32, masks: u32, entry: &Entry) -> Narrow
        ensures { result ≡ packed facts masks entry.now }
    {
        match entry {
            Entry::Posted { message } => Narrow::of_message(facts, masks, message),
            Entry::Placed {
                tid,
                tseq,
                cpu,
                generation,
            } => Narrow::Placed {
                cpu: *cpu,
                tid: *tid,
                tseq: *tseq,
                generation: *generation,
            },
            Entry::Role { generation, cpu } => Narrow::Role {
                cpu: *cpu,
                generation: *generation,
            },
            Entry::Begin { generation } => Narrow::Begin {
                generation: *generation,
            },
            Entry::Left => Narrow::Left,
            Entry::Taken { cpu } => Narrow::Taken { cpu: *cpu },
            Entry::Given { cpu } => Narrow::Given { cpu: *cpu },
            Entry::Torn => Narrow::Torn,
        }
    }

    /// Returns the entry, beside the lists of what is wide.
    #[inline(always)]
    pub(crate) fn entry(&self, facts: &[Facts], masks: &[NewMask]) -> Entry
        requires { IsWithin (length facts.now) (length masks.now) self.now }
        ensures { result ≡ unpacked facts.now masks.now self.now }
    {
        match self {
            Narrow::Created { place, tid, tseq } => {
                let facts = facts[*place as usize];
                changed(*tid, *tseq, Change::Created { facts })
            }
            Narrow::Affinity { place, tid, tseq } => {
                changed(*tid, *tseq, masks[*place as usize].change())
            }
            Narrow::Wakeup { tid, tseq } => changed(*tid, *tseq, Change::Wakeup),
            Narrow::Blocked { cpu, tid, tseq } => {
                changed(*tid, *tseq, Change::Blocked { cpu: *cpu })
            }
            Narrow::Preempted { cpu, tid, tseq } => {
                changed(*tid, *tseq, Change::Preempted { cpu: *cpu })
            }
            Narrow::Yield { cpu, tid, tseq } => changed(*tid, *tseq, Change::Yield { cpu: *cpu }),
            Narrow::Dead { cpu, tid, tseq } => changed(*tid, *tseq, Change::Dead { cpu: *cpu }),
            Narrow::Tick { cpu } => Entry::Posted {
                message: Message::TimerTick { cpu: *cpu },
            },
            Narrow::Placed {
                cpu,
                tid,
                tseq,
                generation,
            } => Entry::Placed {
                tid: *tid,
                tseq: *tseq,
                cpu: *cpu,
                generation: *generation,
            },
            Narrow::Role { cpu, generation } => Entry::Role {
                generation: *generation,
                cpu: *cpu,
            },
            Narrow::Begin { generation } => Entry::Begin {
                generation: *generation,
            },
            Narrow::Left => Entry::Left,
            Narrow::Taken { cpu } => Entry::Taken { cpu: *cpu },
            Narrow::Given { cpu } => Entry::Given { cpu: *cpu },
            Narrow::Torn => Entry::Torn,
        }
    }
}

/// Returns the entry of a change of a thread.
#[inline(always)]
fn changed(tid: u32, tseq: u32, change: Change) -> Entry
    ensures { result ≡ Posted (Thread tid tseq change) }
{
    Entry::Posted {
        message: Message::Thread { tid, tseq, change },
    }
}
