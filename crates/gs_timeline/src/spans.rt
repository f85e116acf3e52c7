//! Who was active and who held a CPU, from when to when.

use gs_journal::Entry;
use std::alloc::{AllocError, Global};

/// An agent, from the entry by which it began to attach or became active on a CPU to the one that ended that.
#[derive(Clone, Copy)]
pub(crate) struct Reign {
    pub generation: u32,
    /// The CPU that it is active on, or none while it attaches.
    pub cpu: Option<u16>,
    pub from: usize,
    pub to: usize,
}

/// The other class on a CPU, from the entry by which it took it to the one by which it gave it back.
#[derive(Clone, Copy)]
pub(crate) struct Hold {
    pub cpu: u16,
    pub from: usize,
    pub to: usize,
}

/// What an entry tells of agents, or a tear-down.
#[derive(Clone, Copy)]
pub(crate) enum News {
    /// An agent of this generation became active on the CPU.
    Role { generation: u32, cpu: u16 },
    /// An agent of this generation began to attach.
    Begin { generation: u32 },
    /// The agent crashed or left.
    Left,
    /// The enclave was torn down.
    Torn,
}

/// Such news, and the place of its entry.
#[derive(Clone, Copy)]
pub(crate) struct Turn {
    pub place: usize,
    pub news: News,
}

/// Returns the agents, in order. The last one ends behind so many entries, if nothing else ended it.
pub(crate) fn reigns(
    alloc: Global,
    turns: &[Turn],
    entries: usize,
) -> Result<Vec<Reign>, AllocError> {
    let mut reigns = Vec::new(alloc);
    let mut now: Option<Reign> = None;
    for turn in turns {
        if let Some(reign) = now {
            reigns.push(Reign {
                to: turn.place,
                ..reign
            })?;
        }
        let next = match turn.news {
            News::Role { generation, cpu } => Some((generation, Some(cpu))),
            News::Begin { generation } => Some((generation, None)),
            News::Left | News::Torn => None,
        };
        now = next.map(|(generation, cpu)| Reign {
            generation,
            cpu,
            from: turn.place,
            to: turn.place,
        });
    }
    if let Some(reign) = now {
        reigns.push(Reign {
            to: entries,
            ..reign
        })?;
    }
    Ok(reigns)
}

/// When the other class held a CPU so far.
#[derive(Drop)]
pub(crate) struct HeldTimes {
    ended: Vec<Hold>,
    /// Since which entry it holds the CPU, if it does.
    since: Option<usize>,
}

impl HeldTimes {
    /// Lends the times that ended, in order.
    pub(crate) fn ended(&self) -> &[Hold] {
        self.ended.as_slice()
    }

    /// Ends the time that the other class holds the CPU, by the entry of this place, if it holds it.
    fn end(&mut self, cpu: u16, place: usize) -> Result<(), AllocError> {
        if let Some(from) = self.since.take() {
            self.ended.push(Hold {
                cpu,
                from,
                to: place,
            })?;
        }
        Ok(())
    }
}

/// Makes the times of so many CPUs that the other class never held.
fn never_held(alloc: Global, cpus: u16) -> Result<Vec<HeldTimes>, AllocError> {
    let mut all = Vec::with_capacity(alloc, cpus as usize)?;
    for _ in 0..cpus {
        all.push(HeldTimes {
            ended: Vec::new(alloc),
            since: None,
        })?;
    }
    Ok(all)
}

/// What the entries tell of agents, and when the other class held each CPU.
#[derive(Drop)]
pub(crate) struct Spans {
    /// What they tell of agents, and the tear-down, in order.
    pub turns: Vec<Turn>,
    pub holds: Vec<HeldTimes>,
}

impl Spans {
    /// Makes those of so many CPUs before the first entry.
    ///
    /// # Errors
    ///
    /// `AllocError` if out of memory.
    pub(crate) fn new(alloc: Global, cpus: u16) -> Result<Spans, AllocError> {
        Ok(Spans {
            turns: Vec::new(alloc),
            holds: never_held(alloc, cpus)?,
        })
    }

    /// Ends the times that the other class holds a CPU still, behind so many entries.
    pub(crate) fn end(&mut self, cpus: u16, entries: usize) -> Result<(), AllocError> {
        for cpu in 0..cpus {
            self.give(cpu, entries)?;
        }
        Ok(())
    }

    /// Keeps that the entry of this place tells so of agents.
    fn turn(&mut self, place: usize, news: News) -> Result<(), AllocError> {
        self.turns.push(Turn { place, news })?;
        Ok(())
    }

    /// Begins a time that the other class holds a CPU, by the entry of this place.
    fn take(&mut self, cpu: u16, place: usize) {
        if let Some(held) = self.holds.get_mut(cpu as usize) {
            held.since = Some(place);
        }
    }

    /// Ends the time that the other class holds a CPU, by the entry of this place, if it holds it.
    fn give(&mut self, cpu: u16, place: usize) -> Result<(), AllocError> {
        match self.holds.get_mut(cpu as usize) {
            Some(held) => held.end(cpu, place),
            None => Ok(()),
        }
    }

    /// Changes as the entry of this place says.
    #[inline(always)]
    pub(crate) fn hear(&mut self, place: usize, entry: &Entry) -> Result<(), AllocError> {
        match *entry {
            Entry::Role { generation, cpu } => self.turn(place, News::Role { generation, cpu }),
            Entry::Begin { generation } => self.turn(place, News::Begin { generation }),
            Entry::Left => self.turn(place, News::Left),
            Entry::Torn => self.turn(place, News::Torn),
            Entry::Taken { cpu } => {
                self.take(cpu, place);
                Ok(())
            }
            Entry::Given { cpu } => self.give(cpu, place),
            _ => Ok(()),
        }
    }
}
