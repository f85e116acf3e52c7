//! The agents: who is active where, who attaches, and what pages it was given.

ghost use Rattle.std.specs.Prelude.{◌≡◌};

use crate::events::{When, begin_event, end_event, end_slice};
use crate::tracks::{ACTIVE, AGENT_BEGIN, AGENT_END, AGENT_INSTANT, ATTACHING};
use gs_journal::Entry;
use gs_timeline::{AgentEvent, Digits, Text};
use std::alloc::AllocError;

/// The track of the agent that there is, if there is one.
#[derive(Clone, Copy)]
pub(crate) struct Agent {
    track: Option<u64>,
}

/// Tells the beginning of an agent that is active on a CPU.
fn write_active(out: &mut Text, when: When<'_>, generation: u32, cpu: u16) -> Result<(), AllocError>
    ensures { out.new.settled ≡ out.old.settled }
{
    begin_event(out, AGENT_BEGIN, ACTIVE, when.place)?;
    out.push_number(",\"name\":\"generation ", u64::from(generation))?;
    out.push_number(" on CPU ", u64::from(cpu))?;
    out.push_number("\",\"args\":{\"generation\":", u64::from(generation))?;
    out.push_number(",\"cpu\":", u64::from(cpu))?;
    end_event(out, ",", when)
}

/// Tells the beginning of an agent that attaches.
fn write_attaching(out: &mut Text, when: When<'_>, generation: u32) -> Result<(), AllocError>
    ensures { out.new.settled ≡ out.old.settled }
{
    begin_event(out, AGENT_BEGIN, ATTACHING, when.place)?;
    out.push_number(",\"name\":\"generation ", u64::from(generation))?;
    out.push_number("\",\"args\":{\"generation\":", u64::from(generation))?;
    end_event(out, ",", when)
}

/// Tells what is said of a page: how many threads it told of, and from which the next one goes on.
fn write_page(out: &mut Text, count: u16, next: Option<u32>) -> Result<(), AllocError>
    ensures { out.new.settled ≡ out.old.settled }
{
    out.push_number(
        ",\"name\":\"page\",\"args\":{\"threads\":",
        u64::from(count),
    )?;
    match next {
        Some(tid) => out.push_number(",\"next\":", u64::from(tid))?,
        None => out.push_str(",\"next\":null")?,
    }
    out.push_str(",")
}

impl Agent {
    /// Is none.
    pub(crate) fn new() -> Agent {
        Agent { track: None }
    }

    /// Ends the agent that there is.
    pub(crate) fn end(&mut self, out: &mut Text, place: &Digits) -> Result<(), AllocError>
        ensures { out.new.settled ≡ out.old.settled }
    {
        match self.track.take() {
            Some(track) => end_slice(out, AGENT_END, track, place),
            None => Ok(()),
        }
    }

    /// Tells what an entry says of the agents.
    #[inline(always)]
    pub(crate) fn hear(
        &mut self,
        out: &mut Text,
        when: When<'_>,
        entry: &Entry,
    ) -> Result<(), AllocError>
        ensures { out.new.settled ≡ out.old.settled }
    {
        match entry {
            Entry::Role { generation, cpu } => {
                self.end(out, when.place)?;
                self.track = Some(ACTIVE);
                write_active(out, when, *generation, *cpu)
            }
            Entry::Begin { generation } => {
                self.end(out, when.place)?;
                self.track = Some(ATTACHING);
                write_attaching(out, when, *generation)
            }
            Entry::Left | Entry::Torn => self.end(out, when.place),
            _ => Ok(()),
        }
    }

    /// Tells what happened to the agent that no entry tells.
    pub(crate) fn mark(
        &self,
        out: &mut Text,
        when: When<'_>,
        event: AgentEvent,
    ) -> Result<(), AllocError>
        ensures { out.new.settled ≡ out.old.settled }
    {
        let track = self.track.unwrap_or(ATTACHING);
        begin_event(out, AGENT_INSTANT, track, when.place)?;
        match event {
            AgentEvent::Page { count, next } => write_page(out, count, next)?,
            AgentEvent::Crashed => out.push_str(",\"name\":\"crash\",\"args\":{")?,
        }
        end_event(out, "", when)
    }
}
