//! What a picture tells beside the journal, noted event by event.

ghost use Rattle.std.specs.Prelude.{◌≡◌, ◌++◌, ◌∷◌, [], IfOk, OnOk, map};
ghost use Rattle.gs_trace.specs.Came.{reply_in};
ghost use Rattle.gs_trace.specs.Watched.{Watches, landed, told_by, told_if, told_in};

use crate::came::Came;
use crate::noted::Lines;
use crate::running::{Sink, When};
use gs_core::Reply;
use gs_kernel::{Kernel, Landing};
use gs_policy::Choice;
use gs_ring::ByteRing;
use gs_timeline::{AgentEvent, AgentMark, Fill, Mark, Notes, What};
use std::alloc::{AllocError, Global};

/// Returns a number of lines or of entries in four bytes. There are never more than fit: neither a script nor a history has
/// as many.
#[inline(always)]
fn short(number: usize) -> u32 {
    u32::try_from(number).unwrap_or(u32::MAX)
}

/// What was noted of the events so far.
#[derive(Drop)]
pub(crate) struct Noting {
    lines: Lines,
    marks: Vec<Mark>,
    agents: Vec<AgentMark>,
    fills: Vec<Fill>,
    /// How many bytes of the ring are in use.
    used: usize,
}

impl Noting {
    /// Notes what is so at the beginning: the header's line added one entry, and the ring is empty.
    pub(crate) fn new(alloc: Global, header: usize) -> Result<Noting, AllocError>
        ensures { IfOk result (λ n. n.marks.items ≡ []) }
    {
        Ok(Noting {
            lines: Lines::new(alloc, header)?,
            marks: Vec::new(alloc),
            agents: Vec::new(alloc),
            fills: Vec::new(alloc),
            used: 0,
        })
    }

    /// Lends what was noted, of a ring of so many bytes.
    pub(crate) fn notes(&self, ring: usize) -> Notes<'_> {
        Notes {
            lines: self.lines.entries.as_slice(),
            marks: self.marks.as_slice(),
            agents: self.agents.as_slice(),
            fills: self.fills.as_slice(),
            ring,
        }
    }

    /// Notes what an event did to a transaction.
    #[tactic(auto, using(crate::proofs::Telling::told_push))]
    fn add(&mut self, when: When, cpu: u16, tid: u32, what: What) -> Result<(), AllocError>
        ensures { OnOk result (told_by self.new.marks.items ≡ told_by self.old.marks.items ++ told_if cpu tid what) }
    {
        self.marks.push(Mark {
            line: short(when.line),
            entries: short(when.entries),
            tid,
            what,
            cpu,
        })?;
        Ok(())
    }

    /// Notes what happened to an agent.
    fn add_agent(&mut self, when: When, event: AgentEvent) -> Result<(), AllocError>
        ensures { OnOk result (self.new.marks.items ≡ self.old.marks.items) }
    {
        self.agents.push(AgentMark {
            line: when.line,
            entries: when.entries,
            event,
        })?;
        Ok(())
    }

    /// Notes what a policy planned.
    fn add_choices(&mut self, when: When, choices: &[Choice]) -> Result<(), AllocError>
        ensures { OnOk result (told_by self.new.marks.items ≡ told_by self.old.marks.items) }
    {
        for choice in choices {
            let what = What::Stamped {
                preempt: choice.preempt,
                group: false,
            };
            self.add(when, choice.cpu, choice.tid, what)?;
        }
        Ok(())
    }

    /// Notes what became of slots.
    fn add_landings(&mut self, when: When, landings: &[Landing]) -> Result<(), AllocError>
        ensures { OnOk result (told_by self.new.marks.items ≡ told_by self.old.marks.items ++ map landed landings.now) }
    {
        for landing in landings {
            let what = What::Landed {
                outcome: landing.outcome,
            };
            self.add(when, landing.cpu, landing.tid, what)?;
        }
        Ok(())
    }

    /// Notes what became of a transaction under an older generation.
    fn add_late(&mut self, when: When, number: u32, landing: &Landing) -> Result<(), AllocError>
        ensures { OnOk result (told_by self.new.marks.items ≡ told_by self.old.marks.items ++ (landing.now.cpu, landing.now.tid, What.Late number landing.now.outcome) ∷ []) }
    {
        let what = What::Late {
            number,
            outcome: landing.outcome,
        };
        self.add(when, landing.cpu, landing.tid, what)
    }

    /// Notes an event by its reply.
    #[inline(never)]
    fn hear_reply(&mut self, when: When, reply: &Reply) -> Result<(), AllocError>
        ensures { OnOk result (told_by self.new.marks.items ≡ told_by self.old.marks.items ++ told_in reply.now) }
    {
        match reply {
            Reply::Decided { choices, .. } => self.add_choices(when, choices.as_slice()),
            Reply::Landed { landings, .. } => self.add_landings(when, landings.as_slice()),
            Reply::Late {
                number,
                landing,
                ..
            } => self.add_late(when, *number, landing),
            Reply::Page { count, next, .. } => self.add_agent(
                when,
                AgentEvent::Page {
                    count: *count,
                    next: *next,
                },
            ),
            Reply::Crashed => self.add_agent(when, AgentEvent::Crashed),
            _ => Ok(()),
        }
    }

    /// Notes an event by what came of it.
    #[inline(always)]
    fn hear(&mut self, when: When, came: Came<'_>) -> Result<(), AllocError>
        ensures { OnOk result (told_by self.new.marks.items ≡ told_by self.old.marks.items ++ told_in (reply_in came.entry)) }
    {
        match came {
            Came::Stamped {
                cpu,
                tid,
                flags,
                ..
            } => {
                let what = What::Stamped {
                    preempt: flags.preempt,
                    group: flags.group,
                };
                self.add(when, cpu, tid, what)
            }
            Came::Landed(landings, _) => self.add_landings(when, landings),
            Came::Decided(_, choices) => self.add_choices(when, choices),
            Came::Replied(reply) => self.hear_reply(when, reply),
            _ => Ok(()),
        }
    }

    /// Notes how full the ring is.
    #[inline(always)]
    fn look_at_ring(&mut self, when: When, kernel: &Kernel<ByteRing>) -> Result<(), AllocError>
        ensures { OnOk result (self.new.marks.items ≡ self.old.marks.items) }
    {
        let ring = kernel.poster();
        let used = ring.capacity().saturating_sub(ring.free());
        if used != self.used {
            self.used = used;
            self.fills.push(Fill {
                entries: when.entries,
                used,
            })?;
        }
        Ok(())
    }
}

/// What a picture tells of the events.
impl Sink for Noting {
    ghost has = { Watches };

    #[inline(always)]
    #[tactic(auto, using(crate::proofs::Telling::told_more))]
    fn put(
        &mut self,
        _alloc: Global,
        when: When,
        came: Came<'_>,
        kernel: &Kernel<ByteRing>,
    ) -> Result<(), AllocError> {
        self.hear(when, came)?;
        self.lines.note_entries(when.line, kernel.journal().len())?;
        self.look_at_ring(when, kernel)
    }
}
