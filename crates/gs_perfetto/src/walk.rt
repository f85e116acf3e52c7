//! What a trace tells beside the stays, place by place.

ghost use Rattle.std.specs.Prelude.{◌≡◌, ◌∷◌, [], OnErr, OnOk};
ghost use Rattle.gs_perfetto.specs.Events.{slice_front};
ghost use Rattle.gs_timeline.specs.Pieces.{Adds};
ghost use Rattle.gs_timeline.specs.Sent.{Grows, Sends};

use crate::agents::Agent;
use crate::events::{When, begin_event, end_event, end_slice};
use crate::labels::Labels;
use crate::queue::{Queue, write_fill};
use crate::slices::write_slice;
use crate::slots::{Slots, landings_of};
use crate::tracks::{CPU_BEGIN, CPU_END, EVERYWHERE, cpu_track};
use gs_journal::{Entry, Journal};
use gs_timeline::{Digits, Notes, Stay, Text, WriteFailed};
use std::alloc::{AllocError, Global};
use std::io::Write;

/// How far a trace came.
#[derive(Drop)]
pub(crate) struct Walk<'a> {
    journal: &'a Journal,
    notes: Notes<'a>,
    labels: Labels,
    /// Of each mark that is a stamp, before which entry its transaction lands from its slot, if it does.
    landings: Vec<Option<usize>>,
    /// The places of the next entry, mark of a CPU, mark of an agent and fill.
    entry: usize,
    mark: usize,
    agent_mark: usize,
    fill: usize,
    agent: Agent,
    slots: Slots,
    queue: Queue,
    /// Whether the other class has each CPU.
    taken: Vec<bool>,
    cpus: u16,
    /// The place that was told last, and the script's line of that.
    place: Digits,
    line: Digits,
}

/// Tells the beginning of a time that the other class has a CPU.
fn write_taken(out: &mut Text, when: When<'_>, cpu: u16) -> Result<(), AllocError>
    ensures { out.new.settled ≡ out.old.settled }
{
    begin_event(out, CPU_BEGIN, cpu_track(cpu), when.place)?;
    end_event(out, ",\"name\":\"other class\",\"args\":{", when)
}

/// Tells a tear-down.
fn write_torn(out: &mut Text, when: When<'_>) -> Result<(), AllocError>
    ensures { out.new.settled ≡ out.old.settled }
{
    begin_event(out, EVERYWHERE, cpu_track(0), when.place)?;
    end_event(out, ",\"name\":\"torn\",\"args\":{", when)
}

impl<'a> Walk<'a> {
    /// Begins at the first entry: nothing is told.
    pub(crate) fn new(
        alloc: Global,
        cpus: u16,
        journal: &'a Journal,
        notes: Notes<'a>,
    ) -> Result<Walk<'a>, AllocError> {
        let mut taken = Vec::with_capacity(alloc, cpus as usize)?;
        for _ in 0..cpus {
            taken.push(false)?;
        }
        let labels = Labels::new(alloc, journal)?;
        let threads = labels.len();
        Ok(Walk {
            journal,
            notes,
            labels,
            landings: landings_of(alloc, notes.marks, cpus)?,
            entry: 0,
            mark: 0,
            agent_mark: 0,
            fill: 0,
            agent: Agent::new(),
            slots: Slots::new(alloc, cpus)?,
            queue: Queue::new(alloc, threads)?,
            taken,
            cpus,
            place: Digits::new(0),
            line: Digits::new(0),
        })
    }

    /// Returns the script's line that added an entry.
    fn line_of(&self, place: usize) -> u64 {
        self.notes.lines.get(place).copied().unwrap_or(0) as u64
    }

    /// Goes to an entry: its place, and its line.
    #[inline(always)]
    fn go(&mut self, place: usize)
        ensures { self.new.place ≡ place }
    {
        self.place.set(place as u64);
        let line = self.line_of(place);
        self.line.set(line);
    }

    /// Adds a stay as a slice.
    pub(crate) fn add_slice(&mut self, out: &mut Text, stay: &Stay) -> Result<(), AllocError>
        ensures { OnOk result (Adds (slice_front stay.now ∷ []) out.old.settled out.new.settled) }
    {
        self.go(stay.from);
        write_slice(out, stay, &self.line, &self.place, self.labels.of(stay.tid))
    }

    /// Tells what is counted at the beginning.
    pub(crate) fn begin(&self, out: &mut Text) -> Result<(), AllocError>
        ensures { out.new.settled ≡ out.old.settled }
    {
        write_fill(out, &self.place, 0)?;
        self.queue.write(out, &self.place)
    }

    /// Tells what events did to transactions, of those that begin at this place or before.
    #[inline(always)]
    fn tell_marks<W: Write>(
        &mut self,
        out: &mut Text,
        writer: &mut W,
        place: usize,
    ) -> Result<(), WriteFailed>
        ensures sent { OnOk result (Sends [] (W.contents writer.old) (W.contents writer.new) out.old.settled out.new.settled) }
        ensures stuck { OnErr result (Grows (W.contents writer.old) (W.contents writer.new)) }
    {
        let marks = self.notes.marks;
        for at in self.mark..marks.len() {
            let Some(mark) = marks.get(at).filter(|mark| mark.place() <= place) else {
                break;
            };
            let landing = self.landings.get(at).copied().unwrap_or(None);
            self.place.set(u64::from(mark.entries));
            self.line.set(u64::from(mark.line));
            let when = When {
                place: &self.place,
                line: &self.line,
            };
            self.slots
                .hear(out, mark, when, landing, self.labels.of(mark.tid))?;
            self.mark = at + 1;
            out.spill(writer)?;
        }
        Ok(())
    }

    /// Tells what happened to agents that no entry tells, up to this place.
    #[inline(always)]
    fn tell_agents<W: Write>(
        &mut self,
        out: &mut Text,
        writer: &mut W,
        place: usize,
    ) -> Result<(), WriteFailed>
        ensures sent { OnOk result (Sends [] (W.contents writer.old) (W.contents writer.new) out.old.settled out.new.settled) }
        ensures stuck { OnErr result (Grows (W.contents writer.old) (W.contents writer.new)) }
    {
        let marks = self.notes.agents;
        for at in self.agent_mark..marks.len() {
            let Some(mark) = marks.get(at).filter(|mark| mark.entries <= place) else {
                break;
            };
            self.place.set(mark.entries as u64);
            self.line.set(mark.line as u64);
            let when = When {
                place: &self.place,
                line: &self.line,
            };
            self.agent.mark(out, when, mark.event)?;
            self.agent_mark = at + 1;
            out.spill(writer)?;
        }
        Ok(())
    }

    /// Tells how full the ring is, up to this place.
    #[inline(always)]
    fn tell_fills<W: Write>(
        &mut self,
        out: &mut Text,
        writer: &mut W,
        place: usize,
    ) -> Result<(), WriteFailed>
        ensures sent { OnOk result (Sends [] (W.contents writer.old) (W.contents writer.new) out.old.settled out.new.settled) }
        ensures stuck { OnErr result (Grows (W.contents writer.old) (W.contents writer.new)) }
    {
        let fills = self.notes.fills;
        for at in self.fill..fills.len() {
            let Some(fill) = fills.get(at).filter(|fill| fill.entries <= place) else {
                break;
            };
            self.place.set(fill.entries as u64);
            write_fill(out, &self.place, fill.used)?;
            self.fill = at + 1;
            out.spill(writer)?;
        }
        Ok(())
    }

    /// Notes whether the other class has a CPU, and returns whether it had it.
    fn take(&mut self, cpu: u16, taken: bool) -> bool {
        let Some(slot) = self.taken.get_mut(cpu as usize) else {
            return false;
        };
        let before = *slot;
        *slot = taken;
        before
    }

    /// Ends the time that the other class has a CPU, if it has it.
    fn give(&mut self, out: &mut Text, cpu: u16) -> Result<(), AllocError>
        ensures { out.new.settled ≡ out.old.settled }
    {
        if self.take(cpu, false) {
            end_slice(out, CPU_END, cpu_track(cpu), &self.place)?;
        }
        Ok(())
    }

    /// Tells an entry. It is folded into the walk, and lends no part of the entry, so that this is never written out whole.
    #[inline(always)]
    fn tell_entry(&mut self, out: &mut Text, place: usize, entry: &Entry) -> Result<(), AllocError>
        ensures { out.new.settled ≡ out.old.settled }
    {
        self.go(place);
        match entry {
            Entry::Taken { cpu } => {
                self.take(*cpu, true);
                let when = When {
                    place: &self.place,
                    line: &self.line,
                };
                write_taken(out, when, *cpu)?;
            }
            Entry::Given { cpu } => self.give(out, *cpu)?,
            Entry::Begin { .. } => self.slots.clear(out, &self.place)?,
            Entry::Torn => {
                self.slots.clear(out, &self.place)?;
                let when = When {
                    place: &self.place,
                    line: &self.line,
                };
                write_torn(out, when)?;
            }
            _ => {}
        }
        let when = When {
            place: &self.place,
            line: &self.line,
        };
        self.agent.hear(out, when, entry)?;
        self.queue.hear(entry)?;
        self.queue.show(out, &self.place)
    }

    /// Tells all up to a place: what happened before its entry, and that entry.
    pub(crate) fn tell_up_to<W: Write>(
        &mut self,
        out: &mut Text,
        writer: &mut W,
        last: usize,
    ) -> Result<(), WriteFailed>
        ensures sent { OnOk result (Sends [] (W.contents writer.old) (W.contents writer.new) out.old.settled out.new.settled) }
        ensures stuck { OnErr result (Grows (W.contents writer.old) (W.contents writer.new)) }
    {
        let journal = self.journal;
        for place in self.entry..journal.len() {
            if place > last {
                break;
            }
            self.tell_marks(out, writer, place)?;
            self.tell_agents(out, writer, place)?;
            self.tell_fills(out, writer, place)?;
            self.tell_entry(out, place, &journal.entry(place))?;
            out.spill(writer)?;
            self.entry = place + 1;
        }
        Ok(())
    }

    /// Returns the place behind the last entry.
    pub(crate) fn end(&self) -> usize {
        self.journal.len()
    }

    /// Tells what happened behind the last entry, once all entries were told, and ends what goes on.
    pub(crate) fn finish<W: Write>(
        &mut self,
        out: &mut Text,
        writer: &mut W,
    ) -> Result<(), WriteFailed>
        ensures sent { OnOk result (Sends [] (W.contents writer.old) (W.contents writer.new) out.old.settled out.new.settled) }
        ensures stuck { OnErr result (Grows (W.contents writer.old) (W.contents writer.new)) }
    {
        let end = self.journal.len();
        self.tell_marks(out, writer, end)?;
        self.tell_agents(out, writer, end)?;
        self.tell_fills(out, writer, end)?;
        self.go(end);
        self.end_all(out)?;
        Ok(())
    }

    /// Ends what goes on.
    fn end_all(&mut self, out: &mut Text) -> Result<(), AllocError>
        ensures { out.new.settled ≡ out.old.settled }
    {
        self.slots.clear(out, &self.place)?;
        self.agent.end(out, &self.place)?;
        for cpu in 0..self.cpus {
            self.give(out, cpu)?;
        }
        Ok(())
    }
}
