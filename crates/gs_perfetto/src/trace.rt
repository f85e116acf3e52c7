ghost use Rattle.std.specs.Prelude.{◌≡◌, List, ℕ, [], IfOk, OnErr, OnOk, map};
ghost use Rattle.std.specs.Io.KnownBytes.{Appends};
ghost use Rattle.std.specs.List.Sorted.{IsPermutation};
ghost use Rattle.gs_perfetto.specs.Events.{slice_front};
ghost use Rattle.gs_timeline.specs.Pieces.{HasEach};
ghost use Rattle.gs_timeline.specs.Sent.{Grows, Sends};
ghost use Rattle.gs_timeline.specs.Stays.{all_stays};

use crate::tracks::write_tracks;
use crate::walk::Walk;
use gs_journal::Journal;
use gs_timeline::{Notes, Stay, Text, WriteFailed, stays_in_order};
use std::alloc::{AllocError, Global};
use std::io::Write;
use std::marker::Model;

/// Tells all that a walk tells, and adds the stays, each where it begins.
fn write_events<W: Write>(
    out: &mut Text,
    writer: &mut W,
    walk: &mut Walk<'_>,
    stays: &[Stay],
) -> Result<(), WriteFailed>
    ensures sent { OnOk result (Sends (map slice_front stays.now) (W.contents writer.old) (W.contents writer.new) out.old.settled out.new.settled) }
    ensures stuck { OnErr result (Grows (W.contents writer.old) (W.contents writer.new)) }
{
    for stay in stays {
        walk.tell_up_to(out, writer, stay.from)?;
        walk.add_slice(out, stay)?;
    }
    walk.tell_up_to(out, writer, walk.end())?;
    walk.finish(out, writer)?;
    Ok(())
}

/// A run as a trace in the Chrome trace event format, which is JSON, of which nothing is written yet. An entry of the journal
/// takes one microsecond: what happens at an entry, or before it and behind the one before, has its place as its time.
///
/// Each CPU is a track. Each stay of a thread on it is a slice, from the entry that put the thread there to the one that took
/// it off. Agents, slots with their transactions, the ring and the run queue have tracks of their own.
///
/// Contracts see the stays, in the order in which the trace has them.
#[derive(Drop)]
pub struct Trace<'a> {
    cpus: u16,
    stays: Vec<Stay>,
    walk: Walk<'a>,
    /// What is told and not written yet.
    out: Text,
}

impl<'a> Model for Trace<'a> {
    ghost use Rattle.std.specs.Prelude.{◌≡◌, [], List};
    ghost use Rattle.gs_timeline.specs.declared.stay.Stay.{Stay};

    ghost Value = { List Stay };

    ghost view = { λ t. t.stays.items };

    ghost invariant = { λ t. t.out ≡ record { settled = []; told = [] } };
}

impl<'a> Trace<'a> {
    /// Gathers what the trace of a run on so many CPUs tells, and makes room for it to be written piece by piece.
    ///
    /// # Errors
    ///
    /// `AllocError` if out of memory.
    pub fn new(
        alloc: Global,
        cpus: u16,
        journal: &'a Journal,
        notes: Notes<'a>,
    ) -> Result<Trace<'a>, AllocError>
        ensures stays { IfOk result (λ trace. IsPermutation (all_stays journal.now.entries cpus) trace) }
    {
        Ok(Trace {
            cpus,
            stays: stays_in_order(alloc, journal, cpus)?,
            walk: Walk::new(alloc, cpus, journal, notes)?,
            out: Text::with_room(alloc)?,
        })
    }

    /// Writes the trace, piece by piece: it is never kept whole.
    ///
    /// # Errors
    ///
    /// `WriteFailed` if a write fails or takes no byte, or if memory runs out beyond what was made room for. A beginning was
    /// written then.
    pub fn write<W: Write>(self, writer: &mut W) -> Result<(), WriteFailed>
        ensures written { OnOk result ((text : List ℕ) × Appends (W.contents writer.old) (W.contents writer.new) text × HasEach (map slice_front self.entry) text) }
        ensures stuck { OnErr result (Grows (W.contents writer.old) (W.contents writer.new)) }
    {
        let Trace {
            cpus,
            stays,
            mut walk,
            mut out,
        } = self;
        out.push_str("{\"displayTimeUnit\":\"ns\",\"traceEvents\":[\n")?;
        write_tracks(&mut out, cpus)?;
        walk.begin(&mut out)?;
        write_events(&mut out, writer, &mut walk, stays.as_slice())?;
        out.push_str("\n]}\n")?;
        out.send(writer)
    }
}
