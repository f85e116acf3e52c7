//! The transactions: stamped into the slot of a CPU, and landed from it, or late.

ghost use Rattle.std.specs.Prelude.{◌≡◌};
ghost use Rattle.gs_perfetto.specs.Events.{outcome_args};

use crate::events::{TIME, When, begin_event, end_event, end_slice};
use crate::tracks::{
    SLOT_BEGIN, SLOT_END, SLOT_INSTANT, SLOT_SLICE, WAY_BEGIN, WAY_END, slot_track,
};
use gs_layout::Outcome;
use gs_timeline::{Digits, Mark, Text, What};
use std::alloc::{AllocError, Global};

/// Makes a list of nothing for each of so many CPUs.
fn nothing_for_each<T: Copy + Drop>(
    alloc: Global,
    cpus: u16,
) -> Result<Vec<Option<T>>, AllocError> {
    let mut all = Vec::with_capacity(alloc, cpus as usize)?;
    for _ in 0..cpus {
        all.push(None)?;
    }
    Ok(all)
}

/// Returns of each mark that is a stamp before which entry its transaction lands from its slot, if it does. It walks the
/// marks once.
pub(crate) fn landings_of(
    alloc: Global,
    marks: &[Mark],
    cpus: u16,
) -> Result<Vec<Option<usize>>, AllocError> {
    let mut landings = Vec::with_capacity(alloc, marks.len())?;
    let mut stamps = nothing_for_each(alloc, cpus)?;
    for (at, mark) in marks.iter().enumerate() {
        landings.push(None)?;
        let Some(stamp) = stamps.get_mut(mark.cpu as usize) else {
            continue;
        };
        match mark.what {
            What::Stamped { .. } => *stamp = Some(at),
            What::Landed { .. } => {
                if let Some(landing) = stamp.take().and_then(|at| landings.get_mut(at)) {
                    *landing = Some(mark.place());
                }
            }
            What::Late { .. } => {}
        }
    }
    Ok(landings)
}

/// What is in a slot.
#[derive(Clone, Copy)]
struct Stamped {
    /// The number of the transaction, counted from 1 by the stampings.
    number: u64,
    /// Whether the end of its slice is still to be told.
    open: bool,
}

/// The slots of the CPUs as a trace goes on.
#[derive(Drop)]
pub(crate) struct Slots {
    stamped: Vec<Option<Stamped>>,
    /// How many transactions were stamped so far.
    count: u64,
    /// The number that was told last, and the track.
    number: Digits,
    track: Digits,
    cpus: u16,
}

/// Tells the beginning of the way of a transaction.
#[inline(always)]
fn begin_way(out: &mut Text, number: &Digits, place: &Digits) -> Result<(), AllocError>
    ensures { out.new.settled ≡ out.old.settled }
{
    out.push_digits(WAY_BEGIN, place)?;
    out.push_digits(",\"id\":", number)?;
    out.push_str("}")
}

/// Tells the end of it, in a slot.
#[inline(always)]
fn end_way(
    out: &mut Text,
    track: &Digits,
    number: &Digits,
    place: &Digits,
) -> Result<(), AllocError>
    ensures { out.new.settled ≡ out.old.settled }
{
    out.push_digits(WAY_END, track)?;
    out.push_digits(TIME, place)?;
    out.push_digits(",\"id\":", number)?;
    out.push_str("}")
}

/// Returns what is said of a stamp that is to preempt, or is one of a group, beside its transaction and its thread.
fn flags_of(preempt: bool, group: bool) -> &'static str {
    match (preempt, group) {
        (false, false) => ",",
        (true, false) => ",\"preempt\":true,",
        (false, true) => ",\"group\":true,",
        (true, true) => ",\"preempt\":true,\"group\":true,",
    }
}

/// Ends the event of a stamp. Most are of neither kind, so that what ends them is known.
#[inline(always)]
fn end_stamp(out: &mut Text, preempt: bool, group: bool, when: When<'_>) -> Result<(), AllocError>
    ensures { out.new.settled ≡ out.old.settled }
{
    if preempt || group {
        end_event(out, flags_of(preempt, group), when)
    } else {
        end_event(out, ",", when)
    }
}

/// Tells the time that a transaction is in a slot, up to its last arguments: the time up to its landing, if it lands, or else
/// the beginning.
fn write_stamp(
    out: &mut Text,
    number: &Digits,
    mark: &Mark,
    when: When<'_>,
    landing: Option<usize>,
    name: &str,
) -> Result<(), AllocError>
    ensures { out.new.settled ≡ out.old.settled }
{
    let head = if landing.is_some() {
        SLOT_SLICE
    } else {
        SLOT_BEGIN
    };
    begin_event(out, head, slot_track(mark.cpu), when.place)?;
    if let Some(place) = landing {
        out.push_number(",\"dur\":", place.saturating_sub(mark.place()) as u64)?;
    }
    out.push_str(",\"name\":")?;
    out.push_str(name)?;
    out.push_digits(",\"args\":{\"transaction\":", number)?;
    out.push_number(",\"tid\":", u64::from(mark.tid))
}

/// Returns how an outcome is told: it is what the event is called, and an argument.
fn args_of(outcome: Outcome) -> &'static str
    ensures { result.now ≡ outcome_args outcome }
{
    match outcome {
        Outcome::Placed => ",\"name\":\"placed\",\"args\":{\"outcome\":\"placed",
        Outcome::Gone => ",\"name\":\"gone\",\"args\":{\"outcome\":\"gone",
        Outcome::Displaced => ",\"name\":\"displaced\",\"args\":{\"outcome\":\"displaced",
        Outcome::NoThread => ",\"name\":\"nothread\",\"args\":{\"outcome\":\"nothread",
        Outcome::Stale => ",\"name\":\"stale\",\"args\":{\"outcome\":\"stale",
        Outcome::NotRunnable => ",\"name\":\"notrunnable\",\"args\":{\"outcome\":\"notrunnable",
        Outcome::AlreadyPlaced =>
            ",\"name\":\"alreadyplaced\",\"args\":{\"outcome\":\"alreadyplaced",
        Outcome::NotAllowed => ",\"name\":\"notallowed\",\"args\":{\"outcome\":\"notallowed",
        Outcome::CpuIsAgent => ",\"name\":\"cpuisagent\",\"args\":{\"outcome\":\"cpuisagent",
        Outcome::CpuTaken => ",\"name\":\"cputaken\",\"args\":{\"outcome\":\"cputaken",
        Outcome::CpuBusy => ",\"name\":\"cpubusy\",\"args\":{\"outcome\":\"cpubusy",
        Outcome::SeqSpent => ",\"name\":\"seqspent\",\"args\":{\"outcome\":\"seqspent",
        Outcome::HistoryFull => ",\"name\":\"historyfull\",\"args\":{\"outcome\":\"historyfull",
        Outcome::Malformed => ",\"name\":\"malformed\",\"args\":{\"outcome\":\"malformed",
        Outcome::GroupFailed => ",\"name\":\"groupfailed\",\"args\":{\"outcome\":\"groupfailed",
    }
}

/// Tells a landing in a slot, up to its last arguments.
fn write_landing(
    out: &mut Text,
    track: &Digits,
    number: &Digits,
    mark: &Mark,
    when: When<'_>,
    outcome: Outcome,
) -> Result<(), AllocError>
    ensures { out.new.settled ≡ out.old.settled }
{
    out.push_digits(SLOT_INSTANT, track)?;
    out.push_digits(TIME, when.place)?;
    out.push_str(args_of(outcome))?;
    out.push_number("\",\"tid\":", u64::from(mark.tid))?;
    out.push_digits(",\"transaction\":", number)
}

impl Slots {
    /// Makes the slots of so many CPUs, in which nothing is stamped.
    pub(crate) fn new(alloc: Global, cpus: u16) -> Result<Slots, AllocError> {
        Ok(Slots {
            stamped: nothing_for_each(alloc, cpus)?,
            count: 0,
            number: Digits::new(0),
            track: Digits::new(0),
            cpus,
        })
    }

    /// Sets what is in the slot of a CPU, and returns what was.
    fn replace(&mut self, cpu: u16, stamped: Option<Stamped>) -> Option<Stamped> {
        let slot = self.stamped.get_mut(cpu as usize)?;
        let before = *slot;
        *slot = stamped;
        before
    }

    /// Sets what is in the slot of a CPU, and ends the slice of what was, if that is still to be told.
    fn set(
        &mut self,
        out: &mut Text,
        cpu: u16,
        place: &Digits,
        stamped: Option<Stamped>,
    ) -> Result<(), AllocError>
        ensures { out.new.settled ≡ out.old.settled }
    {
        match self.replace(cpu, stamped) {
            Some(Stamped { open: true, .. }) => end_slice(out, SLOT_END, slot_track(cpu), place),
            _ => Ok(()),
        }
    }

    /// Tells a stamp, whose transaction lands before this entry, if it does, up to its last arguments.
    fn stamp(
        &mut self,
        out: &mut Text,
        mark: &Mark,
        when: When<'_>,
        landing: Option<usize>,
        name: &str,
    ) -> Result<(), AllocError>
        ensures { out.new.settled ≡ out.old.settled }
    {
        self.count = self.count.saturating_add(1);
        let stamped = Stamped {
            number: self.count,
            open: landing.is_none(),
        };
        self.set(out, mark.cpu, when.place, Some(stamped))?;
        self.number.set(self.count);
        write_stamp(out, &self.number, mark, when, landing, name)
    }

    /// Tells a landing from a slot.
    fn land(
        &mut self,
        out: &mut Text,
        mark: &Mark,
        when: When<'_>,
        outcome: Outcome,
    ) -> Result<(), AllocError>
        ensures { out.new.settled ≡ out.old.settled }
    {
        let number = match self.replace(mark.cpu, None) {
            Some(stamped) => stamped.number,
            None => 0,
        };
        self.number.set(number);
        self.track.set(slot_track(mark.cpu));
        end_way(out, &self.track, &self.number, when.place)?;
        write_landing(out, &self.track, &self.number, mark, when, outcome)?;
        end_event(out, ",", when)
    }

    /// Tells what an event did to a transaction. Of a stamp it is given before which entry it lands from its slot, if it does,
    /// and `name` is what the thread is called, as JSON.
    pub(crate) fn hear(
        &mut self,
        out: &mut Text,
        mark: &Mark,
        when: When<'_>,
        landing: Option<usize>,
        name: &str,
    ) -> Result<(), AllocError>
        ensures { out.new.settled ≡ out.old.settled }
    {
        match mark.what {
            What::Stamped { preempt, group } => {
                self.stamp(out, mark, when, landing, name)?;
                end_stamp(out, preempt, group, when)?;
                if landing.is_some() {
                    begin_way(out, &self.number, when.place)?;
                }
                Ok(())
            }
            What::Landed { outcome } => self.land(out, mark, when, outcome),
            What::Late { number, outcome } => {
                self.number.set(u64::from(number));
                self.track.set(slot_track(mark.cpu));
                write_landing(out, &self.track, &self.number, mark, when, outcome)?;
                end_event(out, ",\"late\":true,", when)
            }
        }
    }

    /// Tells the end of what is stamped in any slot.
    pub(crate) fn clear(&mut self, out: &mut Text, place: &Digits) -> Result<(), AllocError>
        ensures { out.new.settled ≡ out.old.settled }
    {
        for cpu in 0..self.cpus {
            self.set(out, cpu, place, None)?;
        }
        Ok(())
    }
}
