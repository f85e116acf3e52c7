ghost use Rattle.std.specs.Prelude.{◌≡◌, ◌↔◌, ◌<◌, ◌^◌, IfOk, IsTrue, None, OnOk, Some};
ghost use Rattle.gs_timeline.specs.Lanes.{gone, lane_then, left, seat, seated, vacant};

use crate::stay::Stay;
use gs_journal::{Entry, thread_then};
use std::alloc::{AllocError, Global};
use std::marker::Model;

/// What was on a CPU so far: the stays that ended, and who is there, with the place of the entry since which
/// that is so.
#[derive(Drop)]
pub struct Lane {
    ended: Vec<Stay>,
    there: Option<(u32, usize)>,
}

impl Model for Lane {
    ghost use Rattle.gs_timeline.specs.Lanes.{LaneOf};

    ghost Value = { LaneOf };

    ghost view = { λ lane. record { ended = lane.ended.items; there = lane.there } };
}

impl Lane {
    /// Makes the lane of a CPU on which nobody was yet, with room for so many stays.
    ///
    /// # Errors
    ///
    /// `AllocError` if out of memory.
    pub(crate) fn with_room(alloc: Global, room: usize) -> Result<Lane, AllocError>
        ensures { IfOk result (λ lane. lane ≡ vacant) }
    {
        Ok(Lane {
            ended: Vec::with_capacity(alloc, room)?,
            there: None,
        })
    }

    /// Returns whether a thread is on the CPU.
    pub(crate) fn has(&self, tid: u32) -> bool
        ensures { IsTrue result ↔ (seat self.now ≡ Some tid) }
    {
        self.there.is_some_and(|(there, _)| there == tid)
    }

    /// Lends the stays that ended, in order.
    pub fn stays(&self) -> &[Stay]
        ensures { result.now ≡ self.now.ended }
    {
        self.ended.as_slice()
    }

    /// Ends the stay of whoever is there, by the entry of this place. After an error that stay may be
    /// missing.
    pub(crate) fn end(&mut self, cpu: u16, place: usize) -> Result<(), AllocError>
        ensures { OnOk result (self.new ≡ left cpu place self.old) }
    {
        if let Some((tid, from)) = self.there.take() {
            self.ended.push(Stay {
                cpu,
                tid,
                from,
                to: place,
            })?;
        }
        Ok(())
    }

    /// Takes a thread off the CPU by the entry of this place, if it is there. After an error its stay may be missing.
    #[inline(always)]
    pub(crate) fn leave(&mut self, cpu: u16, tid: u32, place: usize) -> Result<(), AllocError>
        ensures { OnOk result (self.new ≡ gone cpu tid place self.old) }
    {
        if self.has(tid) {
            return self.end(cpu, place);
        }
        Ok(())
    }

    /// Places a thread on the CPU by the entry of this place, if it is not there. After an error a stay may be missing.
    #[inline(always)]
    pub(crate) fn place(&mut self, cpu: u16, tid: u32, place: usize) -> Result<(), AllocError>
        ensures { OnOk result (self.new ≡ seated cpu place (Some tid) self.old) }
    {
        if self.has(tid) {
            return Ok(());
        }
        self.end(cpu, place)?;
        self.there = Some((tid, place));
        Ok(())
    }

    /// Changes who is on the CPU as the entry of this place says. After an error a stay may be missing.
    pub(crate) fn hear(&mut self, cpu: u16, place: usize, entry: &Entry) -> Result<(), AllocError>
        ensures { OnOk result (self.new ≡ lane_then place entry.now cpu self.old) }
    {
        let before = self.there.map(|(tid, _)| tid);
        let after = thread_then(cpu, before, entry);
        if after == before {
            return Ok(());
        }
        self.end(cpu, place)?;
        self.there = after.map(|tid| (tid, place));
        Ok(())
    }
}
