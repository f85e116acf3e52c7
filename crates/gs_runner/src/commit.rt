//! Commits under the lock.

ghost use Rattle.std.specs.Prelude.{◌≡◌, ◌+◌, ◌≤◌, [], ◌∷◌, ◌++◌, length, not, vec_len, vec_capacity, IfErr, IfOk, OnErr, OnOk, true, false};
ghost use Rattle.gs_kernel.specs.Commit.{commit_refusal};
ghost use Rattle.gs_kernel.specs.Kernel.{IsRefusal};
ghost use Rattle.gs_slots.specs.Reading.{state_in};
ghost use Rattle.gs_runner.specs.declared.call.Called.{Called};
ghost use Rattle.gs_runner.specs.Calls.{Commits, GoesOnBy, ThreadRoom, is_refused, is_settled, landed_if, landed_slots};
ghost use Rattle.gs_runner.specs.Told.{IsTold, parcels_of};

use crate::call::{Call, Called, Receipt};
use crate::carry::entries;
use crate::enclave::Enclave;
use crate::land::{is_settled_slot, landed};
use crate::share::Share;
use crate::site::Site;
use gs_board::Board;
use gs_kernel::{Kernel, Landing};
use gs_layout::Refusal;
use gs_link::RtrbPoster;
use gs_replies::{Items, Reply};
use gs_slots::Region;
use gs_status::{MOST_CPUS, Mask};
use std::alloc::{AllocError, Global};

/// What a commit landed, and the reply to it, twice.
pub(crate) struct Commit {
    pub slots: Vec<(u16, [u8; 32])>,
    pub reply: Reply,
    pub again: Reply,
}

/// Appends the slot of a CPU, if it lands: if it is neither idle nor done.
fn add_slot(slots: &mut Vec<(u16, [u8; 32])>, cpu: u16, bytes: &[u8; 32]) -> Result<(), AllocError>
    ensures { OnOk result (slots.new.items ≡ slots.old.items ++ landed_if (not (is_settled (state_in cpu bytes.now))) cpu bytes.now) }
{
    if is_settled_slot(cpu, *bytes) {
        return Ok(());
    }
    match slots.push((cpu, *bytes)) {
        Ok(()) => Ok(()),
        Err(_) => Err(AllocError),
    }
}

/// Returns the slots of a mask that land, as they are. It looks at those that are not idle.
fn landed_slots(
    alloc: Global,
    region: &mut Region,
    mask: Mask,
) -> Result<Vec<(u16, [u8; 32])>, AllocError>
    requires { length region.old ≤ MOST_CPUS }
    ensures slots { IfOk result (λ v. v.items ≡ landed_slots mask 0 region.old) }
    ensures same { region.new ≡ region.old }
{
    let mut slots = Vec::new(alloc);
    let mut left = mask.both(region.busy());
    'walk: while let Some(cpu) = left.lowest() {
        add_slot(&mut slots, cpu, region.bytes(cpu))?;
        left = left.without(cpu);
    }
    Ok(slots)
}

/// Appends all landings, for which there is room.
fn copy(landings: &[Landing], again: &mut Vec<Landing>)
    requires { vec_len again.old + length landings.now ≤ vec_capacity again.old }
    ensures { again.new.items ≡ again.old.items ++ landings.now }
{
    for landing in landings {
        again.push_reserved(*landing);
    }
}

/// Commits the slots of a mask, or refuses that.
pub(crate) fn try_commit(
    kernel: &mut Kernel<RtrbPoster>,
    alloc: Global,
    region: &mut Region,
    mask: Mask,
) -> Result<Commit, Refusal>
    requires { length region.old ≡ kernel.old.settings.cpus }
    ensures slots { IfOk result (λ c. c.slots.items ≡ landed_slots mask 0 region.old) }
    ensures again { IfOk result (λ c. c.again ≡ c.reply) }
    ensures told { IfOk result (λ c. IsTold kernel.old (Called.Committed (landed_slots mask 0 region.old)) c.reply kernel.new) }
    ensures done { IfOk result (λ c. is_refused c.reply ≡ false) }
    ensures commits { IfOk result (λ c. Commits (ThreadRoom (parcels_of kernel.old)) kernel.old.settings kernel.old.history mask region.old c.reply region.new kernel.new.history) }
    ensures refused { IfErr result (IsRefusal (commit_refusal kernel.old.settings kernel.old.history mask)) }
    ensures unchanged { OnErr result ((kernel.new ≡ kernel.old) × (region.new ≡ region.old)) }
{
    // Reads the numbers to expose the most CPUs.
    let _settings = kernel.settings();
    if let Some(refusal) = kernel.commit_refusal(mask) {
        return Err(refusal);
    }
    let slots = landed_slots(alloc, region, mask)?;
    let mut again = Vec::with_capacity(alloc, slots.len())?;
    let landings = kernel.txns_commit(alloc, region, mask)?;
    copy(&landings, &mut again);
    let torn = kernel.is_torn();
    Ok(Commit {
        slots,
        reply: landed(landings, torn),
        again: landed(again, torn),
    })
}

/// Returns why a commit is refused if out of memory for its call.
fn short_commit(kernel: &Kernel<RtrbPoster>, mask: Mask) -> Refusal
    ensures { IsRefusal (commit_refusal kernel.now.settings kernel.now.history mask) result }
{
    kernel.commit_refusal(mask).unwrap_or(Refusal::OutOfMemory)
}

impl<L: Site> Enclave<L> {
    /// Commits the slots of a mask. Those that are stamped or malformed land, the group first and then the others in
    /// increasing order of CPU. What became of each is left in it. That is the kernel's legal step, with the
    /// reply that the receipt has. Unless it is refused, the call stands in the list then, with the slots that
    /// landed, and share and book count it. A refused one changes nothing. The region has a slot for each CPU.
    ///
    /// # Examples
    ///
    /// The slot of CPU 0 lands, if the region has a slot for each CPU:
    ///
    /// ```
    /// let mut enclave = station.enclave().lock(rt);
    /// if region.cpus() != enclave.kernel().settings().cpus {
    ///     return None;
    /// }
    /// Some(enclave.commit(station.board(), pass.share(), region, Mask::new(1)))
    /// ```
    pub fn commit(
        &mut self,
        board: &Board<L>,
        share: &mut Share<L>,
        region: &mut Region,
        mask: Mask,
    ) -> Receipt
        requires { length region.old ≡ self.old.settings.cpus }
        ensures commits { Commits (ThreadRoom L.parcels) self.old.settings self.old.history mask region.old result.reply region.new self.new.history }
        ensures at { result.at ≡ length self.old.history }
        ensures entries { GoesOnBy result.entries self.old.history self.new.history }
        ensures accepted { is_refused result.reply ≡ false → self.new.calls ≡ self.old.calls ++ record { called = Called.Committed (landed_slots mask 0 region.old); at = result.at; entries = result.entries; reply = result.reply } ∷ [] }
        ensures counted { is_refused result.reply ≡ false → (share.new ≡ share.old + 1) × (self.new.counted ≡ self.old.counted + 1) }
        ensures refused { is_refused result.reply ≡ true → (self.new ≡ self.old) × (share.new ≡ share.old) }
        ensures settings { self.new.settings ≡ self.old.settings }
    {
        let at = entries(&self.kernel);
        if self.log.list.reserve().is_err() {
            return Receipt::refused(at, short_commit(&self.kernel, mask));
        }
        let Commit {
            slots,
            reply,
            again,
        } = match try_commit(&mut self.kernel, self.alloc, region, mask) {
            Ok(commit) => commit,
            Err(refusal) => return Receipt::refused(at, refusal),
        };
        let more = entries(&self.kernel) - at;
        let call = Call {
            called: Called::Committed(Items::new(slots)),
            at,
            entries: more,
            reply: again,
        };
        self.log.accept(board, share, &self.kernel, call);
        Receipt {
            at,
            entries: more,
            reply,
        }
    }
}
