//! Bytes that land in the slot of the CPU that they name.

ghost use Rattle.std.specs.Prelude.{◌≡◌, ◌<◌, IfErr, IfOk, List, ℕ, [], ◌∷◌, None, OnErr, Some, false, true};
ghost use Rattle.gs_kernel.specs.Kernel.{IsRefusal};
ghost use Rattle.gs_kernel.specs.Lands.{LandsBytes};
ghost use Rattle.gs_kernel.specs.Legal.{Frame};
ghost use Rattle.gs_link.specs.Between.{Posted, SameEnd};
ghost use Rattle.gs_slots.specs.Reading.{state_in};
ghost use Rattle.gs_replies.specs.declared.reply.Reply.{Reply};
ghost use Rattle.gs_runner.specs.declared.call.Called.{Called};
ghost use Rattle.gs_runner.specs.declared.command.Command.{Command};
ghost use Rattle.gs_runner.specs.Calls.{LandsNamed, ThreadRoom, is_settled, land_refusal, named_cpu, standing_land_refusal};
ghost use Rattle.gs_runner.specs.Told.{IsTold, parcels_of};

use gs_kernel::{Kernel, Landing};
use gs_layout::Refusal;
use gs_link::RtrbPoster;
use gs_replies::{Items, Reply};
use gs_slots::{Malformed, SlotMut, SlotState};
use std::alloc::{AllocError, Global};

/// Returns the CPU that a slot's bytes name.
fn named_cpu(bytes: &[u8; 32]) -> u16
    ensures { result ≡ named_cpu bytes.now }
{
    u16::from_le_bytes([bytes[2], bytes[3]])
}

/// Returns whether nothing in a slot can land: it is idle, or done.
fn is_settled(state: &Result<SlotState, Malformed>) -> bool
    ensures { result ≡ is_settled state.now }
{
    match state {
        Ok(SlotState::Stamped { .. }) => false,
        Ok(_) => true,
        Err(_) => false,
    }
}

/// Returns whether nothing in the slot of a CPU with these bytes can land.
pub(crate) fn is_settled_slot(cpu: u16, bytes: [u8; 32]) -> bool
    ensures { result ≡ is_settled (state_in cpu bytes) }
{
    let mut bytes = bytes;
    is_settled(&SlotMut::over(cpu, &mut bytes).state())
}

/// Returns why bytes do not land, apart from memory.
#[tactic(auto, unfolding(crate::specs::Calls::standing_land_refusal))]
pub(crate) fn land_refusal(kernel: &Kernel<RtrbPoster>, bytes: &[u8; 32]) -> Option<Refusal>
    ensures { result ≡ land_refusal kernel.now.settings kernel.now.history bytes.now }
{
    if kernel.is_torn() {
        return Some(Refusal::Gone);
    }
    let cpu = named_cpu(bytes);
    if cpu >= kernel.settings().cpus {
        return Some(Refusal::BadCpu);
    }
    if is_settled_slot(cpu, *bytes) {
        return Some(Refusal::NoSuchTransaction);
    }
    None
}

/// Lets bytes land, or refuses that.
#[tactic(auto, using(crate::proofs::Refused::told_refused))]
pub(crate) fn land(
    kernel: &mut Kernel<RtrbPoster>,
    alloc: Global,
    bytes: &[u8; 32],
) -> (Reply, Reply)
    ensures told { IsTold kernel.old (Called.Served (Command.Land bytes.now)) result.0 kernel.new }
    ensures same { result.1 ≡ result.0 }
{
    // Reads the end of the ring to expose what was sent.
    let _poster = kernel.poster();
    match try_land(kernel, alloc, bytes) {
        Ok(replies) => replies,
        Err(refusal) => (Reply::Refused(refusal), Reply::Refused(refusal)),
    }
}

/// Lets bytes land. Returns the reply twice.
#[tactic(auto, using(crate::proofs::Refused::lands_when, crate::proofs::Landing::told_landed))]
fn try_land(
    kernel: &mut Kernel<RtrbPoster>,
    alloc: Global,
    bytes: &[u8; 32],
) -> Result<(Reply, Reply), Refusal>
    ensures told { IfOk result (λ r. IsTold kernel.old (Called.Served (Command.Land bytes.now)) r.0 kernel.new) }
    ensures same { IfOk result (λ r. r.1 ≡ r.0) }
    ensures refused { IfErr result (IsRefusal (land_refusal kernel.old.settings kernel.old.history bytes.now)) }
    ensures unchanged { OnErr result (kernel.new ≡ kernel.old) }
{
    if let Some(refusal) = land_refusal(kernel, bytes) {
        return Err(refusal);
    }
    let mut landings = Vec::with_capacity(alloc, 1)?;
    let mut again = Vec::with_capacity(alloc, 1)?;
    let landing = land_bytes(kernel, *bytes)?;
    landings.push_reserved(landing);
    again.push_reserved(landing);
    let torn = kernel.is_torn();
    Ok((landed(landings, torn), landed(again, torn)))
}

/// Returns the reply to landings, by whether the enclave is torn down.
pub(crate) fn landed(landings: Vec<Landing>, torn: bool) -> Reply
    ensures { result ≡ Reply.Landed landings.items torn }
{
    Reply::Landed {
        landings: Items::new(landings),
        torn,
    }
}

/// Lets bytes land that can.
#[tactic(auto, using(crate::proofs::Landing::one_landed))]
fn land_bytes(kernel: &mut Kernel<RtrbPoster>, bytes: [u8; 32]) -> Result<Landing, AllocError>
    requires cpu { named_cpu bytes < kernel.old.settings.cpus }
    requires lands { is_settled (state_in (named_cpu bytes) bytes) ≡ false }
    ensures lands { IfOk result (λ l. LandsNamed (ThreadRoom (parcels_of kernel.old)) kernel.old.settings kernel.old.history bytes l kernel.new.history) }
    ensures frame { Frame SameEnd (λ _. 0) Posted kernel.old kernel.new }
    ensures unchanged { OnErr result (kernel.new ≡ kernel.old) }
{
    let mut copy = bytes;
    let cpu = named_cpu(&bytes);
    let slot = SlotMut::over(cpu, &mut copy);
    Ok(kernel.land(slot)?.unwrap())
}
