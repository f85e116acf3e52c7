//! Whether an agent that follows all that was posted knows what the kernel knows.

ghost use Rattle.std.specs.Prelude.{◌≡◌, ◌≢◌, IfErr, OnOk, None, Some, false};
ghost use Rattle.gs_journal.specs.History.{active, posted, torn};
ghost use Rattle.gs_link.specs.declared.poster.RtrbPoster.{RtrbPoster};
ghost use Rattle.gs_link.specs.Between.{Gave, IsPairOf, SameTaker};
ghost use Rattle.gs_runner.specs.Settles.{HeldCatchesUp, KnowsAll, CatchesUp, WhyNot};

use crate::enclave::Enclave;
use crate::held::Held;
use crate::knowing::knows_all;
use crate::site::Site;
use gs_agent::{Role, Stop};
use gs_link::RtrbTaker;

/// The agent followed all that was posted, and knows what the kernel knows.
#[derive(Clone, Copy, PartialEq, Eq, Debug)]
pub struct Settled;

/// Why it does not: the first that applies.
#[derive(Clone, Copy, PartialEq, Eq, Debug)]
pub enum Unsettled {
    /// The enclave was torn down.
    Torn,
    /// No agent is active, or no role is held.
    NoAgent,
    /// The drain stopped early: at a gap, or at a creation if out of memory.
    Stopped(Stop),
    /// All that was posted was consumed, and the view is not what the kernel knows.
    Differs,
}

/// Follows all messages that wait, and tells whether the role then knows what the kernel knows.
fn settle_role<L: Site, P>(
    enclave: &mut Enclave<L>,
    role: &mut Role<P>,
    taker: &mut RtrbTaker,
) -> Result<Settled, Unsettled>
    requires pair { (p : RtrbPoster) → L.is_ring p → IsPairOf p taker.old }
    requires stands { torn enclave.old.history ≡ false }
    requires led { active enclave.old.history ≢ None }
    ensures same { enclave.new ≡ enclave.old }
    ensures ring { SameTaker taker.old taker.new }
    ensures caught_up { CatchesUp role.old taker.old role.new taker.new }
    ensures ok { OnOk result (Gave taker.new (posted enclave.new.history) × KnowsAll (Some role.new) enclave.new) }
    ensures err { IfErr result (WhyNot enclave.new taker.new (Some role.new)) }
{
    let waiting = enclave.look_beside(taker);
    let drained = role.drain(taker, waiting as u32);
    if let Some(stop) = drained.stop {
        return Err(Unsettled::Stopped(stop));
    }
    if knows_all(role.view(), enclave.kernel()) {
        Ok(Settled)
    } else {
        Err(Unsettled::Differs)
    }
}

/// Follows all messages that wait, and tells whether the agent then knows what the kernel knows. Where it does, all
/// that was posted was given to it, each message once and in order. Nothing in the enclave changes.
///
/// # Errors
///
/// The first that applies:
///
/// - `Torn` if the enclave was torn down;
/// - `NoAgent` if no agent is active or no role is held;
/// - `Stopped` if the drain stops early;
/// - `Differs` if the view is not what the kernel knows, though all was consumed.
pub fn settle<L: Site, P>(
    enclave: &mut Enclave<L>,
    held: &mut Held<L, P>,
) -> Result<Settled, Unsettled>
    ensures same { enclave.new ≡ enclave.old }
    ensures others { (held.new.policy ≡ held.old.policy) × (held.new.slots ≡ held.old.slots) }
    ensures caught_up { HeldCatchesUp held.old.role held.old.taker held.new.role held.new.taker }
    ensures ok { OnOk result (Gave held.new.taker (posted enclave.new.history) × KnowsAll held.new.role enclave.new) }
    ensures err { IfErr result (WhyNot enclave.new held.new.taker held.new.role) }
{
    if enclave.kernel().is_torn() {
        return Err(Unsettled::Torn);
    }
    if enclave.kernel().active().is_none() {
        return Err(Unsettled::NoAgent);
    }
    let Held { role, taker, .. } = held;
    let Some(role) = role else {
        return Err(Unsettled::NoAgent);
    };
    settle_role(enclave, role, taker)
}
