//! The steps of an agent that are calls and begin nothing: commits, hand-offs, crashes, leavings and activations.

ghost use Rattle.std.specs.Prelude.{◌≡◌, IfNone, IfSome, None, false, true};
ghost use Rattle.std.specs.List.{list_any};
ghost use Rattle.gs_kernel.specs.declared.command.Command.{Command as Told};
ghost use Rattle.gs_slots.specs.Reading.{states_in};
ghost use Rattle.gs_slots.specs.State.{has_stamp};
ghost use Rattle.gs_runner.specs.declared.call.Called.{Called};
ghost use Rattle.gs_runner.specs.declared.command.Command.{Command};
ghost use Rattle.gs_runner.specs.Calls.{LegalCall, ThreadRoom};
ghost use Rattle.gs_runner.specs.Shifts.{follows, needs_none};

use crate::call::Receipt;
use crate::command::Command;
use crate::enclave::Enclave;
use crate::share::Share;
use crate::site::Site;
use gs_agent::Role;
use gs_board::Board;
use gs_journal::Entry;
use gs_kernel::Command as Told;
use gs_replies::Reply;
use gs_slots::Region;
use gs_status::Mask;

/// Lets the slots of a mask land, and collects them. It is passed over if there is no role, or not a slot for each
/// CPU.
pub(crate) fn commit<L: Site, P>(
    enclave: &mut Enclave<L>,
    board: &Board<L>,
    share: &mut Share<L>,
    role: &mut Option<Role<P>>,
    region: &mut Region,
    mask: Mask,
) -> Option<Receipt>
    ensures settings { enclave.new.settings ≡ enclave.old.settings }
    ensures none { IfNone result ((enclave.new ≡ enclave.old) × (share.new ≡ share.old) × (region.new ≡ region.old)) }
{
    if region.cpus() != enclave.kernel().settings().cpus {
        return None;
    }
    let Some(role) = role else {
        return None;
    };
    let receipt = enclave.commit(board, share, region, mask);
    if let Reply::Landed { .. } = &receipt.reply {
        role.collect(region);
    }
    Some(receipt)
}

/// Lets a role follow a reply to a hand-off, an activation, a leaving or a crash.
fn follow<P: Drop>(role: &mut Option<Role<P>>, reply: &Reply)
    ensures { role.new ≡ follows reply.now role.old }
{
    match reply {
        Reply::Done(Entry::Role { generation, cpu }) => {
            if let Some(role) = role {
                role.promote(*generation, *cpu);
            }
        }
        Reply::Done(Entry::Left) | Reply::Crashed => *role = None,
        _ => {}
    }
}

/// Tells the enclave a command, and lets the role follow the reply.
fn tell<L: Site, P: Drop>(
    enclave: &mut Enclave<L>,
    board: &Board<L>,
    share: &mut Share<L>,
    role: &mut Option<Role<P>>,
    command: &Command,
) -> Receipt
    ensures legal { LegalCall (ThreadRoom L.parcels) enclave.old.settings enclave.old.history enclave.old.given (Called.Served command.now) result.reply enclave.new.history }
    ensures role { role.new ≡ follows result.reply role.old }
    ensures settings { enclave.new.settings ≡ enclave.old.settings }
{
    let receipt = enclave.serve(board, share, command);
    follow(role, &receipt.reply);
    receipt
}

/// Hands off to another CPU. Without a role it is passed over.
pub(crate) fn hand_off<L: Site, P: Drop>(
    enclave: &mut Enclave<L>,
    board: &Board<L>,
    share: &mut Share<L>,
    role: &mut Option<Role<P>>,
    cpu: u16,
) -> Option<Receipt>
    ensures legal { IfSome result (λ r. LegalCall (ThreadRoom L.parcels) enclave.old.settings enclave.old.history enclave.old.given (Called.Served (Command.Kernel (Told.HandOff cpu))) r.reply enclave.new.history) }
    ensures role { IfSome result (λ r. role.new ≡ follows r.reply role.old) }
    ensures none { IfNone result ((role.old ≡ None) × (enclave.new ≡ enclave.old) × (role.new ≡ role.old)) }
{
    if role.is_none() {
        return None;
    }
    let command = Told::HandOff { cpu };
    Some(tell(enclave, board, share, role, &Command::Kernel { command }))
}

/// Crashes: the role is gone, unless that is refused.
pub(crate) fn crash<L: Site, P: Drop>(
    enclave: &mut Enclave<L>,
    board: &Board<L>,
    share: &mut Share<L>,
    role: &mut Option<Role<P>>,
) -> Receipt
    ensures legal { LegalCall (ThreadRoom L.parcels) enclave.old.settings enclave.old.history enclave.old.given (Called.Served Command.Crash) result.reply enclave.new.history }
    ensures role { role.new ≡ follows result.reply role.old }
{
    tell(enclave, board, share, role, &Command::Crash)
}

/// Leaves: the role is gone, unless that is refused. If a slot is stamped, it is passed over.
pub(crate) fn leave<L: Site, P: Drop>(
    enclave: &mut Enclave<L>,
    board: &Board<L>,
    share: &mut Share<L>,
    role: &mut Option<Role<P>>,
    region: &Region,
) -> Option<Receipt>
    ensures legal { IfSome result (λ r. LegalCall (ThreadRoom L.parcels) enclave.old.settings enclave.old.history enclave.old.given (Called.Served (Command.Kernel Told.Leave)) r.reply enclave.new.history) }
    ensures role { IfSome result (λ r. role.new ≡ follows r.reply role.old) }
    ensures idle { IfSome result (λ _. list_any has_stamp (states_in 0 region.now) ≡ false) }
    ensures none { IfNone result ((list_any has_stamp (states_in 0 region.now) ≡ true) × (enclave.new ≡ enclave.old) × (role.new ≡ role.old)) }
{
    if region.has_stamped() {
        return None;
    }
    let command = Told::Leave;
    Some(tell(enclave, board, share, role, &Command::Kernel { command }))
}

/// Returns whether there is a role that needs no page.
fn is_told<P>(role: &Option<Role<P>>) -> bool
    ensures { result ≡ needs_none role.now }
{
    match role {
        Some(role) => role.next_page().is_none(),
        None => false,
    }
}

/// Becomes active on a CPU. If there is no role, or one that needs a page, it is passed over.
pub(crate) fn activate<L: Site, P: Drop>(
    enclave: &mut Enclave<L>,
    board: &Board<L>,
    share: &mut Share<L>,
    role: &mut Option<Role<P>>,
    cpu: u16,
) -> Option<Receipt>
    ensures legal { IfSome result (λ r. LegalCall (ThreadRoom L.parcels) enclave.old.settings enclave.old.history enclave.old.given (Called.Served (Command.Kernel (Told.Activate cpu))) r.reply enclave.new.history) }
    ensures role { IfSome result (λ r. role.new ≡ follows r.reply role.old) }
    ensures told { IfSome result (λ _. needs_none role.old ≡ true) }
    ensures none { IfNone result ((needs_none role.old ≡ false) × (enclave.new ≡ enclave.old) × (role.new ≡ role.old)) }
{
    if !is_told(role) {
        return None;
    }
    let command = Told::Activate { cpu };
    Some(tell(enclave, board, share, role, &Command::Kernel { command }))
}
