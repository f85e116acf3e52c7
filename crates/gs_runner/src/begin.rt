//! How the next agent of a shift begins.

ghost use Rattle.std.specs.Prelude.{◌≡◌, ◌+◌, IfNone, IfOk, IfSome, None, Some, length, replicate};
ghost use Rattle.gs_kernel.specs.declared.command.Command.{Command as Told};
ghost use Rattle.gs_kernel.specs.Legal.{refusal};
ghost use Rattle.gs_slots.specs.Spelling.{idle_bytes};
ghost use Rattle.gs_runner.specs.declared.call.Called.{Called};
ghost use Rattle.gs_runner.specs.declared.command.Command.{Command};
ghost use Rattle.gs_runner.specs.Calls.{LegalCall, ThreadRoom};
ghost use Rattle.gs_runner.specs.Enclaves.{generation_number};
ghost use Rattle.gs_runner.specs.Shifts.{begun_by, newcomer};

use crate::call::Receipt;
use crate::command::Command;
use crate::enclave::Enclave;
use crate::share::Share;
use crate::site::Site;
use gs_agent::Role;
use gs_board::Board;
use gs_kernel::{Command as Told, Kernel};
use gs_link::RtrbPoster;
use gs_replies::Reply;
use gs_slots::Region;
use std::alloc::{AllocError, Global};

/// Makes the role of the agent that begins next.
fn next_role<P: Drop>(
    kernel: &Kernel<RtrbPoster>,
    alloc: Global,
    policy: P,
) -> Result<Role<P>, AllocError>
    requires { refusal kernel.now.settings kernel.now.history kernel.now.paged Told.Begin ≡ None }
    ensures { IfOk result (λ r. r ≡ newcomer kernel.now.settings.cpus (generation_number kernel.now.history + 1) policy) }
{
    let generation = kernel.generation() + 1;
    Role::attach(alloc, policy, kernel.settings().cpus, generation)
}

/// Puts a role in place of the one before, and makes all slots idle.
fn seat<P: Drop>(role: &mut Option<Role<P>>, region: &mut Region, next: Role<P>)
    ensures role { role.new ≡ Some next }
    ensures idle { region.new ≡ replicate (length region.old) idle_bytes }
    ensures slots { length region.new ≡ length region.old }
{
    region.clear();
    *role = Some(next);
}

/// Begins by a policy: the role of the next agent is held then, and all slots are idle. If out of memory for the
/// role it is passed over.
fn begin<L: Site, P: Drop>(
    enclave: &mut Enclave<L>,
    board: &Board<L>,
    share: &mut Share<L>,
    alloc: Global,
    role: &mut Option<Role<P>>,
    region: &mut Region,
    policy: P,
) -> Option<Receipt>
    ensures legal { IfSome result (λ r. LegalCall (ThreadRoom L.parcels) enclave.old.settings enclave.old.history enclave.old.given (Called.Served (Command.Kernel Told.Begin)) r.reply enclave.new.history) }
    ensures role { IfSome result (λ r. role.new ≡ begun_by r.reply (newcomer enclave.old.settings.cpus (generation_number enclave.old.history + 1) policy) role.old) }
    ensures settings { enclave.new.settings ≡ enclave.old.settings }
    ensures slots { length region.new ≡ length region.old }
    ensures none { IfNone result ((enclave.new ≡ enclave.old) × (role.new ≡ role.old) × (region.new ≡ region.old)) }
{
    let command = Command::Kernel {
        command: Told::Begin,
    };
    if enclave.kernel().refusal(&Told::Begin).is_some() {
        return Some(enclave.serve(board, share, &command));
    }
    let Ok(next) = next_role(enclave.kernel(), alloc, policy) else {
        return None;
    };
    let receipt = enclave.serve(board, share, &command);
    match &receipt.reply {
        Reply::Done(_) => seat(role, region, next),
        _ => {}
    }
    Some(receipt)
}

/// Begins by another policy, or by the one before. A policy of a begin that is not accepted is not kept.
pub(crate) fn begin_by<L: Site, P: Copy + Drop>(
    enclave: &mut Enclave<L>,
    board: &Board<L>,
    share: &mut Share<L>,
    alloc: Global,
    role: &mut Option<Role<P>>,
    region: &mut Region,
    policy: &mut P,
    other: Option<P>,
) -> Option<Receipt>
    ensures slots { length region.new ≡ length region.old }
{
    let chosen = other.unwrap_or(*policy);
    let receipt = begin(enclave, board, share, alloc, role, region, chosen)?;
    if let Reply::Done(_) = &receipt.reply {
        *policy = chosen;
    }
    Some(receipt)
}
