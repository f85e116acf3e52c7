//! How an agent that attaches is told of the threads that live.

ghost use Rattle.std.specs.Prelude.{◌≡◌, ℕ, IfNone, IfSome, None, Some};
ghost use Rattle.gs_runner.specs.declared.command.Command.{Command};
ghost use Rattle.gs_runner.specs.Pages.{IsRebuilt, Reads};

use crate::call::Receipt;
use crate::command::Command;
use crate::enclave::Enclave;
use crate::share::Share;
use crate::site::Site;
use gs_agent::Role;
use gs_board::Board;

/// Asks for the next page, and reads it, if the role needs one. A page that cannot be read for want of memory is not
/// given, and the role needs it still.
fn page_of<L: Site, P>(
    enclave: &mut Enclave<L>,
    board: &Board<L>,
    share: &mut Share<L>,
    role: &mut Role<P>,
    max: u16,
) -> Option<Receipt>
    ensures reads { IfSome result (λ r. (from : ℕ) × (role.old.next ≡ Some from) × Reads IsRebuilt (Command.Page from max) r.reply role.old role.new) }
    ensures none { IfNone result ((role.old.next ≡ None) × (enclave.new ≡ enclave.old) × (role.new ≡ role.old)) }
{
    let from = role.next_page()?;
    Some(enclave.serve_to(board, share, &Command::Page { from, max }, role))
}

/// Asks for the next page, if there is a role that needs one.
pub(crate) fn page<L: Site, P>(
    enclave: &mut Enclave<L>,
    board: &Board<L>,
    share: &mut Share<L>,
    role: &mut Option<Role<P>>,
    max: u16,
) -> Option<Receipt> {
    match role {
        Some(role) => page_of(enclave, board, share, role, max),
        None => None,
    }
}
