//! What becomes of the agent's role after a command.

ghost use Rattle.std.specs.Prelude.{◌≡◌};
ghost use Rattle.gs_journal.specs.Last.{entry_lent};
ghost use Rattle.gs_core.specs.Follows.{follows};

use gs_agent::Role;
use gs_journal::{Entry, LastEntry};

/// Lets the role of the agent, if there is one, follow the last thing that happened. If that says that a generation
/// is active on a CPU, the role is promoted to that.
#[inline(always)]
pub(crate) fn follow<P>(role: &mut Option<Role<P>>, last: LastEntry<'_>)
    ensures { role.new ≡ follows (entry_lent last.entry) role.old }
{
    if let Entry::Role { generation, cpu } = last.entry() {
        if let Some(role) = role {
            role.promote(generation, cpu);
        }
    }
}
