//! What each thread comes to.

ghost use Rattle.std.specs.Prelude.{◌≡◌, ◌<◌, IfOk, Some, length};
ghost use Rattle.std.specs.List.{AllZip};
ghost use Rattle.gs_tallies.specs.Accounts.{IsAccountOfThread, class_known, created_in};

use crate::account::Account;
use crate::each::{EachThread, Scratch};
use crate::thread::ThreadAccount;
use gs_kernel::Landing;
use gs_layout::Class;
use gs_turns::{Known, Turn};
use std::alloc::{AllocError, Global};

/// Returns what a thread comes to that was created.
fn thread_account(
    alloc: Global,
    each: &EachThread<'_>,
    class: Class,
    tid: usize,
    scratch: &mut Scratch,
) -> Result<ThreadAccount, AllocError>
    requires within { tid < length each.now.known }
    requires class { class_known each.now.known tid ≡ Some class }
    ensures { IfOk result (λ account. IsAccountOfThread each.now.known each.now.turns each.now.landings tid account) }
{
    if each.is_idle(tid) {
        return Ok(ThreadAccount::idle(class, tid));
    }
    let mut account = Account::none();
    each.tell(alloc, class, tid, scratch, &mut account)?;
    ThreadAccount::whole(alloc, class, tid, account)
}

/// Returns what the turns and landings of each thread come to that was created, in increasing order of tid. What is
/// known of each thread is given in the place of its tid.
///
/// # Errors
///
/// `AllocError` if out of memory.
pub fn thread_accounts(
    alloc: Global,
    threads: &[Known],
    turns: &[Turn],
    landings: &[Landing],
) -> Result<Vec<ThreadAccount>, AllocError>
    ensures { IfOk result (λ accounts. AllZip (IsAccountOfThread threads.now turns.now landings.now) (created_in threads.now) accounts.items) }
{
    let each = EachThread::new(alloc, threads, turns, landings)?;
    let mut scratch = Scratch::new(alloc);
    let mut accounts = Vec::with_capacity(alloc, threads.len())?;
    for tid in 0..threads.len() {
        if let Some(class) = each.class(tid) {
            accounts.push(thread_account(alloc, &each, class, tid, &mut scratch)?)?;
        }
    }
    Ok(accounts)
}
