//! The rows of threads, which are told of one after another: no account is kept.

ghost use Rattle.std.specs.Prelude.{◌≡◌, ◌<◌, OnOk, Some, length};
ghost use Rattle.gs_tallies.specs.Accounts.{class_known, created_in};
ghost use Rattle.gs_tables.specs.Rows.{TellsAll, TellsOne};
ghost use Rattle.gs_tables.specs.Tables.{listed_in};

use crate::idle::push_idle;
use crate::latency::{push_account_shown, push_landings_shown};
use gs_kernel::Landing;
use gs_layout::Class;
use gs_lines::Text;
use gs_tallies::{Account, EachThread, Scratch};
use gs_trace::Notation;
use gs_turns::Told;
use std::alloc::{AllocError, Global};

/// The rows of two tables: one tells of waits, and one of what became of slots.
#[derive(Drop)]
pub(crate) struct Rows {
    pub(crate) waits: Text,
    pub(crate) slots: Text,
}

/// Adds the rows of a thread that was created. The lists and the account serve one thread after another.
fn push_thread(
    alloc: Global,
    notation: Notation,
    each: &EachThread<'_>,
    class: Class,
    tid: usize,
    scratch: &mut Scratch,
    account: &mut Account,
    rows: &mut Rows,
) -> Result<(), AllocError>
    requires within { tid < length each.now.known }
    requires class { class_known each.now.known tid ≡ Some class }
    ensures { OnOk result (TellsOne notation each.now tid rows.old rows.new) }
{
    if each.is_idle(tid) {
        return push_idle(notation, &mut rows.waits, class, tid);
    }
    each.tell(alloc, class, tid, scratch, account)?;
    push_account_shown(notation, &mut rows.waits, account)?;
    push_landings_shown(notation, &mut rows.slots, account)
}

/// Adds the rows of each thread that was created, in increasing order of tid.
fn push_each(
    alloc: Global,
    notation: Notation,
    each: &EachThread<'_>,
    rows: &mut Rows,
) -> Result<(), AllocError>
    ensures { OnOk result (TellsAll notation each.now (created_in each.now.known) rows.old rows.new) }
{
    let mut scratch = Scratch::new(alloc);
    let mut account = Account::none();
    for tid in 0..each.count() {
        if let Some(class) = each.class(tid) {
            push_thread(
                alloc,
                notation,
                each,
                class,
                tid,
                &mut scratch,
                &mut account,
                rows,
            )?;
        }
    }
    Ok(())
}

/// Adds the rows of each thread that was created, if threads are listed, and else nothing.
pub(crate) fn push_listed(
    alloc: Global,
    notation: Notation,
    listed: bool,
    told: &Told,
    landings: &[Landing],
    rows: &mut Rows,
) -> Result<(), AllocError>
    ensures { OnOk result (TellsAll notation (record { known = told.now.threads.items; turns = told.now.turns.items; landings = landings.now }) (listed_in listed told.now.threads.items) rows.old rows.new) }
{
    if !listed {
        return Ok(());
    }
    let each = EachThread::new(alloc, &told.threads, &told.turns, landings)?;
    push_each(alloc, notation, &each, rows)
}
