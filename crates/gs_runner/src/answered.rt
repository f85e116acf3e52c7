//! Whether the receipts of a run stand in its calls.

ghost use Rattle.std.specs.Prelude.{◌≡◌, ◌↔◌, ◌≤◌, IsTrue, false, length};
ghost use Rattle.gs_runner.specs.Calls.{is_refused};
ghost use Rattle.gs_runner.specs.Holds.{Stands};
ghost use Rattle.gs_runner.specs.Receipts.{AllAnswered, Answered};
ghost use Rattle.gs_runner.specs.Slips.{IsInside, all_receipts, receipt_kept, receipts_in};

use crate::call::Receipt;
use crate::closed::Closed;
use crate::command::Command;
use crate::receipts::{Receipts, Slip, slip_at};
use crate::search::Search;
use gs_replies::Reply;

/// Returns whether a receipt was refused, or stands in the calls. Its place is not before that of the receipt before.
fn is_kept(search: &mut Search<'_>, command: &Command, receipt: &Receipt) -> bool
    requires order { search.old.at ≤ receipt.now.at }
    ensures exact { IsTrue result ↔ (is_refused receipt.now.reply ≡ false → Stands search.old.calls command.now receipt.now) }
    ensures same { search.new ≡ record search.old { at = search.new.at } }
    ensures at { search.new.at ≤ receipt.now.at }
{
    match &receipt.reply {
        Reply::Refused(_) => true,
        _ => search.holds(command, receipt),
    }
}

/// Returns the same of a receipt that is kept so.
fn is_slip_kept(search: &mut Search<'_>, command: &Command, others: &[Receipt], slip: &Slip) -> bool
    requires inside { IsInside (length others.now) slip.now }
    requires order { search.old.at ≤ (receipt_kept search.old.entries others.now slip.now).at }
    ensures exact { IsTrue result ↔ (is_refused (receipt_kept search.old.entries others.now slip.now).reply ≡ false → Stands search.old.calls command.now (receipt_kept search.old.entries others.now slip.now)) }
    ensures same { search.new ≡ record search.old { at = search.new.at } }
    ensures at { search.new.at ≤ (receipt_kept search.old.entries others.now slip.now).at }
{
    match slip {
        Slip::Done { at, entries } => search.holds_done(command, *at, *entries),
        Slip::Other { index } => is_kept(search, command, &others[*index]),
    }
}

/// Returns whether there is a receipt for each command, in order, each of which was refused or stands in the calls,
/// and whether their places in the journal never fall.
fn is_answered(closed: &Closed, commands: &[Command], receipts: &Receipts) -> bool
    ensures { IsTrue result ↔ Answered closed.now.calls 0 commands.now (receipts_in closed.now.journal.entries receipts.now) }
{
    let mut search = closed.search();
    let others = receipts.others();
    let mut slips = receipts.slips();
    let mut commands = commands;
    let mut from = 0;
    'commands: while let Some((command, later)) = commands.split_first() {
        let Some((slip, rest)) = slips.split_first() else {
            return false;
        };
        let at = slip_at(others, slip);
        if at < from || !is_slip_kept(&mut search, command, others, slip) {
            return false;
        }
        from = at;
        commands = later;
        slips = rest;
    }
    slips.is_empty()
}

/// Returns whether that is so for each list. Its receipts stand at its place.
pub(crate) fn are_answered(closed: &Closed, lists: &[Vec<Command>], receipts: &[Receipts]) -> bool
    ensures { IsTrue result ↔ AllAnswered closed.now.calls lists.now (all_receipts closed.now.journal.entries receipts.now) }
{
    let mut lists = lists;
    let mut receipts = receipts;
    'lists: while let Some((list, later)) = lists.split_first() {
        let Some((its, rest)) = receipts.split_first() else {
            return false;
        };
        if !is_answered(closed, list.as_slice(), its) {
            return false;
        }
        lists = later;
        receipts = rest;
    }
    true
}
