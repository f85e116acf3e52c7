//! Tables of how long threads waited and ran, of what became of slots, and of what CPUs were used for.

ghost use Rattle.std.specs.Prelude.{◌≡◌, ◌++◌, List, IfOk, OnOk, Some, length, true};
ghost use Rattle.std.specs.List.{flat_map};
ghost use Rattle.gs_journal.specs.History.{History};
ghost use Rattle.gs_lines.specs.Columns.{class_word, column};
ghost use Rattle.gs_tallies.specs.declared.account.Account.{Account};
ghost use Rattle.gs_turns.specs.Knowing.{AreKnown};
ghost use Rattle.gs_tables.specs.Tables.{AreAccounts};
ghost use Rattle.gs_tables.specs.Latency.{IsTickless, account_row, account_shown, count_at, headed, is_nobody, landing_row, landing_shown, landings_heading, landings_shown, landings_table, latency_of, spread_words, stays_words, tid_word, time_in, times_words, unit_text, usage_shown, uses_heading, uses_row, uses_table, waits_heading, waits_in, waits_row, waits_table, who};

use crate::column::push_count;
use crate::latency_json::{push_account, push_landing, push_usage};
use crate::rows::{Rows, push_listed};
use gs_kernel::Landing;
use gs_layout::{Class, OUTCOMES, Outcome};
use gs_lines::{Text, outcome_name, push_column};
use gs_tallies::{Account, Spread, Sums, class_accounts};
use gs_trace::Notation;
use gs_turns::{Time, Told};
use gs_usage::Usage;
use std::alloc::{AllocError, Global};

/// In what a time is told.
#[derive(Clone, Copy)]
enum Unit {
    /// In entries of the journal.
    Entries,
    /// In ticks of the CPU.
    Ticks,
}

/// The names of the columns that tell of waits.
const WAITS_HEADING: &str =
    " class    tid   stays preempted migrated      in       ran    waited      p50      p90      p99     most\n";

/// A line in ticks, behind what tells of stays, where no tick came.
const NO_TICKS: &str = "   ticks         0         0        0        0        0        0\n";

/// The names of the columns that tell what became of slots.
const LANDINGS_HEADING: &str = " class    tid landings  outcome\n";

/// The names of the columns that tell what CPUs were used for.
const USES_HEADING: &str = "   cpu      in      busy     agent     other    wanted      idle\n";

impl Unit {
    /// Returns how long a time is.
    fn of(self, time: Time) -> usize
        ensures { result ≡ time_in self time }
    {
        match self {
            Unit::Entries => time.entries,
            Unit::Ticks => time.ticks,
        }
    }

    /// Returns how the waits of an account are spread, if there are any.
    fn waits(self, account: &Account) -> Option<Spread>
        ensures { result ≡ waits_in self account.now }
    {
        match self {
            Unit::Entries => account.tally.waits_in_entries,
            Unit::Ticks => account.tally.waits_in_ticks,
        }
    }
}

/// Adds a column with a thread's tid, or with 'all'.
fn push_tid(out: &mut Text, tid: Option<usize>) -> Result<(), AllocError>
    ensures { OnOk result (out.new ≡ out.old ++ column 6 (tid_word tid)) }
{
    match tid {
        Some(tid) => push_count(out, 6, tid),
        None => push_column(out, 6, "all"),
    }
}

/// Adds a column with a class.
fn push_class(out: &mut Text, class: Option<Class>) -> Result<(), AllocError>
    ensures { OnOk result (out.new ≡ out.old ++ column 5 (class_word class)) }
{
    match class {
        Some(Class::Zero) => out.push_str("     0"),
        Some(Class::One) => out.push_str("     1"),
        None => out.push_str("     -"),
    }
}

/// Adds whose line it is: the class and the thread.
fn push_who(out: &mut Text, account: &Account) -> Result<(), AllocError>
    ensures { OnOk result (out.new ≡ out.old ++ who account.now) }
{
    push_class(out, account.class)?;
    push_tid(out, account.tid)
}

/// Adds the columns that tell how waits are spread: dashes if there are none.
fn push_spread(out: &mut Text, spread: Option<Spread>) -> Result<(), AllocError>
    ensures { OnOk result (out.new ≡ out.old ++ spread_words spread) }
{
    let Some(spread) = spread else {
        push_column(out, 8, "-")?;
        push_column(out, 8, "-")?;
        push_column(out, 8, "-")?;
        return push_column(out, 8, "-");
    };
    push_count(out, 8, spread.half)?;
    push_count(out, 8, spread.ninety)?;
    push_count(out, 8, spread.ninety_nine)?;
    push_count(out, 8, spread.all)
}

/// Adds the columns that tell of stays: how many there were, and how many were preempted and migrated.
fn push_stays(out: &mut Text, sums: &Sums) -> Result<(), AllocError>
    ensures { OnOk result (out.new ≡ out.old ++ stays_words sums.now) }
{
    push_count(out, 7, sums.stays)?;
    push_count(out, 9, sums.preempted)?;
    push_count(out, 8, sums.migrated)
}

/// Adds a column with the name of a unit.
fn push_unit(out: &mut Text, unit: Unit) -> Result<(), AllocError>
    ensures { OnOk result (out.new ≡ out.old ++ column 7 (unit_text unit)) }
{
    match unit {
        Unit::Entries => out.push_str(" entries"),
        Unit::Ticks => out.push_str("   ticks"),
    }
}

/// Adds the columns that tell how long threads ran and waited, in a unit.
fn push_times(out: &mut Text, unit: Unit, sums: &Sums) -> Result<(), AllocError>
    ensures { OnOk result (out.new ≡ out.old ++ times_words unit sums.now) }
{
    push_unit(out, unit)?;
    push_count(out, 9, unit.of(sums.ran))?;
    push_count(out, 9, unit.of(sums.waited))
}

/// Adds the line that tells of the waits of an account, in a unit.
fn push_waits_row(out: &mut Text, unit: Unit, account: &Account) -> Result<(), AllocError>
    ensures { OnOk result (out.new ≡ out.old ++ waits_row unit account.now) }
{
    push_who(out, account)?;
    push_stays(out, &account.tally.sums)?;
    push_times(out, unit, &account.tally.sums)?;
    push_spread(out, unit.waits(account))?;
    out.end_line()
}

/// Returns whether waits are spread of which none took anything.
fn is_nothing(spread: Option<Spread>) -> bool
    ensures { result ≡ true → spread ≡ Some (record { half = 0; ninety = 0; ninety_nine = 0; all = 0 }) }
{
    let Some(spread) = spread else {
        return false;
    };
    spread.half == 0 && spread.ninety == 0 && spread.ninety_nine == 0 && spread.all == 0
}

/// Returns whether no tick came while the threads of an account ran and waited.
fn is_tickless(account: &Account) -> bool
    ensures { result ≡ true → IsTickless account.now }
{
    let sums = &account.tally.sums;
    sums.ran.ticks == 0 && sums.waited.ticks == 0 && is_nothing(account.tally.waits_in_ticks)
}

/// Adds the line that tells of the waits of an account in ticks. Where no tick came its end is always the same.
fn push_ticks_row(out: &mut Text, account: &Account) -> Result<(), AllocError>
    ensures { OnOk result (out.new ≡ out.old ++ waits_row Unit.Ticks account.now) }
{
    if !is_tickless(account) {
        return push_waits_row(out, Unit::Ticks, account);
    }
    push_who(out, account)?;
    push_stays(out, &account.tally.sums)?;
    out.push_str(NO_TICKS)
}

/// Adds what tells of the waits of an account, line by line or as an object.
fn push_account_row(notation: Notation, out: &mut Text, account: &Account) -> Result<(), AllocError>
    ensures { OnOk result (out.new ≡ out.old ++ account_row notation account.now) }
{
    match notation {
        Notation::Lines => {
            push_waits_row(out, Unit::Entries, account)?;
            push_ticks_row(out, account)
        }
        Notation::Json => push_account(out, account),
    }
}

/// Returns whether an account tells of nobody: no class is known of its threads, and none of them was placed.
fn is_nobody(account: &Account) -> bool
    ensures { result ≡ is_nobody account.now }
{
    account.class.is_none() && account.tally.sums.stays == 0
}

/// Adds what tells of the waits of an account, unless it tells of nobody.
pub(crate) fn push_account_shown(
    notation: Notation,
    out: &mut Text,
    account: &Account,
) -> Result<(), AllocError>
    ensures { OnOk result (out.new ≡ out.old ++ account_shown notation account.now) }
{
    if is_nobody(account) {
        return Ok(());
    }
    push_account_row(notation, out, account)
}

/// Returns how many slots of an account came to an outcome.
pub(crate) fn count_at(account: &Account, outcome: Outcome) -> usize
    ensures { result ≡ count_at account.now outcome }
{
    match account.landings.get(outcome.number() as usize) {
        Some(count) => *count,
        None => 0,
    }
}

/// Adds what tells how many slots of an account came to an outcome.
fn push_landing_row(
    notation: Notation,
    out: &mut Text,
    account: &Account,
    outcome: Outcome,
) -> Result<(), AllocError>
    ensures { OnOk result (out.new ≡ out.old ++ landing_row notation account.now outcome) }
{
    let Notation::Lines = notation else {
        return push_landing(out, account, outcome);
    };
    push_who(out, account)?;
    push_count(out, 8, count_at(account, outcome))?;
    out.push_str("  ")?;
    out.push_str(outcome_name(outcome))?;
    out.end_line()
}

/// Adds what tells how many slots of an account came to an outcome, if any did.
fn push_landing_shown(
    notation: Notation,
    out: &mut Text,
    account: &Account,
    outcome: Outcome,
) -> Result<(), AllocError>
    ensures { OnOk result (out.new ≡ out.old ++ landing_shown notation account.now outcome) }
{
    if count_at(account, outcome) == 0 {
        return Ok(());
    }
    push_landing_row(notation, out, account, outcome)
}

/// All outcomes, in order of their numbers.
const ALL_OUTCOMES: [Outcome; OUTCOMES as usize] = [
    Outcome::Placed,
    Outcome::Gone,
    Outcome::Displaced,
    Outcome::NoThread,
    Outcome::Stale,
    Outcome::NotRunnable,
    Outcome::AlreadyPlaced,
    Outcome::NotAllowed,
    Outcome::CpuIsAgent,
    Outcome::CpuTaken,
    Outcome::CpuBusy,
    Outcome::SeqSpent,
    Outcome::HistoryFull,
    Outcome::Malformed,
    Outcome::GroupFailed,
];

/// Adds what tells how many slots of an account came to each of these outcomes.
fn push_outcomes(
    notation: Notation,
    out: &mut Text,
    account: &Account,
    outcomes: &[Outcome],
) -> Result<(), AllocError>
    ensures { OnOk result (out.new ≡ out.old ++ flat_map (landing_shown notation account.now) outcomes.now) }
{
    for outcome in outcomes {
        push_landing_shown(notation, out, account, *outcome)?;
    }
    Ok(())
}

/// Adds what tells of the slots of an account.
#[tactic(auto, unfolding(crate::specs::Latency::landings_shown))]
pub(crate) fn push_landings_shown(
    notation: Notation,
    out: &mut Text,
    account: &Account,
) -> Result<(), AllocError>
    ensures { OnOk result (out.new ≡ out.old ++ landings_shown notation account.now) }
{
    push_outcomes(notation, out, account, &ALL_OUTCOMES)
}

/// Adds the line that tells what a CPU was used for, in a unit.
fn push_uses_row(out: &mut Text, unit: Unit, cpu: usize, usage: &Usage) -> Result<(), AllocError>
    ensures { OnOk result (out.new ≡ out.old ++ uses_row unit cpu usage.now) }
{
    push_count(out, 5, cpu)?;
    push_unit(out, unit)?;
    push_count(out, 9, unit.of(usage.busy))?;
    push_count(out, 9, unit.of(usage.agent))?;
    push_count(out, 9, unit.of(usage.other))?;
    push_count(out, 9, unit.of(usage.wanted))?;
    push_count(out, 9, unit.of(usage.idle))?;
    out.end_line()
}

/// Adds what tells what a CPU was used for.
fn push_usage_shown(
    notation: Notation,
    out: &mut Text,
    cpu: usize,
    usage: &Usage,
) -> Result<(), AllocError>
    ensures { OnOk result (out.new ≡ out.old ++ usage_shown notation cpu usage.now) }
{
    match notation {
        Notation::Lines => {
            push_uses_row(out, Unit::Entries, cpu, usage)?;
            push_uses_row(out, Unit::Ticks, cpu, usage)
        }
        Notation::Json => push_usage(out, cpu, usage),
    }
}

/// Adds the names of columns, which stand above lines alone.
fn push_heading(notation: Notation, out: &mut Text, names: &str) -> Result<(), AllocError>
    ensures { OnOk result (out.new ≡ out.old ++ headed notation names.now) }
{
    match notation {
        Notation::Lines => out.push_str(names),
        Notation::Json => Ok(()),
    }
}

/// Adds what tells of the waits of classes.
fn push_class_waits(
    notation: Notation,
    out: &mut Text,
    accounts: &[Account],
) -> Result<(), AllocError>
    ensures { OnOk result (out.new ≡ out.old ++ flat_map (account_shown notation) accounts.now) }
{
    for account in accounts {
        push_account_shown(notation, out, account)?;
    }
    Ok(())
}

/// Adds what tells of the slots of classes.
fn push_class_landings(
    notation: Notation,
    out: &mut Text,
    accounts: &[Account],
) -> Result<(), AllocError>
    ensures { OnOk result (out.new ≡ out.old ++ flat_map (landings_shown notation) accounts.now) }
{
    for account in accounts {
        push_landings_shown(notation, out, account)?;
    }
    Ok(())
}

/// Adds the table that tells what CPUs were used for. The usages are those of the CPUs from 0 on.
#[tactic(auto, unfolding(crate::specs::Latency::uses_heading))]
fn push_uses(notation: Notation, out: &mut Text, usages: &[Usage]) -> Result<(), AllocError>
    ensures { OnOk result (out.new ≡ out.old ++ uses_table notation usages.now) }
{
    push_heading(notation, out, USES_HEADING)?;
    for (cpu, usage) in usages.iter().enumerate() {
        push_usage_shown(notation, out, cpu, usage)?;
    }
    Ok(())
}

/// Returns the rows of classes, each kind below the names of its columns.
#[tactic(auto, unfolding(crate::specs::Latency::waits_heading, crate::specs::Latency::landings_heading))]
fn class_rows(alloc: Global, notation: Notation, accounts: &[Account]) -> Result<Rows, AllocError>
    ensures waits { IfOk result (λ rows. rows.waits ≡ waits_table notation accounts.now) }
    ensures slots { IfOk result (λ rows. rows.slots ≡ landings_table notation accounts.now) }
{
    let mut rows = Rows {
        waits: Text::new(alloc),
        slots: Text::new(alloc),
    };
    push_heading(notation, &mut rows.waits, WAITS_HEADING)?;
    push_class_waits(notation, &mut rows.waits, accounts)?;
    push_heading(notation, &mut rows.slots, LANDINGS_HEADING)?;
    push_class_landings(notation, &mut rows.slots, accounts)?;
    Ok(rows)
}

/// Returns the tables of rows, and behind them what CPUs were used for.
fn joined(notation: Notation, rows: Rows, usages: &[Usage]) -> Result<Vec<u8>, AllocError>
    ensures { IfOk result (λ bytes. bytes.items ≡ rows.waits ++ rows.slots ++ uses_table notation usages.now) }
{
    let Rows { waits, slots } = rows;
    let mut out = waits;
    out.push_str(slots.as_str())?;
    push_uses(notation, &mut out, usages)?;
    Ok(out.into_bytes())
}

/// Returns the tables of what threads and CPUs did, one below another, with the threads, if they are listed. The usages are
/// those of the CPUs from 0 on.
///
/// # Errors
///
/// `AllocError` if out of memory.
pub(crate) fn latency(
    alloc: Global,
    notation: Notation,
    listed: bool,
    told: &Told,
    landings: &[Landing],
    usages: &[Usage],
) -> Result<Vec<u8>, AllocError>
    ensures { IfOk result (λ bytes. (h : History) → AreKnown h (length h) told.now.threads.items → (accounts : List Account) × AreAccounts listed h told.now.turns.items landings.now accounts × (bytes.items ≡ latency_of notation accounts usages.now)) }
{
    let accounts = class_accounts(alloc, &told.threads, &told.turns, landings)?;
    let mut rows = class_rows(alloc, notation, &accounts)?;
    push_listed(alloc, notation, listed, told, landings, &mut rows)?;
    joined(notation, rows, usages)
}
