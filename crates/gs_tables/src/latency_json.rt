//! What threads and CPUs did, as JSON: objects that are put together piece by piece.

ghost use Rattle.std.specs.Prelude.{◌≡◌, ◌++◌, OnOk, Some};
ghost use Rattle.gs_trace.specs.declared.form.Notation.TheVariants as Notation;
ghost use Rattle.gs_tables.specs.Latency.{account_row, landing_row, usage_shown};
ghost use Rattle.gs_tables.specs.Pieces.{account_front, account_pieces, account_rest, account_sums, landing_front, landing_pieces, landing_rest, option_json, spread_json, spread_pieces, usage_pieces};
ghost use Rattle.gs_tables.specs.Timehist.{times_pieces};

use crate::latency::count_at;
use crate::timehist::{class_json, push_times};
use gs_layout::Outcome;
use gs_lines::{Text, outcome_name};
use gs_tallies::{Account, Spread, Sums};
use gs_turns::Time;
use gs_usage::Usage;
use std::alloc::AllocError;

/// Adds words, and behind them a number, or null for none.
fn push_option(out: &mut Text, words: &str, number: Option<usize>) -> Result<(), AllocError>
    ensures { OnOk result (out.new ≡ out.old ++ words.now ++ option_json number) }
{
    match number {
        Some(number) => out.push_number(words, number as u64),
        None => {
            out.push_str(words)?;
            out.push_str("null")
        }
    }
}

/// Adds a time to an object, behind words.
fn push_time(out: &mut Text, words: &str, time: Time) -> Result<(), AllocError>
    ensures { OnOk result (out.new ≡ out.old ++ times_pieces words.now time.entries time.ticks) }
{
    push_times(out, words, time.entries, time.ticks)
}

/// Adds how waits are spread as an object, piece by piece.
fn push_percentiles(out: &mut Text, spread: Spread) -> Result<(), AllocError>
    ensures { OnOk result (out.new ≡ out.old ++ spread_pieces spread) }
{
    out.push_two(
        "{\"most\":",
        spread.all as u64,
        ",\"p50\":",
        spread.half as u64,
    )?;
    out.push_two(
        ",\"p90\":",
        spread.ninety as u64,
        ",\"p99\":",
        spread.ninety_nine as u64,
    )?;
    out.push_str("}")
}

/// Adds how waits are spread as an object.
#[tactic(auto, using(crate::proofs::Objects::whole_spread))]
fn push_spread_object(out: &mut Text, spread: Spread) -> Result<(), AllocError>
    ensures { OnOk result (out.new ≡ out.old ++ spread_json (Some spread)) }
{
    push_percentiles(out, spread)
}

/// Adds words, and behind them how waits are spread, or null if there are none.
fn push_spread(out: &mut Text, words: &str, spread: Option<Spread>) -> Result<(), AllocError>
    ensures { OnOk result (out.new ≡ out.old ++ words.now ++ spread_json spread) }
{
    out.push_str(words)?;
    match spread {
        Some(spread) => push_spread_object(out, spread),
        None => out.push_str("null"),
    }
}

/// Begins the object of an account: with its class, and how many stays were migrated and preempted.
fn push_front(out: &mut Text, account: &Account) -> Result<(), AllocError>
    ensures { OnOk result (out.new ≡ out.old ++ account_front account.now) }
{
    let sums = &account.tally.sums;
    out.push_str("{\"class\":")?;
    out.push_str(class_json(account.class))?;
    out.push_two(
        ",\"migrated\":",
        sums.migrated as u64,
        ",\"preempted\":",
        sums.preempted as u64,
    )
}

/// Goes on with how long the threads ran and waited, how many stays there were, and the thread.
fn push_sums(out: &mut Text, sums: &Sums, tid: Option<usize>) -> Result<(), AllocError>
    ensures { OnOk result (out.new ≡ out.old ++ account_sums sums.now tid) }
{
    push_time(out, ",\"ran\":{\"entries\":", sums.ran)?;
    out.push_number(",\"stays\":", sums.stays as u64)?;
    push_option(out, ",\"tid\":", tid)?;
    push_time(out, ",\"waited\":{\"entries\":", sums.waited)
}

/// Ends it, with how the waits are spread, and the line.
fn push_rest(out: &mut Text, account: &Account) -> Result<(), AllocError>
    ensures { OnOk result (out.new ≡ out.old ++ account_rest account.now) }
{
    let tally = &account.tally;
    push_spread(out, ",\"waits\":{\"entries\":", tally.waits_in_entries)?;
    push_spread(out, ",\"ticks\":", tally.waits_in_ticks)?;
    out.push_str("}}\n")
}

/// Adds an account as an object, one a line, piece by piece.
fn push_account_pieces(out: &mut Text, account: &Account) -> Result<(), AllocError>
    ensures { OnOk result (out.new ≡ out.old ++ account_pieces account.now) }
{
    push_front(out, account)?;
    push_sums(out, &account.tally.sums, account.tid)?;
    push_rest(out, account)
}

/// Begins the object of an outcome: with the class of an account, and how many of its slots came to the outcome.
fn push_landing_front(out: &mut Text, account: &Account, outcome: Outcome) -> Result<(), AllocError>
    ensures { OnOk result (out.new ≡ out.old ++ landing_front account.now outcome) }
{
    out.push_str("{\"class\":")?;
    out.push_str(class_json(account.class))?;
    out.push_number(",\"landings\":", count_at(account, outcome) as u64)
}

/// Ends it, with the outcome and the thread, and the line.
fn push_landing_rest(out: &mut Text, account: &Account, outcome: Outcome) -> Result<(), AllocError>
    ensures { OnOk result (out.new ≡ out.old ++ landing_rest account.now outcome) }
{
    out.push_str(",\"outcome\":\"")?;
    out.push_str(outcome_name(outcome))?;
    push_option(out, "\",\"tid\":", account.tid)?;
    out.push_str("}\n")
}

/// Adds how many slots of an account came to an outcome as an object, one a line, piece by piece.
fn push_landing_pieces(
    out: &mut Text,
    account: &Account,
    outcome: Outcome,
) -> Result<(), AllocError>
    ensures { OnOk result (out.new ≡ out.old ++ landing_pieces account.now outcome) }
{
    push_landing_front(out, account, outcome)?;
    push_landing_rest(out, account, outcome)
}

/// Adds what a CPU was used for as an object, one a line, piece by piece.
fn push_usage_pieces(out: &mut Text, cpu: usize, usage: &Usage) -> Result<(), AllocError>
    ensures { OnOk result (out.new ≡ out.old ++ usage_pieces cpu usage.now) }
{
    push_time(out, "{\"agent\":{\"entries\":", usage.agent)?;
    push_time(out, ",\"busy\":{\"entries\":", usage.busy)?;
    out.push_number(",\"cpu\":", cpu as u64)?;
    push_time(out, ",\"idle\":{\"entries\":", usage.idle)?;
    push_time(out, ",\"other\":{\"entries\":", usage.other)?;
    push_time(out, ",\"wanted\":{\"entries\":", usage.wanted)?;
    out.push_str("}\n")
}

/// Adds an account as an object, one a line.
#[tactic(auto, using(crate::proofs::Objects::whole_account))]
pub(crate) fn push_account(out: &mut Text, account: &Account) -> Result<(), AllocError>
    ensures { OnOk result (out.new ≡ out.old ++ account_row Notation.Json account.now) }
{
    push_account_pieces(out, account)
}

/// Adds how many slots of an account came to an outcome as an object, one a line.
#[tactic(auto, using(crate::proofs::Objects::whole_landing))]
pub(crate) fn push_landing(
    out: &mut Text,
    account: &Account,
    outcome: Outcome,
) -> Result<(), AllocError>
    ensures { OnOk result (out.new ≡ out.old ++ landing_row Notation.Json account.now outcome) }
{
    push_landing_pieces(out, account, outcome)
}

/// Adds what a CPU was used for as an object, one a line.
#[tactic(auto, using(crate::proofs::Objects::whole_usage))]
pub(crate) fn push_usage(out: &mut Text, cpu: usize, usage: &Usage) -> Result<(), AllocError>
    ensures { OnOk result (out.new ≡ out.old ++ usage_shown Notation.Json cpu usage.now) }
{
    push_usage_pieces(out, cpu, usage)
}
