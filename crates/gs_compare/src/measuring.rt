//! A simulation, measured.

ghost use Rattle.std.specs.Prelude.{◌≡◌, IfOk, Some, None, map};
ghost use Rattle.std.specs.List.{AllZip, count_by, filter};
ghost use Rattle.gs_layout.specs.declared.facts.Class.TheVariants.{Zero, One};
ghost use Rattle.gs_simulate.specs.Heard.{IsHeardWith};
ghost use Rattle.gs_tallies.specs.Accounts.{IsAccountOfClass, IsAccountOfThread, created_in};
ghost use Rattle.gs_compare.specs.Measures.{IsMeasured, Weighs, class_measures, count_at, cpus_of, ends_burst, history_of, idle_wanted, is_burst_of, measures_of, ran_ticks_of, rans_of, tells_of, wanted_ticks};

use crate::measured::{Measured, Measures};
use crate::share::{sum_of, worst_share};
use gs_core::Machine;
use gs_journal::Journal;
use gs_kernel::Landing;
use gs_layout::{Class, Outcome};
use gs_script::NamedPolicy;
use gs_simulate::Simulated;
use gs_tallies::{Account, Held, ThreadAccount, class_accounts, thread_accounts};
use gs_timeline::Ending;
use gs_turns::{Told, Turn, turns};
use gs_usage::{Usage, usages};
use std::alloc::{AllocError, Global};

/// Returns whether a stay that ended so was a whole burst.
fn ends_burst(ending: Ending) -> bool
    ensures { result ≡ ends_burst ending }
{
    matches!(ending, Ending::Blocked | Ending::Yielded | Ending::Died)
}

/// Returns whether a turn is of a thread of a class, and ended a burst.
fn is_burst_of(class: Class, turn: &Turn) -> bool
    ensures { result ≡ is_burst_of class turn.now }
{
    turn.class == Some(class) && ends_burst(turn.ending)
}

/// Returns how many bursts the threads of a class ended.
fn bursts_of(class: Class, turns: &[Turn]) -> usize
    ensures { result ≡ count_by (is_burst_of class) turns.now }
{
    turns.iter().filter(|turn| is_burst_of(class, turn)).count()
}

/// Returns how many slots of an account came to an outcome.
fn count_at(account: &Account, outcome: Outcome) -> usize
    ensures { result ≡ count_at account.now outcome }
{
    match account.landings.get(outcome.number() as usize) {
        Some(count) => *count,
        None => 0,
    }
}

/// Returns whether an account is of a class.
fn tells_of(class: Class, account: &ThreadAccount) -> bool
    ensures { result ≡ tells_of class account.now }
{
    match account.held() {
        Held::Idle { class: of, .. } => of == class,
        Held::Whole(account) => account.class == Some(class),
    }
}

/// Returns how many ticks the thread of an account ran.
fn ran_ticks(account: &ThreadAccount) -> usize
    ensures { result ≡ ran_ticks_of account.now }
{
    match account.held() {
        Held::Idle { .. } => 0,
        Held::Whole(account) => account.tally.sums.ran.ticks,
    }
}

/// Returns how many ticks each thread of a class ran, by the accounts of the threads that were created.
fn rans_of(alloc: Global, class: Class, threads: &[ThreadAccount]) -> Result<Vec<usize>, AllocError>
    ensures { IfOk result (λ rans. rans.items ≡ rans_of class threads.now) }
{
    let own = threads.iter().filter(|account| tells_of(class, account));
    own.map(ran_ticks).collect(alloc)
}

/// Returns what is measured of a class, by its account, the turns, and how many ticks each of its threads ran.
fn measures_of(class: Class, turns: &[Turn], rans: &[usize], account: &Account) -> Measures
    ensures { result ≡ measures_of class turns.now rans.now account.now }
{
    let tally = &account.tally;
    Measures {
        bursts: bursts_of(class, turns),
        waits: tally.waits_in_ticks,
        ran: tally.sums.ran.ticks,
        preempted: tally.sums.preempted,
        migrated: tally.sums.migrated,
        stale: count_at(account, Outcome::Stale),
        displaced: count_at(account, Outcome::Displaced),
        worst_share: worst_share(rans),
    }
}

/// Returns what is measured of a class, or none, if no thread of it was created.
fn class_measures(
    alloc: Global,
    class: Class,
    turns: &[Turn],
    threads: &[ThreadAccount],
    account: &Account,
) -> Result<Option<Measures>, AllocError>
    ensures { IfOk result (λ measures. measures ≡ class_measures class turns.now threads.now account.now) }
{
    let rans = rans_of(alloc, class, threads)?;
    if rans.len() == 0 {
        return Ok(None);
    }
    Ok(Some(measures_of(class, turns, &rans, account)))
}

/// Returns for how many ticks each CPU was idle while a thread waited that might run on it.
fn wanted_of(alloc: Global, usages: &[Usage]) -> Result<Vec<usize>, AllocError>
    ensures { IfOk result (λ wanted. wanted.items ≡ map wanted_ticks usages.now) }
{
    usages.iter().map(|usage| usage.wanted.ticks).collect(alloc)
}

/// Returns for how many ticks CPUs were idle while a thread waited that might run on them.
fn idle_wanted(alloc: Global, usages: &[Usage]) -> Result<usize, AllocError>
    ensures { IfOk result (λ ticks. ticks ≡ idle_wanted usages.now) }
{
    let wanted = wanted_of(alloc, usages)?;
    Ok(sum_of(&wanted))
}

/// Returns what the threads of class 0 and of class 1 come to.
fn both_classes(
    alloc: Global,
    told: &Told,
    landings: &[Landing],
) -> Result<(Account, Account), AllocError>
    ensures zero { IfOk result (λ p. IsAccountOfClass told.now.threads.items told.now.turns.items landings.now (Some Zero) p.0) }
    ensures one { IfOk result (λ p. IsAccountOfClass told.now.threads.items told.now.turns.items landings.now (Some One) p.1) }
{
    let accounts = class_accounts(alloc, &told.threads, &told.turns, landings)?;
    Ok((accounts[0], accounts[1]))
}

/// Returns what each thread comes to that was created.
fn all_threads(
    alloc: Global,
    told: &Told,
    landings: &[Landing],
) -> Result<Vec<ThreadAccount>, AllocError>
    ensures { IfOk result (λ accounts. AllZip (IsAccountOfThread told.now.threads.items told.now.turns.items landings.now) (created_in told.now.threads.items) accounts.items) }
{
    thread_accounts(alloc, &told.threads, &told.turns, landings)
}

/// Returns what is measured of turns and landings, and of what CPUs were used for.
fn weighed(
    alloc: Global,
    told: &Told,
    landings: &[Landing],
    usages: &[Usage],
) -> Result<Measured, AllocError>
    ensures { IfOk result (λ measured. Weighs told.now.threads.items told.now.turns.items landings.now usages.now measured) }
{
    let (zero, one) = both_classes(alloc, told, landings)?;
    let threads = all_threads(alloc, told, landings)?;
    Ok(Measured {
        zero: class_measures(alloc, Class::Zero, &told.turns, &threads, &zero)?,
        one: class_measures(alloc, Class::One, &told.turns, &threads, &one)?,
        idle_wanted: idle_wanted(alloc, usages)?,
    })
}

/// Returns what is measured of a journal on so many CPUs, and of what became of slots.
fn measured(
    alloc: Global,
    journal: &Journal,
    cpus: u16,
    landings: &[Landing],
) -> Result<Measured, AllocError>
    ensures { IfOk result (λ measured. IsMeasured landings.now cpus journal.now.entries measured) }
{
    let told = turns(alloc, journal, cpus)?;
    let usages = usages(alloc, journal, cpus)?;
    weighed(alloc, &told, landings, &usages)
}

/// Returns what is measured of a machine, and of what became of slots.
fn measured_on<P: NamedPolicy>(
    alloc: Global,
    machine: &Machine<P>,
    landings: &[Landing],
) -> Result<Measured, AllocError>
    ensures { IfOk result (λ measured. IsMeasured landings.now machine.now.settings.cpus machine.now.history measured) }
{
    let kernel = machine.kernel();
    let cpus = kernel.settings().cpus;
    measured(alloc, kernel.journal(), cpus, landings)
}

/// Returns what is measured of a simulation. Of one whose script has no header nothing happened.
///
/// # Errors
///
/// `AllocError` if out of memory.
pub(crate) fn measure<P: NamedPolicy>(
    alloc: Global,
    simulated: &Simulated<P>,
) -> Result<Measured, AllocError>
    ensures measured { IfOk result (λ measured. IsMeasured simulated.now.landings (cpus_of simulated.now.session) (history_of simulated.now.session) measured) }
    ensures heard { IsHeardWith P.naming P.chosen simulated.now.text simulated.now.session simulated.now.landings }
{
    let landings = simulated.landings();
    match simulated.session().machine() {
        Some(machine) => measured_on(alloc, machine, landings),
        None => measured(alloc, &Journal::new(alloc, 0, 0), 0, landings),
    }
}
