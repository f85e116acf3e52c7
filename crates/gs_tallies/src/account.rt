ghost use Rattle.std.specs.Prelude.{◌≡◌, ◌<◌, IfOk, length};
ghost use Rattle.std.specs.List.{AllZip};
ghost use Rattle.gs_tallies.specs.Accounts.{IsAccountOfClass, classes};
ghost use Rattle.gs_tallies.specs.Drafts.{IsAccountIn};
ghost use Rattle.gs_tallies.specs.Tallies.{no_tally};

use crate::group::grouped;
use crate::grouping::ByClass;
use crate::landings::LandingDraft;
use crate::tally::{Tally, TurnDraft};
use gs_kernel::Landing;
use gs_layout::{Class, OUTCOMES};
use gs_turns::{Known, Turn};
use std::alloc::{AllocError, Global};

/// What the turns and the landings of a class, or of one thread, come to.
#[derive(Clone, Copy, PartialEq, Eq, Debug)]
pub struct Account {
    /// The class, or none if none is known.
    pub class: Option<Class>,
    /// The thread's tid, or none if it is of the whole class.
    pub tid: Option<usize>,
    pub tally: Tally,
    /// How many slots came to each outcome, in the place of its number.
    pub landings: [usize; OUTCOMES as usize],
}

impl Account {
    /// That of nobody.
    pub fn none() -> Account
        ensures class { result.class ≡ None }
        ensures tid { result.tid ≡ None }
        ensures tally { result.tally ≡ no_tally }
    {
        Account {
            class: None,
            tid: None,
            tally: Tally::none(),
            landings: [0; OUTCOMES as usize],
        }
    }
}

/// Returns what the things of the groups of a place come to: those of a class, or of one thread of that class.
fn account_in(
    class: Option<Class>,
    tid: Option<usize>,
    place: usize,
    turns: &[TurnDraft],
    landings: &[LandingDraft],
    numbers: &mut Vec<usize>,
) -> Result<Account, AllocError>
    requires { (place < length turns.now) × (place < length landings.now) }
    ensures { IfOk result (λ account. IsAccountIn turns.now landings.now place class tid account) }
{
    Ok(Account {
        class,
        tid,
        tally: turns[place].tally(numbers)?,
        landings: landings[place].outcomes(),
    })
}

/// Returns what the turns and landings of each class come to, and, behind these, of threads of which no class is known.
/// What is known of each thread is given in the place of its tid.
///
/// # Errors
///
/// `AllocError` if out of memory.
pub fn class_accounts(
    alloc: Global,
    threads: &[Known],
    turns: &[Turn],
    landings: &[Landing],
) -> Result<Vec<Account>, AllocError>
    ensures { IfOk result (λ accounts. AllZip (IsAccountOfClass threads.now turns.now landings.now) classes accounts.items) }
{
    let by_class = ByClass { threads };
    let turns: Vec<TurnDraft> = grouped(alloc, &by_class, turns, 3)?;
    let landings: Vec<LandingDraft> = grouped(alloc, &by_class, landings, 3)?;
    let mut numbers = Vec::new(alloc);
    let zero = account_in(Some(Class::Zero), None, 0, &turns, &landings, &mut numbers)?;
    let one = account_in(Some(Class::One), None, 1, &turns, &landings, &mut numbers)?;
    let unknown = account_in(None, None, 2, &turns, &landings, &mut numbers)?;
    let accounts = Vec::from_slice(alloc, &[zero, one, unknown])?;
    Ok(accounts)
}
