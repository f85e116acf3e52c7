ghost use Rattle.std.specs.Prelude.{◌≡◌};
ghost use Rattle.gs_script.specs.Grammar.{is_of_kind};
ghost use Rattle.gs_script.specs.Spot.{kind_of};

use crate::header::capacity;
use crate::policy_word::{PolicyWord, is_policy_word};
use crate::word::{mask, name, number};
use gs_kernel::{
    LEAST_CPUS, LEAST_GENERATION, LEAST_HISTORY, MOST_FIRST_TSEQ, MOST_GENERATION, MOST_HISTORY,
};
use gs_status::MOST_CPUS;

/// What a word of a line is to be.
#[derive(Clone, Copy, PartialEq, Eq, Debug)]
pub enum Wanted {
    /// A mask of CPUs.
    Mask,
    /// A thread's class.
    Class,
    /// Whether a thread is runnable: `r` or `b`.
    State,
    /// A thread's name.
    Name,
    /// A thread's number.
    Thread,
    /// A CPU.
    Cpu,
    /// How many messages are taken in.
    Messages,
    /// The number of a transaction.
    Transaction,
    /// How many threads a page has.
    PageThreads,
    /// A flag behind a stamp: `p`, `g` or `pg`.
    Flag,
    /// One of the words that name a policy.
    Named(PolicyWord),
    /// How many CPUs there are.
    Cpus,
    /// The word `ring`.
    Ring,
    /// The capacity of a ring.
    Capacity,
    /// The word `first-tseq`.
    FirstTseq,
    /// The sequence number above which they begin.
    Tseq,
    /// The word `first-gen`.
    FirstGen,
    /// The generation of the first agent.
    Generation,
    /// The word `history`.
    History,
    /// How many entries a journal has at most.
    Entries,
    /// The word `policy`.
    Policy,
}

/// Returns whether a word is what is wanted.
pub(crate) fn is_wanted(wanted: Wanted, word: &str) -> bool
    ensures { result ≡ is_of_kind (kind_of wanted) word.now }
{
    match wanted {
        Wanted::Mask => mask(word).is_ok(),
        Wanted::Class => number(word, 0, 1).is_ok(),
        Wanted::State => matches!(word, "r" | "b"),
        Wanted::Name => name(word.as_bytes()).is_ok(),
        Wanted::Thread | Wanted::Messages | Wanted::Transaction => {
            number(word, 0, u32::MAX as u64).is_ok()
        }
        Wanted::Cpu | Wanted::PageThreads => number(word, 0, u16::MAX as u64).is_ok(),
        Wanted::Flag => matches!(word, "p" | "g" | "pg"),
        Wanted::Named(one) => is_policy_word(one, word),
        Wanted::Cpus => number(word, LEAST_CPUS as u64, MOST_CPUS as u64).is_ok(),
        Wanted::Ring => word == "ring",
        Wanted::Capacity => capacity(word).is_ok(),
        Wanted::FirstTseq => word == "first-tseq",
        Wanted::Tseq => number(word, 0, MOST_FIRST_TSEQ as u64).is_ok(),
        Wanted::FirstGen => word == "first-gen",
        Wanted::Generation => {
            number(word, LEAST_GENERATION as u64, MOST_GENERATION as u64).is_ok()
        }
        Wanted::History => word == "history",
        Wanted::Entries => number(word, LEAST_HISTORY as u64, MOST_HISTORY as u64).is_ok(),
        Wanted::Policy => word == "policy",
    }
}
