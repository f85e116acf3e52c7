//! What a word is to be, in words.

use gs_script::{PolicyWord, Wanted};
use std::alloc::AllocError;
use std::fmt::Write;

/// Writes what a word is to be that names a policy.
fn write_policy_word(text: &mut String, word: PolicyWord) -> Result<(), AllocError> {
    match word {
        PolicyWord::Word(word) => write!(text, "`{word}`"),
        PolicyWord::Number {
            letter,
            what,
            least,
            most,
        } => write!(text, "{letter}, {what} from {least} to {most}"),
    }
}

/// Writes what a word is to be.
fn write_one(text: &mut String, wanted: Wanted) -> Result<(), AllocError> {
    text.push_str(match wanted {
        Wanted::Mask => {
            "M, a mask of CPUs: the sum of 2^C for each CPU C in it, from 0 to 340282366920938463463374607431768211455"
        }
        Wanted::Class => "CLASS, which is 0 or 1",
        Wanted::State => "R: `r` for a thread that may run, or `b` for one that is blocked",
        Wanted::Name => "NAME, of 1 to 16 bytes from 33 to 126",
        Wanted::Thread => "T, a thread's number from 0 to 4294967295",
        Wanted::Cpu => "C, a CPU from 0 to 65535",
        Wanted::Messages => "N, how many messages are taken in at most, from 0 to 4294967295",
        Wanted::Transaction => "N, the number of a transaction from 0 to 4294967295",
        Wanted::PageThreads => "N, how many threads the page has at most, from 0 to 65535",
        Wanted::Flag => "`p`, `g` or `pg`",
        Wanted::Named(word) => return write_policy_word(text, word),
        Wanted::Cpus => "C, how many CPUs there are, from 2 to 128",
        Wanted::Ring => "`ring`",
        Wanted::Capacity => {
            "B, how many bytes the ring has: a multiple of 8 from 128 to 1048576"
        }
        Wanted::FirstTseq => "`first-tseq`",
        Wanted::Tseq => "N, a sequence number from 0 to 4294967294",
        Wanted::FirstGen => "`first-gen`",
        Wanted::Generation => "N, a generation from 1 to 4294967295",
        Wanted::History => "`history`",
        Wanted::Entries => "N, a count of entries from 2 to 16777216",
        Wanted::Policy => "`policy`",
    })
}

/// Returns whether one of these is this one.
fn is_among(wanted: &[Wanted], one: Wanted) -> bool {
    wanted.iter().any(|other| *other == one)
}

/// Writes what a word is to be: each of these once.
pub(crate) fn write_wanted(text: &mut String, wanted: &[Wanted]) -> Result<(), AllocError> {
    let mut is_first = true;
    for (place, one) in wanted.iter().enumerate() {
        if is_among(&wanted[..place], *one) {
            continue;
        }
        text.push_str(if is_first { "wanted: " } else { ", or " })?;
        write_one(text, *one)?;
        is_first = false;
    }
    Ok(())
}
