//! The options and arguments of commands.

ghost use Rattle.std.specs.Prelude.{◌≡◌, ◌≤◌, false, codes};
ghost use Rattle.clap.specs.Words.{rule_of};
ghost use Rattle.gs_arguments.specs.Arguments.{count_rule, file_rule, flag_rule, last_rule, place_rule, policy_rule, repeated, ticks_rule};

use crate::command::{LEAST_COUNT, LEAST_LINES, MOST_EACH, MOST_LINES, MOST_TICKS};
use clap::ArgAction;
use std::alloc::Global;

/// `DEFAULT_LINES` as a word of the command line.
const DEFAULT_WORD: &str = "10";

/// The argument WORKLOAD, which is a FILE too.
pub(crate) fn workload_argument<'a>(alloc: Global) -> clap::Arg<'a>
    ensures rule { rule_of result ≡ file_rule }
    ensures local { result.global ≡ false }
{
    clap::Arg::new(alloc, "file").value_name("WORKLOAD").help(
        "The file that has the workload, in place of standard input, which is `-`",
    )
}

/// The argument FILE.
pub(crate) fn file_argument<'a>(alloc: Global) -> clap::Arg<'a>
    ensures rule { rule_of result ≡ file_rule }
    ensures local { result.global ≡ false }
{
    clap::Arg::new(alloc, "file").value_name("FILE").help(
        "The file that has the script, in place of standard input, which is `-`",
    )
}

/// The option `--last N`: how many of the last lines a report shows.
pub(crate) fn last_option<'a>(alloc: Global) -> clap::Arg<'a>
    ensures rule { rule_of result ≡ last_rule }
    ensures local { result.global ≡ false }
{
    clap::Arg::new(alloc, "last")
        .long("last")
        .value_name("N")
        .help("How many of the last lines the report shows")
        .value_parser(clap::value_parser!(usize).range(LEAST_LINES as i64..=MOST_LINES as i64))
        .default_value(DEFAULT_WORD)
}

/// A flag.
pub(crate) fn flag<'a>(alloc: Global, name: &'a str, help: &'a str) -> clap::Arg<'a>
    ensures rule { rule_of result ≡ flag_rule name.entry.now }
    ensures local { result.global ≡ false }
{
    clap::Arg::new(alloc, name)
        .long(name)
        .help(help)
        .action(ArgAction::SetTrue)
}

/// An option of `timeline` or `simulate` that takes a number.
pub(crate) fn place_option<'a>(alloc: Global, name: &'a str, help: &'a str) -> clap::Arg<'a>
    ensures rule { rule_of result ≡ place_rule name.entry.now }
    ensures local { result.global ≡ false }
{
    clap::Arg::new(alloc, name)
        .long(name)
        .value_name("N")
        .help(help)
        .value_parser(clap::value_parser!(usize))
}

/// The option `--policy P` of `simulate`.
pub(crate) fn policy_option<'a>(alloc: Global) -> clap::Arg<'a>
    ensures rule { rule_of result ≡ policy_rule }
    ensures local { result.global ≡ false }
{
    clap::Arg::new(alloc, "policy")
        .long("policy")
        .value_name("P")
        .help("Its policy, by the words that name it in a header, as `two 4`")
}

/// The option `--policy P` of `compare`, which may be given more than once.
pub(crate) fn policies_option<'a>(alloc: Global) -> clap::Arg<'a>
    ensures rule { rule_of result ≡ repeated policy_rule }
    ensures local { result.global ≡ false }
{
    policy_option(alloc)
        .help("A policy, by the words that name it in a header, as `two 4`. There may be several")
        .action(ArgAction::Append)
}

/// The option `--ticks N`.
pub(crate) fn ticks_option<'a>(alloc: Global) -> clap::Arg<'a>
    ensures rule { rule_of result ≡ ticks_rule }
    ensures local { result.global ≡ false }
{
    clap::Arg::new(alloc, "ticks")
        .long("ticks")
        .value_name("N")
        .help("How many ticks there are, in place of what the workload says")
        .value_parser(clap::value_parser!(usize).range(LEAST_COUNT as i64..=MOST_TICKS as i64))
}

/// The option `--seed N` of `simulate`.
pub(crate) fn seed_option<'a>(alloc: Global) -> clap::Arg<'a>
    ensures rule { rule_of result ≡ place_rule (codes "seed") }
    ensures local { result.global ≡ false }
{
    place_option(
        alloc,
        "seed",
        "What all numbers are drawn by, 0 if it is not given",
    )
}

/// The option `--seed N` of `compare`, which may be given more than once.
pub(crate) fn seeds_option<'a>(alloc: Global) -> clap::Arg<'a>
    ensures rule { rule_of result ≡ repeated (place_rule (codes "seed")) }
    ensures local { result.global ≡ false }
{
    seed_option(alloc)
        .help("What all numbers are drawn by, 0 if it is not given. There may be several")
        .action(ArgAction::Append)
}

/// An option of `threads` that has to be given: a count, of which this is the most.
pub(crate) fn count_option<'a>(
    alloc: Global,
    name: &'a str,
    value: &'a str,
    help: &'a str,
    most: usize,
) -> clap::Arg<'a>
    requires { most ≤ MOST_EACH }
    ensures rule { rule_of result ≡ count_rule name.entry.now most }
    ensures local { result.global ≡ false }
{
    clap::Arg::new(alloc, name)
        .long(name)
        .value_name(value)
        .help(help)
        .required(true)
        .value_parser(clap::value_parser!(usize).range(LEAST_COUNT as i64..=most as i64))
}
