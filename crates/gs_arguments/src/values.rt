//! What was given to the options of a command.

ghost use Rattle.std.specs.List.{cons_option};
ghost use Rattle.std.specs.Prelude.{◌≡◌, ◌++◌, [], map, codes, IfOk, OnOk, filter_map, option_and_then, option_map};
ghost use Rattle.clap.specs.Words.{first_of, found_of, one_of, rows_of};
ghost use Rattle.gs_arguments.specs.Arguments.{command_given, command_of, compare_given, clash_in, count_of, file_given, flag_of, latency_given, listed_by, number_of, policies_given, seeds_given, ticks_in, timeline_given, unless_standard, words_in};

use crate::command::{
    Asked, Command, LEAST_COUNT, Listed, MOST_EACH, MOST_LINES, MOST_TICKS, MOST_WORKERS,
};
use std::alloc::{AllocError, Global};

/// Whether a flag is given.
fn flag_in(given: &clap::ArgMatches<'_>, name: &str) -> Option<bool>
    ensures { result ≡ option_and_then flag_of (one_of name.now (rows_of (found_of given.now))) }
{
    given.get_one(name)
}

/// The number that an option is given.
fn number_in(given: &clap::ArgMatches<'_>, name: &str) -> Option<usize>
    ensures { result ≡ option_and_then number_of (one_of name.now (rows_of (found_of given.now))) }
{
    given.get_one(name)
}

/// The count that an option is given, if it is from [`LEAST_COUNT`] to this.
fn count_in(given: &clap::ArgMatches<'_>, name: &str, most: usize) -> Option<usize>
    ensures { result ≡ option_and_then (count_of most) (one_of name.now (rows_of (found_of given.now))) }
{
    let count = number_in(given, name)?;
    (LEAST_COUNT <= count && count <= most).then_some(count)
}

/// Which threads a picture lists: all, the one that is named, as many as are said, or a few.
fn listed_by(all: bool, one: Option<usize>, most: Option<usize>) -> Listed
    ensures { result ≡ listed_by all one most }
{
    match (all, one, most) {
        (true, _, _) => Listed::All,
        (false, Some(tid), _) => Listed::One { tid },
        (false, None, Some(count)) => Listed::Most { count },
        (false, None, None) => Listed::Few,
    }
}

/// The command `timeline`, with the values of its options.
fn timeline_given(given: &clap::ArgMatches<'_>) -> Option<Command>
    ensures { result ≡ timeline_given (rows_of (found_of given.now)) }
{
    let all = flag_in(given, "all-threads")?;
    Some(Command::Timeline {
        from: number_in(given, "from").unwrap_or(0),
        to: number_in(given, "to").unwrap_or(usize::MAX),
        listed: listed_by(all, number_in(given, "thread"), number_in(given, "threads")),
    })
}

/// How many ticks a workload is to be simulated for, if that is said.
fn ticks_in(given: &clap::ArgMatches<'_>) -> Option<usize>
    ensures { result ≡ ticks_in (rows_of (found_of given.now)) }
{
    count_in(given, "ticks", MOST_TICKS)
}

/// The command `compare`, with the values of its options.
fn compare_given(given: &clap::ArgMatches<'_>) -> Option<Command>
    ensures { result ≡ compare_given (rows_of (found_of given.now)) }
{
    Some(Command::Compare {
        ticks: ticks_in(given),
        json: flag_in(given, "json")?,
        csv: flag_in(given, "csv")?,
    })
}

/// The command `latency`, with the values of its options.
fn latency_given(given: &clap::ArgMatches<'_>) -> Option<Command>
    ensures { result ≡ latency_given (rows_of (found_of given.now)) }
{
    Some(Command::Latency {
        json: flag_in(given, "json")?,
        threads: flag_in(given, "threads")?,
    })
}

/// The command that was given, with the values of its options.
pub(crate) fn command_given(name: &str, given: &clap::ArgMatches<'_>) -> Option<Command>
    ensures { result ≡ command_given (name.now, rows_of (found_of given.now)) }
{
    match name {
        "run" => Some(Command::Run),
        "explain" => Some(Command::Explain {
            json: flag_in(given, "json")?,
        }),
        "report" => Some(Command::Report {
            last: count_in(given, "last", MOST_LINES)?,
        }),
        "journal" => Some(Command::Journal {
            json: flag_in(given, "json")?,
        }),
        "timeline" => timeline_given(given),
        "timehist" => Some(Command::Timehist {
            json: flag_in(given, "json")?,
        }),
        "latency" => latency_given(given),
        "trace" => Some(Command::Trace),
        "serve" => Some(Command::Serve {
            explained: flag_in(given, "explain")?,
        }),
        "simulate" => Some(Command::Simulate {
            ticks: ticks_in(given),
        }),
        "compare" => compare_given(given),
        "threads" => Some(Command::Threads {
            workers: count_in(given, "workers", MOST_WORKERS)?,
            each: count_in(given, "each", MOST_EACH)?,
            journal: flag_in(given, "journal")?,
        }),
        _ => None,
    }
}

/// What does not go together in a command.
#[derive(Clone, Copy, PartialEq, Eq, Debug)]
pub(crate) enum Clash {
    /// The first entry that a picture is to show is above the last.
    Backward { from: usize, to: usize },
    /// A table is to be written in two forms.
    TwoForms,
}

/// What does not go together in a command, if something does not.
pub(crate) fn clash_in(command: Command) -> Option<Clash>
    ensures { result ≡ clash_in command }
{
    match command {
        Command::Timeline { from, to, .. } if from > to => { Some(Clash::Backward { from, to }) }
        Command::Compare {
            json: true,
            csv: true,
            ..
        } => Some(Clash::TwoForms),
        _ => None,
    }
}

/// The command that was given, unless something in it does not go together.
pub(crate) fn command_of(name: &str, given: &clap::ArgMatches<'_>) -> Option<Command>
    ensures { result ≡ command_of (name.now, rows_of (found_of given.now)) }
{
    let command = command_given(name, given)?;
    match clash_in(command) {
        Some(_) => None,
        None => Some(command),
    }
}

/// The word that the argument FILE is given.
fn file_in<'a>(given: &clap::ArgMatches<'a>) -> Option<&'a str>
    ensures { option_map (λ file. file.now) result ≡ first_of (codes "file") (rows_of (found_of given.now)) }
{
    given.get_str("file")
}

/// The file of this name, of which `-` alone is standard input.
fn unless_standard(name: &str) -> Option<&str>
    ensures { option_map (λ file. file.now) result ≡ unless_standard name.now }
{
    if name == "-" { None } else { Some(name) }
}

/// The file that was given, if one was.
fn file_of<'a>(given: &clap::ArgMatches<'a>) -> Option<&'a str>
    ensures { option_map (λ file. file.now) result ≡ file_given (rows_of (found_of given.now)) }
{
    unless_standard(file_in(given)?)
}

/// The words that an option is given, in order.
fn words_in<'a>(
    alloc: Global,
    given: &clap::ArgMatches<'a>,
    name: &str,
) -> Result<Vec<&'a str>, AllocError>
    ensures { IfOk result (λ words. map (λ word. word.now) words.items ≡ words_in (rows_of (found_of given.now)) name.now) }
{
    match given.get_strs(name) {
        Some(words) => Vec::from_slice(alloc, words),
        None => Ok(Vec::new(alloc)),
    }
}

/// The number that a word spells, if it spells one.
fn number_word(word: &str) -> Option<u64>
    ensures { result ≡ number_of word.now }
{
    word.parse().ok()
}

/// Adds a number, if there is one.
fn push_number(numbers: &mut Vec<u64>, number: Option<u64>) -> Result<(), AllocError>
    ensures { OnOk result (numbers.new.items ≡ numbers.old.items ++ cons_option number []) }
{
    match number {
        Some(number) => Ok(numbers.push(number)?),
        None => Ok(()),
    }
}

/// The numbers that words spell, in order.
fn numbers_of(alloc: Global, words: &[&str]) -> Result<Vec<u64>, AllocError>
    ensures { IfOk result (λ numbers. numbers.items ≡ filter_map number_of (map (λ word. word.now) words.now)) }
{
    let mut numbers = Vec::new(alloc);
    for word in words {
        push_number(&mut numbers, number_word(word))?;
    }
    Ok(numbers)
}

/// What `--seed` says, in order.
fn seeds_of(alloc: Global, given: &clap::ArgMatches<'_>) -> Result<Vec<u64>, AllocError>
    ensures { IfOk result (λ seeds. seeds.items ≡ seeds_given (rows_of (found_of given.now))) }
{
    numbers_of(alloc, &words_in(alloc, given, "seed")?)
}

/// What was given to a command.
pub(crate) fn asked_of<'a>(
    alloc: Global,
    command: Command,
    given: &clap::ArgMatches<'a>,
) -> Result<Asked<'a>, AllocError>
    ensures command { IfOk result (λ asked. asked.command ≡ command) }
    ensures file { IfOk result (λ asked. option_map (λ file. file.now) asked.file ≡ file_given (rows_of (found_of given.now))) }
    ensures policies { IfOk result (λ asked. map (λ word. word.now) asked.policies.items ≡ policies_given (rows_of (found_of given.now))) }
    ensures seeds { IfOk result (λ asked. asked.seeds.items ≡ seeds_given (rows_of (found_of given.now))) }
{
    Ok(Asked {
        command,
        file: file_of(given),
        policies: words_in(alloc, given, "policy")?,
        seeds: seeds_of(alloc, given)?,
    })
}
