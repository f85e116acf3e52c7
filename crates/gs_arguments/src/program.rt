//! The commands, and the program's command line.

ghost use Rattle.std.specs.Prelude.{◌≡◌, false, IfOk, option_map};
ghost use Rattle.clap.specs.Words.{app_of};
ghost use Rattle.clap.specs.declared.builder.command.Command.TheViews.{out-Command as fields_of};
ghost use Rattle.gs_arguments.specs.Arguments.{alone_named, compare_alone, compare_runs, explain_alone, ghost_alone, ghost_program, journal_alone, latency_alone, report_alone, run_alone, serve_alone, simulate_alone, threads_alone, timehist_alone, timeline_alone, timeline_of_part, trace_alone, with_others, with_pictures, with_runs};

use crate::command::{MOST_EACH, MOST_WORKERS};
use crate::options::{
    count_option, file_argument, flag, last_option, place_option, policies_option, policy_option,
    seed_option, seeds_option, ticks_option, workload_argument,
};
use std::alloc::{AllocError, Global};

/// What stands at the end of the program's help.
const AFTER_HELP: &str =
    "`ghost help WORD` says what a word of a script, a refusal, an outcome, a fault or an exit status is.";

/// The command `run`.
fn run_command<'a>(alloc: Global) -> Result<clap::Command<'a>, AllocError>
    ensures shape { IfOk result (λ command. app_of command ≡ run_alone) }
    ensures local { IfOk result (λ command. (fields_of command).has_globals ≡ false) }
{
    clap::Command::new(alloc, "run")
        .about("Runs a script and writes the replies to standard output")
        .arg(file_argument(alloc))
}

/// The command `explain`.
fn explain_command<'a>(alloc: Global) -> Result<clap::Command<'a>, AllocError>
    ensures shape { IfOk result (λ command. app_of command ≡ explain_alone) }
    ensures local { IfOk result (λ command. (fields_of command).has_globals ≡ false) }
{
    clap::Command::new(alloc, "explain")
        .about(
            "Runs a script and writes each line with its reply, and why it came out so, to standard output",
        )
        .arg(flag(
            alloc,
            "json",
            "Writes a JSON object for each event, one a line",
        ))?
        .arg(file_argument(alloc))
}

/// The command `report`.
fn report_command<'a>(alloc: Global) -> Result<clap::Command<'a>, AllocError>
    ensures shape { IfOk result (λ command. app_of command ≡ report_alone) }
    ensures local { IfOk result (λ command. (fields_of command).has_globals ≡ false) }
{
    clap::Command::new(alloc, "report")
        .about("Runs a script and writes a report of the run to standard output")
        .arg(last_option(alloc))?
        .arg(file_argument(alloc))
}

/// The command `journal`.
fn journal_command<'a>(alloc: Global) -> Result<clap::Command<'a>, AllocError>
    ensures shape { IfOk result (λ command. app_of command ≡ journal_alone) }
    ensures local { IfOk result (λ command. (fields_of command).has_globals ≡ false) }
{
    clap::Command::new(alloc, "journal")
        .about("Runs a script and writes the journal of all that happened to standard output")
        .arg(flag(
            alloc,
            "json",
            "Writes a JSON object for each entry, one a line",
        ))?
        .arg(file_argument(alloc))
}

/// The command `timeline`, with what says which entries are shown, and nothing else.
fn timeline_of_part<'a>(alloc: Global) -> Result<clap::Command<'a>, AllocError>
    ensures shape { IfOk result (λ command. app_of command ≡ timeline_of_part) }
    ensures local { IfOk result (λ command. (fields_of command).has_globals ≡ false) }
{
    clap::Command::new(alloc, "timeline")
        .about("Runs a script and writes a picture of who ran where to standard output, as SVG")
        .arg(place_option(
            alloc,
            "from",
            "The first entry of the journal that is shown, counted from 0",
        ))?
        .arg(place_option(alloc, "to", "The last entry that is shown"))
}

/// The command `timeline`.
fn timeline_command<'a>(alloc: Global) -> Result<clap::Command<'a>, AllocError>
    ensures shape { IfOk result (λ command. app_of command ≡ timeline_alone) }
    ensures local { IfOk result (λ command. (fields_of command).has_globals ≡ false) }
{
    timeline_of_part(alloc)?
        .arg(place_option(
            alloc,
            "threads",
            "How many threads have a line of their own, those that never ran first",
        ))?
        .arg(place_option(
            alloc,
            "thread",
            "The number of the one thread that has a line of its own",
        ))?
        .arg(flag(alloc, "all-threads", "Gives each thread a line of its own"))?
        .arg(file_argument(alloc))
}

/// The command `trace`.
fn trace_command<'a>(alloc: Global) -> Result<clap::Command<'a>, AllocError>
    ensures shape { IfOk result (λ command. app_of command ≡ trace_alone) }
    ensures local { IfOk result (λ command. (fields_of command).has_globals ≡ false) }
{
    clap::Command::new(alloc, "trace")
        .about(
            "Runs a script and writes a trace, which Perfetto and chrome://tracing show, to standard output",
        )
        .arg(file_argument(alloc))
}

/// The command `timehist`.
fn timehist_command<'a>(alloc: Global) -> Result<clap::Command<'a>, AllocError>
    ensures shape { IfOk result (λ command. app_of command ≡ timehist_alone) }
    ensures local { IfOk result (λ command. (fields_of command).has_globals ≡ false) }
{
    clap::Command::new(alloc, "timehist")
        .about(
            "Runs a script and writes a line for each stay of a thread on a CPU, with the wait before it, to standard output",
        )
        .arg(flag(
            alloc,
            "json",
            "Writes a JSON object for each stay, one a line",
        ))?
        .arg(file_argument(alloc))
}

/// The command `latency`.
fn latency_command<'a>(alloc: Global) -> Result<clap::Command<'a>, AllocError>
    ensures shape { IfOk result (λ command. app_of command ≡ latency_alone) }
    ensures local { IfOk result (λ command. (fields_of command).has_globals ≡ false) }
{
    clap::Command::new(alloc, "latency")
        .about(
            "Runs a script and writes how long its threads waited and ran, what became of slots, and what CPUs were used for, to standard output",
        )
        .arg(flag(
            alloc,
            "json",
            "Writes a JSON object for each class, thread and CPU, one a line",
        ))?
        .arg(flag(alloc, "threads", "Tells of each thread, too"))?
        .arg(file_argument(alloc))
}

/// The command `serve`.
fn serve_command<'a>(alloc: Global) -> Result<clap::Command<'a>, AllocError>
    ensures shape { IfOk result (λ command. app_of command ≡ serve_alone) }
    ensures local { IfOk result (λ command. (fields_of command).has_globals ≡ false) }
{
    clap::Command::new(alloc, "serve")
        .about(
            "Answers the lines of a script on standard input one by one, each with its reply and an empty line, on standard output",
        )
        .arg(flag(
            alloc,
            "explain",
            "Adds the reason of what was refused or not placed",
        ))
}

/// The command `simulate`.
fn simulate_command<'a>(alloc: Global) -> Result<clap::Command<'a>, AllocError>
    ensures shape { IfOk result (λ command. app_of command ≡ simulate_alone) }
    ensures local { IfOk result (λ command. (fields_of command).has_globals ≡ false) }
{
    clap::Command::new(alloc, "simulate")
        .about(
            "Runs a workload in a closed loop and writes what happened as a script to standard output",
        )
        .arg(policy_option(alloc))?
        .arg(ticks_option(alloc))?
        .arg(seed_option(alloc))?
        .arg(workload_argument(alloc))
}

/// The command `compare`, with what says what is compared, and nothing else.
fn compare_runs<'a>(alloc: Global) -> Result<clap::Command<'a>, AllocError>
    ensures shape { IfOk result (λ command. app_of command ≡ compare_runs) }
    ensures local { IfOk result (λ command. (fields_of command).has_globals ≡ false) }
{
    clap::Command::new(alloc, "compare")
        .about(
            "Runs a workload under each policy, and writes a table of what came of it to standard output",
        )
        .arg(policies_option(alloc))?
        .arg(ticks_option(alloc))?
        .arg(seeds_option(alloc))
}

/// The command `compare`.
fn compare_command<'a>(alloc: Global) -> Result<clap::Command<'a>, AllocError>
    ensures shape { IfOk result (λ command. app_of command ≡ compare_alone) }
    ensures local { IfOk result (λ command. (fields_of command).has_globals ≡ false) }
{
    compare_runs(alloc)?
        .arg(flag(
            alloc,
            "json",
            "Writes a JSON object for each measure, one a line",
        ))?
        .arg(flag(alloc, "csv", "Writes CSV"))?
        .arg(workload_argument(alloc))
}

/// The command `threads`.
fn threads_command<'a>(alloc: Global) -> Result<clap::Command<'a>, AllocError>
    ensures shape { IfOk result (λ command. app_of command ≡ threads_alone) }
    ensures local { IfOk result (λ command. (fields_of command).has_globals ≡ false) }
{
    clap::Command::new(alloc, "threads")
        .about(
            "Runs workers that create threads, and an agent that is handed off, in threads of their own",
        )
        .arg(count_option(
            alloc,
            "workers",
            "W",
            "How many workers there are",
            MOST_WORKERS,
        ))?
        .arg(count_option(
            alloc,
            "each",
            "K",
            "How many threads each of them creates",
            MOST_EACH,
        ))?
        .arg(flag(
            alloc,
            "journal",
            "Writes the journal of all that happened in place of the line",
        ))
}

/// The program's command line.
pub(crate) fn program<'a>(alloc: Global) -> Result<clap::Command<'a>, AllocError>
    ensures { IfOk result (λ command. app_of command ≡ ghost_program) }
{
    let alone = clap::Command::new(alloc, "ghost")
        .about("A ghOSt enclave: its kernel and its agent, event by event")
        .bin_name("ghost")?
        .version("0.1.0")
        .after_help(AFTER_HELP)
        .subcommand_required(true);
    with_commands(alloc, alone)
}

/// A program's command line, with the commands that run a script and write what came of it. Each function here adds a few, since where one
/// returns all that it owns is dropped.
fn with_runs<'a>(alloc: Global, program: clap::Command<'a>) -> Result<clap::Command<'a>, AllocError>
    ensures { IfOk result (λ command. app_of command ≡ with_runs (app_of program.entry)) }
{
    program
        .subcommand(run_command(alloc)?)?
        .subcommand(explain_command(alloc)?)?
        .subcommand(report_command(alloc)?)?
        .subcommand(journal_command(alloc)?)
}

/// The same, with the commands that draw or tabulate what happened.
fn with_pictures<'a>(
    alloc: Global,
    program: clap::Command<'a>,
) -> Result<clap::Command<'a>, AllocError>
    ensures { IfOk result (λ command. app_of command ≡ with_pictures (app_of program.entry)) }
{
    program
        .subcommand(timeline_command(alloc)?)?
        .subcommand(timehist_command(alloc)?)?
        .subcommand(latency_command(alloc)?)?
        .subcommand(trace_command(alloc)?)
}

/// The same, with all other commands.
fn with_others<'a>(
    alloc: Global,
    program: clap::Command<'a>,
) -> Result<clap::Command<'a>, AllocError>
    ensures { IfOk result (λ command. app_of command ≡ with_others (app_of program.entry)) }
{
    program
        .subcommand(serve_command(alloc)?)?
        .subcommand(simulate_command(alloc)?)?
        .subcommand(compare_command(alloc)?)?
        .subcommand(threads_command(alloc)?)
}

/// The program's command line, of the program alone: with its commands.
fn with_commands<'a>(
    alloc: Global,
    alone: clap::Command<'a>,
) -> Result<clap::Command<'a>, AllocError>
    requires { app_of alone ≡ ghost_alone }
    ensures { IfOk result (λ command. app_of command ≡ ghost_program) }
{
    let program = with_runs(alloc, alone)?;
    let program = with_pictures(alloc, program)?;
    with_others(alloc, program)
}

/// The command of this name, by itself, if there is one.
pub(crate) fn command_named<'a>(
    alloc: Global,
    name: &str,
) -> Result<Option<clap::Command<'a>>, AllocError>
    ensures { IfOk result (λ found. option_map (λ command. app_of command) found ≡ alone_named name.now) }
{
    let command = match name {
        "run" => run_command(alloc),
        "explain" => explain_command(alloc),
        "report" => report_command(alloc),
        "journal" => journal_command(alloc),
        "timeline" => timeline_command(alloc),
        "timehist" => timehist_command(alloc),
        "latency" => latency_command(alloc),
        "trace" => trace_command(alloc),
        "serve" => serve_command(alloc),
        "simulate" => simulate_command(alloc),
        "compare" => compare_command(alloc),
        "threads" => threads_command(alloc),
        _ => return Ok(None),
    };
    Ok(Some(command?))
}
