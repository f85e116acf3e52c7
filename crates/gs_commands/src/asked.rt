ghost use Rattle.std.specs.Prelude.{◌≡◌, ◌≢◌, [], IfOk, IfErr, IsErr, IsErrAnd, IsErrOf, OnErr, OnOk, get_or, map, option_map, slice_get, string_bytes};
ghost use Rattle.std.specs.IoError.{error_kind};
ghost use Rattle.std.specs.Io.KnownBytes.{Keeps};
ghost use Rattle.std.specs.Vec.Iter.{into_iter_items};
ghost use Rattle.clap.specs.Faults.{fault_of};
ghost use Rattle.gs_arguments.specs.Arguments.{AreAllowedTicks, AsksAllowed, command_in, file_in, ghost_program, policies_in, seeds_in};
ghost use Rattle.gs_arguments.specs.declared.command.Command.{Command};
ghost use Rattle.gs_trace.specs.Streams.{AnswersAll, AnswersOf, BeginsAnswer, ConsumesAtMost};
ghost use Rattle.gs_trace.specs.declared.pipe.TheConstants.{MOST_READ_BYTES};
ghost use Rattle.gs_commands.specs.Asked.{Answers, BeginsServingAs, Compares, Does, DoesFrom, DoesInFile, IsServedAs, IsTaskOf, MayBe, Obeys, ObeysAsked, ObeysCommand, explanation_asked, form_asked, listed_asked, notation_asked, shown_asked, texts};
ghost use Rattle.gs_commands.specs.Failures.{IsOfTask, IsOfWords, IsUnreadBy, TellsOneOf};

use crate::failure::{Failure, unopened, unread, unsettled};
use crate::helping::{help_word, show_help};
use crate::policies::policies_of;
use crate::telling::{Asking, Counting, Watched, await_input, tell_fault};
use gs_arguments::{Asked, Command, settings};
use gs_compare::compare_workload;
use gs_explain::{Explanation, explain_script};
use gs_script::NamedPolicy;
use gs_serve::{Prompt, ServeFault, serve, serve_explained};
use gs_tables::{Table, write_table};
use gs_trace::{Ended, Form, Kept, Listed, Notation, TraceFault, run_and_keep};
use gs_workbench::simulate_workload;
use gs_workers::{Shown, Work, run_workers};
use std::alloc::{AllocError, Global};
use std::env::Args;
use std::fs::Files;
use std::io::{IsTerminal, Read, Write};
use std::sync::Wait;
use std::thread::Threads;
use std::time::CpuClock;
use std::{fs, io};

/// What is to be written of a script.
#[derive(Clone, Copy, PartialEq, Eq, Debug)]
pub(crate) enum Wanted {
    /// What came of it, in this form.
    Shown { form: Form },
    /// Each of its lines with its reply, and why that is so, written so.
    Explained { how: Explanation },
    /// A table of what happened in it.
    Tabled { table: Table },
}

/// What a command asks for.
#[derive(Clone, Copy)]
pub(crate) enum Task<'a, P> {
    /// To run the script that the reader has, and to write this of it.
    Script { wanted: Wanted },
    /// To answer the lines that the reader gives, each before it is asked for more: with reasons if they are explained.
    Serve { explained: bool },
    /// To simulate the workload that the reader has so, and to write the script of what happened.
    Simulation { how: gs_workbench::Asked<P> },
    /// To simulate it under each of some policies and by each of some seeds, and to write a table of what came of that.
    Comparison { how: gs_compare::Asked<'a, P> },
    /// To run these workers, and to show so what came of it.
    Workers { work: Work, shown: Shown },
}

/// Returns all words that are left, in order.
fn collected(alloc: Global, arguments: Args) -> Result<Vec<String>, AllocError>
    ensures { IfOk result (λ words. words.items ≡ into_iter_items arguments) }
{
    arguments.collect(alloc)
}

/// Returns the command that the words give, and the file that they name.
fn asked_of(alloc: Global, words: &[String]) -> Result<Asked<'_>, Failure>
    ensures given { IfOk result (λ asked. command_in (map string_bytes words.now) ≡ Some asked.command) }
    ensures file { IfOk result (λ asked. option_map (λ file. file.now) asked.file ≡ file_in (map string_bytes words.now)) }
    ensures policies { IfOk result (λ asked. map (λ text. text.now) asked.policies.items ≡ policies_in (map string_bytes words.now)) }
    ensures seeds { IfOk result (λ asked. asked.seeds.items ≡ seeds_in (map string_bytes words.now)) }
    ensures told { fault_of ghost_program (map string_bytes words.now) ≢ [] → IsErrAnd result (TellsOneOf (fault_of ghost_program (map string_bytes words.now))) }
    ensures faultless { fault_of ghost_program (map string_bytes words.now) ≡ [] → (command : Command) → command_in (map string_bytes words.now) ≡ Some command → IfErr result IsOfTask }
    ensures allowed { IfOk result (λ asked. AsksAllowed asked.command) }
    ensures unbegun { IfErr result IsOfWords }
{
    match settings(alloc, words) {
        Ok(asked) => Ok(asked),
        Err(error) => Err(unsettled(error)),
    }
}

/// Returns how a run of workers is to be shown.
fn shown_of(journal: bool) -> Shown
    ensures { result ≡ shown_asked journal }
{
    if journal { Shown::Journal } else { Shown::Line }
}

/// Returns how what explains a script is to be written.
fn explanation_of(json: bool) -> Explanation
    ensures { result ≡ explanation_asked json }
{
    if json {
        Explanation::Json
    } else {
        Explanation::Lines
    }
}

/// Returns how a table is to be written.
fn notation_of(json: bool) -> Notation
    ensures { result ≡ notation_asked json }
{
    match json {
        true => Notation::Json,
        false => Notation::Lines,
    }
}

/// The task of a script whose outcome is shown in a form.
fn script<'a, P>(form: Form) -> Task<'a, P>
    ensures { result ≡ Task.Script (Wanted.Shown form) }
{
    Task::Script {
        wanted: Wanted::Shown { form },
    }
}

/// Returns which threads a picture is to list.
fn listed_of(listed: gs_arguments::Listed) -> Listed
    ensures { result ≡ listed_asked listed }
{
    match listed {
        gs_arguments::Listed::Few => Listed::Few,
        gs_arguments::Listed::Most { count } => Listed::Most(count),
        gs_arguments::Listed::One { tid } => Listed::One(tid),
        gs_arguments::Listed::All => Listed::All,
    }
}

/// Returns in what form a comparison is to be written.
fn form_of(json: bool, csv: bool) -> gs_compare::Form
    ensures { result ≡ form_asked json csv }
{
    match (json, csv) {
        (true, _) => gs_compare::Form::Json,
        (false, true) => gs_compare::Form::Csv,
        (false, false) => gs_compare::Form::Lines,
    }
}

/// The task of a script of which a table is written.
fn table<'a, P>(table: Table) -> Task<'a, P>
    ensures { result ≡ Task.Script (Wanted.Tabled table) }
{
    Task::Script {
        wanted: Wanted::Tabled { table },
    }
}

/// The task of a workload that is simulated under the first of these policies and by the first of these seeds, if there is one.
fn simulation<'a, P: Copy>(policies: &[P], ticks: Option<usize>, seeds: &[u64]) -> Task<'a, P>
    requires { AreAllowedTicks ticks }
    ensures { result ≡ Task.Simulation (record { policy = slice_get policies.now 0; ticks = ticks; seed = get_or seeds.now 0 0 }) }
{
    Task::Simulation {
        how: gs_workbench::Asked {
            policy: policies.first().copied(),
            ticks: ticks.map(|ticks| ticks as u32),
            seed: seeds.first().copied().unwrap_or(0),
        },
    }
}

/// The task of a workload that is compared under these policies and by these seeds.
fn comparison<'a, P>(
    policies: &'a [P],
    ticks: Option<usize>,
    seeds: &'a [u64],
    form: gs_compare::Form,
) -> Task<'a, P>
    requires { AreAllowedTicks ticks }
    ensures { Compares policies.now seeds.now ticks form result }
{
    Task::Comparison {
        how: gs_compare::Asked {
            policies,
            ticks: ticks.map(|ticks| ticks as u32),
            seeds,
            form,
        },
    }
}

/// Returns what a command asks for, by the policies and the seeds that are given to it.
fn task_of<'a, P: Copy>(command: Command, policies: &'a [P], seeds: &'a [u64]) -> Task<'a, P>
    requires { AsksAllowed command }
    ensures { IsTaskOf command policies.now seeds.now result }
{
    match command {
        Command::Run => script(Form::Lines),
        Command::Explain { json } => Task::Script {
            wanted: Wanted::Explained {
                how: explanation_of(json),
            },
        },
        Command::Report { last } => script(Form::Report { last }),
        Command::Journal { json } => script(Form::Journal(notation_of(json))),
        Command::Timeline { from, to, listed } => script(Form::Timeline {
            from,
            to,
            listed: listed_of(listed),
        }),
        Command::Timehist { json } => table(Table::Timehist(notation_of(json))),
        Command::Latency { json, threads } => table(Table::Latency {
            notation: notation_of(json),
            threads,
        }),
        Command::Trace => script(Form::Trace),
        Command::Serve { explained } => Task::Serve { explained },
        Command::Simulate { ticks } => simulation(policies, ticks, seeds),
        // (returned, since the checker of borrows joins no arm that lends with others)
        Command::Compare { ticks, json, csv } => {
            return comparison(policies, ticks, seeds, form_of(json, csv));
        }
        Command::Threads {
            workers,
            each,
            journal,
        } => Task::Workers {
            work: Work { workers, each },
            shown: shown_of(journal),
        },
    }
}

/// Runs the script that the reader has, and writes what is wanted of it. Returns how it ended, and what was read.
fn run_wanted<P: NamedPolicy, R: Read, W: Write>(
    alloc: Global,
    wanted: Wanted,
    reader: &mut R,
    writer: &mut W,
) -> Result<Kept, TraceFault>
    ensures ended { IfOk result (λ kept. AnswersAll (Answers P.naming P.chosen wanted) kept.ended (R.remaining reader.old) (W.contents writer.old) (W.contents writer.new)) }
    ensures read { IfOk result (λ kept. AnswersOf (Answers P.naming P.chosen wanted) kept.input.items kept.ended (R.remaining reader.old) (R.remaining reader.new) (W.contents writer.old) (W.contents writer.new)) }
    ensures bounded { ConsumesAtMost MOST_READ_BYTES (R.remaining reader.old) (R.remaining reader.new) }
    ensures unwritten { IfErr result (λ e. e ≢ TraceFault.WriteFailed → Keeps (W.contents writer.old) (W.contents writer.new)) }
    ensures begun { IsErrOf result TraceFault.WriteFailed → BeginsAnswer (Answers P.naming P.chosen wanted) (R.remaining reader.old) (W.contents writer.old) (W.contents writer.new) }
{
    match wanted {
        Wanted::Shown { form } => run_and_keep::<P, R, W>(alloc, reader, writer, form),
        Wanted::Explained { how } => explain_script::<P, R, W>(alloc, reader, writer, how),
        Wanted::Tabled { table } => write_table::<P, R, W>(alloc, reader, writer, table),
    }
}

/// Answers the lines that the reader gives, with reasons if they are to be explained.
fn serve_as<P: NamedPolicy, Q: Prompt, R: Read, W: Write>(
    alloc: Global,
    explained: bool,
    prompt: &Q,
    reader: &mut R,
    writer: &mut W,
) -> Result<(), ServeFault>
    ensures served { OnOk result (IsServedAs P.naming P.chosen explained (R.remaining reader.old) (R.remaining reader.new) (W.contents writer.old) (W.contents writer.new)) }
    ensures begun { OnErr result (BeginsServingAs P.naming P.chosen explained (R.remaining reader.old) (W.contents writer.old) (W.contents writer.new)) }
{
    match explained {
        false => serve::<P, Q, R, W>(alloc, prompt, reader, writer),
        true => serve_explained::<P, Q, R, W>(alloc, prompt, reader, writer),
    }
}

/// Does a task: runs the script that the reader has, answers its lines, or runs workers. Writes what came of it, and says
/// on standard error what is wrong with a script that has a fault. If a terminal gives the lines, it is asked for each.
fn perform<
    P: NamedPolicy,
    H: Threads + Wait + Sync + Eprint + CpuClock + Watched,
    R: Read,
    W: Write,
>(
    rt: &H,
    alloc: Global,
    task: Task<'_, P>,
    is_terminal: bool,
    reader: &mut R,
    writer: &mut W,
) -> Result<Ended, Failure>
    requires { MayBe task }
    ensures { Does P.naming P.chosen task.entry (R.remaining reader.old) (R.remaining reader.new) (W.contents writer.old) (W.contents writer.new) result }
{
    match task {
        Task::Script { wanted } => match run_wanted::<P, R, W>(alloc, wanted, reader, writer) {
            Ok(kept) => {
                tell_fault::<P, H>(rt, alloc, &kept);
                Ok(kept.ended)
            }
            Err(fault) => Err(Failure::Script(fault)),
        },
        Task::Serve { explained } => {
            match serve_as::<P, Asking<'_, H>, R, W>(
                alloc,
                explained,
                &Asking { rt, is_terminal },
                reader,
                writer,
            ) {
                Ok(()) => Ok(Ended::Ran),
                Err(fault) => Err(Failure::Serve(fault)),
            }
        }
        Task::Simulation { how } => match simulate_workload(alloc, reader, writer, how) {
            Ok(()) => Ok(Ended::Ran),
            Err(fault) => Err(Failure::Workbench(fault)),
        },
        Task::Comparison { how } => match compare_workload(
            alloc,
            &Counting { rt },
            reader,
            writer,
            &how,
        ) {
            Ok(()) => Ok(Ended::Ran),
            Err(fault) => Err(Failure::Workbench(fault)),
        },
        Task::Workers { work, shown } => match run_workers(rt, alloc, work, shown, writer) {
            Ok(()) => Ok(Ended::Ran),
            Err(fault) => Err(Failure::Work(fault)),
        },
    }
}

/// Does a task whose script a file has.
fn perform_in_file<
    P: NamedPolicy,
    H: Threads + Wait + Sync + Files + Eprint + CpuClock + Watched,
    W: Write,
>(rt: &H, alloc: Global, task: Task<'_, P>, file: &str, writer: &mut W) -> Result<Ended, Failure>
    requires { MayBe task }
    ensures { DoesInFile P.naming P.chosen task.entry (W.contents writer.old) (W.contents writer.new) result }
{
    match fs::open(rt, file) {
        Ok(mut opened) => perform(rt, alloc, task, false, &mut opened, writer),
        Err(error) => Err(unopened(alloc, file, error)),
    }
}

/// Does a task whose script the file of this name has, or, without one, the reader.
fn perform_from<
    P: NamedPolicy,
    H: Threads + Wait + Sync + Files + Eprint + CpuClock + Watched,
    R: Read + IsTerminal,
    W: Write,
>(
    rt: &H,
    alloc: Global,
    task: Task<'_, P>,
    file: Option<&str>,
    reader: &mut R,
    writer: &mut W,
) -> Result<Ended, Failure>
    requires { MayBe task }
    ensures { DoesFrom P.naming P.chosen (option_map (λ file. file.now) file.entry) task.entry (R.remaining reader.old) (R.remaining reader.new) (W.contents writer.old) (W.contents writer.new) result }
{
    match file {
        Some(file) => perform_in_file(rt, alloc, task, file, writer),
        None => {
            let is_terminal = reader.is_terminal();
            await_input(rt, &task, is_terminal);
            perform(rt, alloc, task, is_terminal, reader, writer)
        }
    }
}

/// Does what was asked for, if each text that is to name a policy does.
fn obey_asked<
    P: NamedPolicy,
    H: Threads + Wait + Sync + Files + Eprint + CpuClock + Watched,
    R: Read + IsTerminal,
    W: Write,
>(
    rt: &H,
    alloc: Global,
    asked: &Asked<'_>,
    reader: &mut R,
    writer: &mut W,
) -> Result<Ended, Failure>
    requires { AsksAllowed asked.now.command }
    ensures { ObeysAsked P.naming P.chosen asked.now.command (map (λ text. text.now) asked.now.policies.items) asked.now.seeds.items (option_map (λ file. file.now) asked.now.file) (R.remaining reader.old) (R.remaining reader.new) (W.contents writer.old) (W.contents writer.new) result }
{
    match policies_of::<P>(alloc, &asked.policies) {
        Ok(policies) => {
            let task = task_of(asked.command, &policies, &asked.seeds);
            perform_from(rt, alloc, task, asked.file, reader, writer)
        }
        Err(failure) => Err(failure),
    }
}

/// Does what the command asks for that these words give.
fn obey_command<
    P: NamedPolicy,
    H: Threads + Wait + Sync + Files + Eprint + CpuClock + Watched,
    R: Read + IsTerminal,
    W: Write,
>(rt: &H, alloc: Global, words: &[String], reader: &mut R, writer: &mut W) -> Result<Ended, Failure>
    ensures { ObeysCommand P.naming P.chosen (map string_bytes words.now) (R.remaining reader.old) (R.remaining reader.new) (W.contents writer.old) (W.contents writer.new) result }
{
    match asked_of(alloc, words) {
        Ok(asked) => obey_asked::<P, H, R, W>(rt, alloc, &asked, reader, writer),
        Err(failure) => Err(failure),
    }
}

/// Does what these words ask for.
fn obey<
    P: NamedPolicy,
    H: Threads + Wait + Sync + Files + Eprint + CpuClock + Watched,
    R: Read + IsTerminal,
    W: Write,
>(rt: &H, alloc: Global, words: &[String], reader: &mut R, writer: &mut W) -> Result<Ended, Failure>
    ensures { Obeys P.naming P.chosen (map string_bytes words.now) (R.remaining reader.old) (R.remaining reader.new) (W.contents writer.old) (W.contents writer.new) result }
{
    match help_word(words) {
        Some(word) => show_help::<P, W>(alloc, word, writer),
        None => obey_command::<P, H, R, W>(rt, alloc, words, reader, writer),
    }
}

/// Does what the arguments ask for, over a reader and a writer: `main` hands it the standard streams.
pub(crate) fn ghost_command<
    P: NamedPolicy,
    H: Threads + Wait + Sync + Files + Eprint + CpuClock + Watched,
    R: Read + IsTerminal,
    W: Write,
>(
    rt: &H,
    alloc: Global,
    arguments: io::Result<Args>,
    reader: &mut R,
    writer: &mut W,
) -> Result<Ended, Failure>
    ensures obeyed { IfOk arguments (λ given. Obeys P.naming P.chosen (texts given) (R.remaining reader.old) (R.remaining reader.new) (W.contents writer.old) (W.contents writer.new) result) }
    ensures unread { IfErr arguments (λ error. IsErrAnd result (IsUnreadBy (error_kind error))) }
    ensures untouched { IsErr arguments → Keeps (R.remaining reader.old) (R.remaining reader.new) × Keeps (W.contents writer.old) (W.contents writer.new) }
{
    let given = match arguments {
        Ok(given) => given,
        Err(error) => return Err(unread(error)),
    };
    let Ok(words) = collected(alloc, given) else {
        return Err(Failure::Script(TraceFault::OutOfMemory));
    };
    obey::<P, H, R, W>(rt, alloc, words.as_slice(), reader, writer)
}
