//! From the arguments to the exit status.

ghost use Rattle.std.specs.Prelude.{◌≡◌, IfErr, IfOk};
ghost use Rattle.std.specs.IoError.{error_kind};
ghost use Rattle.clap.specs.Values.{kind_of};
ghost use Rattle.gs_commands.specs.Asked.{texts};
ghost use Rattle.gs_commands.specs.Ended.{EndsAs, EndsUnread};
ghost use Rattle.gs_commands.specs.Status.{IsArgumentsStatus, IsFailureStatus, IsStatus};

use crate::asked::ghost_command;
use crate::failure::Failure;
use crate::status::{ended_code, fault_code, serve_code, work_code, workbench_code};
use crate::telling::Watched;
use gs_script::NamedPolicy;
use gs_serve::ServeFault;
use gs_trace::Ended;
use std::alloc::Global;
use std::env::Args;
use std::fs::Files;
use std::io;
use std::io::{IsTerminal, Read, Write};
use std::sync::Wait;
use std::thread::Threads;
use std::time::CpuClock;

/// Says what is wrong with the arguments, or writes the help or the version, which are no failure. Returns
/// the exit status.
fn report_arguments<H: Print + Eprint>(rt: &H, error: &clap::Error) -> u8
    ensures { IsArgumentsStatus (kind_of error.now) result }
{
    if error.use_stderr() {
        let _ = eprint!(rt; "{error}");
        return 3;
    }
    match error.print(rt) {
        Ok(()) => 0,
        Err(_) => 4,
    }
}

/// Says what went wrong, and returns the exit status.
fn report<H: Print + Eprint>(rt: &H, failure: &Failure) -> u8
    ensures { IsFailureStatus failure.now result }
{
    match failure {
        Failure::Arguments(error) => report_arguments(rt, error),
        Failure::NotText | Failure::UnknownWord | Failure::NearWord(_) | Failure::NoPolicy { .. } =>
            {
                let _ = eprint!(rt; "{failure}");
                3
            }
        Failure::Unopened { .. } => {
            let _ = eprint!(rt; "{failure}");
            4
        }
        Failure::Script(fault) => {
            let _ = eprint!(rt; "{failure}");
            fault_code(*fault)
        }
        Failure::Serve(fault) => {
            if *fault != ServeFault::ReaderGone {
                let _ = eprint!(rt; "{failure}");
            }
            serve_code(*fault)
        }
        Failure::Workbench(fault) => {
            let _ = eprint!(rt; "{failure}");
            workbench_code(fault)
        }
        Failure::Work(fault) => {
            let _ = eprint!(rt; "{failure}");
            work_code(*fault)
        }
    }
}

/// Says what went wrong, if something did, and returns the exit status.
fn conclude<H: Print + Eprint>(rt: &H, done: &Result<Ended, Failure>) -> u8
    ensures { IsStatus done.now result }
{
    match done {
        Ok(ended) => ended_code(*ended),
        Err(failure) => report(rt, failure),
    }
}

/// Does what the arguments ask for, over a reader and a writer, by policies that words name. Says on standard error what
/// went wrong, if something did. Returns the exit status, which docs/REFERENCE.md lists.
pub fn run<
    P: NamedPolicy,
    H: Threads + Wait + Sync + Files + Print + Eprint + CpuClock + Watched,
    R: Read + IsTerminal,
    W: Write,
>(rt: &H, alloc: Global, arguments: io::Result<Args>, reader: &mut R, writer: &mut W) -> u8
    ensures obeyed { IfOk arguments (λ given. EndsAs P.naming P.chosen (texts given) (R.remaining reader.old) (R.remaining reader.new) (W.contents writer.old) (W.contents writer.new) result) }
    ensures unread { IfErr arguments (λ error. EndsUnread (error_kind error) (R.remaining reader.old) (R.remaining reader.new) (W.contents writer.old) (W.contents writer.new) result) }
{
    let done = ghost_command::<P, H, R, W>(rt, alloc, arguments, reader, writer);
    conclude(rt, &done)
}
