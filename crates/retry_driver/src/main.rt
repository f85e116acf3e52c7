//! The program `retry_driver`: steps the events of the script of standard input one by one, and compares what the machine shows.
//!
//! usage: retry_driver [replace K]
//!
//! - Without words each event is tried. If it is refused as out of memory, or a drain stops for that, the machine is to show
//!   what it did before, and the event is stepped again. The lines of the replies are written.
//! - With `replace K` the first K events are stepped, the agent is replaced by one on CPU 0, and all messages are drained. The
//!   agent is to know the threads that live. The lines of the replies from the replacing on, of `view` and of `state` are written.
//!
//! If something differs, a last line says after which event and in what. Standard error has the line `try` before each event
//! that is tried, and after it `tried`, or `refused` if it was out of memory. So an allocator that fails on purpose can hear
//! when it may: it is not to fail where the machine is looked at.
//!
//! The exit status is 0 if all is well. It is 2 if the script has a fault, 3 if the words are others, and 4 if a read or a write
//! fails. If out of memory where nothing is tried, it is 5. If something differs, it is 7.
#![tactic(auto)]

mod failure;
mod looks;
mod mind;
mod replacing;
mod told;
mod trying;

use crate::failure::Failure;
use crate::replacing::replace_after;
use crate::trying::try_all;
use gs_core::Machine;
use gs_lines::Text;
use gs_policy::AnyPolicy;
use gs_script::{Script, ScriptError, read_script};
use std::io::{Read, Write};
use std::process::ExitCode;

/// What the words ask for.
#[derive(Clone, Copy)]
enum Asked {
    /// Each event is tried.
    Try,
    /// The agent is replaced after so many events.
    Replace { after: usize },
}

impl Asked {
    /// Returns what words ask for, `None` if that is nothing that there is.
    fn told(words: &[String]) -> Option<Asked> {
        match words {
            [] => Some(Asked::Try),
            [word, after] if word.as_str() == "replace" => Some(Asked::Replace {
                after: after.parse::<usize>().ok()?,
            }),
            _ => None,
        }
    }
}

/// Reads a script.
fn read(rt: &HostRuntime) -> Result<Script<AnyPolicy>, Failure> {
    let mut input = Vec::new(rt.alloc());
    if rt.stdin().read_to_end(&mut input).is_err() {
        return Err(Failure::Streams);
    }
    match read_script(rt.alloc(), &input) {
        Ok(script) => Ok(script),
        Err(ScriptError::Fault(_)) => Err(Failure::BadScript),
        Err(ScriptError::OutOfMemory) => Err(Failure::OutOfMemory),
    }
}

/// Does with a machine what is asked for, and adds the lines of the replies.
fn follow(
    rt: &HostRuntime,
    machine: &mut Machine<AnyPolicy>,
    script: &Script<AnyPolicy>,
    asked: Asked,
    lines: &mut Text,
) -> Result<(), Failure> {
    match asked {
        Asked::Try => try_all(rt.alloc(), machine, &script.events, &mut rt.stderr(), lines),
        Asked::Replace { after } => {
            let events = script.events.get(..after).ok_or(Failure::BadWords)?;
            replace_after(rt.alloc(), machine, events, lines)
        }
    }
}

/// Opens a machine for a script, does with it what is asked for, and adds the lines of the replies.
fn run(
    rt: &HostRuntime,
    script: &Script<AnyPolicy>,
    asked: Asked,
    lines: &mut Text,
) -> Result<(), Failure> {
    // The numbers of a script are in their ranges.
    let Ok(mut machine) = Machine::new(rt.alloc(), script.config) else {
        return Err(Failure::OutOfMemory);
    };
    follow(rt, &mut machine, script, asked, lines)
}

/// Writes the lines of the replies, and what differs, if something does.
fn report(rt: &HostRuntime, lines: Text, ran: Result<(), Failure>) -> Result<(), Failure> {
    let mut lines = lines;
    if let Err(failure) = ran {
        failure.write(&mut lines)?;
    }
    match rt.stdout().write_all(lines.as_bytes()) {
        Ok(()) => ran,
        Err(_) => Err(Failure::Streams),
    }
}

/// Returns the words behind the program's name.
fn words(rt: &HostRuntime) -> Result<Vec<String>, Failure> {
    match std::env::args(rt) {
        Ok(arguments) => Ok(arguments.skip(1).collect(rt.alloc())?),
        Err(_) => Err(Failure::Streams),
    }
}

/// Does what the words ask for.
fn answer(rt: &HostRuntime) -> Result<(), Failure> {
    let asked = Asked::told(&words(rt)?).ok_or(Failure::BadWords)?;
    let script = read(rt)?;
    let mut lines = Text::new(rt.alloc());
    let ran = run(rt, &script, asked, &mut lines);
    report(rt, lines, ran)
}

fn main(rt: HostRuntime) -> ExitCode {
    match answer(&rt) {
        Ok(()) => ExitCode::from(0),
        Err(failure) => ExitCode::from(failure.status()),
    }
}
