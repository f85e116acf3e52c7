//! The program `embedder`: opens an enclave, lets events happen in it, and prints the replies and what is so then.
#![tactic(auto)]

use gs_embed::{
    Class, Command, Entry, Event, Facts, FirstCome, Machine, Mask, Name, Reply, Setup, StatusWord,
    ThreadEvent, is_short, reply_text,
};
use std::alloc::AllocError;
use std::process::ExitCode;
use std::{io, slice};

/// A thread is created, which may run at once on CPUs 1 and 2.
fn create(name: Name) -> Event<FirstCome> {
    let facts = Facts {
        mask: Mask::new(0b110),
        runnable: true,
        class: Class::Zero,
        name,
    };
    let command = Command::Create { facts };
    Event::Kernel { command }
}

/// A thread may run on the CPUs of another mask from now on.
fn restrict(tid: u32, mask: Mask) -> Event<FirstCome> {
    let event = ThreadEvent::Affinity { mask };
    let command = Command::Thread { tid, event };
    Event::Kernel { command }
}

/// Thread 2 is restricted after it was decided where it goes, so that decision is stale. There is no transaction 9.
fn events() -> [Event<FirstCome>; 7] {
    let mask = Mask::new(0b110);
    [
        create(Name::new(b"web").unwrap()),
        create(Name::new(b"log").unwrap()),
        Event::Drain { max: u32::MAX },
        Event::Decide,
        restrict(2, Mask::new(0b010)),
        Event::Commit { mask },
        Event::Late { number: 9 },
    ]
}

/// Prints the lines of a reply. If the event was refused, nothing changed, and it is printed why.
fn print_reply(rt: &HostRuntime, reply: &Reply) -> io::Result<()> {
    if is_short(slice::from_ref(reply)) {
        return Err(AllocError.into());
    }
    print!(rt; "{}", reply_text(rt.alloc(), reply)?.as_str())?;
    if let Reply::Refused(refusal) = reply {
        println!(rt; "  {refusal}")?;
    }
    Ok(())
}

/// Prints what a machine shows: what its agent believes, how thread 2 is, and who was ever placed.
fn show(rt: &HostRuntime, machine: &Machine<FirstCome>) -> io::Result<()> {
    let kernel = machine.kernel();
    if let Some(running) = machine.role().and_then(|role| role.believed(1)) {
        println!(rt; "the agent believes thread {} to run on CPU 1", running.tid)?;
    }
    if let Some(status) = kernel.status(2).and_then(StatusWord::unpack) {
        println!(rt; "thread 2: seq {}, CPU {:?}", status.tseq, status.cpu)?;
    }
    for place in 0..kernel.journal().len() {
        if let Entry::Placed { tid, cpu, .. } = kernel.journal().entry(place) {
            println!(rt; "entry {place}: thread {tid} was placed on CPU {cpu}")?;
        }
    }
    Ok(())
}

/// Lets the events happen in a machine, and shows it.
fn run(rt: &HostRuntime, machine: &mut Machine<FirstCome>) -> io::Result<()> {
    for event in &events() {
        print_reply(rt, &machine.step(event))?;
    }
    show(rt, machine)
}

fn main(rt: HostRuntime) -> ExitCode {
    match Setup::new(3).ring(4096).open(rt.alloc(), FirstCome) {
        Ok(mut machine) => ExitCode::from(run(&rt, &mut machine).is_err() as u8),
        Err(fault) => {
            let _ = eprintln!(rt; "{fault}");
            ExitCode::FAILURE
        }
    }
}
