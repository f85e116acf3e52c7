//! What an event speaks of.

ghost use Rattle.std.specs.Prelude.{◌≡◌};
ghost use Rattle.gs_sentences.specs.Subject.{cpu_of, cpu_of_command, mask_of, mask_of_command, tid_of};

use gs_core::Event;
use gs_kernel::{Command, ThreadEvent};
use gs_status::Mask;

/// Returns the thread that an event names, 0 if it names none.
#[inline(always)]
pub fn tid_of(event: &Event<()>) -> u32
    ensures { result ≡ tid_of event.now }
{
    match event {
        Event::Kernel {
            command: Command::Thread { tid, .. },
        } => *tid,
        Event::Stamp { tid, .. } => *tid,
        _ => 0,
    }
}

/// Returns the CPU that a command names, 0 if it names none.
fn cpu_of_command(command: &Command) -> u16
    ensures { result ≡ cpu_of_command command.now }
{
    match command {
        Command::Take { cpu }
        | Command::Give { cpu }
        | Command::Tick { cpu }
        | Command::HandOff { cpu }
        | Command::Activate { cpu } => *cpu,
        _ => 0,
    }
}

/// Returns the CPU that an event names, 0 if it names none.
#[inline(always)]
pub fn cpu_of(event: &Event<()>) -> u16
    ensures { result ≡ cpu_of event.now }
{
    match event {
        Event::Kernel { command } => cpu_of_command(command),
        Event::Stamp { cpu, .. } => *cpu,
        _ => 0,
    }
}

/// Returns the mask that a command names, the empty one if it names none.
fn mask_of_command(command: &Command) -> Mask
    ensures { result ≡ mask_of_command command.now }
{
    match command {
        Command::Create { facts } => facts.mask,
        Command::Thread {
            event: ThreadEvent::Affinity { mask },
            ..
        } => *mask,
        _ => Mask::none(),
    }
}

/// Returns the mask that an event names, the empty one if it names none.
#[inline(always)]
pub fn mask_of(event: &Event<()>) -> Mask
    ensures { result ≡ mask_of event.now }
{
    match event {
        Event::Kernel { command } => mask_of_command(command),
        Event::Commit { mask } => *mask,
        _ => Mask::none(),
    }
}
