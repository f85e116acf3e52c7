//! When commands are the same, field by field.

ghost use Rattle.std.specs.Prelude.{◌≡◌, ◌↔◌, IsTrue};

use crate::command::Command;
use crate::same::same_facts;
use gs_kernel::{Command as Told, ThreadEvent};

/// Returns whether the same happens to a thread.
fn same_event(one: &ThreadEvent, other: &ThreadEvent) -> bool
    ensures { IsTrue result ↔ (one.now ≡ other.now) }
{
    match (one, other) {
        (ThreadEvent::Affinity { mask }, ThreadEvent::Affinity { mask: m }) => {
            mask.bits() == m.bits()
        }
        (ThreadEvent::Block, ThreadEvent::Block) => true,
        (ThreadEvent::Wake, ThreadEvent::Wake) => true,
        (ThreadEvent::Yield, ThreadEvent::Yield) => true,
        (ThreadEvent::Die, ThreadEvent::Die) => true,
        _ => false,
    }
}

/// Returns whether the kernel is told the same.
pub(crate) fn same_told(one: &Told, other: &Told) -> bool
    ensures { IsTrue result ↔ (one.now ≡ other.now) }
{
    match (one, other) {
        (Told::Create { facts }, Told::Create { facts: f }) => same_facts(facts, f),
        (Told::Thread { tid, event }, Told::Thread { tid: t, event: e }) => {
            tid == t && same_event(event, e)
        }
        (Told::Take { cpu }, Told::Take { cpu: c }) => cpu == c,
        (Told::Give { cpu }, Told::Give { cpu: c }) => cpu == c,
        (Told::Tick { cpu }, Told::Tick { cpu: c }) => cpu == c,
        (Told::HandOff { cpu }, Told::HandOff { cpu: c }) => cpu == c,
        (Told::Leave, Told::Leave) => true,
        (Told::Begin, Told::Begin) => true,
        (Told::Activate { cpu }, Told::Activate { cpu: c }) => cpu == c,
        _ => false,
    }
}

/// Returns whether these are the same commands.
pub(crate) fn same_command(one: &Command, other: &Command) -> bool
    ensures { IsTrue result ↔ (one.now ≡ other.now) }
{
    match (one, other) {
        (Command::Kernel { command }, Command::Kernel { command: c }) => same_told(command, c),
        (Command::Crash, Command::Crash) => true,
        (Command::Page { from, max }, Command::Page { from: f, max: m }) => from == f && max == m,
        (Command::Land { bytes }, Command::Land { bytes: b }) => bytes == b,
        _ => false,
    }
}
