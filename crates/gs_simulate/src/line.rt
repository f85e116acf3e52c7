//! The lines of a script, as text.

ghost use Rattle.std.specs.Prelude.{◌≡◌, ◌≤◌, ◌++◌, OnOk, codes, length};
ghost use Rattle.gs_simulate.specs.Lines.{class_words, command_line, create_line, event_line, flags_word, happening_line, header_line, line_text, stamp_line};

use gs_core::Event;
use gs_kernel::{Command, ThreadEvent};
use gs_layout::{Class, Facts};
use gs_lines::{Text, name_str};
use gs_script::NamedPolicy;
use gs_slots::Flags;
use std::alloc::{AllocError, Global};

/// A line of a script that is written.
#[derive(Clone, Copy, PartialEq, Eq, Debug)]
pub(crate) enum Line<P> {
    /// The header: an enclave of so many CPUs, with a ring of so many bytes, whose first agent has this policy.
    Header { cpus: u16, ring: u32, policy: P },
    /// A comment, which says that a tick begins.
    Tick { now: u32 },
    /// A comment, which says of how many CPUs the timers do not tick, since the ring has no room for that and nobody drains it.
    Missed { cpus: u16 },
    Event { event: Event<P> },
}

/// Adds the words of a policy, as a script's header has them.
fn write_policy<P: NamedPolicy>(
    alloc: Global,
    text: &mut Text,
    policy: &P,
) -> Result<(), AllocError>
    ensures { OnOk result (text.new ≡ text.old ++ P.naming.words policy.now) }
{
    let words = policy.words(alloc)?;
    text.push_str(words.as_str())
}

/// Adds the line of a header.
fn write_header<P: NamedPolicy>(
    alloc: Global,
    text: &mut Text,
    cpus: u16,
    ring: u32,
    policy: &P,
) -> Result<(), AllocError>
    ensures { OnOk result (text.new ≡ text.old ++ header_line P.naming cpus ring policy.now) }
{
    text.push_number("cpus ", u64::from(cpus))?;
    text.push_number(" ring ", u64::from(ring))?;
    text.push_str(" policy ")?;
    write_policy(alloc, text, policy)
}

/// The words between a mask and a name: a class, and that the thread may run.
fn class_words(facts: &Facts) -> &'static str
    ensures words { result.now ≡ class_words facts.now }
    ensures short { length result.now ≤ 5 }
{
    match (facts.class, facts.runnable) {
        (Class::Zero, true) => " 0 r ",
        (Class::Zero, false) => " 0 b ",
        (Class::One, true) => " 1 r ",
        (Class::One, false) => " 1 b ",
    }
}

/// Adds the line of a creation, by the thread's facts.
fn write_create(text: &mut Text, facts: &Facts) -> Result<(), AllocError>
    ensures { OnOk result (text.new ≡ text.old ++ create_line facts.now) }
{
    text.push_mask("create ", facts.mask.bits(), class_words(facts))?;
    text.push_str(name_str(&facts.name))
}

/// Adds the line of what happens to a thread.
fn write_happening(text: &mut Text, tid: u32, event: &ThreadEvent) -> Result<(), AllocError>
    ensures { OnOk result (text.new ≡ text.old ++ happening_line tid event.now) }
{
    let tid = u64::from(tid);
    match event {
        ThreadEvent::Block => text.push_number("block ", tid),
        ThreadEvent::Wake => text.push_number("wake ", tid),
        ThreadEvent::Yield => text.push_number("yield ", tid),
        ThreadEvent::Die => text.push_number("die ", tid),
        ThreadEvent::Affinity { mask } => {
            text.push_number("affinity ", tid)?;
            text.push_mask(" ", mask.bits(), "")
        }
    }
}

/// Adds the line of a command.
fn write_command(text: &mut Text, command: &Command) -> Result<(), AllocError>
    ensures { OnOk result (text.new ≡ text.old ++ command_line command.now) }
{
    match command {
        Command::Create { facts } => write_create(text, facts),
        Command::Thread { tid, event } => write_happening(text, *tid, event),
        Command::Take { cpu } => text.push_number("take ", u64::from(*cpu)),
        Command::Give { cpu } => text.push_number("give ", u64::from(*cpu)),
        Command::Tick { cpu } => text.push_number("tick ", u64::from(*cpu)),
        Command::HandOff { cpu } => text.push_number("handoff ", u64::from(*cpu)),
        Command::Leave => text.push_str("leave"),
        Command::Begin => text.push_str("begin"),
        Command::Activate { cpu } => text.push_number("activate ", u64::from(*cpu)),
    }
}

/// The word behind a stamp, with a space before it.
fn flags_word(flags: Flags) -> &'static str
    ensures { result.now ≡ flags_word flags }
{
    match (flags.preempt, flags.group) {
        (false, false) => "",
        (true, false) => " p",
        (false, true) => " g",
        (true, true) => " pg",
    }
}

/// Adds the line of a stamp.
fn write_stamp(text: &mut Text, cpu: u16, tid: u32, flags: Flags) -> Result<(), AllocError>
    ensures { OnOk result (text.new ≡ text.old ++ stamp_line cpu tid flags) }
{
    text.push_number("stamp ", u64::from(cpu))?;
    text.push_number(" ", u64::from(tid))?;
    text.push_str(flags_word(flags))
}

/// Adds the line of a new agent with a policy.
fn write_begin<P: NamedPolicy>(alloc: Global, text: &mut Text, policy: &P) -> Result<(), AllocError>
    ensures { OnOk result (text.new ≡ text.old ++ codes "begin " ++ P.naming.words policy.now) }
{
    text.push_str("begin ")?;
    write_policy(alloc, text, policy)
}

/// Adds the line that says an event.
fn write_event<P: NamedPolicy>(
    alloc: Global,
    text: &mut Text,
    event: &Event<P>,
) -> Result<(), AllocError>
    ensures { OnOk result (text.new ≡ text.old ++ event_line P.naming event.now) }
{
    match event {
        Event::Kernel { command } => write_command(text, command),
        Event::Crash => text.push_str("crash"),
        Event::Begin { policy } => write_begin(alloc, text, policy),
        Event::Page { max } => text.push_number("page ", u64::from(*max)),
        Event::Drain { max } => text.push_number("drain ", u64::from(*max)),
        Event::Stamp { cpu, tid, flags } => write_stamp(text, *cpu, *tid, *flags),
        Event::Decide => text.push_str("decide"),
        Event::Commit { mask } => text.push_mask("commit ", mask.bits(), ""),
        Event::Late { number } => text.push_number("late ", u64::from(*number)),
        Event::View => text.push_str("view"),
        Event::State => text.push_str("state"),
        Event::Unread => text.push_str("unread"),
    }
}

/// Adds a line, without its newline.
pub(crate) fn write_line<P: NamedPolicy>(
    alloc: Global,
    text: &mut Text,
    line: &Line<P>,
) -> Result<(), AllocError>
    ensures { OnOk result (text.new ≡ text.old ++ line_text P.naming line.now) }
{
    match line {
        Line::Header { cpus, ring, policy } => write_header(alloc, text, *cpus, *ring, policy),
        Line::Tick { now } => text.push_number("# tick ", u64::from(*now)),
        Line::Missed { cpus } => text.push_number(
            "# the ring is full, and so many timers do not tick: ",
            u64::from(*cpus),
        ),
        Line::Event { event } => write_event(alloc, text, event),
    }
}
