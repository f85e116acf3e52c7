//! A run whose replies are added to a sink one by one, none of which is kept.

ghost use Rattle.std.specs.Prelude.{◌≡◌, List, [], ◌∷◌, ◌++◌, IfOk, IfErr, OnOk, Ok, false};
ghost use Rattle.gs_core.specs.Machine.{planned, planning};
ghost use Rattle.gs_core.specs.Short.{wants_memory};
ghost use Rattle.gs_replies.specs.declared.reply.Reply as replies;
ghost use Rattle.gs_replies.specs.declared.reply.Reply.TheVariants.{Refused};
ghost use Rattle.gs_lines.specs.Lines.{lines};
ghost use Rattle.gs_report.specs.Report.{ReportsOn};
ghost use Rattle.gs_script.specs.Held.{Faults};
ghost use Rattle.gs_script.specs.Unread.{events_unread};
ghost use Rattle.gs_trace.specs.Adding.{AddedUpTo, AddsOne};
ghost use Rattle.gs_trace.specs.Came.{reply_in};

use crate::came::Came;
use gs_agent::Drained;
use gs_core::{Event, Items, Machine, Reply};
use gs_kernel::{Command, Kernel, Landing};
use gs_layout::Refusal;
use gs_lines::{
    Text, write_committed, write_decided, write_drained, write_executed, write_refused,
    write_reply, write_stamped,
};
use gs_policy::{Choice, Counted};
use gs_report::Report;
use gs_ring::ByteRing;
use gs_script::{NamedPolicy, Reading, ScriptError};
use gs_slots::Flags;
use gs_status::Mask;
use std::alloc::{AllocError, Global};

/// When an event happens: the line that says it, and how many entries the journal had before it.
#[derive(Clone, Copy)]
pub(crate) struct When {
    pub(crate) line: usize,
    pub(crate) entries: usize,
}

/// What is kept from one event to the next, so that no event asks for its memory anew.
#[derive(Drop)]
struct Lists {
    /// What became of each slot of a commit.
    landings: Vec<Landing>,
    /// What was planned.
    choices: Vec<Choice>,
}

/// What the replies of a run are added to, one after another.
pub(crate) trait Sink: Drop {
    /// These replies were added to it, and no others.
    ghost has: { Self → List replies.Reply → Type 0 };

    /// Puts one more reply: what came of an event, which left a kernel so. It fails only if out of memory.
    fn put(
        &mut self,
        alloc: Global,
        when: When,
        came: Came<'_>,
        kernel: &Kernel<ByteRing>,
    ) -> Result<(), AllocError>
        ensures { OnOk result ((rs : List replies.Reply) → has self.old rs → has self.new (rs ++ reply_in came.entry ∷ [])) };
}

/// The lines of the replies.
impl Sink for Text {
    ghost has = { λ text rs. text ≡ lines rs };

    #[inline(always)]
    #[tactic(auto, using(crate::proofs::Adding::text_more))]
    fn put(
        &mut self,
        _alloc: Global,
        _when: When,
        came: Came<'_>,
        _kernel: &Kernel<ByteRing>,
    ) -> Result<(), AllocError> {
        match came {
            Came::Executed(came, last) => write_executed(self, came, last),
            Came::Refused(refusal) => write_refused(self, refusal),
            Came::Drained(drained) => write_drained(self, drained),
            Came::Stamped { number, .. } => write_stamped(self, number),
            Came::Landed(landings, torn) => write_committed(self, landings, torn),
            Came::Decided(first, choices) => write_decided(self, first, choices),
            Came::Replied(reply) => write_reply(self, reply),
        }
    }
}

impl Sink for Report {
    ghost has = { ReportsOn };

    fn put(
        &mut self,
        alloc: Global,
        _when: When,
        came: Came<'_>,
        _kernel: &Kernel<ByteRing>,
    ) -> Result<(), AllocError> {
        match came {
            Came::Executed(Ok(executed), last) => Report::add(
                self,
                &Reply::executed(executed, last),
            ),
            Came::Executed(Err(refusal), _) | Came::Refused(refusal) => {
                self.add(&Reply::Refused(refusal))
            }
            Came::Drained(drained) => self.add(&Reply::Drained(*drained)),
            Came::Stamped { number, .. } => self.add(&Reply::Stamped { number }),
            Came::Landed(landings, torn) => {
                let landings = Items::new(landings.to_vec(alloc)?);
                self.add(&Reply::Landed { landings, torn })
            }
            Came::Decided(first, choices) => {
                let choices = Items::new(choices.to_vec(alloc)?);
                self.add(&Reply::Decided { first, choices })
            }
            Came::Replied(reply) => self.add(reply),
        }
    }
}

/// What keeps nothing of the replies.
#[derive(Drop)]
pub(crate) struct Nothing;

impl Sink for Nothing {
    ghost has = { λ _ _. Unit {0} };

    fn put(
        &mut self,
        _alloc: Global,
        _when: When,
        _came: Came<'_>,
        _kernel: &Kernel<ByteRing>,
    ) -> Result<(), AllocError> {
        Ok(())
    }
}

/// Adds what came of an event to a sink. It fails only if out of memory, or if that tells of it.
#[inline(always)]
fn add_to<S: Sink>(
    alloc: Global,
    sink: &mut S,
    when: When,
    came: Came<'_>,
    kernel: &Kernel<ByteRing>,
) -> Result<(), AllocError>
    ensures sufficed { OnOk result (wants_memory (reply_in came.entry) ≡ false) }
    ensures grows { OnOk result ((rs : List replies.Reply) → S.has sink.old rs → S.has sink.new (rs ++ reply_in came.entry ∷ [])) }
{
    if came.is_short() {
        return Err(AllocError);
    }
    sink.put(alloc, when, came, kernel)
}

/// Adds a refusal to a sink, as [`add_to`] does.
#[inline(never)]
fn add_refusal<S: Sink>(
    alloc: Global,
    sink: &mut S,
    when: When,
    refusal: Refusal,
    kernel: &Kernel<ByteRing>,
) -> Result<(), AllocError>
    ensures sufficed { OnOk result (wants_memory (Refused refusal) ≡ false) }
    ensures grows { OnOk result ((rs : List replies.Reply) → S.has sink.old rs → S.has sink.new (rs ++ Refused refusal ∷ [])) }
{
    add_to(alloc, sink, when, Came::Refused(refusal), kernel)
}

/// Executes a command, and adds its reply to a sink. It fails only if out of memory, or if the reply tells of that. So do
/// the others below.
#[inline(always)]
fn execute_one<P: Counted + Copy, S: Sink>(
    alloc: Global,
    machine: &mut Machine<P>,
    when: When,
    command: &Command,
    sink: &mut S,
) -> Result<(), AllocError>
    ensures { OnOk result (AddsOne S.has (planning P.chosen machine.old) (Event.Kernel command.now) (planning P.chosen machine.new) sink.old sink.new) }
{
    match machine.command(command) {
        Ok(executed) => {
            let kernel = machine.kernel();
            let came = Came::Executed(Ok(executed), kernel.last());
            add_to(alloc, sink, when, came, kernel)
        }
        Err(refusal) => add_refusal(alloc, sink, when, refusal, machine.kernel()),
    }
}

/// Drains messages.
#[inline(never)]
fn drain_one<P: Counted + Copy, S: Sink>(
    alloc: Global,
    machine: &mut Machine<P>,
    when: When,
    max: u32,
    sink: &mut S,
) -> Result<(), AllocError>
    ensures { OnOk result (AddsOne S.has (planning P.chosen machine.old) (Event.Drain max) (planning P.chosen machine.new) sink.old sink.new) }
{
    let mut drained = Drained::NOTHING;
    match machine.drain(max, &mut drained) {
        Ok(()) => add_to(alloc, sink, when, Came::Drained(&drained), machine.kernel()),
        Err(refusal) => add_refusal(alloc, sink, when, refusal, machine.kernel()),
    }
}

/// Stamps a thread.
#[inline(always)]
fn stamp_one<P: Counted + Copy, S: Sink>(
    alloc: Global,
    machine: &mut Machine<P>,
    when: When,
    cpu: u16,
    tid: u32,
    flags: Flags,
    sink: &mut S,
) -> Result<(), AllocError>
    ensures { OnOk result (AddsOne S.has (planning P.chosen machine.old) (Event.Stamp cpu tid flags) (planning P.chosen machine.new) sink.old sink.new) }
{
    match machine.stamp(cpu, tid, flags) {
        Ok(number) => {
            let came = Came::Stamped {
                cpu,
                tid,
                flags,
                number,
            };
            add_to(alloc, sink, when, came, machine.kernel())
        }
        Err(refusal) => add_refusal(alloc, sink, when, refusal, machine.kernel()),
    }
}

/// Commits slots. What became of each is put in the place of what a list has.
#[inline(never)]
fn commit_one<P: Counted + Copy, S: Sink>(
    alloc: Global,
    machine: &mut Machine<P>,
    when: When,
    mask: Mask,
    landings: &mut Vec<Landing>,
    sink: &mut S,
) -> Result<(), AllocError>
    ensures { OnOk result (AddsOne S.has (planning P.chosen machine.old) (Event.Commit mask) (planning P.chosen machine.new) sink.old sink.new) }
{
    match machine.commit(mask, landings) {
        Ok(torn) => {
            let came = Came::Landed(landings.as_slice(), torn);
            add_to(alloc, sink, when, came, machine.kernel())
        }
        Err(refusal) => add_refusal(alloc, sink, when, refusal, machine.kernel()),
    }
}

/// Stamps what the policy plans. The choices are put in the place of what a list has.
#[inline(never)]
fn decide_one<P: Counted + Copy, S: Sink>(
    alloc: Global,
    machine: &mut Machine<P>,
    when: When,
    choices: &mut Vec<Choice>,
    sink: &mut S,
) -> Result<(), AllocError>
    ensures { OnOk result (AddsOne S.has (planning P.chosen machine.old) Event.Decide (planning P.chosen machine.new) sink.old sink.new) }
{
    match machine.decide(choices) {
        Ok(first) => {
            let came = Came::Decided(first, choices.as_slice());
            add_to(alloc, sink, when, came, machine.kernel())
        }
        Err(refusal) => add_refusal(alloc, sink, when, refusal, machine.kernel()),
    }
}

/// Steps any event.
#[inline(always)]
fn step_one<P: Counted + Copy, S: Sink>(
    alloc: Global,
    machine: &mut Machine<P>,
    when: When,
    event: &Event<P>,
    sink: &mut S,
) -> Result<(), AllocError>
    ensures { OnOk result (AddsOne S.has (planning P.chosen machine.old) (planned P.chosen event.now) (planning P.chosen machine.new) sink.old sink.new) }
{
    let reply = machine.step(event);
    add_to(alloc, sink, when, Came::Replied(&reply), machine.kernel())
}

/// Runs an event of a line, and adds its reply to a sink. It fails only if out of memory, or if the reply tells of that. An event that
/// is frequent has a call of its own, in which no reply is made. Lists serve each commit and each decision.
#[inline(always)]
fn run_one<P: Counted + Copy, S: Sink>(
    alloc: Global,
    machine: &mut Machine<P>,
    line: usize,
    event: &Event<P>,
    lists: &mut Lists,
    sink: &mut S,
) -> Result<(), AllocError>
    ensures { OnOk result (AddsOne S.has (planning P.chosen machine.old) (planned P.chosen event.now) (planning P.chosen machine.new) sink.old sink.new) }
{
    let when = When {
        line,
        entries: machine.kernel().journal().len(),
    };
    match event {
        Event::Kernel { command } => execute_one(alloc, machine, when, command, sink),
        Event::Drain { max } => drain_one(alloc, machine, when, *max, sink),
        Event::Stamp { cpu, tid, flags } => {
            stamp_one(alloc, machine, when, *cpu, *tid, *flags, sink)
        }
        Event::Decide => decide_one(alloc, machine, when, &mut lists.choices, sink),
        Event::Commit { mask } => {
            commit_one(alloc, machine, when, *mask, &mut lists.landings, sink)
        }
        _ => step_one(alloc, machine, when, event, sink),
    }
}

/// Runs the events of a script as they are read, each before the next is read, and adds each reply to a sink. It
/// fails with the first fault of their lines, or out of memory, also if a reply tells of that.
pub(crate) fn run_into<P: NamedPolicy, S: Sink>(
    alloc: Global,
    machine: &mut Machine<P>,
    script: Reading<'_, P>,
    sink: S,
) -> Result<S, ScriptError>
    requires { S.has sink [] }
    ensures added { IfOk result (λ full. AddedUpTo P.chosen S.has (planning P.chosen machine.old) (events_unread P.naming script.entry) (Ok []) (planning P.chosen machine.new) full) }
    ensures fault { IfErr result (λ e. Faults e (events_unread P.naming script.entry)) }
{
    let mut script = script;
    let mut sink = sink;
    let mut lists = Lists {
        landings: Vec::new(alloc),
        choices: Vec::new(alloc),
    };
    let mut event = Vec::new(alloc);
    'events: while let Some(said) = script.next(&mut event)? {
        run_one(
            alloc,
            machine,
            said.number,
            &event[0],
            &mut lists,
            &mut sink,
        )?;
        event.clear();
    }
    Ok(sink)
}
