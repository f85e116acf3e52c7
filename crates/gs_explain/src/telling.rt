//! A run of events, each of which is explained as it happens.

ghost use Rattle.std.specs.Prelude.{◌≡◌, ◌≤◌, IfOk, IfErr, OnOk, [], false, length, take, true};
ghost use Rattle.gs_core.specs.Machine.{planned, planning};
ghost use Rattle.gs_journal.specs.Last.{entry_lent};
ghost use Rattle.gs_reasons.specs.Kept.{HasHeard};
ghost use Rattle.gs_script.specs.Held.{Faults};
ghost use Rattle.gs_script.specs.Unread.{events_unread, said_line, said_unread};
ghost use Rattle.gs_script.specs.Words.{is_text};
ghost use Rattle.gs_explain.specs.Marked.{IsMarked};
ghost use Rattle.gs_replies.specs.declared.reply.Reply.TheVariants as replies;
ghost use Rattle.gs_trace.specs.Came.{reply_in};
ghost use Rattle.gs_trace.specs.Noted.{noted_after, noted_first};
ghost use Rattle.gs_trace.specs.NotedLines.{noted_of};
ghost use Rattle.gs_core.specs.Short.{wants_memory};
ghost use Rattle.gs_explain.specs.Quiet.{quiet_reply};
ghost use Rattle.gs_explain.specs.Telling.{ExplainsOne, IsToldAll, Stood, TellsOne};

use crate::hearing::hear_all;
use crate::marking::mark_last;
use crate::moment::Scene;
use crate::quiet::Quiet;
use crate::teller::Teller;
use gs_agent::Drained;
use gs_core::{Event, Machine, Reply};
use gs_journal::LastEntry;
use gs_kernel::{Command, Executed, Landing};
use gs_layout::Refusal;
use gs_policy::{Choice, Counted};
use gs_reasons::{Index, Marks};
use gs_script::{NamedPolicy, Reading, SaidLine, ScriptError};
use gs_slots::Flags;
use gs_status::Mask;
use gs_trace::{Came, Lines};
use std::alloc::{AllocError, Global};

/// Returns a command as an event that names no policy.
#[inline(always)]
fn bare_command(command: &Command) -> Event<()>
    ensures { result ≡ Event.Kernel command.now }
{
    Event::Kernel { command: *command }
}

/// Returns whether a commit stamped nothing and tore nothing down.
#[inline(always)]
#[tactic(auto, using(crate::proofs::Quieting::nothing_landed))]
fn is_nothing(landings: &[Landing], torn: bool) -> bool
    ensures { result ≡ true → replies.Landed landings.now torn ≡ replies.Landed [] false }
{
    landings.is_empty() && !torn
}

/// Notes and marks what came of an event of a line, by the machine that it left and how many transactions there were before it.
#[inline(always)]
fn note_came<P: Counted + Copy>(
    machine: &Machine<P>,
    lines: &mut Lines,
    last: &mut Marks,
    line: usize,
    stamped: usize,
    came: Came<'_>,
) -> Result<(), AllocError>
    requires within { stamped ≤ length machine.now.transactions }
    requires marked { IsMarked last.old.places.items (take stamped machine.now.transactions) }
    ensures lines { OnOk result (noted_of lines.new ≡ noted_after line (reply_in came.entry) (planning P.chosen machine.now) (noted_of lines.old)) }
    ensures marked { OnOk result (IsMarked last.new.places.items machine.now.transactions) }
{
    let transactions = machine.transactions();
    mark_last(last, transactions, stamped)?;
    let entries = machine.kernel().journal().len();
    lines.note_came(line, came, entries, transactions.len())
}

/// Notes and marks that an event of a line was refused, as [`note_came`] does. No last entry has to be unpacked here: that would take too much code
/// for the compiler to put into a loop.
#[inline(always)]
fn note_refusal<P: Counted + Copy>(
    machine: &Machine<P>,
    lines: &mut Lines,
    last: &mut Marks,
    line: usize,
    stamped: usize,
    refusal: Refusal,
) -> Result<(), AllocError>
    requires within { stamped ≤ length machine.now.transactions }
    requires marked { IsMarked last.old.places.items (take stamped machine.now.transactions) }
    ensures lines { OnOk result (noted_of lines.new ≡ noted_after line (replies.Refused refusal) (planning P.chosen machine.now) (noted_of lines.old)) }
    ensures marked { OnOk result (IsMarked last.new.places.items machine.now.transactions) }
{
    let transactions = machine.transactions();
    mark_last(last, transactions, stamped)?;
    let entries = machine.kernel().journal().len();
    let reply = Reply::Refused(refusal);
    lines.note(line, &reply, entries, transactions.len())
}

/// Adds what explains what came of an event that was not refused, by the machine that it left, and by how many entries and transactions
/// there were before it. It fails only if out of memory, or if that tells of it.
#[inline(always)]
fn explain_came<'a, P: Counted + Copy, T: Teller<'a>>(
    machine: &Machine<P>,
    lines: &mut Lines,
    index: &mut Index,
    last: &mut Marks,
    out: &mut T,
    said: &SaidLine<'a>,
    event: &Event<()>,
    first: usize,
    stamped: usize,
    came: Came<'_>,
) -> Result<(), AllocError>
    requires text { is_text said.now.bytes.now ≡ true }
    requires before { Stood first stamped index.old last.old.places.items (planning P.chosen machine.now) }
    ensures { OnOk result (TellsOne T.show (noted_of lines.old) first (said_line said.now) event.now (reply_in came.entry) (planning P.chosen machine.now) (noted_of lines.new) index.new last.new.places.items (T.bytes out.old) (T.bytes out.new)) }
{
    if came.is_short() {
        return Err(AllocError);
    }
    note_came(machine, lines, last, said.number, stamped, came)?;
    let scene = Scene::new(machine, lines, last, event);
    out.row(said, &scene, index, first, came)
}

/// Adds what explains a command that was done, by the last entry, as [`explain_came`] does.
#[inline(always)]
fn explain_done<'a, P: Counted + Copy, T: Teller<'a>>(
    machine: &Machine<P>,
    lines: &mut Lines,
    index: &mut Index,
    last: &mut Marks,
    out: &mut T,
    said: &SaidLine<'a>,
    first: usize,
    stamped: usize,
    entry: LastEntry<'_>,
) -> Result<(), AllocError>
    requires text { is_text said.now.bytes.now ≡ true }
    requires before { Stood first stamped index.old last.old.places.items (planning P.chosen machine.now) }
    ensures { (event : Event (Unit {0})) → OnOk result (TellsOne T.show (noted_of lines.old) first (said_line said.now) event (replies.Done (entry_lent entry.entry)) (planning P.chosen machine.now) (noted_of lines.new) index.new last.new.places.items (T.bytes out.old) (T.bytes out.new)) }
{
    let came = Came::Executed(Ok(Executed::Done), entry);
    note_came(machine, lines, last, said.number, stamped, came)?;
    out.done_row(said, machine.kernel().journal(), index, first, entry)
}

/// Adds what explains an event that added no entry, by what came of it, as [`explain_came`] does.
#[inline(always)]
fn explain_quiet<'a, P: Counted + Copy, T: Teller<'a>>(
    machine: &Machine<P>,
    lines: &mut Lines,
    index: &Index,
    last: &mut Marks,
    out: &mut T,
    said: &SaidLine<'a>,
    first: usize,
    stamped: usize,
    quiet: Quiet,
) -> Result<(), AllocError>
    requires text { is_text said.now.bytes.now ≡ true }
    requires before { Stood first stamped index.now last.old.places.items (planning P.chosen machine.now) }
    requires all { length machine.now.history ≡ first }
    requires enough { wants_memory (quiet_reply quiet) ≡ false }
    ensures { (event : Event (Unit {0})) → OnOk result (TellsOne T.show (noted_of lines.old) first (said_line said.now) event (quiet_reply quiet) (planning P.chosen machine.now) (noted_of lines.new) index.now last.new.places.items (T.bytes out.old) (T.bytes out.new)) }
{
    let _index = index;
    note_came(machine, lines, last, said.number, stamped, quiet.came())?;
    out.quiet_row(said, first, quiet)
}

/// Adds why an event was refused, as [`explain_came`] does.
#[inline(always)]
fn explain_refusal<'a, P: Counted + Copy, T: Teller<'a>>(
    machine: &Machine<P>,
    lines: &mut Lines,
    index: &mut Index,
    last: &mut Marks,
    out: &mut T,
    said: &SaidLine<'a>,
    event: &Event<()>,
    first: usize,
    stamped: usize,
    refusal: Refusal,
) -> Result<(), AllocError>
    requires text { is_text said.now.bytes.now ≡ true }
    requires before { Stood first stamped index.old last.old.places.items (planning P.chosen machine.now) }
    ensures { OnOk result (TellsOne T.show (noted_of lines.old) first (said_line said.now) event.now (replies.Refused refusal) (planning P.chosen machine.now) (noted_of lines.new) index.new last.new.places.items (T.bytes out.old) (T.bytes out.new)) }
{
    let came = Came::Refused(refusal);
    if came.is_short() {
        return Err(AllocError);
    }
    note_refusal(machine, lines, last, said.number, stamped, refusal)?;
    let scene = Scene::new(machine, lines, last, event);
    out.refused_row(said, &scene, index, first, refusal)
}

/// Adds why an event that is no command was refused.
#[inline(never)]
fn explain_other_refusal<'a, P: Counted + Copy, T: Teller<'a>>(
    machine: &Machine<P>,
    lines: &mut Lines,
    index: &mut Index,
    last: &mut Marks,
    out: &mut T,
    said: &SaidLine<'a>,
    event: &Event<()>,
    first: usize,
    stamped: usize,
    refusal: Refusal,
) -> Result<(), AllocError>
    requires text { is_text said.now.bytes.now ≡ true }
    requires before { Stood first stamped index.old last.old.places.items (planning P.chosen machine.now) }
    ensures { OnOk result (TellsOne T.show (noted_of lines.old) first (said_line said.now) event.now (replies.Refused refusal) (planning P.chosen machine.now) (noted_of lines.new) index.new last.new.places.items (T.bytes out.old) (T.bytes out.new)) }
{
    explain_refusal(
        machine, lines, index, last, out, said, event, first, stamped, refusal,
    )
}

/// Adds what explains a command that tore the enclave down, as [`explain_came`] does.
#[cold]
#[inline(never)]
fn explain_torn<'a, P: Counted + Copy, T: Teller<'a>>(
    machine: &Machine<P>,
    lines: &mut Lines,
    index: &mut Index,
    last: &mut Marks,
    out: &mut T,
    said: &SaidLine<'a>,
    command: &Command,
    first: usize,
    stamped: usize,
) -> Result<(), AllocError>
    requires text { is_text said.now.bytes.now ≡ true }
    requires before { Stood first stamped index.old last.old.places.items (planning P.chosen machine.now) }
    ensures { OnOk result (TellsOne T.show (noted_of lines.old) first (said_line said.now) (Event.Kernel command.now) replies.Torn (planning P.chosen machine.now) (noted_of lines.new) index.new last.new.places.items (T.bytes out.old) (T.bytes out.new)) }
{
    let event = bare_command(command);
    let came = Came::Executed(Ok(Executed::Torn), machine.kernel().last());
    explain_came(
        machine, lines, index, last, out, said, &event, first, stamped, came,
    )
}

/// Lets a command be executed, and adds what explains it, as [`explain_one`] does. So do the others below.
#[inline(always)]
fn explain_command<'a, P: Counted + Copy, T: Teller<'a>>(
    machine: &mut Machine<P>,
    lines: &mut Lines,
    index: &mut Index,
    last: &mut Marks,
    out: &mut T,
    said: &SaidLine<'a>,
    command: &Command,
) -> Result<(), AllocError>
    requires text { is_text said.now.bytes.now ≡ true }
    requires heard { HasHeard index.old machine.old.history }
    requires marked { IsMarked last.old.places.items machine.old.transactions }
    ensures { OnOk result (ExplainsOne P.chosen T.show (noted_of lines.old) (planning P.chosen machine.old) (said_line said.now) (Event.Kernel command.now) (planning P.chosen machine.new) (noted_of lines.new) index.new last.new.places.items (T.bytes out.old) (T.bytes out.new)) }
{
    let first = machine.kernel().journal().len();
    let stamped = machine.transactions().len();
    match machine.command(command) {
        Ok(Executed::Done) => {
            let entry = machine.kernel().last();
            explain_done(
                machine, lines, index, last, out, said, first, stamped, entry,
            )
        }
        Ok(Executed::Torn) => explain_torn(
            machine, lines, index, last, out, said, command, first, stamped,
        ),
        Err(refusal) => {
            let event = bare_command(command);
            explain_refusal(
                machine, lines, index, last, out, said, &event, first, stamped, refusal,
            )
        }
    }
}

/// Lets messages be drained.
#[inline(never)]
fn explain_drain<'a, P: Counted + Copy, T: Teller<'a>>(
    machine: &mut Machine<P>,
    lines: &mut Lines,
    index: &mut Index,
    last: &mut Marks,
    out: &mut T,
    said: &SaidLine<'a>,
    max: u32,
) -> Result<(), AllocError>
    requires text { is_text said.now.bytes.now ≡ true }
    requires heard { HasHeard index.old machine.old.history }
    requires marked { IsMarked last.old.places.items machine.old.transactions }
    ensures { OnOk result (ExplainsOne P.chosen T.show (noted_of lines.old) (planning P.chosen machine.old) (said_line said.now) (Event.Drain max) (planning P.chosen machine.new) (noted_of lines.new) index.new last.new.places.items (T.bytes out.old) (T.bytes out.new)) }
{
    let first = machine.kernel().journal().len();
    let stamped = machine.transactions().len();
    let mut drained = Drained::NOTHING;
    match machine.drain(max, &mut drained) {
        Ok(()) => {
            let came = Came::Drained(&drained);
            if came.is_short() {
                return Err(AllocError);
            }
            if machine.kernel().journal().len() == first {
                let quiet = Quiet::Drained(drained);
                return explain_quiet(
                    machine, lines, index, last, out, said, first, stamped, quiet,
                );
            }
            let event = Event::Drain { max };
            explain_came(
                machine, lines, index, last, out, said, &event, first, stamped, came,
            )
        }
        Err(refusal) => {
            let event = Event::Drain { max };
            explain_refusal(
                machine, lines, index, last, out, said, &event, first, stamped, refusal,
            )
        }
    }
}

/// Lets a thread be stamped.
#[inline(never)]
fn explain_stamp<'a, P: Counted + Copy, T: Teller<'a>>(
    machine: &mut Machine<P>,
    lines: &mut Lines,
    index: &mut Index,
    last: &mut Marks,
    out: &mut T,
    said: &SaidLine<'a>,
    cpu: u16,
    tid: u32,
    flags: Flags,
) -> Result<(), AllocError>
    requires text { is_text said.now.bytes.now ≡ true }
    requires heard { HasHeard index.old machine.old.history }
    requires marked { IsMarked last.old.places.items machine.old.transactions }
    ensures { OnOk result (ExplainsOne P.chosen T.show (noted_of lines.old) (planning P.chosen machine.old) (said_line said.now) (Event.Stamp cpu tid flags) (planning P.chosen machine.new) (noted_of lines.new) index.new last.new.places.items (T.bytes out.old) (T.bytes out.new)) }
{
    let first = machine.kernel().journal().len();
    let stamped = machine.transactions().len();
    let event = Event::Stamp { cpu, tid, flags };
    match machine.stamp(cpu, tid, flags) {
        Ok(number) => {
            if machine.kernel().journal().len() == first {
                let quiet = Quiet::Stamped {
                    cpu,
                    tid,
                    flags,
                    number,
                };
                return explain_quiet(
                    machine, lines, index, last, out, said, first, stamped, quiet,
                );
            }
            let came = Came::Stamped {
                cpu,
                tid,
                flags,
                number,
            };
            explain_came(
                machine, lines, index, last, out, said, &event, first, stamped, came,
            )
        }
        Err(refusal) => explain_other_refusal(
            machine, lines, index, last, out, said, &event, first, stamped, refusal,
        ),
    }
}

/// Lets slots be committed. What became of each is put in the place of what a list has.
#[inline(never)]
fn explain_commit<'a, P: Counted + Copy, T: Teller<'a>>(
    machine: &mut Machine<P>,
    lines: &mut Lines,
    index: &mut Index,
    last: &mut Marks,
    out: &mut T,
    said: &SaidLine<'a>,
    mask: Mask,
    landings: &mut Vec<Landing>,
) -> Result<(), AllocError>
    requires text { is_text said.now.bytes.now ≡ true }
    requires heard { HasHeard index.old machine.old.history }
    requires marked { IsMarked last.old.places.items machine.old.transactions }
    ensures { OnOk result (ExplainsOne P.chosen T.show (noted_of lines.old) (planning P.chosen machine.old) (said_line said.now) (Event.Commit mask) (planning P.chosen machine.new) (noted_of lines.new) index.new last.new.places.items (T.bytes out.old) (T.bytes out.new)) }
{
    let first = machine.kernel().journal().len();
    let stamped = machine.transactions().len();
    match machine.commit(mask, landings) {
        Ok(torn) => {
            let landings = landings.as_slice();
            if is_nothing(landings, torn) && machine.kernel().journal().len() == first {
                let quiet = Quiet::Nothing;
                return explain_quiet(
                    machine, lines, index, last, out, said, first, stamped, quiet,
                );
            }
            let event = Event::Commit { mask };
            let came = Came::Landed(landings, torn);
            explain_came(
                machine, lines, index, last, out, said, &event, first, stamped, came,
            )
        }
        Err(refusal) => {
            let event = Event::Commit { mask };
            explain_refusal(
                machine, lines, index, last, out, said, &event, first, stamped, refusal,
            )
        }
    }
}

/// Adds what explains the reply to an event that is no command, as [`explain_came`] does. It is for replies that are seldom.
#[inline(never)]
fn explain_seldom<'a, P: Counted + Copy, T: Teller<'a>>(
    machine: &Machine<P>,
    lines: &mut Lines,
    index: &mut Index,
    last: &mut Marks,
    out: &mut T,
    said: &SaidLine<'a>,
    event: &Event<()>,
    first: usize,
    stamped: usize,
    reply: &Reply,
) -> Result<(), AllocError>
    requires text { is_text said.now.bytes.now ≡ true }
    requires before { Stood first stamped index.old last.old.places.items (planning P.chosen machine.now) }
    ensures { OnOk result (TellsOne T.show (noted_of lines.old) first (said_line said.now) event.now reply.now (planning P.chosen machine.now) (noted_of lines.new) index.new last.new.places.items (T.bytes out.old) (T.bytes out.new)) }
{
    match reply {
        Reply::Refused(refusal) => explain_refusal(
            machine, lines, index, last, out, said, event, first, stamped, *refusal,
        ),
        reply => {
            let came = Came::Replied(reply);
            explain_came(
                machine, lines, index, last, out, said, event, first, stamped, came,
            )
        }
    }
}

/// Lets a transaction land late, by its number.
#[inline(never)]
fn explain_late<'a, P: Counted + Copy, T: Teller<'a>>(
    machine: &mut Machine<P>,
    lines: &mut Lines,
    index: &mut Index,
    last: &mut Marks,
    out: &mut T,
    said: &SaidLine<'a>,
    event: &Event<P>,
    number: u32,
) -> Result<(), AllocError>
    requires text { is_text said.now.bytes.now ≡ true }
    requires heard { HasHeard index.old machine.old.history }
    requires marked { IsMarked last.old.places.items machine.old.transactions }
    requires late { event.now ≡ Event.Late number }
    ensures { OnOk result (ExplainsOne P.chosen T.show (noted_of lines.old) (planning P.chosen machine.old) (said_line said.now) event.now (planning P.chosen machine.new) (noted_of lines.new) index.new last.new.places.items (T.bytes out.old) (T.bytes out.new)) }
{
    let first = machine.kernel().journal().len();
    let stamped = machine.transactions().len();
    let reply = &machine.step(event);
    let event = Event::Late { number };
    match reply {
        Reply::Late { .. } => {
            let came = Came::Replied(reply);
            explain_came(
                machine, lines, index, last, out, said, &event, first, stamped, came,
            )
        }
        reply => explain_seldom(
            machine, lines, index, last, out, said, &event, first, stamped, reply,
        ),
    }
}

/// Lets what the policy plans be stamped. The choices are put in the place of what a list has.
#[inline(never)]
fn explain_decide<'a, P: Counted + Copy, T: Teller<'a>>(
    machine: &mut Machine<P>,
    lines: &mut Lines,
    index: &mut Index,
    last: &mut Marks,
    out: &mut T,
    said: &SaidLine<'a>,
    choices: &mut Vec<Choice>,
) -> Result<(), AllocError>
    requires text { is_text said.now.bytes.now ≡ true }
    requires heard { HasHeard index.old machine.old.history }
    requires marked { IsMarked last.old.places.items machine.old.transactions }
    ensures { OnOk result (ExplainsOne P.chosen T.show (noted_of lines.old) (planning P.chosen machine.old) (said_line said.now) Event.Decide (planning P.chosen machine.new) (noted_of lines.new) index.new last.new.places.items (T.bytes out.old) (T.bytes out.new)) }
{
    let first = machine.kernel().journal().len();
    let stamped = machine.transactions().len();
    let event = Event::Decide;
    match machine.decide(choices) {
        Ok(number) => {
            let came = Came::Decided(number, choices.as_slice());
            explain_came(
                machine, lines, index, last, out, said, &event, first, stamped, came,
            )
        }
        Err(refusal) => explain_other_refusal(
            machine, lines, index, last, out, said, &event, first, stamped, refusal,
        ),
    }
}

/// Lets any event happen.
#[inline(never)]
fn explain_step<'a, P: Counted + Copy, T: Teller<'a>>(
    machine: &mut Machine<P>,
    lines: &mut Lines,
    index: &mut Index,
    last: &mut Marks,
    out: &mut T,
    said: &SaidLine<'a>,
    event: &Event<P>,
) -> Result<(), AllocError>
    requires text { is_text said.now.bytes.now ≡ true }
    requires heard { HasHeard index.old machine.old.history }
    requires marked { IsMarked last.old.places.items machine.old.transactions }
    ensures { OnOk result (ExplainsOne P.chosen T.show (noted_of lines.old) (planning P.chosen machine.old) (said_line said.now) event.now (planning P.chosen machine.new) (noted_of lines.new) index.new last.new.places.items (T.bytes out.old) (T.bytes out.new)) }
{
    let first = machine.kernel().journal().len();
    let stamped = machine.transactions().len();
    let reply = machine.step(event);
    let event = event.with_policy(());
    match &reply {
        Reply::Refused(refusal) => explain_other_refusal(
            machine, lines, index, last, out, said, &event, first, stamped, *refusal,
        ),
        reply => {
            let came = Came::Replied(reply);
            explain_came(
                machine, lines, index, last, out, said, &event, first, stamped, came,
            )
        }
    }
}

/// Lets an event happen, and adds what explains it. It fails only if out of memory, or if what came of it tells of that. One list
/// serves each commit, and one each decision.
#[inline(always)]
fn explain_one<'a, P: Counted + Copy, T: Teller<'a>>(
    machine: &mut Machine<P>,
    lines: &mut Lines,
    index: &mut Index,
    last: &mut Marks,
    out: &mut T,
    said: &SaidLine<'a>,
    event: &Event<P>,
    landings: &mut Vec<Landing>,
    choices: &mut Vec<Choice>,
) -> Result<(), AllocError>
    requires text { is_text said.now.bytes.now ≡ true }
    requires heard { HasHeard index.old machine.old.history }
    requires marked { IsMarked last.old.places.items machine.old.transactions }
    ensures { OnOk result (ExplainsOne P.chosen T.show (noted_of lines.old) (planning P.chosen machine.old) (said_line said.now) event.now (planning P.chosen machine.new) (noted_of lines.new) index.new last.new.places.items (T.bytes out.old) (T.bytes out.new)) }
{
    match event {
        Event::Kernel { command } => {
            explain_command(machine, lines, index, last, out, said, command)
        }
        Event::Drain { max } => explain_drain(machine, lines, index, last, out, said, *max),
        Event::Stamp { cpu, tid, flags } => {
            explain_stamp(machine, lines, index, last, out, said, *cpu, *tid, *flags)
        }
        Event::Commit { mask } => {
            explain_commit(machine, lines, index, last, out, said, *mask, landings)
        }
        Event::Late { number } => {
            explain_late(machine, lines, index, last, out, said, event, *number)
        }
        Event::Decide => explain_decide(machine, lines, index, last, out, said, choices),
        _ => explain_step(machine, lines, index, last, out, said, event),
    }
}

/// Lets the events of a script happen as they are read, each before the next is read, and has what explains them told.
/// The header's line is given. It fails with the first fault of their lines, or out of memory, also if a reply tells of that.
pub(crate) fn explain_all<'a, P: NamedPolicy, T: Teller<'a>>(
    alloc: Global,
    machine: &mut Machine<P>,
    header: usize,
    script: Reading<'a, P>,
    teller: T,
) -> Result<T, ScriptError>
    requires { T.bytes teller ≡ [] }
    ensures told { IfOk result (λ told. IsToldAll P.chosen T.show (noted_first header) (planning P.chosen machine.old) (events_unread P.naming script.entry) (said_unread script.entry) (planning P.chosen machine.new) (T.bytes told)) }
    ensures fault { IfErr result (λ e. Faults e (events_unread P.naming script.entry)) }
{
    let mut lines = Lines::new(alloc, header)?;
    let mut index = Index::new(alloc);
    let mut last = Marks::new(alloc);
    let mut out = teller;
    hear_all(&mut index, machine.kernel().journal(), 0)?;
    mark_last(&mut last, machine.transactions(), 0)?;
    let mut script = script;
    let mut event = Vec::new(alloc);
    let mut landings = Vec::new(alloc);
    let mut choices = Vec::new(alloc);
    'events: while let Some(said) = script.next(&mut event)? {
        explain_one(
            machine,
            &mut lines,
            &mut index,
            &mut last,
            &mut out,
            &said,
            &event[0],
            &mut landings,
            &mut choices,
        )?;
        event.clear();
    }
    Ok(out)
}
