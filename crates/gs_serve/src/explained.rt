//! Answers that say why, too.

ghost use Rattle.std.specs.Prelude.{◌≡◌, [], Some, IfOk, OnOk, option_copied};
ghost use Rattle.gs_script.specs.Held.{and_one};
ghost use Rattle.gs_session.specs.Session.{unheard};
ghost use Rattle.gs_serve.specs.Answered.{Shows, event_said, explained as explains, none_noted, noted_by};
ghost use Rattle.gs_serve.specs.Following.{Follows, IsOpened, IsReady, KnowsOpened, KnowsOpenedFirst, line_shown_after, noted_at, noted_in, noted_then, step_shown_after};

use crate::answers::Answers;
use crate::plain::heard_text;
use gs_core::{Event, Machine, Reply};
use gs_explain::Explainer;
use gs_lines::Text;
use gs_policy::Counted;
use gs_script::{LineError, MOST_BYTES, NamedPolicy, read_event};
use gs_session::{Heard, Session};
use std::alloc::{AllocError, Global};

/// Answers by the lines of the reply with its reasons, or of the fault.
#[derive(Drop)]
pub(crate) struct Explained<P> {
    /// How many lines were heard.
    lines: usize,
    /// What is kept beside the machine, once the header was heard.
    explainer: Option<Explainer>,
    /// The event of a line. Its room is there for the next one.
    events: Vec<Event<P>>,
}

/// Reads the event that a line says, if it has no fault and says one.
fn read_said<P: NamedPolicy>(
    alloc: Global,
    line: &[u8],
    events: &mut Vec<Event<P>>,
) -> Result<(), AllocError>
    ensures { OnOk result (events.new.items ≡ and_one [] (event_said P.naming line.now)) }
{
    events.clear();
    if line.len() > MOST_BYTES {
        return Ok(());
    }
    match read_event(alloc, line, events) {
        Ok(()) => Ok(()),
        Err(LineError::Fault(_)) => {
            events.clear();
            Ok(())
        }
        Err(LineError::OutOfMemory) => Err(AllocError),
    }
}

/// Returns what explains an event of the line of a number, which has just happened on the machine.
fn explain_known<P: Counted + Copy>(
    alloc: Global,
    explainer: &mut Explainer,
    machine: Option<&Machine<P>>,
    number: usize,
    event: Option<&Event<P>>,
    reply: &Reply,
) -> Result<Text, AllocError>
    requires { KnowsOpenedFirst P.chosen (Some explainer.old) (option_copied machine) }
    ensures shown { IfOk result (λ text. text ≡ step_shown_after P.chosen explainer.old.noted number (option_copied event.entry) reply.now (option_copied machine.entry)) }
    ensures noted { OnOk result (explainer.new.noted ≡ noted_by P.chosen number reply.now (option_copied machine.entry) explainer.old.noted) }
    ensures knows { OnOk result (KnowsOpened P.chosen (Some explainer.new) (option_copied machine.entry)) }
{
    match (machine, event) {
        (Some(machine), Some(event)) => explainer.explain(alloc, machine, number, event, reply),
        // (an event that happened has a machine, and a line that says it)
        _ => Err(AllocError),
    }
}

/// Returns what explains the event that the line of a number says. It has just happened on the machine.
fn explain_step<P: NamedPolicy>(
    alloc: Global,
    explainer: &mut Option<Explainer>,
    events: &mut Vec<Event<P>>,
    machine: Option<&Machine<P>>,
    number: usize,
    line: &[u8],
    reply: &Reply,
) -> Result<Text, AllocError>
    requires { KnowsOpenedFirst P.chosen explainer.old (option_copied machine) }
    ensures shown { IfOk result (λ text. text ≡ step_shown_after P.chosen (noted_in explainer.old) number (event_said P.naming line.now) reply.now (option_copied machine.entry)) }
    ensures noted { OnOk result (noted_in explainer.new ≡ noted_by P.chosen number reply.now (option_copied machine.entry) (noted_in explainer.old)) }
    ensures knows { OnOk result (KnowsOpened P.chosen explainer.new (option_copied machine.entry)) }
{
    read_said(alloc, line, events)?;
    match explainer {
        Some(explainer) => explain_known(alloc, explainer, machine, number, events.first(), reply),
        // (an event that happened has a machine, of which the header was explained)
        None => Err(AllocError),
    }
}

/// Keeps what is needed beside a machine that the header's line has just opened. Nothing is said of that.
fn begin<P: Counted + Copy>(
    alloc: Global,
    explainer: &mut Option<Explainer>,
    machine: Option<&Machine<P>>,
    number: usize,
) -> Result<Text, AllocError>
    requires { IsOpened (option_copied machine) }
    ensures shown { IfOk result (λ text. text ≡ []) }
    ensures noted { OnOk result (noted_in explainer.new ≡ noted_at number (option_copied machine.entry)) }
    ensures knows { OnOk result (KnowsOpened P.chosen explainer.new (option_copied machine.entry)) }
{
    *explainer = match machine {
        Some(machine) => Some(Explainer::new(alloc, number, machine)?),
        None => None,
    };
    Ok(Text::new(alloc))
}

/// Returns the lines that say what came of the line of a number, with the reasons.
fn explain_heard<P: NamedPolicy>(
    alloc: Global,
    explainer: &mut Option<Explainer>,
    events: &mut Vec<Event<P>>,
    machine: Option<&Machine<P>>,
    number: usize,
    line: &[u8],
    heard: &Heard,
) -> Result<Text, AllocError>
    requires { IsReady P.chosen explainer.old heard.now (option_copied machine) }
    ensures shown { IfOk result (λ text. text ≡ line_shown_after P.chosen (noted_in explainer.old) number (event_said P.naming line.now) heard.now (option_copied machine.entry)) }
    ensures noted { OnOk result (noted_in explainer.new ≡ noted_then P.chosen (noted_in explainer.old) number heard.now (option_copied machine.entry)) }
    ensures knows { OnOk result (KnowsOpened P.chosen explainer.new (option_copied machine.entry)) }
{
    match heard {
        Heard::Stepped(reply) => {
            explain_step(alloc, explainer, events, machine, number, line, reply)
        }
        Heard::Opened => begin(alloc, explainer, machine, number),
        Heard::Nothing | Heard::Fault(_) => heard_text(alloc, heard),
    }
}

/// Lets a session hear a line, and returns the lines that say what came of it, with the reasons. The lines are counted.
fn hear_line<P: NamedPolicy>(
    alloc: Global,
    lines: &mut usize,
    explainer: &mut Option<Explainer>,
    events: &mut Vec<Event<P>>,
    session: &mut Session<P>,
    line: &[u8],
) -> Result<Text, AllocError>
    requires { Follows P.chosen lines.old explainer.old session.old }
    ensures shown { IfOk result (λ text. Shows (explains P.naming P.chosen) (noted_in explainer.old) session.old line.now (noted_in explainer.new) session.new text) }
    ensures follows { OnOk result (Follows P.chosen lines.new explainer.new session.new) }
{
    let Some(number) = lines.checked_add(1) else {
        return Err(AllocError);
    };
    let heard = session.hear(line)?;
    *lines = number;
    let machine = session.machine();
    explain_heard(alloc, explainer, events, machine, number, line, &heard)
}

impl<P: NamedPolicy> Explained<P> {
    /// Makes one that heard no line. It does not allocate.
    pub(crate) fn new(alloc: Global) -> Explained<P>
        ensures noted { noted_in result.explainer ≡ none_noted }
        ensures follows { Follows P.chosen result.lines result.explainer unheard }
    {
        Explained {
            lines: 0,
            explainer: None,
            events: Vec::new(alloc),
        }
    }
}

impl<P: NamedPolicy> Answers<P> for Explained<P> {
    ghost way = { explains P.naming P.chosen };

    ghost noted = { λ x. noted_in x.explainer };

    ghost follows = { λ x s. Follows P.chosen x.lines x.explainer s };

    fn hear(
        &mut self,
        alloc: Global,
        session: &mut Session<P>,
        line: &[u8],
    ) -> Result<Text, AllocError> {
        hear_line(
            alloc,
            &mut self.lines,
            &mut self.explainer,
            &mut self.events,
            session,
            line,
        )
    }
}
