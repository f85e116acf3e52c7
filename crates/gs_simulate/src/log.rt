//! The script that is written, and the session that heard it.

ghost use Rattle.std.specs.Prelude.{◌≡◌, ◌++◌, [], true, IfOk, OnOk, length};
ghost use Rattle.std.specs.Option.{option_map};
ghost use denote.Ref.{Bor};
ghost use Rattle.gs_core.specs.Machine.{StateOf};
ghost use Rattle.gs_session.specs.Session.{Hears, unheard};
ghost use Rattle.gs_simulate.specs.Heard.{AddsLine, IsHeardWith, IsWithoutFault, fault_of, head_of, landings_heard};
ghost use Rattle.gs_simulate.specs.Lines.{line_text};

use crate::fault::SimulateFault;
use crate::line::{Line, write_line};
use gs_core::Machine;
use gs_kernel::Landing;
use gs_lines::Text;
use gs_report::landings_of;
use gs_script::{NamedPolicy, ScriptFault};
use gs_session::{Heard, Session};
use std::alloc::{AllocError, Global};
use std::marker::Model;

/// The text of a script, and the session that heard its lines. While it is whole, the session heard just these lines, none
/// of them with a fault, and the landings are those that its replies told of.
#[derive(Drop)]
pub(crate) struct Log<P: NamedPolicy> {
    alloc: Global,
    session: Session<P>,
    text: Text,
    landings: Vec<Landing>,
    /// Whether the session heard all of the text. It did not if memory ran out at a line: no more is added then.
    whole: bool,
    /// How many bytes of the text are its head, which stays as it is.
    headed: usize,
}

impl<P: NamedPolicy> Model for Log<P> {
    ghost use Rattle.gs_simulate.specs.Heard.{Written, IsHeardIf};

    ghost Value = { Written P };

    ghost view = { λ l. record { text = l.text; session = l.session; landings = l.landings.items; whole = l.whole; headed = l.headed } };

    ghost invariant = { λ l. IsHeardIf P.naming P.chosen l.whole l.text l.session l.landings.items l.headed };
}

/// Returns the fault that was heard, if one was.
fn fault_in(heard: &Heard) -> Option<ScriptFault>
    ensures { result ≡ fault_of heard.now }
{
    match heard {
        Heard::Fault(fault) => Some(*fault),
        Heard::Nothing | Heard::Opened | Heard::Stepped(_) => None,
    }
}

/// Lets a session hear a line, which may not have a fault.
fn hear_line<P: NamedPolicy>(session: &mut Session<P>, line: &[u8]) -> Result<Heard, SimulateFault>
    ensures hears { IfOk result (λ h. Hears P.naming P.chosen session.old line.now h session.new) }
    ensures faultless { IfOk result IsWithoutFault }
{
    let heard = session.hear(line)?;
    match fault_in(&heard) {
        Some(fault) => Err(SimulateFault::Unreadable(fault)),
        None => Ok(heard),
    }
}

/// Adds the landings that what was heard of a line tells of.
fn add_landings(all: &mut Vec<Landing>, heard: &Heard) -> Result<(), AllocError>
    ensures { OnOk result (all.new.items ≡ all.old.items ++ landings_heard heard.now) }
{
    match heard {
        Heard::Stepped(reply) => all.extend_from_slice(landings_of(reply)),
        Heard::Nothing | Heard::Opened | Heard::Fault(_) => Ok(()),
    }
}

impl<P: NamedPolicy> Log<P> {
    /// Makes an empty script, of which a session heard nothing yet.
    #[tactic(auto, using(crate::proofs::Heard::none_heard))]
    pub(crate) fn new(alloc: Global) -> Log<P>
        ensures { result ≡ record { text = []; session = unheard; landings = []; whole = true; headed = 0 } }
    {
        Log {
            alloc,
            session: Session::new(alloc),
            text: Text::new(alloc),
            landings: Vec::new(alloc),
            whole: true,
            headed: 0,
        }
    }

    /// Adds a line, which the session hears. Returns what it said.
    ///
    /// # Errors
    ///
    /// If out of memory, or if the line has a fault. No line can be added behind one that failed.
    pub(crate) fn add(&mut self, line: &Line<P>) -> Result<Heard, SimulateFault>
        ensures added { IfOk result (λ h. AddsLine P.naming P.chosen self.old (line_text P.naming line.now) h self.new) }
        ensures kept { OnOk result (head_of self.new ≡ head_of self.old) }
    {
        if !self.whole {
            return Err(SimulateFault::OutOfMemory);
        }
        self.whole = false;
        let start = self.text.as_bytes().len();
        write_line(self.alloc, &mut self.text, line)?;
        let end = self.text.as_bytes().len();
        self.text.end_line()?;
        let heard = hear_line(&mut self.session, &self.text.as_bytes()[start..end])?;
        add_landings(&mut self.landings, &heard)?;
        self.whole = true;
        Ok(heard)
    }

    /// Makes all of the text its head.
    pub(crate) fn settle(&mut self)
        ensures { self.new ≡ record self.old { headed = length self.old.text } }
    {
        self.headed = self.text.as_bytes().len();
    }

    /// Returns whether the session heard all of the text.
    pub(crate) fn is_whole(&self) -> bool
        ensures whole { result ≡ self.now.whole }
        ensures heard { result ≡ true → IsHeardWith P.naming P.chosen self.now.text self.now.session self.now.landings }
    {
        self.whole
    }

    /// Lends the session.
    pub(crate) fn session(&self) -> &Session<P>
        ensures { result.now ≡ self.now.session }
    {
        &self.session
    }

    /// Lends the machine, once the header was heard.
    pub(crate) fn machine(&self) -> Option<&Machine<P>>
        ensures { option_map (λ (m : Bor (StateOf P)). m.now) result ≡ self.now.session.opened }
    {
        self.session.machine()
    }

    /// Lends the text.
    pub(crate) fn text(&self) -> &[u8]
        ensures { result.now ≡ self.now.text }
    {
        self.text.as_bytes()
    }

    /// Lends the landings, in order.
    pub(crate) fn landings(&self) -> &[Landing]
        ensures { result.now ≡ self.now.landings }
    {
        &self.landings
    }
}
