ghost use Rattle.std.specs.Prelude.{◌≡◌, IfOk, OnErr};
ghost use Rattle.std.specs.Option.{option_map};
ghost use denote.Ref.{Bor};
ghost use Rattle.gs_core.specs.Machine.{StateOf};
ghost use Rattle.gs_session.specs.Session.{Hears, HearsHeader, read_within, unheard};
ghost use Rattle.gs_script.specs.Header.{header_of};

use crate::heard::Heard;
use crate::hearing::{hear_event, hear_header};
use gs_core::{Event, Machine};
use gs_policy::Counted;
use gs_script::NamedPolicy;
use std::alloc::{AllocError, Global};
use std::marker::Model;

/// A script that is run line by line, as its lines come. The first line that says anything opens the enclave, and each
/// one behind it is an event. Clauses see how many lines were heard, and the machine, if one was opened.
///
/// A line with a fault changes nothing but the count of lines, so that the next line may follow. What the lines without
/// a fault come to is what they come to as a script: see [`crate::heard_is_run`].
#[derive(Drop)]
pub struct Session<P: Counted> {
    alloc: Global,
    lines: usize,
    machine: Option<Machine<P>>,
    /// The event of a line. Its room is there for the next one.
    events: Vec<Event<P>>,
}

impl<P: Counted> Model for Session<P> {
    ghost use Rattle.gs_session.specs.Session.{Session as Held};

    ghost Value = { Held P };

    ghost view = { λ s. record { count = s.lines; opened = s.machine } };
}

impl<P: NamedPolicy> Session<P> {
    /// Makes a session that heard no line. It does not allocate.
    pub fn new(alloc: Global) -> Session<P>
        ensures { result ≡ unheard }
    {
        Session {
            alloc,
            lines: 0,
            machine: None,
            events: Vec::new(alloc),
        }
    }

    /// Hears a line, without its newline. Returns what it said.
    ///
    /// Until a header is heard, the line is read as one that stands in the header's place. A line of more bytes than a
    /// script may have, [`gs_script::MOST_BYTES`], has the fault `TooLong`.
    ///
    /// # Errors
    ///
    /// `AllocError` if out of memory, also if the reply to an event tells of that. Then the line isn't counted, but its
    /// event may have happened. After 2^64 - 1 lines no more is heard, with this error too.
    ///
    /// # Examples
    ///
    /// A line is answered in words:
    ///
    /// ```
    /// let heard = session.hear(line)?;
    /// heard_text(alloc, &heard)
    /// ```
    pub fn hear(&mut self, line: &[u8]) -> Result<Heard, AllocError>
        ensures heard { IfOk result (λ h. Hears P.naming P.chosen self.old line.now h self.new) }
        ensures uncounted { OnErr result (self.new.count ≡ self.old.count) }
    {
        let Some(number) = self.lines.checked_add(1) else {
            return Err(AllocError);
        };
        let heard = match &mut self.machine {
            Some(machine) => hear_event(self.alloc, number, line, machine, &mut self.events)?,
            None => self.hear_first(number, line)?,
        };
        self.lines = number;
        Ok(heard)
    }

    /// Hears the line of a number before the header, and keeps the machine that it opens. A machine is large, and in the
    /// function of each later line the room for one would be cleared.
    #[inline(never)]
    fn hear_first(&mut self, number: usize, line: &[u8]) -> Result<Heard, AllocError>
        ensures heard { IfOk result (λ h. HearsHeader number (read_within (header_of P.naming) line.now) h self.new.opened) }
        ensures count { self.new.count ≡ self.old.count }
    {
        let (heard, machine) = hear_header(self.alloc, number, line)?;
        self.machine = machine;
        Ok(heard)
    }

    /// Lends the machine, if a header was heard.
    pub fn machine(&self) -> Option<&Machine<P>>
        ensures { option_map (λ (m : Bor (StateOf P)). m.now) result ≡ self.now.opened }
    {
        self.machine.as_ref()
    }
}
