//! A script, read line by line: its header, and then its events, one after another.

ghost use Rattle.std.specs.Prelude.{◌≡◌, ◌+◌, ◌<◌, ◌≤◌, ◌∷◌, ◌^◌, [], IfOk, IfErr, MatchOption, Ok, None, length};
ghost use Rattle.gs_replies.specs.Config.{config_fault};
ghost use Rattle.gs_script.specs.Words.{lines_of};
ghost use Rattle.gs_script.specs.Plain.{FirstLine, lines_left};
ghost use Rattle.gs_script.specs.Script.{script_from, script_of};
ghost use Rattle.gs_script.specs.Said.{said};
ghost use Rattle.gs_script.specs.Held.{Faults};
ghost use Rattle.gs_script.specs.Unread.{IsOpened, IsCut, Opens, ReadsNext, ReadsNone, events_unread};

use crate::cursor::first_line;
use crate::fault::{Reason, ScriptFault};
use crate::line::{add_event, at, header_line};
use crate::named_policy::NamedPolicy;
use crate::script::{MOST_BYTES, ScriptError};
use gs_core::{Config, Event};
use std::alloc::Global;
use std::marker::{Model, PhantomData};

/// A line of a script that says something. Its bytes are text.
#[derive(Clone, Copy)]
pub struct SaidLine<'a> {
    /// Its number, counted from 1 over all lines.
    pub number: usize,
    pub bytes: &'a [u8],
}

/// The lines of a script behind its header that were not read yet. Clauses see them, and the number of the first.
#[derive(Drop)]
pub struct Reading<'a, P> {
    number: usize,
    text: Option<&'a [u8]>,
    /// The words of a line that is not plain. Their room is there for the next one.
    words: Vec<&'a str>,
    of: PhantomData<P>,
}

impl<'a, P> Model for Reading<'a, P> {
    ghost use Rattle.std.specs.Prelude.{◌+◌, ◌<◌, ◌^◌, length};
    ghost use Rattle.gs_script.specs.Plain.{lines_left};
    ghost use Rattle.gs_script.specs.Unread.{Unread};

    ghost Value = { Unread };

    ghost view = { λ r. record { number = r.number; lines = lines_left r.text } };

    ghost invariant = { λ r. r.number + length (lines_left r.text) < 2 ^ 62 };
}

/// A script whose header was read.
#[derive(Drop)]
pub struct Opened<'a, P> {
    pub config: Config<P>,
    /// The number of the header's line.
    pub header: usize,
    /// What stands behind the header.
    pub reading: Reading<'a, P>,
}

/// Returns the first line of a text, by what is left behind it.
#[inline(always)]
#[tactic(auto, using(crate::proofs::Unread::whole_text, crate::proofs::Unread::line_taken))]
fn line_before<'a>(text: &'a [u8], left: Option<&[u8]>) -> &'a [u8]
    requires { IsCut text.now left }
    ensures { lines_of text.now ≡ result.now ∷ lines_left left.entry }
{
    match left {
        None => text,
        Some(left) => &text[..text.len() - left.len() - 1],
    }
}

/// Reads on up to the next event, and adds it. Returns the line that says it, or `None` if no event is left. The places
/// have what was not read yet and the number of its first line, also where a line has a fault.
#[inline(always)]
fn add_next<'a, P: NamedPolicy>(
    next: &mut usize,
    text: &mut Option<&'a [u8]>,
    words: &mut Vec<&'a str>,
    events: &mut Vec<Event<P>>,
) -> Result<Option<SaidLine<'a>>, ScriptError>
    requires { next.old + length (lines_left text.old) < 2 ^ 62 }
    ensures read { IfOk result (λ o. MatchOption o (ReadsNone P.naming (record { number = next.old; lines = lines_left text.old }) events.old.items events.new.items) (ReadsNext P.naming (record { number = next.old; lines = lines_left text.old }) (record { number = next.new; lines = lines_left text.new }) events.old.items events.new.items)) }
    ensures few { next.new + length (lines_left text.new) ≤ next.old + length (lines_left text.old) }
    ensures fault { IfErr result (λ e. Faults e (events_unread P.naming (record { number = next.old; lines = lines_left text.old }))) }
{
    let count = events.len();
    'lines: while let Some(line) = *text {
        events.reserve(1)?;
        let number = *next;
        match add_event(line, text, words, events) {
            Ok(()) => {}
            Err(error) => return Err(at(number, error)),
        }
        *next = number + 1;
        if count < events.len() {
            let bytes = line_before(line, *text);
            return Ok(Some(SaidLine { number, bytes }));
        }
    }
    Ok(None)
}

impl<'a, P: NamedPolicy> Reading<'a, P> {
    /// Reads on up to the next event, and adds it to these. Returns the line that says it, or `None` if no event is
    /// left.
    ///
    /// # Errors
    ///
    /// The first fault of the lines that were not read yet, or out of memory.
    ///
    /// # Examples
    ///
    /// Each event is run before the next is read:
    ///
    /// ```
    /// let mut event = Vec::new(alloc);
    /// 'events: while let Some(said) = script.next(&mut event)? {
    ///     run_one(
    ///         alloc,
    ///         machine,
    ///         said.number,
    ///         &event[0],
    ///         &mut lists,
    ///         &mut sink,
    ///     )?;
    ///     event.clear();
    /// }
    /// ```
    #[inline(always)]
    pub fn next(&mut self, events: &mut Vec<Event<P>>) -> Result<Option<SaidLine<'a>>, ScriptError>
        ensures read { IfOk result (λ o. MatchOption o (ReadsNone P.naming self.old events.old.items events.new.items) (ReadsNext P.naming self.old self.new events.old.items events.new.items)) }
        ensures fault { IfErr result (λ e. Faults e (events_unread P.naming self.old)) }
    {
        add_next(&mut self.number, &mut self.text, &mut self.words, events)
    }

    /// Reads all events that were not read yet.
    ///
    /// # Errors
    ///
    /// As of [`Reading::next`].
    pub(crate) fn read_all(self, alloc: Global) -> Result<Vec<Event<P>>, ScriptError>
        ensures read { IfOk result (λ events. events_unread P.naming self.entry ≡ Ok events.items) }
        ensures fault { IfErr result (λ e. Faults e (events_unread P.naming self.entry)) }
    {
        let mut reading = self;
        let mut events = Vec::new(alloc);
        'events: while reading.next(&mut events)?.is_some() {}
        Ok(events)
    }
}

/// Reads the lines of a text up to the header.
fn open_text<P: NamedPolicy>(alloc: Global, text: &[u8]) -> Result<Opened<'_, P>, ScriptError>
    requires { length (lines_of text.now) < 2 ^ 61 }
    ensures opened { IfOk result (λ o. Opens P.naming (script_from P.naming 1 (lines_of text.now)) (said 1 (lines_of text.now)) o.config o.header o.reading) }
    ensures fits { IfOk result (λ o. config_fault o.config ≡ None) }
    ensures fault { IfErr result (λ e. Faults e (script_from P.naming 1 (lines_of text.now))) }
{
    let mut rest = Some(text);
    let mut header = 1;
    'lines: while let Some(text) = rest {
        let (line, left) = first_line(text);
        match header_line(alloc, line) {
            Ok(None) => {}
            Ok(Some(config)) => {
                return Ok(Opened {
                    config,
                    header,
                    reading: Reading {
                        number: header + 1,
                        text: left,
                        words: Vec::new(alloc),
                        of: PhantomData,
                    },
                });
            }
            Err(error) => return Err(at(header, error)),
        }
        header += 1;
        rest = left;
    }
    let fault = ScriptFault {
        line: 0,
        reason: Reason::NoHeader,
    };
    Err(ScriptError::Fault(fault))
}

/// Reads the header of the script that these bytes say. Its configuration is one that an enclave can be opened with,
/// unless out of memory.
///
/// # Errors
///
/// `Fault` if the bytes are too many, if there is no header, or if a line up to it has a fault. Or out of memory.
///
/// # Examples
///
/// ```
/// let Opened {
///     config,
///     header,
///     reading,
/// } = open_script::<P>(alloc, input)?;
/// ```
#[tactic(auto, using(crate::proofs::HeaderLines::few_lines))]
pub fn open_script<P: NamedPolicy>(
    alloc: Global,
    bytes: &[u8],
) -> Result<Opened<'_, P>, ScriptError>
    ensures opened { IfOk result (λ o. IsOpened P.naming bytes.now o.config o.header o.reading) }
    ensures fits { IfOk result (λ o. config_fault o.config ≡ None) }
    ensures fault { IfErr result (λ e. Faults e (script_of P.naming bytes.now)) }
{
    if bytes.len() > MOST_BYTES {
        let fault = ScriptFault {
            line: 0,
            reason: Reason::TooLong,
        };
        return Err(ScriptError::Fault(fault));
    }
    open_text(alloc, bytes)
}
