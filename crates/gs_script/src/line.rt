//! What a line of a script says.

ghost use Rattle.std.specs.Prelude.{◌≡◌, ◌<◌, IfOk, IfErr, IfSome, OnOk, None, Some, Ok, if◌then◌else◌, vec_capacity, vec_len};
ghost use Rattle.std.specs.Result.{result_map_both};
ghost use Rattle.gs_replies.specs.Config.{config_fault};
ghost use Rattle.gs_script.specs.Rows.{event_of, shown};
ghost use Rattle.gs_script.specs.Header.{header_of};
ghost use Rattle.gs_script.specs.Script.{says, is_passed_over};
ghost use Rattle.gs_script.specs.Held.{Adds, AddsSaid, Fails, Gives, IsUnsaid, placed};

use crate::cursor::first_line;
use crate::event_line::event;
use crate::fault::{Reason, ScriptFault};
use crate::header::header;
use crate::named_policy::NamedPolicy;
use crate::plain_line::pass_plain;
use crate::script::ScriptError;
use crate::word::{split, text};
use gs_core::{Config, Event};
use std::alloc::Global;

/// Why a line wasn't read.
#[derive(Clone, Copy, PartialEq, Eq, Debug)]
pub enum LineError {
    /// It has a fault.
    Fault(Reason),
    /// Out of memory.
    OutOfMemory,
}

/// Returns a line's error as the script's.
pub(crate) fn at(line: usize, error: LineError) -> ScriptError
    ensures { result ≡ placed line error }
{
    match error {
        LineError::Fault(reason) => ScriptError::Fault(ScriptFault { line, reason }),
        LineError::OutOfMemory => ScriptError::OutOfMemory,
    }
}

/// Returns whether a line of these words says nothing.
fn is_comment(words: &[&str]) -> bool
    ensures { result ≡ is_passed_over (shown words.now) }
{
    match words.first() {
        None => true,
        Some(first) => first.as_bytes().first() == Some(&b'#'),
    }
}

/// Returns whether a line says anything, by its words, which it leaves in the place of those that are there.
fn words_said<'a>(line: &'a [u8], words: &mut Vec<&'a str>) -> Result<bool, LineError>
    ensures { Gives (result_map_both (λ said. if said then Some (shown words.new.items) else None) (λ e. e) result) (says Ok line.now) }
{
    let Some(text) = text(line) else {
        return Err(LineError::Fault(Reason::BadByte));
    };
    if split(text, words).is_err() {
        return Err(LineError::OutOfMemory);
    }
    Ok(!is_comment(words))
}

/// Returns what an event line says, or `None` if it says nothing. Its words are left in the place of those that are
/// there.
#[tactic(auto, using(crate::proofs::Said::value_said, crate::proofs::Said::reason_said, crate::proofs::Said::nothing_said, crate::proofs::Said::error_said))]
#[inline(never)]
pub(crate) fn event_line<'a, P: NamedPolicy>(
    line: &'a [u8],
    words: &mut Vec<&'a str>,
) -> Result<Option<Event<P>>, LineError>
    ensures { Gives result (says (event_of P.naming) line.now) }
{
    if !words_said(line, words)? {
        return Ok(None);
    }
    match event(words) {
        Ok(event) => Ok(Some(event)),
        Err(reason) => Err(LineError::Fault(reason)),
    }
}

/// Returns what a line in the header's place says, or `None` if it says nothing.
#[tactic(auto, using(crate::proofs::Said::value_said, crate::proofs::Said::reason_said, crate::proofs::Said::nothing_said, crate::proofs::Said::error_said))]
pub(crate) fn header_line<P: NamedPolicy>(
    alloc: Global,
    line: &[u8],
) -> Result<Option<Config<P>>, LineError>
    ensures exact { Gives result (says (header_of P.naming) line.now) }
    ensures fits { IfOk result (λ o. IfSome o (λ config. config_fault config ≡ None)) }
{
    let mut words = Vec::new(alloc);
    if !words_said(line, &mut words)? {
        return Ok(None);
    }
    match header(&words) {
        Ok(config) => Ok(Some(config)),
        Err(reason) => Err(LineError::Fault(reason)),
    }
}

/// Adds the event that the first line of a text says by its words, if it says one. Then it puts what is left behind the
/// line into a place.
#[inline(never)]
fn add_by_words<'a, P: NamedPolicy>(
    text: &'a [u8],
    left: &mut Option<&'a [u8]>,
    words: &mut Vec<&'a str>,
    events: &mut Vec<Event<P>>,
) -> Result<(), LineError>
    ensures ok { OnOk result (Adds P.naming text.now left.new events.old.items events.new.items) }
    ensures err { IfErr result (λ e. Fails P.naming text.now e) }
    ensures kept { IfErr result (λ e. left.new ≡ left.old) }
{
    let (line, behind) = first_line(text);
    if let Some(event) = event_line(line, words)? {
        if events.push(event).is_err() {
            return Err(LineError::OutOfMemory);
        }
    }
    *left = behind;
    Ok(())
}

/// Adds the event that the first line of a text says, if it says one, and puts what is left behind the line into a
/// place. A plain line is read in one pass, and any other by its words.
#[inline(always)]
pub(crate) fn add_event<'a, P: NamedPolicy>(
    text: &'a [u8],
    left: &mut Option<&'a [u8]>,
    words: &mut Vec<&'a str>,
    events: &mut Vec<Event<P>>,
) -> Result<(), LineError>
    requires { vec_len events.old < vec_capacity events.old }
    ensures ok { OnOk result (Adds P.naming text.now left.new events.old.items events.new.items) }
    ensures err { IfErr result (λ e. Fails P.naming text.now e) }
    ensures kept { IfErr result (λ e. left.new ≡ left.old) }
{
    if pass_plain(text, left, events) {
        return Ok(());
    }
    add_by_words(text, left, words, events)
}

/// Returns what a line in the header's place says, or `None` if it says nothing. Its configuration is one that an
/// enclave can be opened with, unless out of memory.
///
/// # Errors
///
/// `Fault` if the line has one, and `OutOfMemory` if out of memory.
pub fn read_header<P: NamedPolicy>(
    alloc: Global,
    line: &[u8],
) -> Result<Option<Config<P>>, LineError>
    ensures exact { Gives result (says (header_of P.naming) line.now) }
    ensures fits { IfOk result (λ o. IfSome o (λ config. config_fault config ≡ None)) }
{
    header_line(alloc, line)
}

/// Adds the event that a line says to these, if it says one. A plain line is read in one pass.
///
/// # Errors
///
/// `Fault` if the line has one, and `OutOfMemory` if out of memory.
pub fn read_event<P: NamedPolicy>(
    alloc: Global,
    line: &[u8],
    events: &mut Vec<Event<P>>,
) -> Result<(), LineError>
    ensures ok { OnOk result (AddsSaid P.naming line.now events.old.items events.new.items) }
    ensures err { IfErr result (λ e. IsUnsaid P.naming e line.now) }
{
    let (_, left) = first_line(line);
    if left.is_some() {
        return Err(LineError::Fault(Reason::BadByte));
    }
    if events.reserve(1).is_err() {
        return Err(LineError::OutOfMemory);
    }
    let mut words = Vec::new(alloc);
    let mut left = None;
    add_event(line, &mut left, &mut words, events)
}
