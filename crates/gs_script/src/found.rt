//! The fault of a script, with the word at which it stands.

ghost use Rattle.std.specs.Prelude.{◌≡◌, ◌^◌, ◌<◌, ◌≤◌, IfOk, MatchOption, IsOk, length};
ghost use Rattle.gs_script.specs.Script.{script_of};
ghost use Rattle.gs_script.specs.Words.{is_text};
ghost use Rattle.gs_script.specs.Rows.{shown};
ghost use Rattle.gs_script.specs.Found.{Finds, MarksFault, MarksLine, is_header, line_at, spot_at, spot_of};

use crate::cursor::first_line;
use crate::fault::ScriptFault;
use crate::marked::{Marked, bad_byte, word_at};
use crate::named_policy::NamedPolicy;
use crate::said_line::is_silent;
use crate::script::{ScriptError, read_script};
use crate::spot::{Spot, event_spot, header_spot};
use crate::wanted::Wanted;
use crate::word::{split, text};
use std::alloc::{AllocError, Global};

/// The fault of a script, and where it stands.
#[derive(Drop)]
pub struct Found<'a> {
    pub fault: ScriptFault,
    /// The line that has it, in which the word is marked at which it stands. If words are missing, nothing behind the
    /// last one is marked. Of a bad byte it is the byte. All is empty if the script itself has the fault, at line 0.
    pub mark: Marked<'a>,
    /// What the marked word may be. There is none if no word may stand there, or if the count of words alone is wrong.
    pub wanted: Vec<Wanted>,
}

/// What is marked of a line.
#[derive(Drop)]
struct Look<'a> {
    mark: Marked<'a>,
    wanted: Vec<Wanted>,
}

/// Returns the line of a number, counted from 1, and whether all lines before it are passed over.
fn line_of(bytes: &[u8], number: usize) -> (&[u8], bool)
    requires { 1 ≤ number }
    ensures line { result.0.now ≡ line_at number bytes.now }
    ensures header { result.1 ≡ is_header number bytes.now }
{
    let (mut line, mut left) = first_line(bytes);
    let mut silent = true;
    let mut seen = 1;
    while seen < number {
        silent = silent && is_silent(line);
        match left {
            None => return (&[], silent),
            Some(text) => (line, left) = first_line(text),
        }
        seen += 1;
    }
    (line, silent)
}

/// Returns where the fault of a line's words stands.
fn words_spot<P: NamedPolicy>(
    alloc: Global,
    words: &[&str],
    header: bool,
) -> Result<Spot, AllocError>
    requires { length words.now < 2 ^ 63 }
    ensures { IfOk result (λ spot. spot_of spot ≡ spot_at P.naming header (shown words.now)) }
{
    if header {
        header_spot::<P>(alloc, words)
    } else {
        event_spot::<P>(alloc, words)
    }
}

/// Looks at a line with a fault.
fn look_within<P: NamedPolicy>(
    alloc: Global,
    line: &[u8],
    header: bool,
) -> Result<Look<'_>, AllocError>
    ensures { IfOk result (λ look. MarksFault P.naming (is_text line.now) header line.now look.mark look.wanted.items) }
{
    let Some(text) = text(line) else {
        return Ok(Look {
            mark: bad_byte(line),
            wanted: Vec::new(alloc),
        });
    };
    let mut words = Vec::new(alloc);
    split(text, &mut words)?;
    let Spot { place, wanted } = words_spot::<P>(alloc, &words, header)?;
    Ok(Look {
        mark: word_at(line, place),
        wanted,
    })
}

/// Looks at the line of a fault, or at none if it is the script's.
fn look_at<P: NamedPolicy>(
    alloc: Global,
    bytes: &[u8],
    number: usize,
) -> Result<Look<'_>, AllocError>
    ensures { IfOk result (λ look. MarksLine P.naming number bytes.now look.mark look.wanted.items) }
{
    if number == 0 {
        return Ok(Look {
            mark: Marked {
                front: &[],
                word: &[],
                behind: &[],
            },
            wanted: Vec::new(alloc),
        });
    }
    let (line, header) = line_of(bytes, number);
    look_within::<P>(alloc, line, header)
}

/// Returns the fault of the script that these bytes say, and where it stands, or `None` if they are a script. It fails
/// only if out of memory.
///
/// It reads the script, and then looks at the line of its fault once more.
pub fn find_fault<P: NamedPolicy>(
    alloc: Global,
    bytes: &[u8],
) -> Result<Option<Found<'_>>, AllocError>
    ensures { IfOk result (λ found. MatchOption found (IsOk (script_of P.naming bytes.now)) (Finds P.naming bytes.now)) }
{
    let fault = match read_script::<P>(alloc, bytes) {
        Ok(_) => return Ok(None),
        Err(ScriptError::OutOfMemory) => return Err(AllocError),
        Err(ScriptError::Fault(fault)) => fault,
    };
    let Look { mark, wanted } = look_at::<P>(alloc, bytes, fault.line)?;
    Ok(Some(Found {
        fault,
        mark,
        wanted,
    }))
}
