//! Lines, as a reader gives them.

ghost use Rattle.std.specs.Prelude.{◌≡◌, ◌≤◌, ◌++◌, [], false, IfOk, OnOk, vec_len};
ghost use Rattle.std.specs.Io.KnownBytes.{Consumes, IsAtEnd, prepend_known};
ghost use Rattle.gs_serve.specs.Source.{Comes, GoesOn, kept_of};

use crate::fault::ServeFault;
use crate::prompt::Prompt;
use gs_script::{MOST_BYTES, first_line};
use std::alloc::{AllocError, Global};
use std::io::Read;
use std::marker::Model;

/// So many bytes are kept of a line: as many as a script may have, and one more, which tells that it has too many.
pub(crate) const MOST_KEPT: usize = MOST_BYTES + 1;

/// How many bytes a read asks for at most.
const BUFFER_BYTES: usize = 4096;

/// What came of a reader.
#[derive(Clone, Copy, PartialEq, Eq, Debug)]
pub(crate) enum Came {
    /// A line that a newline ends.
    Line,
    /// The last line, which no newline ends.
    Last,
    /// Nothing: all lines came.
    Nothing,
}

/// What was read and did not come yet. Clauses see these bytes.
#[derive(Drop)]
pub(crate) struct Source {
    buffer: [u8; BUFFER_BYTES],
    start: usize,
    end: usize,
}

impl Model for Source {
    ghost use Rattle.std.specs.Prelude.{List, ℕ, ◌-◌, ◌≤◌, drop, length, take};

    ghost Value = { List ℕ };

    ghost view = { λ s. take (s.end - s.start) (drop s.start s.buffer) };

    ghost invariant = { λ s. record {
      order : s.start ≤ s.end;
      within : s.end ≤ length s.buffer;
    } };
}

/// Keeps more bytes of a line, up to as many as are kept.
#[tactic(auto, using(crate::proofs::Kept::room_kept))]
fn keep(line: &mut Vec<u8>, more: &[u8]) -> Result<(), AllocError>
    requires { vec_len line.old ≤ MOST_KEPT }
    ensures { OnOk result (line.new.items ≡ kept_of (line.old.items ++ more.now)) }
{
    let room = MOST_KEPT - line.len();
    let count = room.min(more.len());
    line.extend_from_slice(&more[..count])
}

impl Source {
    /// Makes a source of which nothing was read.
    pub(crate) fn new() -> Source
        ensures { result ≡ [] }
    {
        Source {
            buffer: [0; BUFFER_BYTES],
            start: 0,
            end: 0,
        }
    }

    /// Asks for more and reads on, if all that was read came. Returns whether anything is there.
    fn fill<P: Prompt, R: Read>(&mut self, prompt: &P, reader: &mut R) -> Result<bool, ServeFault>
        ensures same { OnOk result (Consumes (prepend_known self.old (R.remaining reader.old)) (prepend_known self.new (R.remaining reader.new)) []) }
        ensures end { IfOk result (λ more. more ≡ false → (self.new ≡ []) × IsAtEnd (R.remaining reader.new)) }
    {
        if self.start < self.end {
            return Ok(true);
        }
        prompt.ask();
        let Ok(count) = reader.read(&mut self.buffer) else {
            return Err(ServeFault::ReadFailed);
        };
        self.start = 0;
        self.end = count;
        Ok(count > 0)
    }

    /// Adds to a line what is there of it. Returns whether it ended.
    fn go_on(&mut self, line: &mut Vec<u8>) -> Result<bool, ServeFault>
        requires { vec_len line.old ≤ MOST_KEPT }
        ensures { IfOk result (λ ended. GoesOn line.old.items line.new.items ended self.old self.new) }
    {
        let there = &self.buffer[self.start..self.end];
        let (more, left) = first_line(there);
        if keep(line, more).is_err() {
            return Err(ServeFault::OutOfMemory);
        }
        match left {
            None => {
                self.start = self.end;
                Ok(false)
            }
            Some(_) => {
                self.start += more.len() + 1;
                Ok(true)
            }
        }
    }

    /// Reads the next line, and leaves it in the place of another, or as much of it as is kept.
    pub(crate) fn next<P: Prompt, R: Read>(
        &mut self,
        prompt: &P,
        reader: &mut R,
        line: &mut Vec<u8>,
    ) -> Result<Came, ServeFault>
        ensures { IfOk result (λ came. Comes came (prepend_known self.old (R.remaining reader.old)) (prepend_known self.new (R.remaining reader.new)) line.new.items) }
    {
        line.clear();
        for _turn in 0..usize::MAX {
            if !self.fill(prompt, reader)? {
                if line.is_empty() {
                    return Ok(Came::Nothing);
                }
                return Ok(Came::Last);
            }
            if self.go_on(line)? {
                return Ok(Came::Line);
            }
        }
        Err(ServeFault::ReadFailed)
    }
}
