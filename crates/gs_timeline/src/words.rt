//! Which thread it is, in words.

ghost use Rattle.std.specs.Prelude.{◌≡◌};

use crate::phrases::write_escaped;
use crate::text::Text;
use gs_layout::{Class, Name};
use std::alloc::{AllocError, Global};

/// Which thread it is, in words, to be told again and again: its tid, its name if it has one, and its class. They take no more
/// memory than they are long.
#[derive(Drop)]
pub(crate) struct Words {
    all: String,
    /// Where its name as it is shown begins and ends among them.
    begin: usize,
    end: usize,
}

/// Adds a thread's tid.
#[inline(always)]
fn write_tid(out: &mut Text, tid: u32) -> Result<(), AllocError>
    ensures { out.new.settled ≡ out.old.settled }
{
    out.push_number("thread ", u64::from(tid))
}

/// Adds a thread's name as it is shown, behind a space, if it has one.
fn write_name(out: &mut Text, name: &Name) -> Result<(), AllocError>
    ensures { out.new.settled ≡ out.old.settled }
{
    if name.as_bytes().is_empty() {
        return Ok(());
    }
    out.push_str(" ")?;
    write_escaped(out, name)
}

/// Adds a thread's class, behind its tid and its name.
#[inline(always)]
fn write_class(out: &mut Text, class: Class) -> Result<(), AllocError>
    ensures { out.new.settled ≡ out.old.settled }
{
    out.push_number(", class ", class.number() as u64)
}

/// Adds which thread it is, in words that are not kept.
#[cold]
#[inline(never)]
pub(crate) fn write_words(
    out: &mut Text,
    tid: u32,
    name: &Name,
    class: Class,
) -> Result<(), AllocError>
    ensures { out.new.settled ≡ out.old.settled }
{
    write_tid(out, tid)?;
    write_name(out, name)?;
    write_class(out, class)
}

impl Words {
    /// Tells of a thread. The words are written into a text first, which is empty or has others.
    ///
    /// # Errors
    ///
    /// `AllocError` if out of memory.
    pub(crate) fn new(
        alloc: Global,
        scratch: &mut Text,
        tid: u32,
        name: &Name,
        class: Class,
    ) -> Result<Words, AllocError> {
        scratch.clear();
        write_tid(scratch, tid)?;
        let begin = scratch.len().saturating_add(1);
        write_name(scratch, name)?;
        let end = scratch.len();
        write_class(scratch, class)?;
        Ok(Words {
            all: String::from_str(alloc, scratch.as_str())?,
            begin,
            end,
        })
    }

    /// Lends all of them.
    pub(crate) fn all(&self) -> &str {
        self.all.as_str()
    }

    /// Lends its name as it is shown.
    pub(crate) fn name(&self) -> &str {
        self.all.as_str().get(self.begin..self.end).unwrap_or("")
    }
}
