//! A thread: a word, its tid and a sequence number of it.

ghost use Rattle.std.specs.Prelude.{◌≡◌, ◌++◌, OnOk, codes, decimal};
ghost use Rattle.gs_lines.specs.Lines.{line};

use gs_text::Sheet as Text;
use std::alloc::AllocError;

/// Adds a word, a thread's tid and a sequence number of the thread.
///
/// # Errors
///
/// `AllocError` if out of memory.
#[inline(always)]
pub fn push_thread(out: &mut Text, word: &str, tid: u32, tseq: u32) -> Result<(), AllocError>
    ensures { OnOk result (out.new ≡ out.old ++ word.now ++ codes " " ++ decimal tid ++ codes " seq " ++ decimal tseq) }
{
    out.push_word_two(word, " ", tid as u64, " seq ", tseq as u64, "")
}

/// Adds a line of such a word and these numbers.
#[inline(always)]
pub(crate) fn push_thread_line(
    out: &mut Text,
    word: &str,
    tid: u32,
    tseq: u32,
) -> Result<(), AllocError>
    ensures { OnOk result (out.new ≡ out.old ++ line (word.now ++ codes " " ++ decimal tid ++ codes " seq " ++ decimal tseq)) }
{
    out.push_word_two(word, " ", tid as u64, " seq ", tseq as u64, "\n")
}
