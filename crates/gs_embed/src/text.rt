ghost use Rattle.std.specs.Prelude.{◌≡◌, IfOk};
ghost use Rattle.gs_lines.specs.Lines.{reply_lines};

use gs_core::Reply;
use gs_lines::{Text, write_reply};
use std::alloc::{AllocError, Global};

/// Returns the lines of a reply, each ended by a newline, as `ghost run` writes them. [`write_reply`] adds them to a text that is
/// there.
///
/// # Errors
///
/// `AllocError` if out of memory.
///
/// # Examples
///
/// A reply is printed, and why an event was refused:
///
/// ```
/// print!(rt; "{}", reply_text(rt.alloc(), reply)?.as_str())?;
/// if let Reply::Refused(refusal) = reply {
///     println!(rt; "  {refusal}")?;
/// }
/// ```
pub fn reply_text(alloc: Global, reply: &Reply) -> Result<Text, AllocError>
    ensures { IfOk result (λ text. text ≡ reply_lines reply.now) }
{
    let mut text = Text::new(alloc);
    write_reply(&mut text, reply)?;
    Ok(text)
}
