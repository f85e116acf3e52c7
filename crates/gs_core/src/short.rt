ghost use Rattle.std.specs.Prelude.{◌≡◌};
ghost use Rattle.std.specs.List.{list_any};
ghost use Rattle.gs_journal.specs.declared.entry.Entry.{Entry};
ghost use Rattle.gs_replies.specs.Replies.{reply_of};
ghost use Rattle.gs_core.specs.Short.{wants_memory};

use gs_agent::Stop;
use gs_kernel::Executed;
use gs_layout::Refusal;
use gs_replies::Reply;

/// Tells whether a reply says that memory ran out.
fn wants_memory(reply: &Reply) -> bool
    ensures { result ≡ wants_memory reply.now }
{
    match reply {
        Reply::Refused(refusal) => *refusal == Refusal::OutOfMemory,
        Reply::Drained(drained) => drained.stop == Some(Stop::Memory),
        _ => false,
    }
}

/// Tells whether what came of a command says that memory ran out.
pub fn is_short_command(came: Result<Executed, Refusal>) -> bool
    ensures { (e : Entry) → result ≡ wants_memory (reply_of came e) }
{
    match came {
        Ok(_) => false,
        Err(refusal) => refusal == Refusal::OutOfMemory,
    }
}

/// Tells whether some reply says that memory ran out: an event was refused for it, or a drain stopped. With
/// more memory the replies to the same events may differ.
///
/// # Examples
///
/// One reply, which is written unless memory ran out:
///
/// ```
/// let reply = try_one(alloc, machine, number, event, allocator)?;
/// if is_short(slice::from_ref(&reply)) {
///     return Err(Failure::OutOfMemory);
/// }
/// write_reply(lines, &reply)?;
/// ```
pub fn is_short(replies: &[Reply]) -> bool
    ensures { result ≡ list_any wants_memory replies.now }
{
    replies.iter().any(wants_memory)
}
