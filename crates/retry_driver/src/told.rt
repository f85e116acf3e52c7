//! What messages do to what an agent knows of each thread, as a plain reader has it.

ghost use Rattle.std.specs.Prelude.{◌<◌, ◌≤◌, IfSome, length};

use gs_agent::Drained;
use gs_layout::{Change, Known, Message, Word};
use std::alloc::AllocError;

/// Returns where a thread stands among threads, if it does.
fn place_of(threads: &[(u32, Known)], tid: u32) -> Option<usize>
    ensures { IfSome result (λ place. place < length threads.now) }
{
    threads.iter().position(|(other, _)| *other == tid)
}

/// Returns how many threads have lower numbers than one that is not among them, in increasing order.
fn place_for(threads: &[(u32, Known)], tid: u32) -> usize
    ensures { result ≤ length threads.now }
{
    threads
        .iter()
        .position(|(other, _)| *other > tid)
        .unwrap_or(threads.len())
}

/// Tells of a change of the thread at a place.
fn tell_known(threads: &mut Vec<(u32, Known)>, place: usize, tseq: u32, change: &Change) -> Word
    requires { place < length threads.old.items }
{
    let known = &mut threads[place].1;
    if tseq <= known.tseq {
        return Word::Skipped;
    }
    known.tseq = tseq;
    known.facts.change(change);
    if let Change::Dead { .. } = change {
        threads.remove(place);
    }
    Word::Applied
}

/// Tells of a message, and returns what it was.
fn tell(threads: &mut Vec<(u32, Known)>, message: &Message) -> Result<Word, AllocError> {
    let Message::Thread { tid, tseq, change } = message else {
        return Ok(Word::Applied);
    };
    if let Some(place) = place_of(threads, *tid) {
        return Ok(tell_known(threads, place, *tseq, change));
    }
    let Change::Created { facts } = change else {
        return Ok(Word::Orphan);
    };
    let known = Known {
        facts: *facts,
        tseq: *tseq,
    };
    threads.insert(place_for(threads, *tid), (*tid, known))?;
    Ok(Word::Applied)
}

/// Tells of messages, and returns how many there are, and what they were.
pub(crate) fn tell_all(
    threads: &mut Vec<(u32, Known)>,
    messages: &[Message],
) -> Result<Drained, AllocError> {
    let mut drained = Drained {
        count: messages.len(),
        skipped: 0,
        orphans: 0,
        stop: None,
    };
    for message in messages {
        match tell(threads, message)? {
            Word::Skipped => drained.skipped = drained.skipped.wrapping_add(1),
            Word::Orphan => drained.orphans = drained.orphans.wrapping_add(1),
            Word::Applied | Word::Gap => {}
        }
    }
    Ok(drained)
}
