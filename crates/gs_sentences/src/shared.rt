//! What sentences about landings and about refusals share.

ghost use Rattle.std.specs.Prelude.{◌≡◌, ◌≤◌, ◌+◌, ◌++◌, decimal, length};
ghost use Rattle.gs_sentences.specs.Given.{causes_given};
ghost use Rattle.gs_sentences.specs.Shared.{agent_by, agent_text, at_text, change_text, dead_text, held_text, mask_by, mask_of_change, mask_text, seat_text, thread_by, told_by, told_text, torn_text};
ghost use Rattle.gs_sentences.specs.Words.{said};
ghost use Rattle.gs_sentences.specs.declared.words.Words.TheVariants as texts;

use crate::cause::{Cause, put_line, put_on, put_place, put_since};
use crate::sentence::{SENTENCE_LEN, Sentence};
use crate::words::{Words, put_numbered, put_words};
use gs_journal::Entry;
use gs_layout::{Change, Message};

/// Puts which agent there is, by an entry that says so.
fn put_agent_by(to: &mut Sentence, entry: &Entry)
    requires { length to.old + 168 ≤ SENTENCE_LEN }
    ensures value { to.new ≡ agent_by entry.now ++ to.old }
    ensures short { length to.new ≤ length to.old + 168 }
{
    match entry {
        Entry::Role { generation, cpu } => {
            put_numbered(to, Words::IsActiveOnCpu, *cpu as u64);
            put_numbered(to, Words::Generation, *generation as u64);
        }
        Entry::Begin { generation } => {
            put_words(to, Words::Attaches);
            put_numbered(to, Words::Generation, *generation as u64);
        }
        Entry::Left => put_words(to, Words::ThereIsNoAgent),
        Entry::Torn => put_words(to, Words::TheEnclaveIsTornDown),
        _ => put_words(to, Words::NoAgentIsActive),
    }
}

/// Puts which agent there is, by the entry that says so, and since when.
pub(crate) fn put_agent_since(to: &mut Sentence, entry: &Entry, line: usize, place: usize)
    requires { length to.old + 400 ≤ SENTENCE_LEN }
    ensures value { to.new ≡ agent_by entry.now ++ said texts.SinceLine ++ at_text line place ++ to.old }
    ensures short { length to.new ≤ length to.old + 400 }
{
    put_place(to, Words::SinceLine, line, place);
    put_agent_by(to, entry);
}

/// Puts which agent there is, and since when.
pub(crate) fn put_agent(to: &mut Sentence, cause: &Option<Cause<'_>>)
    requires { length to.old + 400 ≤ SENTENCE_LEN }
    ensures value { to.new ≡ agent_text (causes_given cause.now) ++ to.old }
    ensures short { length to.new ≤ length to.old + 400 }
{
    match cause {
        Some(cause) => put_agent_since(to, &cause.entry(), cause.line, cause.place),
        None => put_words(to, Words::ThereNeverWasAnAgent),
    }
}

/// Puts that a thread died, and when.
pub(crate) fn put_died(to: &mut Sentence, tid: u32, line: usize, place: usize)
    requires { length to.old + 400 ≤ SENTENCE_LEN }
    ensures value { to.new ≡ said texts.Thread ++ decimal tid ++ said texts.Died ++ said texts.OnLine ++ at_text line place ++ to.old }
    ensures short { length to.new ≤ length to.old + 400 }
{
    put_place(to, Words::OnLine, line, place);
    put_words(to, Words::Died);
    put_numbered(to, Words::Thread, tid as u64);
}

/// Puts that there never was a thread.
pub(crate) fn put_never(to: &mut Sentence, tid: u32)
    requires { length to.old + 84 ≤ SENTENCE_LEN }
    ensures value { to.new ≡ said texts.ThereNeverWasAThread ++ decimal tid ++ to.old }
    ensures short { length to.new ≤ length to.old + 84 }
{
    put_numbered(to, Words::ThereNeverWasAThread, tid as u64);
}

/// Puts that a thread is no more, or never was.
pub(crate) fn put_dead(to: &mut Sentence, tid: u32, cause: &Option<Cause<'_>>)
    requires { length to.old + 400 ≤ SENTENCE_LEN }
    ensures value { to.new ≡ dead_text tid (causes_given cause.now) ++ to.old }
    ensures short { length to.new ≤ length to.old + 400 }
{
    match cause {
        Some(cause) => put_died(to, tid, cause.line, cause.place),
        None => put_never(to, tid),
    }
}

/// Puts who was put on a CPU, by an entry that says so.
fn put_thread_by(to: &mut Sentence, entry: &Entry)
    requires { length to.old + 84 ≤ SENTENCE_LEN }
    ensures value { to.new ≡ thread_by entry.now ++ to.old }
    ensures short { length to.new ≤ length to.old + 84 }
{
    match entry {
        Entry::Placed { tid, .. } => put_numbered(to, Words::Thread, *tid as u64),
        _ => put_words(to, Words::AThread),
    }
}

/// Puts who is on a CPU, and since when.
pub(crate) fn put_seat(to: &mut Sentence, cpu: u16, cause: &Option<Cause<'_>>)
    requires { length to.old + 400 ≤ SENTENCE_LEN }
    ensures value { to.new ≡ seat_text cpu (causes_given cause.now) ++ to.old }
    ensures short { length to.new ≤ length to.old + 400 }
{
    match cause {
        Some(cause) => {
            put_place(to, Words::SinceLine, cause.line, cause.place);
            put_numbered(to, Words::IsOnCpu, cpu as u64);
            put_thread_by(to, &cause.entry());
        }
        None => put_numbered(to, Words::AThreadIsOnCpu, cpu as u64),
    }
}

/// Puts that the other class holds a CPU, and since which entry.
pub(crate) fn put_held_since(to: &mut Sentence, cpu: u16, line: usize, place: usize)
    requires { length to.old + 316 ≤ SENTENCE_LEN }
    ensures value { to.new ≡ said texts.TheOtherClassHoldsCpu ++ decimal cpu ++ said texts.SinceLine ++ at_text line place ++ to.old }
    ensures short { length to.new ≤ length to.old + 316 }
{
    put_place(to, Words::SinceLine, line, place);
    put_numbered(to, Words::TheOtherClassHoldsCpu, cpu as u64);
}

/// Puts that the other class holds a CPU, and since when.
pub(crate) fn put_held(to: &mut Sentence, cpu: u16, cause: &Option<Cause<'_>>)
    requires { length to.old + 316 ≤ SENTENCE_LEN }
    ensures value { to.new ≡ held_text cpu (causes_given cause.now) ++ to.old }
    ensures short { length to.new ≤ length to.old + 316 }
{
    put_since(to, cause);
    put_numbered(to, Words::TheOtherClassHoldsCpu, cpu as u64);
}

/// Puts that the enclave was torn down, and on which line.
pub(crate) fn put_torn_on(to: &mut Sentence, line: usize, place: usize)
    requires { length to.old + 296 ≤ SENTENCE_LEN }
    ensures value { to.new ≡ said texts.TheEnclaveWasTornDown ++ said texts.OnLine ++ at_text line place ++ to.old }
    ensures short { length to.new ≤ length to.old + 296 }
{
    put_place(to, Words::OnLine, line, place);
    put_words(to, Words::TheEnclaveWasTornDown);
}

/// Puts that the enclave was torn down, and when.
pub(crate) fn put_torn_down(to: &mut Sentence, cause: &Option<Cause<'_>>)
    requires { length to.old + 296 ≤ SENTENCE_LEN }
    ensures value { to.new ≡ torn_text (causes_given cause.now) ++ to.old }
    ensures short { length to.new ≤ length to.old + 296 }
{
    put_on(to, cause);
    put_words(to, Words::TheEnclaveWasTornDown);
}

/// Puts what a message told of a thread.
#[inline(always)]
fn put_change(to: &mut Sentence, change: &Change)
    requires { length to.old + 64 ≤ SENTENCE_LEN }
    ensures value { to.new ≡ change_text change.now ++ to.old }
    ensures short { length to.new ≤ length to.old + 64 }
{
    match change {
        Change::Created { .. } => put_words(to, Words::SinceItsCreationOnLine),
        Change::Blocked { .. } => put_words(to, Words::SinceItBlockedOnLine),
        Change::Wakeup => put_words(to, Words::SinceItWasWokenOnLine),
        Change::Preempted { .. } => put_words(to, Words::SinceItMadeWayOnLine),
        Change::Yield { .. } => put_words(to, Words::SinceItYieldedOnLine),
        Change::Dead { .. } => put_words(to, Words::SinceItDiedOnLine),
        Change::Affinity { .. } => put_words(to, Words::SinceItsNewMaskOfLine),
    }
}

/// Puts what an entry told of a thread.
#[inline(always)]
fn put_told_by(to: &mut Sentence, entry: &Entry)
    requires { length to.old + 64 ≤ SENTENCE_LEN }
    ensures value { to.new ≡ told_by entry.now ++ to.old }
    ensures short { length to.new ≤ length to.old + 64 }
{
    match entry {
        Entry::Posted {
            message: Message::Thread { change, .. },
        } => put_change(to, change),
        _ => put_words(to, Words::SinceLine),
    }
}

/// Puts by what a thread has its sequence number.
pub(crate) fn put_told(to: &mut Sentence, cause: &Option<Cause<'_>>)
    requires { length to.old + 232 ≤ SENTENCE_LEN }
    ensures value { to.new ≡ told_text (causes_given cause.now) ++ to.old }
    ensures short { length to.new ≤ length to.old + 232 }
{
    match cause {
        Some(cause) => {
            put_line(to, cause.line, cause.place);
            put_told_by(to, &cause.entry());
        }
        None => {}
    }
}

/// Puts the mask that a change gives a thread.
fn put_changed_mask(to: &mut Sentence, change: &Change)
    requires { length to.old + 40 ≤ SENTENCE_LEN }
    ensures value { to.new ≡ mask_of_change change.now ++ to.old }
    ensures short { length to.new ≤ length to.old + 40 }
{
    match change {
        Change::Created { facts } => {
            to.put_mask(facts.mask.bits());
            to.put(" ");
        }
        Change::Affinity { mask, .. } => {
            to.put_mask(mask.bits());
            to.put(" ");
        }
        _ => {}
    }
}

/// Puts the mask that an entry gives a thread.
fn put_mask_by(to: &mut Sentence, entry: &Entry)
    requires { length to.old + 40 ≤ SENTENCE_LEN }
    ensures value { to.new ≡ mask_by entry.now ++ to.old }
    ensures short { length to.new ≤ length to.old + 40 }
{
    match entry {
        Entry::Posted {
            message: Message::Thread { change, .. },
        } => put_changed_mask(to, change),
        _ => {}
    }
}

/// Puts a thread's mask, and since when it has it.
pub(crate) fn put_mask(to: &mut Sentence, cause: &Option<Cause<'_>>)
    requires { length to.old + 272 ≤ SENTENCE_LEN }
    ensures value { to.new ≡ mask_text (causes_given cause.now) ++ to.old }
    ensures short { length to.new ≤ length to.old + 272 }
{
    match cause {
        Some(cause) => {
            put_place(to, Words::SinceLine, cause.line, cause.place);
            put_mask_by(to, &cause.entry());
        }
        None => {}
    }
}
