ghost use Rattle.std.specs.Prelude.{◌≡◌, ◌≤◌, ◌+◌, ◌++◌, length};
ghost use Rattle.gs_sentences.specs.Given.{causes_given, landed_given};
ghost use Rattle.gs_sentences.specs.Landed.{displaced_text, full_text, gone_text, landed_text, overflow_text, somewhere_text, stale_text};

use crate::cause::{Cause, put_since};
use crate::group::put_group;
use crate::sentence::{MOST_REASON_LEN, SENTENCE_LEN, Sentence};
use crate::shared::{put_agent, put_dead, put_held, put_mask, put_seat, put_told, put_torn_down};
use crate::words::{Words, put_numbered, put_words};
use gs_kernel::Landing;
use gs_layout::Outcome;
use gs_reasons::GroupFault;

/// A message that does not fit into the ring.
#[derive(Clone, Copy, PartialEq, Eq, Debug)]
pub struct Overflow {
    /// How many bytes it needs, with its pad.
    pub needs: usize,
    /// How many bytes are free.
    pub free: usize,
}

/// What was stamped, as far as a sentence tells of it.
#[derive(Clone, Copy, PartialEq, Eq, Debug)]
pub struct Stamped {
    pub generation: u32,
    pub tseq: u32,
    /// The script's line that stamped it.
    pub line: usize,
}

/// A transaction that landed and was not placed, and what a sentence may tell of it.
#[derive(Clone, Copy)]
pub struct Landed<'a> {
    pub landing: &'a Landing,
    pub stamped: Stamped,
    /// The last entry that made the landing what it is, if one did.
    pub cause: Option<Cause<'a>>,
    /// What did not fit, if the landing tore the enclave down.
    pub overflow: Option<Overflow>,
    /// What failed its group, if that failed.
    pub fault: &'a Option<GroupFault>,
    /// How many entries the journal had.
    pub entries: usize,
    /// The most that it may have.
    pub limit: u32,
}

/// Puts how many bytes a message needs, and how many are free.
pub(crate) fn put_overflow(to: &mut Sentence, overflow: &Overflow)
    requires { length to.old + 232 ≤ SENTENCE_LEN }
    ensures value { to.new ≡ overflow_text overflow.now ++ to.old }
    ensures short { length to.new ≤ length to.old + 232 }
{
    put_words(to, Words::AreFree);
    put_numbered(to, Words::BytesWithItsPadAnd, overflow.free as u64);
    put_numbered(to, Words::TheMessageNeeds, overflow.needs as u64);
}

/// Puts that the journal has too few entries left.
pub(crate) fn put_full(to: &mut Sentence, entries: usize, limit: u32)
    requires { length to.old + 232 ≤ SENTENCE_LEN }
    ensures value { to.new ≡ full_text entries limit ++ to.old }
    ensures short { length to.new ≤ length to.old + 232 }
{
    put_words(to, Words::EntriesAndTooFewAreLeft);
    put_numbered(to, Words::OfAtMost, limit as u64);
    put_numbered(to, Words::TheJournalHas, entries as u64);
}

/// Puts the tear-down that took a transaction with it.
#[inline(always)]
fn put_gone(to: &mut Sentence, landed: &Landed<'_>)
    requires { length to.old + 296 ≤ SENTENCE_LEN }
    ensures value { to.new ≡ gone_text (landed_given landed.now) landed.now.overflow ++ to.old }
    ensures short { length to.new ≤ length to.old + 296 }
{
    let cause = landed.cause;
    match landed.overflow {
        Some(overflow) => put_overflow(to, &overflow),
        None => put_torn_down(to, &cause),
    }
}

/// Puts under which generation a transaction was stamped.
#[inline(always)]
fn put_displaced(to: &mut Sentence, stamped: &Stamped)
    requires { length to.old + 232 ≤ SENTENCE_LEN }
    ensures value { to.new ≡ displaced_text stamped.now ++ to.old }
    ensures short { length to.new ≤ length to.old + 232 }
{
    put_words(to, Words::Semicolon);
    put_numbered(to, Words::OnLine, stamped.line as u64);
    put_numbered(to, Words::StampedUnderGeneration, stamped.generation as u64);
}

/// Puts at which number a transaction was stamped, and which one its thread has.
#[inline(always)]
fn put_stale(to: &mut Sentence, stamped: &Stamped, tid: u32, seen: u32)
    requires { length to.old + 336 ≤ SENTENCE_LEN }
    ensures value { to.new ≡ stale_text stamped.now tid seen ++ to.old }
    ensures short { length to.new ≤ length to.old + 336 }
{
    put_numbered(to, Words::HasSeq, seen as u64);
    put_numbered(to, Words::AndThread, tid as u64);
    put_numbered(to, Words::OnLine, stamped.line as u64);
    put_numbered(to, Words::StampedAtSeq, stamped.tseq as u64);
}

/// Puts on which CPU a thread is.
fn put_somewhere(to: &mut Sentence, at: Option<u16>)
    requires { length to.old + 84 ≤ SENTENCE_LEN }
    ensures value { to.new ≡ somewhere_text at ++ to.old }
    ensures short { length to.new ≤ length to.old + 84 }
{
    match at {
        Some(cpu) => put_numbered(to, Words::IsOnCpu, cpu as u64),
        None => put_words(to, Words::IsOnACpu),
    }
}

/// Puts why a transaction was not placed: a sentence that has no full stop and no newline.
#[inline(always)]
pub fn put_landed(to: &mut Sentence, landed: &Landed<'_>)
    requires { length to.old + MOST_REASON_LEN ≤ SENTENCE_LEN }
    ensures value { to.new ≡ landed_text (landed_given landed.now) ++ to.old }
    ensures short { length to.new ≤ length to.old + MOST_REASON_LEN }
{
    let tid = landed.landing.tid;
    let cpu = landed.landing.cpu;
    let cause = landed.cause;
    match landed.landing.outcome {
        Outcome::Placed => put_words(to, Words::Placed),
        Outcome::Gone => put_gone(to, landed),
        Outcome::Displaced => {
            put_agent(to, &cause);
            put_displaced(to, &landed.stamped);
        }
        Outcome::NoThread => put_dead(to, tid, &cause),
        Outcome::Stale => {
            put_told(to, &cause);
            put_stale(to, &landed.stamped, tid, landed.landing.seen);
        }
        Outcome::NotRunnable => {
            put_since(to, &cause);
            put_words(to, Words::IsBlocked);
            put_numbered(to, Words::Thread, tid as u64);
        }
        Outcome::AlreadyPlaced => {
            put_since(to, &cause);
            put_somewhere(to, landed.landing.at);
            put_numbered(to, Words::Thread, tid as u64);
        }
        Outcome::NotAllowed => {
            put_mask(to, &cause);
            put_words(to, Words::ByItsMask);
            put_numbered(to, Words::MayNotRunOnCpu, cpu as u64);
            put_numbered(to, Words::Thread, tid as u64);
        }
        Outcome::CpuIsAgent => put_agent(to, &cause),
        Outcome::CpuTaken => put_held(to, cpu, &cause),
        Outcome::CpuBusy => put_seat(to, cpu, &cause),
        Outcome::SeqSpent => {
            put_words(to, Words::AndHasItsLastSequenceNumber);
            put_seat(to, cpu, &cause);
        }
        Outcome::HistoryFull => put_full(to, landed.entries, landed.limit),
        Outcome::Malformed => {
            put_words(to, Words::IsMalformed);
            put_numbered(to, Words::TheSlotOfCpu, cpu as u64);
        }
        Outcome::GroupFailed => put_group(to, landed.fault),
    }
}
