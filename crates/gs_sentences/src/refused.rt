ghost use Rattle.std.specs.Prelude.{◌≡◌, ◌≤◌, ◌+◌, ◌++◌, decimal, length};
ghost use Rattle.gs_sentences.specs.Given.{causes_given, refused_given};
ghost use Rattle.gs_sentences.specs.Refused.{attaching_text, bad_cpu_text, bad_mask_text, full_by, given_text, last_text, no_thread_text, off_text, page_text, refused_text, runs_text, spent_text, stamps, transactions_text, waiting_text};
ghost use Rattle.gs_sentences.specs.Shared.{at_text};
ghost use Rattle.gs_sentences.specs.Words.{said};
ghost use Rattle.gs_sentences.specs.declared.words.Words.TheVariants as texts;

use crate::cause::{Cause, put_place, put_since};
use crate::landed::put_full;
use crate::numbers::{Numbers, Waiting};
use crate::sentence::{MOST_REASON_LEN, SENTENCE_LEN, Sentence};
use crate::shared::{put_agent, put_dead, put_held, put_seat, put_torn_down};
use crate::subject::{cpu_of, mask_of, tid_of};
use crate::words::{Words, put_numbered, put_words};
use gs_core::Event;
use gs_journal::Entry;
use gs_kernel::Command;
use gs_layout::Refusal;
use gs_status::Mask;

/// An event that was refused, and what a sentence may tell of that.
#[derive(Clone, Copy)]
pub struct Refused<'a> {
    pub refusal: Refusal,
    /// The event, without the policy that it may name: no sentence tells of that.
    pub event: &'a Event<()>,
    /// The last entry that made the refusal so, if one did.
    pub cause: Option<Cause<'a>>,
    pub numbers: Numbers,
}

/// Puts that the agent knows of no such thread.
pub(crate) fn put_unknown(to: &mut Sentence, tid: u32)
    requires { length to.old + 84 ≤ SENTENCE_LEN }
    ensures value { to.new ≡ said texts.TheAgentKnowsOfNoThread ++ decimal tid ++ to.old }
    ensures short { length to.new ≤ length to.old + 84 }
{
    put_numbered(to, Words::TheAgentKnowsOfNoThread, tid as u64);
}

/// Puts that there is no such thread.
fn put_no_thread(to: &mut Sentence, event: &Event<()>, cause: &Option<Cause<'_>>)
    requires { length to.old + 400 ≤ SENTENCE_LEN }
    ensures value { to.new ≡ no_thread_text event.now (causes_given cause.now) ++ to.old }
    ensures short { length to.new ≤ length to.old + 400 }
{
    match event {
        Event::Stamp { tid, .. } => put_unknown(to, *tid),
        _ => put_dead(to, tid_of(event), cause),
    }
}

/// Puts that a thread is on no CPU, and since which entry.
pub(crate) fn put_off_since(to: &mut Sentence, tid: u32, line: usize, place: usize)
    requires { length to.old + 316 ≤ SENTENCE_LEN }
    ensures value { to.new ≡ said texts.Thread ++ decimal tid ++ said texts.IsOnNoCpuSinceLine ++ at_text line place ++ to.old }
    ensures short { length to.new ≤ length to.old + 316 }
{
    put_place(to, Words::IsOnNoCpuSinceLine, line, place);
    put_numbered(to, Words::Thread, tid as u64);
}

/// Puts that a thread was never placed.
pub(crate) fn put_never_placed(to: &mut Sentence, tid: u32)
    requires { length to.old + 148 ≤ SENTENCE_LEN }
    ensures value { to.new ≡ said texts.Thread ++ decimal tid ++ said texts.WasNeverPlaced ++ to.old }
    ensures short { length to.new ≤ length to.old + 148 }
{
    put_words(to, Words::WasNeverPlaced);
    put_numbered(to, Words::Thread, tid as u64);
}

/// Puts that a thread is on no CPU.
fn put_off(to: &mut Sentence, tid: u32, cause: &Option<Cause<'_>>)
    requires { length to.old + 316 ≤ SENTENCE_LEN }
    ensures value { to.new ≡ off_text tid (causes_given cause.now) ++ to.old }
    ensures short { length to.new ≤ length to.old + 316 }
{
    match cause {
        Some(cause) => put_off_since(to, tid, cause.line, cause.place),
        None => put_never_placed(to, tid),
    }
}

/// Puts what is wrong with a mask.
pub(crate) fn put_bad_mask(to: &mut Sentence, mask: Mask, cpus: u16)
    requires { length to.old + 187 ≤ SENTENCE_LEN }
    ensures value { to.new ≡ bad_mask_text mask cpus ++ to.old }
    ensures short { length to.new ≤ length to.old + 187 }
{
    let bits = mask.bits();
    if bits == 0 {
        put_words(to, Words::TheMaskNamesNoCpu);
    } else {
        put_numbered(
            to,
            Words::NamesACpuPastTheLastWhichIs,
            cpus.saturating_sub(1) as u64,
        );
        to.put_mask(bits);
        put_words(to, Words::Mask);
    }
}

/// Puts that there is no such CPU.
pub(crate) fn put_bad_cpu(to: &mut Sentence, cpu: u16, cpus: u16)
    requires { length to.old + 168 ≤ SENTENCE_LEN }
    ensures value { to.new ≡ bad_cpu_text cpu cpus ++ to.old }
    ensures short { length to.new ≤ length to.old + 168 }
{
    put_numbered(to, Words::TheLastIs, cpus.saturating_sub(1) as u64);
    put_numbered(to, Words::ThereIsNoCpu, cpu as u64);
}

/// Puts that the other class gave a CPU back, and when.
pub(crate) fn put_given_on(to: &mut Sentence, cpu: u16, line: usize, place: usize)
    requires { length to.old + 316 ≤ SENTENCE_LEN }
    ensures value { to.new ≡ said texts.TheOtherClassGaveCpu ++ decimal cpu ++ said texts.BackOnLine ++ at_text line place ++ to.old }
    ensures short { length to.new ≤ length to.old + 316 }
{
    put_place(to, Words::BackOnLine, line, place);
    put_numbered(to, Words::TheOtherClassGaveCpu, cpu as u64);
}

/// Puts that the other class never took a CPU.
pub(crate) fn put_never_taken(to: &mut Sentence, cpu: u16)
    requires { length to.old + 84 ≤ SENTENCE_LEN }
    ensures value { to.new ≡ said texts.TheOtherClassNeverTookCpu ++ decimal cpu ++ to.old }
    ensures short { length to.new ≤ length to.old + 84 }
{
    put_numbered(to, Words::TheOtherClassNeverTookCpu, cpu as u64);
}

/// Puts that the other class does not hold a CPU.
fn put_given(to: &mut Sentence, cpu: u16, cause: &Option<Cause<'_>>)
    requires { length to.old + 316 ≤ SENTENCE_LEN }
    ensures value { to.new ≡ given_text cpu (causes_given cause.now) ++ to.old }
    ensures short { length to.new ≤ length to.old + 316 }
{
    match cause {
        Some(cause) => put_given_on(to, cpu, cause.line, cause.place),
        None => put_never_taken(to, cpu),
    }
}

/// Puts whether the agent that attaches was given its last page.
pub(crate) fn put_page(to: &mut Sentence, generation: u32, page: Option<usize>)
    requires { length to.old + 168 ≤ SENTENCE_LEN }
    ensures value { to.new ≡ page_text generation page ++ to.old }
    ensures short { length to.new ≤ length to.old + 168 }
{
    match page {
        Some(line) => put_numbered(to, Words::WasGivenItsLastPageOnLine, line as u64),
        None => put_words(to, Words::AttachesAndWasNotGivenItsLastPage),
    }
    put_numbered(to, Words::Generation, generation as u64);
}

/// Puts why no agent attaches at this point.
fn put_attaching(to: &mut Sentence, cause: &Option<Cause<'_>>, page: Option<usize>)
    requires { length to.old + 400 ≤ SENTENCE_LEN }
    ensures value { to.new ≡ attaching_text (causes_given cause.now) page ++ to.old }
    ensures short { length to.new ≤ length to.old + 400 }
{
    match cause {
        Some(last) => match last.entry() {
            Entry::Begin { generation } => put_page(to, generation, page),
            _ => put_agent(to, cause),
        },
        None => put_agent(to, cause),
    }
}

/// Puts that a thread has its last sequence number, and since which entry.
pub(crate) fn put_spent_since(to: &mut Sentence, tid: u32, line: usize, place: usize)
    requires { length to.old + 380 ≤ SENTENCE_LEN }
    ensures value { to.new ≡ said texts.Thread ++ decimal tid ++ said texts.HasItsLastSequenceNumber ++ said texts.SinceLine ++ at_text line place ++ to.old }
    ensures short { length to.new ≤ length to.old + 380 }
{
    put_place(to, Words::SinceLine, line, place);
    put_words(to, Words::HasItsLastSequenceNumber);
    put_numbered(to, Words::Thread, tid as u64);
}

/// Puts whose sequence numbers are spent.
fn put_spent(to: &mut Sentence, event: &Event<()>, cause: &Option<Cause<'_>>)
    requires { length to.old + 464 ≤ SENTENCE_LEN }
    ensures value { to.new ≡ spent_text event.now (causes_given cause.now) ++ to.old }
    ensures short { length to.new ≤ length to.old + 464 }
{
    match event {
        Event::Kernel {
            command: Command::Thread { tid, .. },
        } => {
            put_since(to, cause);
            put_words(to, Words::HasItsLastSequenceNumber);
            put_numbered(to, Words::Thread, *tid as u64);
        }
        _ => {
            put_words(to, Words::AndHasItsLastSequenceNumber);
            put_seat(to, cpu_of(event), cause);
        }
    }
}

/// Puts what has come to its last number, by the entry that has it.
pub(crate) fn put_last_of(to: &mut Sentence, words: Words, line: usize, place: usize)
    requires { length to.old + 296 ≤ SENTENCE_LEN }
    ensures value { to.new ≡ said words ++ said texts.OfLine ++ at_text line place ++ to.old }
    ensures short { length to.new ≤ length to.old + 296 }
{
    put_place(to, Words::OfLine, line, place);
    put_words(to, words);
}

/// Puts what has come to its last number.
fn put_last(to: &mut Sentence, words: Words, cause: &Option<Cause<'_>>)
    requires { length to.old + 296 ≤ SENTENCE_LEN }
    ensures value { to.new ≡ last_text (said words) (causes_given cause.now) ++ to.old }
    ensures short { length to.new ≤ length to.old + 296 }
{
    match cause {
        Some(cause) => put_last_of(to, words, cause.line, cause.place),
        None => put_words(to, words),
    }
}

/// Returns whether an event stamps.
fn stamps(event: &Event<()>) -> bool
    ensures { result ≡ stamps event.now }
{
    matches!(event, Event::Stamp { .. } | Event::Decide)
}

/// Puts that too few transactions are left.
pub(crate) fn put_stamped(to: &mut Sentence, transactions: usize, limit: u32)
    requires { length to.old + 232 ≤ SENTENCE_LEN }
    ensures value { to.new ≡ said texts.ThereAre ++ decimal transactions ++ said texts.OfAtMost ++ decimal limit ++ said texts.TransactionsAndTooFewAreLeft ++ to.old }
    ensures short { length to.new ≤ length to.old + 232 }
{
    put_words(to, Words::TransactionsAndTooFewAreLeft);
    put_numbered(to, Words::OfAtMost, limit as u64);
    put_numbered(to, Words::ThereAre, transactions as u64);
}

/// Puts which list is full.
#[inline(always)]
fn put_full_list(to: &mut Sentence, stamps: bool, numbers: &Numbers)
    requires { length to.old + 232 ≤ SENTENCE_LEN }
    ensures value { to.new ≡ full_by stamps numbers.now ++ to.old }
    ensures short { length to.new ≤ length to.old + 232 }
{
    if stamps {
        put_stamped(to, numbers.transactions, numbers.limit);
    } else {
        put_full(to, numbers.entries, numbers.limit);
    }
}

/// Puts that a transaction waits in a slot.
pub(crate) fn put_waits(to: &mut Sentence, cpu: u16, number: usize, line: usize)
    requires { length to.old + 252 ≤ SENTENCE_LEN }
    ensures value { to.new ≡ said texts.Transaction ++ decimal number ++ said texts.OfLine ++ decimal line ++ said texts.WaitsInTheSlotOfCpu ++ decimal cpu ++ to.old }
    ensures short { length to.new ≤ length to.old + 252 }
{
    put_numbered(to, Words::WaitsInTheSlotOfCpu, cpu as u64);
    put_numbered(to, Words::OfLine, line as u64);
    put_numbered(to, Words::Transaction, number as u64);
}

/// Puts what waits in a slot.
#[inline(always)]
fn put_waiting(to: &mut Sentence, waiting: &Option<Waiting>)
    requires { length to.old + 252 ≤ SENTENCE_LEN }
    ensures value { to.new ≡ waiting_text waiting.now ++ to.old }
    ensures short { length to.new ≤ length to.old + 252 }
{
    match waiting {
        Some(waiting) => put_waits(to, waiting.cpu, waiting.number, waiting.line),
        None => put_words(to, Words::ASlotIsNotIdle),
    }
}

/// Puts which transactions there are.
pub(crate) fn put_transactions(to: &mut Sentence, transactions: usize)
    requires { length to.old + 84 ≤ SENTENCE_LEN }
    ensures value { to.new ≡ transactions_text transactions ++ to.old }
    ensures short { length to.new ≤ length to.old + 84 }
{
    if transactions == 0 {
        put_words(to, Words::NoTransactionWasStampedYet);
    } else {
        put_numbered(to, Words::TheLastTransactionHasNumber, transactions as u64);
    }
}

/// Puts that a thread may run, and since which entry.
pub(crate) fn put_runs_since(to: &mut Sentence, tid: u32, line: usize, place: usize)
    requires { length to.old + 380 ≤ SENTENCE_LEN }
    ensures value { to.new ≡ said texts.Thread ++ decimal tid ++ said texts.MayRun ++ said texts.SinceLine ++ at_text line place ++ to.old }
    ensures short { length to.new ≤ length to.old + 380 }
{
    put_place(to, Words::SinceLine, line, place);
    put_words(to, Words::MayRun);
    put_numbered(to, Words::Thread, tid as u64);
}

/// Puts that a thread may run, and since when.
fn put_runs(to: &mut Sentence, tid: u32, cause: &Option<Cause<'_>>)
    requires { length to.old + 380 ≤ SENTENCE_LEN }
    ensures value { to.new ≡ runs_text tid (causes_given cause.now) ++ to.old }
    ensures short { length to.new ≤ length to.old + 380 }
{
    put_since(to, cause);
    put_words(to, Words::MayRun);
    put_numbered(to, Words::Thread, tid as u64);
}

/// Puts why an event was refused: a sentence that has no full stop and no newline.
#[inline(always)]
pub fn put_refused(to: &mut Sentence, refused: &Refused<'_>)
    requires { length to.old + MOST_REASON_LEN ≤ SENTENCE_LEN }
    ensures value { to.new ≡ refused_text (refused_given refused.now) ++ to.old }
    ensures short { length to.new ≤ length to.old + MOST_REASON_LEN }
{
    let event = refused.event;
    let cause = refused.cause;
    let numbers = &refused.numbers;
    match refused.refusal {
        Refusal::NoThread => put_no_thread(to, event, &cause),
        Refusal::NotRunning => put_off(to, tid_of(event), &cause),
        Refusal::NotBlocked => put_runs(to, tid_of(event), &cause),
        Refusal::EmptyMask => put_bad_mask(to, mask_of(event), numbers.cpus),
        Refusal::BadCpu => put_bad_cpu(to, cpu_of(event), numbers.cpus),
        Refusal::AgentThere | Refusal::NotActive | Refusal::StillAttached => {
            put_agent(to, &cause);
        }
        Refusal::CpuTaken => put_held(to, cpu_of(event), &cause),
        Refusal::NotTaken => put_given(to, cpu_of(event), &cause),
        Refusal::NotAttaching => put_attaching(to, &cause, numbers.page),
        Refusal::SeqSpent => put_spent(to, event, &cause),
        Refusal::GenSpent => put_last(to, Words::NoGenerationFollowsThat, &cause),
        Refusal::TidsSpent => put_last(to, Words::NoTidFollowsThat, &cause),
        Refusal::HistoryFull => put_full_list(to, stamps(event), numbers),
        Refusal::SlotOpen => put_waiting(to, &numbers.waiting),
        Refusal::NoSuchTransaction => put_transactions(to, numbers.transactions),
        Refusal::Gone => put_torn_down(to, &cause),
        Refusal::OutOfMemory => put_words(to, Words::OutOfMemory),
    }
}
