ghost use Rattle.std.specs.Prelude.{◌≡◌, ◌≤◌, ◌+◌, ◌++◌, length};
ghost use Rattle.gs_sentences.specs.Given.{reason_given};
ghost use Rattle.gs_sentences.specs.Reasons.{orphans_text, reason_text, skipped_text, stopped_text};
ghost use Rattle.gs_sentences.specs.Words.{said};

use crate::landed::{Landed, Overflow, put_landed, put_overflow};
use crate::refused::{Refused, put_refused};
use crate::sentence::{MOST_REASON_LEN, SENTENCE_LEN, Sentence};
use crate::words::{Words, put_words};
use gs_agent::Stop;

/// Why an event came out as it did, or a part of it.
#[derive(Clone, Copy)]
pub enum Reason<'a> {
    /// Why a transaction was not placed.
    Landed(Landed<'a>),
    /// Why an event was refused.
    Refused(Refused<'a>),
    /// Why an event tore the enclave down.
    Torn(Overflow),
    /// Why a drain skipped so many messages.
    Skipped(usize),
    /// Why so many messages of a drain were orphans.
    Orphans(usize),
    /// Why a drain stopped early.
    Stopped(Stop),
}

/// Returns why a drain stopped early.
fn stopped_words(stop: Stop) -> Words
    ensures { said result ≡ stopped_text stop }
{
    match stop {
        Stop::Gap => Words::TheNextMessageIsMoreThanOneAboveWhatTheAgentKnows,
        Stop::Memory => Words::OutOfMemoryAtTheNextCreation,
    }
}

/// Puts why messages were skipped.
fn put_skipped(to: &mut Sentence, count: usize)
    requires { length to.old + 84 ≤ SENTENCE_LEN }
    ensures value { to.new ≡ skipped_text count ++ to.old }
    ensures short { length to.new ≤ length to.old + 84 }
{
    put_words(to, Words::SkippedNoNewerThanWhatTheAgentKnewOfTheThread);
    to.put_number(count as u64);
}

/// Puts why messages were orphans.
fn put_orphans(to: &mut Sentence, count: usize)
    requires { length to.old + 84 ≤ SENTENCE_LEN }
    ensures value { to.new ≡ orphans_text count ++ to.old }
    ensures short { length to.new ≤ length to.old + 84 }
{
    put_words(to, Words::OrphansAboutAThreadOfWhichTheAgentKnewNothing);
    to.put_number(count as u64);
}

/// Puts the sentence of a reason, which has no full stop and no newline.
pub fn put_reason(to: &mut Sentence, reason: &Reason<'_>)
    requires { length to.old + MOST_REASON_LEN ≤ SENTENCE_LEN }
    ensures value { to.new ≡ reason_text (reason_given reason.now) ++ to.old }
    ensures short { length to.new ≤ length to.old + MOST_REASON_LEN }
{
    match reason {
        Reason::Landed(landed) => put_landed(to, landed),
        Reason::Refused(refused) => put_refused(to, refused),
        Reason::Torn(overflow) => put_overflow(to, overflow),
        Reason::Skipped(count) => put_skipped(to, *count),
        Reason::Orphans(count) => put_orphans(to, *count),
        Reason::Stopped(stop) => put_words(to, stopped_words(*stop)),
    }
}
