ghost use Rattle.std.specs.Prelude.{◌≡◌, ◌≤◌, ◌+◌, ◌++◌, decimal, length};
ghost use Rattle.gs_sentences.specs.Words.{said};

use crate::sentence::{SENTENCE_LEN, Sentence};

/// The words between the values of a sentence. Each is named by itself.
#[derive(Clone, Copy, PartialEq, Eq, Debug)]
pub(crate) enum Words {
    ASlotIsNotIdle,
    AThread,
    AThreadIsOnCpu,
    AndForCpu,
    AndHasItsLastSequenceNumber,
    AndThread,
    AreFree,
    Attaches,
    AttachesAndWasNotGivenItsLastPage,
    BackOnLine,
    ByItsMask,
    BytesWithItsPadAnd,
    Close,
    Died,
    EntriesAndTooFewAreLeft,
    Entry,
    ForCpu,
    Generation,
    HasItsLastSequenceNumber,
    HasSeq,
    IsActiveOnCpu,
    IsBlocked,
    IsMalformed,
    IsNamedForCpu,
    IsOnACpu,
    IsOnCpu,
    IsOnNoCpuSinceLine,
    ItsGroupFailed,
    ItsGroupFailedAs,
    LandedAs,
    Mask,
    MayNotRunOnCpu,
    MayRun,
    NamesACpuPastTheLastWhichIs,
    NoAgentIsActive,
    NoGenerationFollowsThat,
    NoTidFollowsThat,
    NoTransactionWasStampedYet,
    OfAtMost,
    OfLine,
    OnLine,
    OrphansAboutAThreadOfWhichTheAgentKnewNothing,
    OutOfMemory,
    OutOfMemoryAtTheNextCreation,
    Placed,
    Semicolon,
    SinceItBlockedOnLine,
    SinceItDiedOnLine,
    SinceItMadeWayOnLine,
    SinceItWasWokenOnLine,
    SinceItYieldedOnLine,
    SinceItsCreationOnLine,
    SinceItsNewMaskOfLine,
    SinceLine,
    SkippedNoNewerThanWhatTheAgentKnewOfTheThread,
    StampedAtSeq,
    StampedUnderGeneration,
    TheAgentKnowsOfNoThread,
    TheEnclaveIsTornDown,
    TheEnclaveWasTornDown,
    TheJournalHas,
    TheLastIs,
    TheLastTransactionHasNumber,
    TheMaskNamesNoCpu,
    TheMessageNeeds,
    TheNextMessageIsMoreThanOneAboveWhatTheAgentKnows,
    TheOtherClassGaveCpu,
    TheOtherClassHoldsCpu,
    TheOtherClassNeverTookCpu,
    TheSlotOfCpu,
    ThereAre,
    ThereIsNoAgent,
    ThereIsNoCpu,
    ThereNeverWasAThread,
    ThereNeverWasAnAgent,
    Thread,
    Transaction,
    TransactionsAndTooFewAreLeft,
    WaitsInTheSlotOfCpu,
    WasGivenItsLastPageOnLine,
    WasNeverPlaced,
}

impl Words {
    /// Returns the words as text.
    #[tactic(auto, unfolding(crate::specs::Words::said))]
    pub(crate) fn as_str(self) -> &'static str
        ensures name { result.now ≡ said self }
        ensures short { length result.now ≤ 64 }
    {
        match self {
            Words::ASlotIsNotIdle => "a slot is not idle",
            Words::AThread => "a thread",
            Words::AThreadIsOnCpu => "a thread is on CPU ",
            Words::AndForCpu => " and for CPU ",
            Words::AndHasItsLastSequenceNumber => ", and has its last sequence number",
            Words::AndThread => "; thread ",
            Words::AreFree => " are free",
            Words::Attaches => " attaches",
            Words::AttachesAndWasNotGivenItsLastPage =>
                " attaches, and was not given its last page",
            Words::BackOnLine => " back on line ",
            Words::ByItsMask => " by its mask",
            Words::BytesWithItsPadAnd => " bytes with its pad, and ",
            Words::Close => ")",
            Words::Died => " died",
            Words::EntriesAndTooFewAreLeft => " entries, and too few are left",
            Words::Entry => " (entry ",
            Words::ForCpu => " for CPU ",
            Words::Generation => "generation ",
            Words::HasItsLastSequenceNumber => " has its last sequence number",
            Words::HasSeq => " has seq ",
            Words::IsActiveOnCpu => " is active on CPU ",
            Words::IsBlocked => " is blocked",
            Words::IsMalformed => " is malformed",
            Words::IsNamedForCpu => " is named for CPU ",
            Words::IsOnACpu => " is on a CPU",
            Words::IsOnCpu => " is on CPU ",
            Words::IsOnNoCpuSinceLine => " is on no CPU since line ",
            Words::ItsGroupFailed => "its group failed",
            Words::ItsGroupFailedAs => "its group failed: ",
            Words::LandedAs => " landed as ",
            Words::Mask => "mask ",
            Words::MayNotRunOnCpu => " may not run on CPU ",
            Words::MayRun => " may run",
            Words::NamesACpuPastTheLastWhichIs => " names a CPU past the last, which is ",
            Words::NoAgentIsActive => "no agent is active",
            Words::NoGenerationFollowsThat => "no generation follows that",
            Words::NoTidFollowsThat => "no tid follows that",
            Words::NoTransactionWasStampedYet => "no transaction was stamped yet",
            Words::OfAtMost => " of at most ",
            Words::OfLine => " of line ",
            Words::OnLine => " on line ",
            Words::OrphansAboutAThreadOfWhichTheAgentKnewNothing =>
                " orphans: about a thread of which the agent knew nothing",
            Words::OutOfMemory => "out of memory",
            Words::OutOfMemoryAtTheNextCreation => "out of memory at the next creation",
            Words::Placed => "placed",
            Words::Semicolon => "; ",
            Words::SinceItBlockedOnLine => " since it blocked on line ",
            Words::SinceItDiedOnLine => " since it died on line ",
            Words::SinceItMadeWayOnLine => " since it made way on line ",
            Words::SinceItWasWokenOnLine => " since it was woken on line ",
            Words::SinceItYieldedOnLine => " since it yielded on line ",
            Words::SinceItsCreationOnLine => " since its creation on line ",
            Words::SinceItsNewMaskOfLine => " since its new mask of line ",
            Words::SinceLine => " since line ",
            Words::SkippedNoNewerThanWhatTheAgentKnewOfTheThread =>
                " skipped: no newer than what the agent knew of the thread",
            Words::StampedAtSeq => "stamped at seq ",
            Words::StampedUnderGeneration => "stamped under generation ",
            Words::TheAgentKnowsOfNoThread => "the agent knows of no thread ",
            Words::TheEnclaveIsTornDown => "the enclave is torn down",
            Words::TheEnclaveWasTornDown => "the enclave was torn down",
            Words::TheJournalHas => "the journal has ",
            Words::TheLastIs => ": the last is ",
            Words::TheLastTransactionHasNumber => "the last transaction has number ",
            Words::TheMaskNamesNoCpu => "the mask names no CPU",
            Words::TheMessageNeeds => "the message needs ",
            Words::TheNextMessageIsMoreThanOneAboveWhatTheAgentKnows =>
                "the next message is more than one above what the agent knows",
            Words::TheOtherClassGaveCpu => "the other class gave CPU ",
            Words::TheOtherClassHoldsCpu => "the other class holds CPU ",
            Words::TheOtherClassNeverTookCpu => "the other class never took CPU ",
            Words::TheSlotOfCpu => "the slot of CPU ",
            Words::ThereAre => "there are ",
            Words::ThereIsNoAgent => "there is no agent",
            Words::ThereIsNoCpu => "there is no CPU ",
            Words::ThereNeverWasAThread => "there never was a thread ",
            Words::ThereNeverWasAnAgent => "there never was an agent",
            Words::Thread => "thread ",
            Words::Transaction => "transaction ",
            Words::TransactionsAndTooFewAreLeft => " transactions, and too few are left",
            Words::WaitsInTheSlotOfCpu => " waits in the slot of CPU ",
            Words::WasGivenItsLastPageOnLine => " was given its last page on line ",
            Words::WasNeverPlaced => " was never placed",
        }
    }
}

/// Puts words in front.
#[inline(always)]
pub(crate) fn put_words(to: &mut Sentence, words: Words)
    requires { length to.old + 64 ≤ SENTENCE_LEN }
    ensures value { to.new ≡ said words ++ to.old }
    ensures short { length to.new ≤ length to.old + 64 }
{
    to.put(words.as_str());
}

/// Puts words in front, and a number behind them.
#[inline(always)]
pub(crate) fn put_numbered(to: &mut Sentence, words: Words, number: u64)
    requires { length to.old + 84 ≤ SENTENCE_LEN }
    ensures value { to.new ≡ said words ++ decimal number ++ to.old }
    ensures short { length to.new ≤ length to.old + 84 }
{
    to.put_number(number);
    put_words(to, words);
}
