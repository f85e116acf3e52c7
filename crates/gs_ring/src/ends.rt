//! The two ends of a ring of messages.

ghost use Rattle.std.specs.Prelude.{◌≡◌, ℕ, ◌+◌, ◌^◌, ◌<◌, ◌≤◌, List, [], ◌∷◌, ◌++◌, length, take, drop, OnOk, OnErr, IfNone, MatchOption, ◌⊎◌};
ghost use Rattle.std.specs.Borrow.{sem};
ghost use Rattle.std.specs.Io.BufRead.{Rests};
ghost use Rattle.gs_layout.specs.Spelling.{IsSpellable};

use crate::batch::Batch;
use crate::fault::Full;
use crate::peeked::Peeked;
use gs_layout::Message;

/// The most messages that may be posted to a ring: as many as a journal can hold. So a place in the ring,
/// which counts the bytes that were ever written, never wraps.
pub const MOST_POSTS: u64 = 16_777_216;

/// The end that messages are posted to.
///
/// What was posted is a relation of the end and a list, since an end need not hold it.
pub trait Poster {
    ghost use Rattle.gs_layout.specs.declared.message.Message.{Message};

    /// These are the messages that were posted so far.
    ghost posted: { Self → List Message → Type 0 };

    /// How many were posted.
    ghost count: { Self → ℕ };

    /// How many of them are known to be consumed.
    ghost consumed: { Self → ℕ };

    /// Whether a message may be refused.
    ghost tight: { Self → Message → Type 0 };

    /// The same end of the same ring.
    ghost same: { Self → Self → Type 0 };

    /// Appends a message, whose fields are in their ranges: [`Message::is_spellable`] says so. Fewer than
    /// [`MOST_POSTS`] were posted before.
    ///
    /// # Errors
    ///
    /// `Full` if the message is refused. Nothing was posted.
    fn post(&mut self, message: &Message) -> Result<(), Full>
        requires few { count self.old < MOST_POSTS }
        requires spellable { IsSpellable message.now }
        ensures ring { same self.old self.new }
        ensures posts { OnOk result ((xs : List Message) → posted self.old xs → posted self.new (xs ++ message.now ∷ [])) }
        ensures counts { OnOk result (count self.new ≡ count self.old + 1) }
        ensures stays { consumed self.new ≡ consumed self.old }
        ensures full { OnErr result (tight self.old message.now) }
        ensures still { OnErr result (tight self.new message.now) }
        ensures unchanged { OnErr result ((xs : List Message) → posted self.old xs → posted self.new xs) };

    /// Laws. The count is that of the messages that were posted.
    ghost counted: { (p : Self) (xs : List Message) → posted p xs → count p ≡ length xs };

    /// No more are consumed than were posted.
    ghost within: { (p : Self) (xs : List Message) → posted p xs → consumed p ≤ length xs };

    /// Behind those that are consumed, what was posted is known.
    ghost tells: { (p : Self) (xs ys : List Message) → posted p xs → posted p ys → drop (consumed p) xs ≡ drop (consumed p) ys };

    ghost same_refl: { (p : Self) → same p p };

    ghost same_trans: { (p q r : Self) → same p q → same q r → same p r };
}

/// The end that messages are consumed from, in the order in which they were posted.
///
/// # Examples
///
/// The tids of the messages that come next, at most `max`, which are taken:
///
/// ```
/// for _ in 0..max {
///     let Some(next) = taker.peek() else {
///         break;
///     };
///     tids.push_reserved(next.message().tid());
///     taker.advance();
/// }
/// ```
pub trait Taker {
    ghost use Rattle.gs_layout.specs.declared.message.Message.{Message};
    ghost use Rattle.gs_ring.specs.Batches.{messages_of};
    ghost use Rattle.gs_ring.specs.Peek.{message_of};

    /// These messages passed from one state of the end to a later one.
    ghost passed: { Self → List Message → Self → Type 0 };

    /// These are known to come next.
    ghost ahead: { Self → List Message → Type 0 };

    /// Whether none may be found.
    ghost idle: { Self → Type 0 };

    /// Lends the next message, which stays, or returns `None` if none is found.
    fn peek(&mut self) -> Option<Peeked<'_>>
        ensures none { IfNone result (idle self.old) }
        ensures* after { sem 𝓛 (Rests Self.row self.entry (λ new. passed self.old [] new × MatchOption result ((m : Message) (ms : List Message) → ahead new (m ∷ ms) → ⊥) (λ p. ahead new (message_of p ∷ [])))) };

    /// Consumes the next message, which is known to come.
    fn advance(&mut self)
        requires { (m : Message) × ahead self.old (m ∷ []) }
        ensures { (m : Message) → ahead self.old (m ∷ []) → passed self.old (m ∷ []) self.new };

    /// Lends the first messages that wait, each where it lies. There is at least one if [`Taker::peek`] would
    /// find one. They stay.
    fn batch(&mut self) -> Batch<'_>
        ensures none { messages_of result ≡ [] → idle self.old }
        ensures* after { sem 𝓛 (Rests Self.row self.entry (λ new. passed self.old [] new × ahead new (messages_of result) × (messages_of result ≡ [] → (m : Message) (ms : List Message) → ahead new (m ∷ ms) → ⊥))) };

    /// Consumes the first `n` messages, which are known to come.
    fn pass(&mut self, n: usize)
        requires { (ms : List Message) × ahead self.old ms × (n ≤ length ms) }
        ensures { (ms : List Message) → ahead self.old ms → n ≤ length ms → passed self.old (take n ms) self.new };

    /// Laws. From a state to itself no message passes.
    ghost passed_none: { (t : Self) → passed t [] t };

    ghost passed_join: { (t u v : Self) (xs ys : List Message) → passed t xs u → passed u ys v → passed t (xs ++ ys) v };

    /// Of messages that are known to come, the first ones are.
    ghost begins: { (t : Self) (xs ys : List Message) → ahead t (xs ++ ys) → ahead t xs };

    /// What passes begins with what was known, or is a beginning of it, and then the rest is known still.
    ghost agrees: { (t u : Self) (xs ys : List Message) → passed t xs u → ahead t ys → ((rest : List Message) × (xs ++ rest ≡ ys) × ahead u rest) ⊎ ((rest : List Message) × (xs ≡ ys ++ rest)) };
}

/// Both ends in one.
pub trait Ring: Poster + Taker {
    ghost use Rattle.gs_layout.specs.declared.message.Message.{Message};

    /// What was posted stays posted when it is consumed.
    ghost keeps: { (p q : Self) (xs ms : List Message) → Self.posted p xs → Self.passed p ms q → Self.posted q xs };

    ghost stays: { (p q : Self) (ms : List Message) → Self.passed p ms q → Self.same p q };

    /// What passes is the next of what was posted.
    ghost passes: { (p q : Self) (xs ms : List Message) → Self.posted p xs → Self.passed p ms q → (Self.consumed q ≡ Self.consumed p + length ms) × (ms ≡ take (length ms) (drop (Self.consumed p) xs)) };

    /// If none was found, all was consumed.
    ghost ends: { (p : Self) (xs : List Message) → Self.posted p xs → Self.idle p → Self.consumed p ≡ length xs };
}

/// A poster whose taker may be in the same thread.
pub trait Beside<T: Taker>: Poster {
    ghost use Rattle.gs_layout.specs.declared.message.Message.{Message};

    /// The two ends of one ring.
    ghost pair: { Self → T → Type 0 };

    /// These are the messages that the taker ever gave.
    ghost gave: { T → List Message → Type 0 };

    /// Lets the taker know of all that waits, and returns how many messages that are.
    fn look_beside(&mut self, taker: &mut T) -> usize
        requires { pair self.old taker.old }
        ensures ring { Self.same self.old self.new × pair self.new taker.new }
        ensures posted { (xs : List Message) → Self.posted self.old xs → Self.posted self.new xs }
        ensures stays { Self.consumed self.new ≡ Self.consumed self.old }
        ensures passed { T.passed taker.old [] taker.new }
        ensures rest { (xs : List Message) → Self.posted self.new xs → (ms : List Message) × (rest : List Message) × gave taker.new ms × (xs ≡ ms ++ rest) × T.ahead taker.new rest × (result ≡ length rest) };

    /// Laws. What passes was given.
    ghost gives: { (t u : T) (xs ms : List Message) → gave t xs → T.passed t ms u → gave u (xs ++ ms) };

    ghost stays_pair: { (p : Self) (t u : T) (ms : List Message) → pair p t → T.passed t ms u → pair p u };
}
