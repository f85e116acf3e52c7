//! A drain, over any end that messages are consumed from.

ghost use Rattle.std.specs.Prelude.{◌≡◌, ◌^◌, ◌<◌, ◌≤◌, List, [], ◌∷◌, IfNone, IfSome, None, Some, IsSome, true};
ghost use Rattle.gs_layout.specs.declared.message.Message.{Message};
ghost use Rattle.gs_layout.specs.View.{is_gap, look_up, word};
ghost use Rattle.gs_view.specs.Begins.{begins};
ghost use Rattle.gs_view.specs.News.{word_of};
ghost use Rattle.gs_ring.specs.Batches.{messages_of};
ghost use Rattle.gs_agent.specs.Drains.{FollowedFirst, Followed, count_word, stop_of};
ghost use Rattle.gs_agent.specs.Mind.{picture_of};

use crate::drained::{Drained, Stop};
use crate::mind::Mind;
use gs_reader::MessageRef;
use gs_ring::{Batch, Taker, Waiting};
use gs_view::{ApplyFault, News};
use std::marker::Model;

/// Follows messages, at most `max` of them, up to a gap or until out of memory. They are read where they
/// lie, batch by batch, and those that were followed then pass.
pub(crate) fn drain_into<T: Taker>(mind: &mut Mind, taker: &mut T, max: u32) -> Drained
    ensures followed { (ms : List Message) × T.passed taker.old ms taker.new × Followed (picture_of mind.old) ms result (picture_of mind.new) }
    ensures most { result.count ≤ max }
    ensures whole { result.stop ≡ None → result.count < max → (m : Message) (ms : List Message) → T.ahead taker.new (m ∷ ms) → ⊥ }
    ensures early { IsSome result.stop → result.count < max }
    ensures gap { result.stop ≡ Some Stop.Gap → (m : Message) × T.ahead taker.new (m ∷ []) × (is_gap (word (look_up mind.new.records) m) ≡ true) }
    ensures memory { result.stop ≡ Some Stop.Memory → (m : Message) × T.ahead taker.new (m ∷ []) × (begins (look_up mind.new.records) m ≡ true) }
{
    let max = max as usize;
    let mut drained = Drained::NOTHING;
    'draining: while drained.count < max {
        let before = drained.count;
        drained = follow_first(mind, taker.batch(), max, drained);
        let followed = drained.count - before;
        if followed == 0 {
            break;
        }
        taker.pass(followed);
        if drained.stop.is_some() {
            break;
        }
    }
    drained
}

/// The messages of a batch that are left, each where it lies. Clauses see the list of them.
#[derive(Drop)]
struct Left<'a> {
    /// The message of a batch of one. It is read once, not by a walk that reads it anew.
    one: Option<MessageRef<'a>>,
    /// The messages of any other batch.
    others: Waiting<'a>,
}

impl<'a> Model for Left<'a> {
    ghost use Rattle.std.specs.Prelude.{◌++◌, List, option_to_list};
    ghost use Rattle.gs_layout.specs.declared.message.Message.{Message};

    ghost Value = { List Message };

    ghost view = { λ l. option_to_list l.one ++ l.others };
}

impl<'a> Left<'a> {
    /// All messages of a batch are left.
    fn new(batch: Batch<'a>) -> Left<'a>
        ensures { result ≡ messages_of batch.entry }
    {
        match batch {
            Batch::One(peeked) => Left {
                one: Some(peeked.message()),
                others: Batch::Empty.messages(),
            },
            _ => Left {
                one: None,
                others: batch.messages(),
            },
        }
    }

    /// Lends the first one, behind which the others are left.
    #[inline(always)]
    fn next(&mut self) -> Option<MessageRef<'a>>
        ensures some { IfSome result (λ m. self.old ≡ m ∷ self.new) }
        ensures none { IfNone result (self.old ≡ []) }
    {
        match self.one.take() {
            Some(message) => Some(message),
            None => self.others.next(),
        }
    }
}

/// Follows the first messages of a batch. It stops at a gap, if out of memory, or once `max` messages were
/// drained in all. They are counted beside those that were drained before.
#[inline(always)]
fn follow_first(mind: &mut Mind, batch: Batch<'_>, max: usize, drained: Drained) -> Drained
    requires most { max < 2 ^ 32 }
    requires count { drained.count ≤ max }
    requires skipped { drained.skipped ≤ drained.count }
    requires orphans { drained.orphans ≤ drained.count }
    requires goes_on { drained.stop ≡ None }
    ensures { FollowedFirst (messages_of batch.entry) max drained mind.old result mind.new }
{
    let mut drained = drained;
    let mut left = Left::new(batch);
    'messages: while drained.count < max {
        let Some(message) = left.next() else {
            break;
        };
        match mind.follow(message) {
            Ok(news) => drained = counted(drained, news),
            Err(fault) => {
                drained.stop = Some(stop_of(fault));
                break;
            }
        }
    }
    drained
}

/// Counts one message more, which was this to the view.
fn counted(drained: Drained, news: News) -> Drained
    requires count { drained.count < 2 ^ 63 }
    requires skipped { drained.skipped < 2 ^ 63 }
    requires orphans { drained.orphans < 2 ^ 63 }
    ensures { result ≡ count_word drained (word_of news) }
{
    let mut drained = drained;
    drained.count += 1;
    match news {
        News::Applied => {}
        News::Skipped => drained.skipped += 1,
        News::Orphan => drained.orphans += 1,
    }
    drained
}

/// Returns why a drain stops at a message that the view did not apply.
fn stop_of(fault: ApplyFault) -> Stop
    ensures { result ≡ stop_of fault }
{
    match fault {
        ApplyFault::Gap => Stop::Gap,
        ApplyFault::OutOfMemory => Stop::Memory,
    }
}
