//! Messages in two segments of bytes, as a ring's block has them round its end.

ghost use Rattle.std.specs.Prelude.{◌≡◌, ◌<◌, ◌≤◌, ℕ, List, ◌∷◌, ◌++◌, length};
ghost use Rattle.gs_layout.specs.declared.message.Message.{Message};
ghost use Rattle.gs_layout.specs.Spelling.{IsSpellable, spelling};
ghost use Rattle.gs_ring.specs.Segments.{Stands, is_ended};

use gs_layout::{FRONT_LEN, KIND_AT, LEN_AT, PAD, u16_at};
use gs_reader::MessageRef;

/// Returns whether no message is left of a segment: it is at its end, or at a PAD.
#[tactic(auto, unfolding(crate::specs::Segments::is_ended))]
fn is_ended(segment: &[u8]) -> bool
    requires { 0 < length segment.now → FRONT_LEN ≤ length segment.now }
    ensures { result ≡ is_ended segment.now }
{
    segment.is_empty() || u16_at(segment, KIND_AT) == PAD
}

/// Lends the message that a segment begins with, and the bytes behind it.
fn cut(segment: &[u8]) -> (MessageRef<'_>, &[u8])
    requires { (m : Message) × (more : List ℕ) × IsSpellable m × (segment.now ≡ spelling m ++ more) }
    ensures { (m : Message) (more : List ℕ) → IsSpellable m → segment.now ≡ spelling m ++ more → (result.0 ≡ m) × (result.1.now ≡ more) }
{
    let len = u16_at(segment, LEN_AT) as usize;
    let (record, rest) = segment.split_at(len);
    (MessageRef::spelled(record), rest)
}

/// Lends the first message of two segments that have one, and the segments behind it.
pub(crate) fn split_first<'a>(
    first: &'a [u8],
    second: &'a [u8],
) -> (MessageRef<'a>, &'a [u8], &'a [u8])
    requires { (m : Message) × (ms : List Message) × Stands first.now second.now (m ∷ ms) }
    ensures { (m : Message) (ms : List Message) → Stands first.now second.now (m ∷ ms) → (result.0 ≡ m) × Stands result.1.now result.2.now ms }
{
    if is_ended(first) {
        let (message, rest) = cut(second);
        return (message, rest, &[]);
    }
    let (message, rest) = cut(first);
    (message, rest, second)
}
