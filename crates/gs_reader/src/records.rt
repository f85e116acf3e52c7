ghost use Rattle.std.specs.Prelude.{◌≡◌, [], ◌∷◌, MatchOption};
ghost use Rattle.std.specs.Iterator.{YieldsFirst, item_count};
ghost use Rattle.gs_reader.specs.Records.{and_then, segment};

use crate::fault::ReadFault;
use crate::item::Item;
use crate::message_ref::MessageRef;
use crate::read::read_one;
use std::marker::Model;

/// The messages of two segments of bytes: those of the first segment to its end, then those of the
/// second. PADs are passed over. A fault is yielded once and ends it, so a message that the end of the
/// first segment cuts is `Short`. Clauses see the list of what is left.
#[derive(Drop)]
pub struct Records<'a> {
    first: &'a [u8],
    second: &'a [u8],
}

impl<'a> Model for Records<'a> {
    ghost use Rattle.gs_reader.specs.Records.{Found, and_then, segment};

    ghost Value = { Found };

    ghost view = { λ r. and_then (segment r.first.now) (segment r.second.now) };
}

/// Returns the first message or fault of a segment, and the bytes that are to be read after it.
fn next_in(bytes: &[u8]) -> Option<(Result<MessageRef<'_>, ReadFault>, &[u8])>
    ensures { MatchOption result (segment bytes.now ≡ [])
        (λ found. segment bytes.now ≡ found.0 ∷ segment found.1.now) }
{
    let mut rest = bytes;
    while !rest.is_empty() {
        match read_one(rest) {
            Err(fault) => return Some((Err(fault), &[])),
            Ok((item, len)) => {
                let (_, after) = rest.split_at(len);
                rest = after;
                if let Item::Message(message) = item {
                    return Some((Ok(message), rest));
                }
            }
        }
    }
    None
}

/// Returns the first message or fault of two segments, and what is to be read of them after it.
fn next_of<'a>(
    first: &'a [u8],
    second: &'a [u8],
) -> Option<(Result<MessageRef<'a>, ReadFault>, &'a [u8], &'a [u8])>
    ensures { MatchOption result (and_then (segment first.now) (segment second.now) ≡ [])
        (λ found. and_then (segment first.now) (segment second.now)
        ≡ found.0 ∷ and_then (segment found.1.now) (segment found.2.now)) }
{
    let Some((found, rest)) = next_in(first) else {
        let (found, rest) = next_in(second)?;
        return Some((found, &[], rest));
    };
    if found.is_err() {
        return Some((found, &[], &[]));
    }
    Some((found, rest, second))
}

impl<'a> Records<'a> {
    /// Reads the messages of these two segments, one at each call of `next`.
    pub fn new(first: &'a [u8], second: &'a [u8]) -> Records<'a>
        ensures { result ≡ and_then (segment first.now) (segment second.now) }
    {
        Records { first, second }
    }
}

impl<'a> Iterator for Records<'a> {
    type Item = Result<MessageRef<'a>, ReadFault>;

    ghost next_gives = { YieldsFirst (λ s. s) };

    ghost remaining = { item_count (λ s. s) };

    fn next(&mut self) -> Option<Result<MessageRef<'a>, ReadFault>> {
        let (found, first, second) = next_of(self.first, self.second)?;
        self.first = first;
        self.second = second;
        Some(found)
    }
}
