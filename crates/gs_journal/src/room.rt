//! Making room in the lists of a journal.

ghost use Rattle.std.specs.Prelude.{◌≡◌, ◌+◌, ◌-◌, ◌<◌, ◌≤◌, OnErr, OnOk, vec_len, vec_capacity};

use crate::narrow::Narrow;
use crate::wide::NewMask;
use gs_layout::Facts;
use std::alloc::AllocError;

/// The fewest entries that room is made for, if the limit leaves as many.
const LEAST_ROOM: usize = 16;

/// The lists grow to so many times their length.
const GROWTH: usize = 4;

/// Returns for how many more entries to make room if so many are asked for and so many are there. In all these are [`GROWTH`] times as
/// many, so that a list is seldom copied. It is never more than the limit leaves.
pub(crate) fn more_room(additional: usize, len: usize, left: usize) -> usize
    requires { additional ≤ left }
    ensures enough { additional ≤ result }
    ensures within { result ≤ left }
{
    additional
        .max(len.saturating_mul(GROWTH - 1))
        .max(LEAST_ROOM)
        .min(left)
}

/// Makes room for so many more items in a list. One that is mostly empty gets new memory: to move it would copy all that it has
/// room for.
fn widen<T: Copy>(items: &mut Vec<T>, more: usize) -> Result<(), AllocError>
    ensures items { items.new.items ≡ items.old.items }
    ensures len { vec_len items.new ≡ vec_len items.old }
    ensures room { OnOk result (vec_len items.new + more ≤ vec_capacity items.new) }
    ensures refused { OnErr result (vec_capacity items.new ≡ vec_capacity items.old) }
{
    if items.capacity() / 2 <= items.len() {
        return items.reserve_exact(more);
    }
    let Some(room) = items.len().checked_add(more) else {
        return Err(AllocError);
    };
    let mut wider = Vec::with_capacity(*items.allocator(), room)?;
    wider.extend_from_slice(items)?;
    *items = wider;
    Ok(())
}

/// Makes room for so many more entries, more than there is room for. Each of them may be wide.
#[cold]
#[inline(never)]
pub(crate) fn grow(
    narrow: &mut Vec<Narrow>,
    facts: &mut Vec<Facts>,
    masks: &mut Vec<NewMask>,
    more: usize,
) -> Result<(), AllocError>
    requires little { vec_capacity narrow.old - vec_len narrow.old < more }
    requires facts { vec_capacity narrow.old - vec_len narrow.old ≤ vec_capacity facts.old - vec_len facts.old }
    requires masks { vec_capacity narrow.old - vec_len narrow.old ≤ vec_capacity masks.old - vec_len masks.old }
    ensures narrow { narrow.new.items ≡ narrow.old.items }
    ensures len { vec_len narrow.new ≡ vec_len narrow.old }
    ensures facts { facts.new.items ≡ facts.old.items }
    ensures facts_len { vec_len facts.new ≡ vec_len facts.old }
    ensures masks { masks.new.items ≡ masks.old.items }
    ensures masks_len { vec_len masks.new ≡ vec_len masks.old }
    ensures room { OnOk result (vec_len narrow.new + more ≤ vec_capacity narrow.new) }
    ensures kept { vec_capacity narrow.old ≤ vec_capacity narrow.new }
    ensures facts_room { vec_capacity narrow.new - vec_len narrow.new ≤ vec_capacity facts.new - vec_len facts.new }
    ensures masks_room { vec_capacity narrow.new - vec_len narrow.new ≤ vec_capacity masks.new - vec_len masks.new }
    ensures refused { OnErr result (vec_capacity narrow.new ≡ vec_capacity narrow.old) }
{
    widen(facts, more)?;
    widen(masks, more)?;
    narrow.reserve_exact(more)
}
