//! Sets of the CPUs of a block, as bits.

ghost use Rattle.std.specs.Prelude.{◌≡◌, ◌<◌, ◌&&◌, ◌||◌, ◌+◌, ◌==◌, ℕ, None, IfSome, false, true, not};
ghost use Rattle.gs_status.specs.Masks.{has};
ghost use Rattle.gs_status.specs.declared.mask.TheConstants.{MOST_CPUS};

use gs_status::{MOST_CPUS, Mask};

/// Returns the place of a CPU in the block that begins with this one, if it is in it.
pub(crate) fn place_in(first: u16, cpu: u16) -> Option<u16>
    ensures within { IfSome result (λ i. i < MOST_CPUS) }
    ensures is { IfSome result (λ i. first + i ≡ cpu) }
    ensures other { result ≡ None → (i : ℕ) → i < MOST_CPUS → (cpu == first + i) ≡ false }
{
    if first <= cpu && cpu - first < MOST_CPUS {
        Some(cpu - first)
    } else {
        None
    }
}

/// Returns the set of one place.
pub(crate) fn one(place: u16) -> u128
    requires { place < MOST_CPUS }
    ensures { (i : ℕ) → has result i ≡ (place == i) }
{
    1 << place
}

/// Returns the set of all places.
#[tactic(auto, using(crate::proofs::Bits::in_all))]
pub(crate) fn all() -> u128
    ensures { (i : ℕ) → i < MOST_CPUS → has result i ≡ true }
{
    u128::MAX
}

/// Returns whether a place is in a set.
pub(crate) fn contains(set: u128, place: u16) -> bool
    requires { place < MOST_CPUS }
    ensures { result ≡ has set place }
{
    set >> place & 1 == 1
}

/// Returns the set of a CPU, or of none if it is not in the block that begins with the first.
pub(crate) fn only(first: u16, cpu: u16) -> u128
    ensures { (i : ℕ) → i < MOST_CPUS → has result i ≡ (cpu == first + i) }
{
    match place_in(first, cpu) {
        Some(place) => one(place),
        None => 0,
    }
}

/// Returns the set of those in the first that are not in the second.
pub(crate) fn without(all: u128, some: u128) -> u128
    ensures { (i : ℕ) → has result i ≡ (has all i && not (has some i)) }
{
    all ^ (all & some)
}

/// Returns the set of those in either.
pub(crate) fn either(one: u128, other: u128) -> u128
    ensures { (i : ℕ) → has result i ≡ (has one i || has other i) }
{
    one | other
}

/// Returns the CPUs of a mask that are in the block that begins with this one.
pub(crate) fn in_block(first: u16, mask: Mask) -> u128
    ensures { (i : ℕ) → has result i ≡ has mask (first + i) }
{
    let bits = mask.bits();
    if first == 0 {
        bits
    } else if first < MOST_CPUS {
        bits >> first
    } else {
        0
    }
}
