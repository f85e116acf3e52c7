//! What the things of each group come to.

ghost use Rattle.std.specs.Prelude.{◌≡◌, ◌∷◌, ◌++◌, ◌<◌, ◌==◌, ℕ, List, IfOk, OnOk, [], get_or, length};
ghost use Rattle.std.specs.List.{filter};
ghost use Rattle.gs_tallies.specs.Groups.{one_more};

use std::alloc::{AllocError, Global};

/// What tells of each thing which group it is in.
pub(crate) trait Grouping<T> {
    ghost group: { Self → T → ℕ };

    /// Returns the place of the group that a thing is in.
    fn group_of(&self, thing: &T) -> usize
        ensures { result ≡ group self.now thing.now };
}

/// What the things of a group come to, as far as they are gone through.
pub(crate) trait Draft<T> {
    ghost use Rattle.std.specs.Prelude.{◌∷◌, ◌++◌, ◌<◌, List, OnOk, [], length};

    /// These things come to it.
    ghost drafts: { List T → Self → Type 0 };

    /// Makes that of nothing. It does not allocate.
    fn empty(alloc: Global) -> Self
        ensures { drafts [] result };

    /// Adds a thing.
    fn add(&mut self, alloc: Global, thing: &T) -> Result<(), AllocError>
        ensures { OnOk result ((xs : List T) → length xs < usize.MAX → drafts xs self.old → drafts (xs ++ thing.now ∷ []) self.new) };
}

/// Makes what so many groups of nothing come to.
fn empty_groups<T, D: Draft<T> + Drop>(alloc: Global, count: usize) -> Result<Vec<D>, AllocError>
    ensures count { IfOk result (λ all. length all.items ≡ count) }
    ensures each { IfOk result (λ all. (g : ℕ) (d : D) → g < count → D.drafts [] (get_or all.items g d)) }
{
    let mut all = Vec::with_capacity(alloc, count)?;
    for _ in 0..count {
        all.push(D::empty(alloc))?;
    }
    Ok(all)
}

/// Adds a thing to the group of this place, if there is one.
fn add_to<T, D: Draft<T> + Drop>(
    alloc: Global,
    all: &mut Vec<D>,
    place: usize,
    thing: &T,
) -> Result<(), AllocError>
    ensures count { OnOk result (length all.new.items ≡ length all.old.items) }
    ensures each { OnOk result ((g : ℕ) (d : D) (xs : List T) → g < length all.old.items → length xs < usize.MAX → D.drafts xs (get_or all.old.items g d) → D.drafts (one_more (place == g) thing.now xs) (get_or all.new.items g d)) }
{
    if place >= all.len() {
        return Ok(());
    }
    all[place].add(alloc, thing)
}

/// Returns what so many groups come to, each of those things that are in it, in order. Things of other groups are in none
/// of them.
pub(crate) fn grouped<T, G: Grouping<T>, D: Draft<T> + Drop>(
    alloc: Global,
    grouping: &G,
    things: &[T],
    count: usize,
) -> Result<Vec<D>, AllocError>
    ensures count { IfOk result (λ all. length all.items ≡ count) }
    ensures each { IfOk result (λ all. (g : ℕ) (d : D) → g < count → D.drafts (filter (λ thing. G.group grouping.now thing == g) things.now) (get_or all.items g d)) }
{
    // There are no more things than 64 bits count, as a proof knows of a number once it is read.
    let _most = things.iter().len();
    let mut all = empty_groups(alloc, count)?;
    for thing in things {
        add_to(alloc, &mut all, grouping.group_of(thing), thing)?;
    }
    Ok(all)
}
