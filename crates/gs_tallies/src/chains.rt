//! Which things are in each group, in order, by one number for each thing and for each group.

ghost use Rattle.std.specs.Prelude.{◌≡◌, ◌==◌, ◌<◌, ℕ, List, IfOk, OnOk, [], cond, get_or, length};
ghost use Rattle.std.specs.List.{filter};
ghost use Rattle.gs_tallies.specs.Chains.{AreLinked, AreRanks, Follows};

use crate::group::{Draft, Grouping};
use std::alloc::{AllocError, Global};

/// The things of each group, each linked to the next one. The rank of a thing is counted from the last one, which has 1.
#[derive(Drop)]
pub(crate) struct Chains {
    /// The rank of the first thing of each group, or 0 if there is none.
    firsts: Vec<usize>,
    /// Of each thing, from the last one on, the rank of the next thing of its group, or 0 if there is none.
    nexts: Vec<usize>,
}

/// Notes a rank as that of the first thing of a group, if there is that group. Returns the one that was noted before, or 0.
fn put_first(firsts: &mut Vec<usize>, group: usize, rank: usize) -> usize
    ensures before { result ≡ get_or firsts.old.items group 0 }
    ensures count { length firsts.new.items ≡ length firsts.old.items }
    ensures noted { (g : ℕ) → g < length firsts.old.items → get_or firsts.new.items g 0 ≡ cond (group == g) rank (get_or firsts.old.items g 0) }
{
    if group >= firsts.len() {
        return 0;
    }
    let before = firsts[group];
    firsts[group] = rank;
    before
}

/// Links the things of each of so many groups.
///
/// # Errors
///
/// `AllocError` if out of memory.
pub(crate) fn chained<T, G: Grouping<T>>(
    alloc: Global,
    grouping: &G,
    things: &[T],
    count: usize,
) -> Result<Chains, AllocError>
    ensures { IfOk result (AreLinked (G.group grouping.now) things.now count) }
{
    let all = things.iter().len();
    let mut firsts = vec![in alloc; 0; count]?;
    let mut nexts = Vec::with_capacity(alloc, all)?;
    for behind in 0..all {
        let group = grouping.group_of(&things[all - 1 - behind]);
        nexts.push(put_first(&mut firsts, group, behind + 1))?;
    }
    Ok(Chains { firsts, nexts })
}

impl Chains {
    /// Returns whether nothing is in a group.
    pub(crate) fn is_empty(&self, group: usize) -> bool
        requires { group < length self.now.firsts.items }
        ensures { result ≡ (get_or self.now.firsts.items group 0 == 0) }
    {
        self.firsts[group] == 0
    }

    /// Adds the things of a group to a draft of nothing, in order.
    ///
    /// # Errors
    ///
    /// `AllocError` if out of memory.
    pub(crate) fn add_all<T, D: Draft<T> + Drop>(
        &self,
        alloc: Global,
        things: &[T],
        group: usize,
        draft: &mut D,
    ) -> Result<(), AllocError>
        requires within { group < length self.now.firsts.items }
        requires ranks { AreRanks (length things.now) self.now.firsts.items self.now.nexts.items }
        ensures { OnOk result ((xs : List T) → D.drafts [] draft.old → Follows things.now self.now.nexts.items (get_or self.now.firsts.items group 0) xs → D.drafts xs draft.new) }
    {
        let all = things.iter().len();
        let mut rank = self.firsts[group];
        'things: while rank != 0 {
            draft.add(alloc, &things[all - rank])?;
            rank = self.nexts[rank - 1];
        }
        Ok(())
    }
}
