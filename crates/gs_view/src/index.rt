ghost use Rattle.std.specs.Prelude.{◌≡◌, ◌≢◌, ◌^◌, ◌<◌, ◌≤◌, ℕ, None, Some, IfSome, MatchOption, OnOk, slice_index, vec_len};
ghost use Rattle.gs_sets.specs.Bits.{IsFirst, IsNone};
ghost use Rattle.gs_view.specs.Index.{has_key, key_of, places};

use gs_sets::{NumberSet, WORD};
use std::alloc::{AllocError, Global};
use std::marker::Model;

/// Which tids have a key, and which one: a table of keys by tid, and the set of the tids that have one.
///
/// A look-up and a change take the same time for any number of tids. There is a place for each tid up to
/// the greatest that room was made for, and for the others of its word.
#[derive(Drop)]
pub(crate) struct KeyIndex {
    /// The tids that have a key.
    live: NumberSet,
    /// The key of each tid that has one, and any number for the others. A key of 32 bits takes half the memory of
    /// a `usize`, so a look-up misses the cache less often.
    keys: Vec<u32>,
    /// Each tid below this has a place.
    placed: usize,
}

impl Model for KeyIndex {
    ghost use Rattle.std.specs.Prelude.{◌≤◌, ◌*◌, length, vec_len};
    ghost use Rattle.gs_sets.specs.declared.bits.TheConstants.{WORD};
    ghost use Rattle.gs_view.specs.Index.{IndexState};

    ghost Value = { IndexState };

    ghost view = { λ i. record { live = i.live; keys = i.keys.items } };

    ghost invariant = { λ i. (WORD * length i.live ≤ vec_len i.keys) × (i.placed ≤ WORD * length i.live) };
}

/// Makes a table at least so long.
///
/// # Errors
///
/// `AllocError` if out of memory. All that the table had stays in it.
fn lengthen(keys: &mut Vec<u32>, len: usize) -> Result<(), AllocError>
    ensures len { OnOk result (len ≤ vec_len keys.new) }
    ensures longer { vec_len keys.old ≤ vec_len keys.new }
    ensures kept { (k : ℕ) → k < vec_len keys.old → slice_index keys.new.items k ≡ slice_index keys.old.items k }
{
    if keys.len() < len {
        keys.resize(len, 0)?;
    }
    Ok(())
}

impl KeyIndex {
    /// Makes an index in which no tid has a key or a place. It does not allocate.
    #[tactic(auto, using(crate::proofs::Indexed::key_past))]
    pub(crate) fn new(alloc: Global) -> KeyIndex
        ensures none { (t : ℕ) → key_of result t ≡ None }
        ensures places { places result ≡ 0 }
    {
        KeyIndex {
            live: NumberSet::new(alloc),
            keys: Vec::new(alloc),
            placed: 0,
        }
    }

    /// Returns the key of a tid, if it has one.
    #[inline(always)]
    pub(crate) fn get(&self, tid: usize) -> Option<usize>
        ensures { result ≡ key_of self.now tid }
    {
        if self.live.has(tid) {
            Some(self.keys[tid] as usize)
        } else {
            None
        }
    }

    /// Makes a place for a tid.
    ///
    /// # Errors
    ///
    /// `AllocError` if out of memory. Each tid has the key that it had, either way.
    #[inline(always)]
    pub(crate) fn reserve(&mut self, tid: usize) -> Result<(), AllocError>
        requires { tid < 2 ^ 32 }
        ensures room { OnOk result (tid < places self.new) }
        ensures same { (t : ℕ) → key_of self.new t ≡ key_of self.old t }
        ensures kept { places self.old ≤ places self.new }
    {
        if tid < self.placed {
            return Ok(());
        }
        self.reserve_word(tid)
    }

    /// Makes a place for a tid, and for the others of its word.
    ///
    /// # Errors
    ///
    /// `AllocError` if out of memory. Each tid has the key that it had, either way.
    #[inline(never)]
    fn reserve_word(&mut self, tid: usize) -> Result<(), AllocError>
        requires { tid < 2 ^ 32 }
        ensures room { OnOk result (tid < places self.new) }
        ensures same { (t : ℕ) → key_of self.new t ≡ key_of self.old t }
        ensures kept { places self.old ≤ places self.new }
    {
        let placed = (tid / WORD + 1) * WORD;
        lengthen(&mut self.keys, placed)?;
        self.live.reserve(tid)?;
        self.placed = placed;
        Ok(())
    }

    /// Gives a tid a key, whatever key it had. It has a place.
    #[inline(always)]
    pub(crate) fn set(&mut self, tid: usize, key: u32)
        requires { tid < places self.old }
        ensures here { key_of self.new tid ≡ Some key }
        ensures others { (t : ℕ) → t ≢ tid → key_of self.new t ≡ key_of self.old t }
        ensures places { places self.new ≡ places self.old }
    {
        self.keys[tid] = key;
        self.live.set(tid, true);
    }

    /// Takes the key of a tid away. It has a place.
    pub(crate) fn clear(&mut self, tid: usize)
        requires { tid < places self.old }
        ensures here { key_of self.new tid ≡ None }
        ensures others { (t : ℕ) → t ≢ tid → key_of self.new t ≡ key_of self.old t }
        ensures places { places self.new ≡ places self.old }
    {
        self.live.set(tid, false);
    }

    /// Takes the key of each tid away, and each place. It keeps the table of keys, and does not allocate.
    #[tactic(auto, using(crate::proofs::Indexed::key_past))]
    pub(crate) fn clear_all(&mut self, alloc: Global)
        ensures none { (t : ℕ) → key_of self.new t ≡ None }
        ensures places { places self.new ≡ 0 }
    {
        self.live = NumberSet::new(alloc);
        self.placed = 0;
    }

    /// Returns the first tid that has a key and is not below `from`.
    pub(crate) fn next_from(&self, from: usize) -> Option<usize>
        ensures first { MatchOption result (IsNone (has_key self.now) from) (IsFirst (has_key self.now) from) }
        ensures within { IfSome result (λ t. (t < places self.now) × (t < 2 ^ 32)) }
    {
        self.live.next_from(from)
    }
}
