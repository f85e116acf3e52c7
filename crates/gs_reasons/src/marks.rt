ghost use Rattle.std.specs.Prelude.{◌≡◌, ◌==◌, ◌&&◌, ◌<◌, ℕ, [], OnOk, length};
ghost use Rattle.gs_reasons.specs.Marks.{mark_at, place_then};

use std::alloc::{AllocError, Global};

/// Returns this place if that holds, else the one before.
pub(crate) fn place_if(here: bool, place: usize, before: Option<usize>) -> Option<usize>
    ensures { result ≡ place_then here place before }
{
    if here { Some(place) } else { before }
}

/// A place for each of some numbers, `None` for most.
#[derive(Drop)]
pub struct Marks {
    /// The place of each number, as far as one was set.
    pub places: Vec<Option<usize>>,
}

impl Marks {
    /// Makes one with no place. It does not allocate.
    pub fn new(alloc: Global) -> Marks
        ensures { result.places.items ≡ [] }
    {
        Marks {
            places: Vec::new(alloc),
        }
    }

    /// Returns the place of a number, `None` if it has none.
    #[inline(always)]
    #[tactic(auto, using(crate::proofs::Heard::mark_beyond, crate::proofs::Heard::mark_within))]
    pub fn get(&self, key: usize) -> Option<usize>
        ensures { result ≡ mark_at self.now.places.items key }
    {
        if self.places.len() <= key {
            return None;
        }
        self.places[key]
    }

    /// Makes room for a number.
    #[tactic(auto, using(crate::proofs::Heard::grown))]
    fn grow(&mut self, key: u32) -> Result<(), AllocError>
        ensures same { OnOk result ((k : ℕ) → mark_at self.new.places.items k ≡ mark_at self.old.places.items k) }
        ensures within { OnOk result (key < length self.new.places.items) }
    {
        let len = key as usize + 1;
        if self.places.len() < len {
            self.places.resize(len, None)?;
        }
        Ok(())
    }

    /// Sets the place of a number, if this holds.
    ///
    /// # Errors
    ///
    /// `AllocError` if out of memory.
    #[tactic(auto, using(crate::proofs::Heard::set_at, crate::proofs::Heard::and_true, crate::proofs::Heard::and_false))]
    pub fn set_if(&mut self, here: bool, key: u32, place: usize) -> Result<(), AllocError>
        ensures { OnOk result ((k : ℕ) → mark_at self.new.places.items k ≡ place_then ((k == key) && here) place (mark_at self.old.places.items k)) }
    {
        if here {
            self.grow(key)?;
            self.places[key as usize] = Some(place);
        }
        Ok(())
    }
}
