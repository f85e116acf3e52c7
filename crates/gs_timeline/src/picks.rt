//! Which marks belong together.

use std::alloc::{AllocError, Global};

/// Lists of marks, one behind another. A mark is kept as its place among all.
#[derive(Drop)]
pub(crate) struct Picks {
    places: Vec<usize>,
    /// Where each list ends among the places.
    ends: Vec<usize>,
}

impl Picks {
    /// Makes no list. It does not allocate.
    pub(crate) fn new(alloc: Global) -> Picks {
        Picks {
            places: Vec::new(alloc),
            ends: Vec::new(alloc),
        }
    }

    /// Adds a mark to the last list, or to a new one behind it.
    ///
    /// # Errors
    ///
    /// `AllocError` if out of memory.
    pub(crate) fn push(&mut self, place: usize, is_new: bool) -> Result<(), AllocError> {
        self.places.push(place)?;
        if !is_new {
            let _ = self.ends.pop();
        }
        self.ends.push(self.places.len())?;
        Ok(())
    }

    /// Returns how many lists there are.
    pub(crate) fn len(&self) -> usize {
        self.ends.len()
    }

    /// Lends the places of a list's marks, or of none if there is no such list.
    pub(crate) fn list(&self, number: usize) -> &[usize] {
        let begin = match number.checked_sub(1) {
            Some(before) => self.ends.get(before).copied().unwrap_or(0),
            None => 0,
        };
        let end = self.ends.get(number).copied().unwrap_or(begin);
        self.places.get(begin..end).unwrap_or(&[])
    }
}
