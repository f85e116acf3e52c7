//! Who reads a page before it counts as given.

ghost use Rattle.std.specs.Prelude.{◌≡◌, OnErr, OnOk};

use gs_agent::Role;
use gs_dump::read_page;
use std::alloc::{AllocError, Global};

/// Who reads the bytes of a page. The page counts as given only if it could be read.
pub(crate) trait PageReader {
    ghost use Rattle.std.specs.Prelude.{ℕ, List};

    /// These bytes were read, from one state of the reader to a later one.
    ghost read: { Self → List ℕ → Self → Type 0 };

    /// Reads the bytes of a page.
    ///
    /// # Errors
    ///
    /// If out of memory. Then nothing changes.
    fn read(&mut self, alloc: Global, bytes: &[u8]) -> Result<(), AllocError>
        ensures read { OnOk result (read self.old bytes.now self.new) }
        ensures unread { OnErr result (self.new ≡ self.old) };
}

/// Nobody reads it here: its bytes go out with the reply.
#[derive(Clone, Copy)]
pub(crate) struct Nobody;

impl PageReader for Nobody {
    ghost read = { λ _ bytes n. Unit {0} };

    fn read(&mut self, _alloc: Global, _bytes: &[u8]) -> Result<(), AllocError> {
        Ok(())
    }
}

impl<P> PageReader for Role<P> {
    ghost use Rattle.gs_runner.specs.Pages.{IsRebuilt};

    ghost read = { IsRebuilt };

    fn read(&mut self, alloc: Global, bytes: &[u8]) -> Result<(), AllocError> {
        match read_page(alloc, bytes) {
            Ok(page) => self.rebuild(&page),
            Err(_) => Err(AllocError),
        }
    }
}
