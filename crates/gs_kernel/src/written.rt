//! Pages as bytes, written from the rows of the threads.

ghost use Rattle.std.specs.Prelude.{◌≡◌, IfErr, IfOk, None};
ghost use Rattle.gs_kernel.specs.Attaching.{page_refusal};
ghost use Rattle.gs_kernel.specs.Dumped.{dumped, paged_after};
ghost use Rattle.gs_kernel.specs.Kernel.{IsRefusal, unless_torn};

use crate::kernel::Kernel;
use crate::page::state_live;
use crate::shown::by_row;
use gs_dump::{PageWriter, WrittenPage};
use gs_layout::Refusal;
use gs_ring::Poster;
use std::alloc::{AllocError, Global};

impl<P: Poster> Kernel<P> {
    /// Returns the page that [`Kernel::dump`] returns, as its bytes. They are written from the rows of the
    /// threads, with no list of records in between.
    ///
    /// # Errors
    ///
    /// As of [`Kernel::page`].
    pub fn dump_written(&self, alloc: Global, from: u32, max: u16) -> Result<WrittenPage, Refusal>
        ensures page { IfOk result (λ p. p ≡ dumped self.now.settings self.now.history from max) }
        ensures accepted { IfOk result (λ _. unless_torn self.now.history (page_refusal self.now.history self.now.paged) ≡ None) }
        ensures refused { IfErr result (IsRefusal (unless_torn self.now.history (page_refusal self.now.history self.now.paged))) }
    {
        if let Some(refusal) = self.page_refusal() {
            return Err(refusal);
        }
        Ok(self.written_page(alloc, from, max)?)
    }

    /// Returns the threads that [`Kernel::live_page`] returns, as bytes.
    #[inline(never)]
    fn written_page(&self, alloc: Global, from: u32, max: u16) -> Result<WrittenPage, AllocError>
        ensures { IfOk result (λ p. p ≡ dumped self.now.settings self.now.history from max) }
    {
        // Reads a field to expose the invariant.
        let _settings = &self.settings;
        let mut page = PageWriter::new(alloc, self.threads.len().min(max as usize))?;
        for (tid, row) in self.threads.live_from(from) {
            let Some(thread) = by_row(tid, row) else {
                continue;
            };
            if page.count() == max {
                return Ok(page.finish(Some(thread.tid)));
            }
            state_live(&thread);
            page.push(&thread)?;
        }
        Ok(page.finish(None))
    }

    /// Notes that a page was given as bytes, as [`Kernel::note_page`] does.
    pub fn note_written(&mut self, page: &WrittenPage)
        ensures { self.new ≡ record self.old { paged = paged_after page.now self.old.paged } }
    {
        if page.next().is_none() {
            self.paged = true;
        }
    }
}
