//! Pages: they tell the agent that attaches of the threads that live.

ghost use Rattle.std.specs.Prelude.{◌≡◌, IfErr, IfOk, None, OnErr};
ghost use Rattle.gs_dump.specs.Record.{IsLive};
ghost use Rattle.gs_kernel.specs.Attaching.{page_refusal};
ghost use Rattle.gs_kernel.specs.Dumped.{IsTold, dumped, paged_after};
ghost use Rattle.gs_kernel.specs.Kernel.{IsRefusal, unless_torn};

use crate::kernel::Kernel;
use crate::shown::by_row;
use gs_dump::{DumpRecord, Page};
use gs_layout::Refusal;
use gs_ring::Poster;
use std::alloc::{AllocError, Global};

impl<P: Poster> Kernel<P> {
    /// Gives a page of the live threads to the agent that attaches: those from a tid on, in increasing order
    /// of tid, at most `max` of them, 0 to 65,535. It notes if that is the last page, behind which no next
    /// one begins. It takes as long as its records, and a look-up of the first of them.
    ///
    /// # Errors
    ///
    /// The first that applies, and then nothing changes: `Gone` if the enclave was torn down, `NotAttaching`
    /// if no agent attaches or it was given the last page, `OutOfMemory`.
    pub fn page(&mut self, alloc: Global, from: u32, max: u16) -> Result<Page, Refusal>
        ensures page { IfOk result (λ p. p ≡ dumped self.old.settings self.old.history from max) }
        ensures remembered { IfOk result (λ p. self.new ≡ record self.old { paged = paged_after p self.old.paged }) }
        ensures accepted { IfOk result (λ _. unless_torn self.old.history (page_refusal self.old.history self.old.paged) ≡ None) }
        ensures refused { IfErr result (IsRefusal (unless_torn self.old.history (page_refusal self.old.history self.old.paged))) }
        ensures unchanged { OnErr result (self.new ≡ self.old) }
    {
        let page = self.dump(alloc, from, max)?;
        self.note_page(&page);
        Ok(page)
    }

    /// Returns the page that [`Kernel::page`] gives, and does not note that it was given.
    ///
    /// # Errors
    ///
    /// As of [`Kernel::page`].
    pub fn dump(&self, alloc: Global, from: u32, max: u16) -> Result<Page, Refusal>
        ensures page { IfOk result (λ p. p ≡ dumped self.now.settings self.now.history from max) }
        ensures accepted { IfOk result (λ _. unless_torn self.now.history (page_refusal self.now.history self.now.paged) ≡ None) }
        ensures refused { IfErr result (IsRefusal (unless_torn self.now.history (page_refusal self.now.history self.now.paged))) }
    {
        if let Some(refusal) = self.page_refusal() {
            return Err(refusal);
        }
        Ok(self.live_page(alloc, from, max)?)
    }

    /// Notes that a page was given. The last one is that behind which no next one begins.
    pub fn note_page(&mut self, page: &Page)
        ensures { self.new ≡ record self.old { paged = paged_after page.now self.old.paged } }
    {
        if page.next.is_none() {
            self.paged = true;
        }
    }

    /// Returns why no page is given, apart from `OutOfMemory`.
    #[tactic(auto, unfolding(crate::specs::Attaching::page_refusal))]
    pub fn page_refusal(&self) -> Option<Refusal>
        ensures { result ≡ unless_torn self.now.history (page_refusal self.now.history self.now.paged) }
    {
        if self.torn {
            return Some(Refusal::Gone);
        }
        if self.attaching().is_none() || self.paged {
            return Some(Refusal::NotAttaching);
        }
        None
    }

    /// Returns the threads that live from a tid on, in increasing order of tid, at most `max` of them, and
    /// where the next page begins.
    fn live_page(&self, alloc: Global, from: u32, max: u16) -> Result<Page, AllocError>
        ensures { IfOk result (λ p. p ≡ dumped self.now.settings self.now.history from max) }
    {
        // Reads a field to expose the invariant.
        let _settings = &self.settings;
        let mut records = Vec::new(alloc);
        for (tid, row) in self.threads.live_from(from) {
            let Some(thread) = by_row(tid, row) else {
                continue;
            };
            if records.len() == max as usize {
                return Ok(Page {
                    records,
                    next: Some(thread.tid),
                });
            }
            state_live(&thread);
            records.push(thread)?;
        }
        Ok(Page {
            records,
            next: None,
        })
    }
}

/// States that a page can tell of a thread. It does nothing when it runs.
pub(crate) fn state_live(thread: &DumpRecord)
    requires { IsTold thread.now }
    ensures { IsLive thread.now }
{
    // Reads each part to expose its invariant.
    let _tseq = thread.known.tseq;
    let _mask = thread.known.facts.mask.bits();
    let _name = thread.known.facts.name.as_bytes();
}
