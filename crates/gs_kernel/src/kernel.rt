ghost use Rattle.std.specs.Prelude.{◌≡◌, ℕ, ◌-◌, ◌≤◌, ◌∷◌, [], IfOk, OnOk, OnErr, false, length, min};
ghost use Rattle.gs_journal.specs.History.{posted, active, attaching, taken, torn};
ghost use Rattle.gs_journal.specs.Last.{entry_lent};
ghost use Rattle.gs_status.specs.Masks.{has};
ghost use Rattle.gs_kernel.specs.Settings.{IsInRange};
ghost use Rattle.gs_kernel.specs.Kernel.{has_agent, is_bad_mask, is_full, last_entry};

use crate::agents::Agents;
use crate::settings::Settings;
use gs_journal::{Entry, Journal, LastEntry};
use gs_ring::Poster;
use gs_status::Mask;
use gs_threads::ThreadTable;
use std::alloc::{AllocError, Global};
use std::marker::Model;

/// The kernel of an enclave: what happened, and the end of the ring that tells the agent of it.
#[derive(Drop)]
pub struct Kernel<P: Poster> {
    pub(crate) settings: Settings,
    pub(crate) journal: Journal,
    pub(crate) poster: P,
    pub(crate) threads: ThreadTable,
    /// The thread on each CPU.
    pub(crate) running: Vec<Option<u32>>,
    /// The CPUs that the other class holds.
    pub(crate) taken: Mask,
    /// The agents that there are.
    pub(crate) agents: Agents,
    /// Whether the enclave was torn down.
    pub(crate) torn: bool,
    /// Whether the last page was given since the last begin.
    pub(crate) paged: bool,
}

impl<P: Poster> Model for Kernel<P> {
    ghost use Rattle.gs_kernel.specs.Kernel.{KernelOf};

    ghost Value = { KernelOf P };

    ghost use Rattle.gs_kernel.specs.Inside.{IsKernel};

    ghost view = { λ k. record { settings = k.settings; history = k.journal.entries; room = k.journal.room; rows = k.threads.room; poster = k.poster; paged = k.paged } };

    ghost invariant = { λ k. IsKernel (P.posted k.poster) k.settings k.journal k.threads k.running.items k.taken k.agents k.torn };
}

impl<P: Poster> Kernel<P> {
    /// Opens a kernel in which only the first agent's role has happened: it is active on CPU 0. It posts to a
    /// ring to which nothing was posted before.
    ///
    /// # Errors
    ///
    /// `AllocError` if out of memory.
    ///
    /// # Examples
    ///
    /// A kernel over a ring of 128 bytes, in which a thread was created:
    ///
    /// ```
    /// let ring = ByteRing::new(alloc, 128).ok()?;
    /// let mut kernel = Kernel::new(alloc, settings, ring).ok()?;
    /// if matches!(kernel.create(&facts), Ok(Executed::Done)) {
    ///     Some(kernel)
    /// } else {
    ///     None
    /// }
    /// ```
    pub fn new(alloc: Global, settings: Settings, poster: P) -> Result<Kernel<P>, AllocError>
    where
        P: Drop,
        requires in_range { IsInRange settings }
        requires nothing_posted { P.posted poster [] }
        ensures settings { IfOk result (λ k. k.settings ≡ settings) }
        ensures history { IfOk result (λ k. k.history ≡ Entry.Role settings.first_generation 0 ∷ []) }
        ensures poster { IfOk result (λ k. k.poster ≡ poster) }
        ensures paged { IfOk result (λ k. k.paged ≡ false) }
    {
        let running = vec![in alloc; None; settings.cpus as usize]?;
        let mut journal = Journal::new(alloc, settings.first_tseq, settings.history);
        if journal.reserve(1).is_err() {
            return Err(AllocError);
        }
        journal.append(Entry::Role {
            generation: settings.first_generation,
            cpu: 0,
        });
        Ok(Kernel {
            settings,
            journal,
            poster,
            threads: ThreadTable::new(alloc, settings.first_tseq),
            running,
            taken: Mask::none(),
            agents: Agents {
                active: Some((settings.first_generation, 0)),
                attaching: None,
                generation: settings.first_generation,
            },
            torn: false,
            paged: false,
        })
    }

    /// Returns the numbers that the kernel was opened with.
    pub fn settings(&self) -> Settings
        ensures value { result ≡ self.now.settings }
        ensures in_range { IsInRange result }
    {
        self.settings
    }

    /// Lends the journal of all that happened.
    pub fn journal(&self) -> &Journal
        ensures entries { result.now.entries ≡ self.now.history }
        ensures first_tseq { result.now.first_tseq ≡ self.now.settings.first_tseq }
        ensures limit { result.now.limit ≡ self.now.settings.history }
    {
        &self.journal
    }

    /// Lends the last thing that happened.
    #[inline(always)]
    pub fn last(&self) -> LastEntry<'_>
        ensures { entry_lent result ≡ last_entry self.now.history }
    {
        self.journal.last().unwrap()
    }

    /// Lends the end of the ring that the kernel posts to.
    pub fn poster(&self) -> &P
        ensures value { result.now ≡ self.now.poster }
        ensures told { P.posted result.now (posted self.now.history) }
    {
        &self.poster
    }

    /// Returns whether the enclave was torn down: a message did not fit into the ring.
    pub fn is_torn(&self) -> bool
        ensures { result ≡ torn self.now.history }
    {
        self.torn
    }

    /// Returns the active agent, its generation and CPU, or `None` if no agent is active.
    pub fn active(&self) -> Option<(u32, u16)>
        ensures { result ≡ active self.now.history }
    {
        self.agents.active
    }

    /// Returns the generation of the agent that attaches, or `None` if none attaches.
    pub fn attaching(&self) -> Option<u32>
        ensures { result ≡ attaching self.now.history }
    {
        self.agents.attaching
    }

    /// Returns whether the last page was given since the last begin.
    pub fn is_paged(&self) -> bool
        ensures { result ≡ self.now.paged }
    {
        self.paged
    }

    /// Returns whether an agent is active or attaching.
    pub fn has_agent(&self) -> bool
        ensures { result ≡ has_agent self.now.history }
    {
        self.active().is_some() || self.attaching().is_some()
    }

    /// Makes room for `additional` more entries, or for as many as the journal's limit leaves.
    ///
    /// # Errors
    ///
    /// `AllocError` if out of memory.
    pub fn reserve(&mut self, additional: usize) -> Result<(), AllocError>
        ensures room { OnOk result (min additional (self.old.settings.history - length self.old.history) ≤ self.new.room) }
        ensures kept { self.old.room ≤ self.new.room }
        ensures same { self.new ≡ record self.old { room = self.new.room } }
        ensures refused { OnErr result (self.new ≡ self.old) }
    {
        let left = self.settings.history as usize - self.journal.len();
        match self.journal.reserve(additional.min(left)) {
            Ok(()) => Ok(()),
            Err(_) => Err(AllocError),
        }
    }

    /// Returns whether `additional` more entries, two at most, do not fit into the journal.
    pub(crate) fn is_full(&self, additional: usize) -> bool
        requires { additional ≤ 2 }
        ensures { result ≡ is_full self.now.settings self.now.history additional }
    {
        self.journal.len() + additional > self.settings.history as usize
    }

    /// Returns whether a mask names no CPU, or one past the last.
    pub(crate) fn is_bad_mask(&self, mask: Mask) -> bool
        ensures { result ≡ is_bad_mask self.now.settings mask }
    {
        mask.is_empty() || mask.has_past(self.settings.cpus)
    }

    /// Returns the CPUs that the other class holds.
    pub fn taken(&self) -> Mask
        ensures { (c : ℕ) → has result c ≡ taken self.now.history c }
    {
        self.taken
    }
}
