//! The lock, and the passes to it.

ghost use Rattle.std.specs.Prelude.{◌≡◌, IfOk, IfErr, length, vec_len, sum_by};
ghost use Rattle.gs_runner.specs.Calls.{IsLegal};

use crate::closed::Closed;
use crate::enclave::Enclave;
use crate::pass::{PASSES, Pass, gather};
use crate::site::Site;
use gs_board::Board;
use std::sync::Mutex;

/// The lock round the enclave, and the board.
#[derive(Drop)]
pub struct Station<L: Site> {
    lock: Mutex<Enclave<L>>,
    board: Board<L>,
}

/// There are not 32 passes. Station and passes are handed back.
#[derive(Drop)]
pub struct CloseFault<L: Site> {
    pub station: Station<L>,
    pub passes: Vec<Pass<L>>,
}

impl<L: Site> Station<L> {
    /// Puts an enclave under its lock.
    pub(crate) fn new(enclave: Enclave<L>, board: Board<L>) -> Station<L> {
        Station {
            lock: Mutex::new(enclave),
            board,
        }
    }

    /// Lends the lock. Whoever calls takes it, which may wait, and calls [`Enclave::serve`] or [`Enclave::commit`].
    pub fn enclave(&self) -> &Mutex<Enclave<L>> {
        &self.lock
    }

    /// Lends the board, which is read without the lock.
    pub fn board(&self) -> &Board<L> {
        &self.board
    }

    /// Takes the enclave out of its lock.
    pub(crate) fn into_enclave(self) -> Enclave<L> {
        let Station { lock, board: _ } = self;
        lock.into_inner()
    }

    /// Ends the enclave, and gives journal and calls. The calls are a legal history for the journal, and they are as
    /// many as the shares of the passes add up to. It does not allocate.
    ///
    /// # Errors
    ///
    /// Exactly if there are not 32 passes. Station and passes are handed back.
    pub fn close(self, passes: Vec<Pass<L>>) -> Result<Closed, CloseFault<L>>
        ensures counted { IfOk result (λ c. length c.calls ≡ sum_by (λ p. p.share) passes.items) }
        ensures legal { IfOk result (λ c. IsLegal L.parcels c.calls c.journal.entries) }
        ensures all { IfOk result (λ _. vec_len passes ≡ PASSES) }
        ensures fault { IfErr result (λ f. (vec_len passes ≡ PASSES → ⊥) × (f.station ≡ self) × (f.passes ≡ passes)) }
    {
        if passes.len() as u64 != PASSES {
            return Err(CloseFault {
                station: self,
                passes,
            });
        }
        let mut enclave = self.into_enclave();
        let mut all = gather(passes);
        enclave.audit(&mut all);
        Ok(enclave.into_closed())
    }
}
