//! How a run ends: its agent follows all that was posted, and the station is closed.

ghost use Rattle.std.specs.Prelude.{◌≡◌, IfErr, IfOk, vec_len};
ghost use Rattle.gs_runner.specs.Calls.{IsLegal};
ghost use Rattle.gs_runner.specs.Ends.{EndsAs};
ghost use Rattle.gs_runner.specs.declared.pass.TheConstants.{PASSES};

use crate::closed::Closed;
use crate::enclave::Enclave;
use crate::held::Held;
use crate::pass::{PASSES, Pass, gather};
use crate::settling::{Settled, Unsettled, settle};
use crate::site::Site;
use crate::station::{CloseFault, Station};

/// What is left once a station is closed in which an agent settled.
#[derive(Drop)]
pub(crate) struct Ended {
    pub closed: Closed,
    /// How many threads the agent knows.
    pub threads: usize,
    /// What settling answered.
    pub end: Result<Settled, Unsettled>,
}

/// Lets the agent settle, and ends the enclave.
fn end<L: Site, P>(enclave: Enclave<L>, held: &mut Held<L, P>, passes: Vec<Pass<L>>) -> Ended
    requires { vec_len passes ≡ PASSES }
    ensures legal { IsLegal L.parcels result.closed.calls result.closed.journal.entries }
    ensures ended { EndsAs P result.closed.journal.entries result.threads result.end }
{
    let mut enclave = enclave;
    let end = settle(&mut enclave, held);
    let mut all = gather(passes);
    enclave.audit(&mut all);
    Ended {
        closed: enclave.into_closed(),
        threads: held.live(),
        end,
    }
}

impl<L: Site> Station<L> {
    /// Lets the agent settle, and ends the enclave. Nobody else is left who could take the lock.
    ///
    /// # Errors
    ///
    /// Exactly if there are not 32 passes. Station and passes are handed back.
    pub(crate) fn settle_and_close<P>(
        self,
        held: &mut Held<L, P>,
        passes: Vec<Pass<L>>,
    ) -> Result<Ended, CloseFault<L>>
        ensures legal { IfOk result (λ e. IsLegal L.parcels e.closed.calls e.closed.journal.entries) }
        ensures ended { IfOk result (λ e. EndsAs P e.closed.journal.entries e.threads e.end) }
        ensures fault { IfErr result (λ _. vec_len passes ≡ PASSES → ⊥) }
    {
        if passes.len() as u64 != PASSES {
            return Err(CloseFault {
                station: self,
                passes,
            });
        }
        Ok(end(self.into_enclave(), held, passes))
    }
}
