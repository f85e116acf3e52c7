ghost use Rattle.std.specs.Prelude.{◌≡◌, true};
ghost use Rattle.gs_simulate.specs.Heard.{IsHeard, IsHeardWith};

use crate::log::Log;
use gs_kernel::Landing;
use gs_script::NamedPolicy;
use gs_session::Session;
use std::marker::Model;

/// A workload that was simulated: the script, the session that heard its lines one after another, none of them with a
/// fault, and the landings that its replies told of. Clauses see these.
#[derive(Drop)]
pub struct Simulated<P: NamedPolicy> {
    log: Log<P>,
}

impl<P: NamedPolicy> Model for Simulated<P> {
    ghost use Rattle.gs_simulate.specs.Heard.{IsHeardWith};
    ghost use Rattle.gs_simulate.specs.Simulated.{Simulated as Came};

    ghost Value = { Came P };

    ghost view = { λ s. record { text = s.log.text; session = s.log.session; landings = s.log.landings } };

    ghost invariant = { λ s. IsHeardWith P.naming P.chosen s.log.text s.log.session s.log.landings };
}

impl<P: NamedPolicy> Simulated<P> {
    /// Makes what came of a simulation, whose session heard all of the text.
    pub(crate) fn new(log: Log<P>) -> Simulated<P>
        requires { log.whole ≡ true }
        ensures heard { IsHeard P.naming P.chosen result.text result.session }
        ensures same { result.text ≡ log.text }
    {
        // A look at the script, by which the proof has that the session heard it.
        let _whole = log.is_whole();
        Simulated { log }
    }

    /// Lends the script. The session heard it: see [`crate::simulated_is_run`].
    pub fn text(&self) -> &[u8]
        ensures text { result.now ≡ self.now.text }
        ensures heard { IsHeard P.naming P.chosen self.now.text self.now.session }
    {
        let _log = &self.log;
        self.log.text()
    }

    /// Lends the session, which has the machine that the script's run leaves.
    pub fn session(&self) -> &Session<P>
        ensures { result.now ≡ self.now.session }
    {
        self.log.session()
    }

    /// Lends what became of each slot, in order: the landings that the replies told of which the session heard.
    pub fn landings(&self) -> &[Landing]
        ensures landings { result.now ≡ self.now.landings }
        ensures heard { IsHeardWith P.naming P.chosen self.now.text self.now.session self.now.landings }
    {
        let _log = &self.log;
        self.log.landings()
    }
}
