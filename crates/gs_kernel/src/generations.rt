//! Generations of agents.

ghost use Rattle.std.specs.Prelude.{◌≡◌, Some, false};
ghost use Rattle.gs_journal.specs.History.{generation};
ghost use Rattle.gs_kernel.specs.Kernel.{is_last_generation, next_generation};

use crate::kernel::Kernel;
use crate::settings::MOST_GENERATION;
use gs_ring::Poster;

impl<P: Poster> Kernel<P> {
    /// Returns the generation that was given last: that of the agent that is active or attaches, if there is
    /// one.
    pub fn generation(&self) -> u32
        ensures { Some result ≡ generation self.now.history }
    {
        self.agents.generation
    }

    /// Returns whether it is the last one, so that none follows.
    pub(crate) fn is_last_generation(&self) -> bool
        ensures { result ≡ is_last_generation (generation self.now.history) }
    {
        self.agents.generation == MOST_GENERATION
    }

    /// Returns the one that follows it, if it is not the last one.
    pub(crate) fn next_generation(&self) -> u32
        requires { is_last_generation (generation self.now.history) ≡ false }
        ensures { result ≡ next_generation self.now.history }
    {
        self.agents.generation + 1
    }
}
