//! The timers of CPUs tick.

ghost use Rattle.std.specs.Prelude.{◌≡◌};
ghost use Rattle.gs_kernel.specs.Kernel.{tick_refusal};

use crate::kernel::Kernel;
use gs_layout::Refusal;
use gs_ring::Poster;

impl<P: Poster> Kernel<P> {
    /// Returns the refusal that a tick has of its own.
    #[tactic(auto, unfolding(crate::specs::Kernel::tick_refusal))]
    pub(crate) fn tick_refusal(&self, cpu: u16) -> Option<Refusal>
        ensures { result ≡ tick_refusal self.now.settings cpu }
    {
        if cpu >= self.settings.cpus {
            return Some(Refusal::BadCpu);
        }
        None
    }
}
