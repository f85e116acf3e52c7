ghost use Rattle.std.specs.Prelude.{◌≡◌, List};
ghost use Rattle.gs_kernel.specs.declared.landing.Landing.{Landing};
ghost use Rattle.gs_tallies.specs.Accounts.{outcomes_of};
ghost use Rattle.gs_tallies.specs.Drafts.{IsLandingDraft};

use crate::group::Draft;
use gs_kernel::Landing;
use gs_layout::OUTCOMES;
use std::alloc::{AllocError, Global};

/// What landings come to as far as they are gone through.
#[derive(Drop)]
pub(crate) struct LandingDraft {
    /// How many slots came to each outcome, in the place of its number.
    counts: [usize; OUTCOMES as usize],
}

impl Draft<Landing> for LandingDraft {
    ghost use Rattle.gs_tallies.specs.Drafts.{IsLandingDraft};

    ghost drafts = { IsLandingDraft };

    fn empty(_alloc: Global) -> LandingDraft {
        LandingDraft {
            counts: [0; OUTCOMES as usize],
        }
    }

    fn add(&mut self, _alloc: Global, landing: &Landing) -> Result<(), AllocError> {
        let outcome = landing.outcome.number() as usize;
        self.counts[outcome] = self.counts[outcome].saturating_add(1);
        Ok(())
    }
}

impl LandingDraft {
    /// Returns how many slots came to each outcome.
    pub(crate) fn outcomes(&self) -> [usize; OUTCOMES as usize]
        ensures { (ls : List Landing) → IsLandingDraft ls self.now → result ≡ outcomes_of ls }
    {
        self.counts
    }
}
