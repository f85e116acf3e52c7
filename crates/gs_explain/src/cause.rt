ghost use Rattle.std.specs.Prelude.{◌≡◌};
ghost use Rattle.gs_sentences.specs.Given.{causes_given};
ghost use Rattle.gs_explain.specs.Moment.{cause_at, moment_of};

use crate::moment::Scene;
use gs_sentences::Cause;

/// Returns the entry at a place, with the line that added it.
#[inline(always)]
pub(crate) fn cause_at<'a>(scene: &Scene<'a>, place: Option<usize>) -> Option<Cause<'a>>
    ensures { causes_given result ≡ cause_at (moment_of scene.now) place }
{
    let place = place?;
    let line = *scene.noted.entries.get(place)?;
    if scene.journal.len() <= place {
        return None;
    }
    Some(Cause {
        line,
        place,
        journal: scene.journal,
    })
}
