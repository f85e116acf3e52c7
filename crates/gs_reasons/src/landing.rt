ghost use Rattle.std.specs.Prelude.{◌≡◌, ◌<◌, IfSome, length};
ghost use Rattle.gs_reasons.specs.Cause.{cause_of, sign_of};

use crate::place::last_place;
use crate::sign::Sign;
use gs_journal::Journal;
use gs_kernel::Landing;
use gs_layout::Outcome;

/// Returns what the reason of a landing is a sign of, or `None` if it was placed, or if no one entry is the
/// reason.
#[inline(always)]
pub fn sign_of(landing: &Landing) -> Option<Sign>
    ensures { result ≡ sign_of landing.now }
{
    let tid = landing.tid;
    let cpu = landing.cpu;
    match landing.outcome {
        Outcome::Placed | Outcome::HistoryFull | Outcome::Malformed | Outcome::GroupFailed => None,
        Outcome::Gone => Some(Sign::TornDown),
        Outcome::Displaced | Outcome::CpuIsAgent => Some(Sign::Agent),
        Outcome::NoThread => Some(Sign::Death { tid }),
        Outcome::Stale => Some(Sign::About { tid }),
        Outcome::NotRunnable => Some(Sign::Runs { tid }),
        Outcome::NotAllowed => Some(Sign::Mask { tid }),
        Outcome::AlreadyPlaced => match landing.at {
            Some(there) => Some(Sign::Seat { cpu: there }),
            None => None,
        },
        Outcome::CpuTaken => Some(Sign::Held { cpu }),
        Outcome::CpuBusy | Outcome::SeqSpent => Some(Sign::Seat { cpu }),
    }
}

/// Returns the place of the last entry that made a landing what it is, among the entries that there were when
/// it landed. It is `None` if it was placed, or if no entry did.
pub fn cause(journal: &Journal, landing: &Landing) -> Option<usize>
    ensures value { result ≡ cause_of journal.now.entries landing.now }
    ensures within { IfSome result (λ i. i < length journal.now.entries) }
{
    let sign = sign_of(landing)?;
    last_place(journal, &sign)
}
