ghost use Rattle.std.specs.Prelude.{◌≡◌, [], IfSome};
ghost use Rattle.gs_report.specs.Counts.{counts_more, counts_of, is_placed, is_refusal, landings_of, placed_in, tears_down, unplaced_in};

use gs_core::Reply;
use gs_kernel::Landing;
use gs_layout::Outcome;
use std::slice;

/// What is counted of the replies of a run.
#[derive(Clone, Copy, PartialEq, Eq, Debug)]
pub struct Counts {
    /// The events of the run: each has one reply.
    pub events: usize,
    /// The landings whose outcome is `Placed`, late ones too.
    pub placed: usize,
    /// The refused events.
    pub refused: usize,
    /// Whether the enclave was torn down.
    pub torn: bool,
    /// The other landings.
    pub unplaced: usize,
}

/// Returns the landings that a reply tells of, in order: none if it tells of none.
pub fn landings_of(reply: &Reply) -> &[Landing]
    ensures { result.now ≡ landings_of reply.now }
{
    match reply {
        Reply::Landed { landings, torn: _ } => landings.as_slice(),
        Reply::Late { landing, .. } => slice::from_ref(landing),
        _ => &[],
    }
}

/// Whether the event of the reply tore the enclave down.
fn tears_down(reply: &Reply) -> bool
    ensures { result ≡ tears_down reply.now }
{
    match reply {
        Reply::Torn => true,
        Reply::Landed { landings: _, torn } | Reply::Late { torn, .. } => *torn,
        _ => false,
    }
}

/// Whether the event of the reply was refused.
fn is_refusal(reply: &Reply) -> bool
    ensures { result ≡ is_refusal reply.now }
{
    matches!(reply, Reply::Refused(_))
}

/// Tells whether the outcome of a landing is `Placed`.
fn is_placed(landing: &Landing) -> bool
    ensures { result ≡ is_placed landing.now }
{
    matches!(landing.outcome, Outcome::Placed)
}

/// Returns how many of a reply's landings have the outcome `Placed`.
#[tactic(auto, unfolding(crate::specs::Counts::placed_in))]
fn placed_in(reply: &Reply) -> usize
    ensures { result ≡ placed_in reply.now }
{
    let landings = landings_of(reply).iter();
    landings.filter(|landing| is_placed(landing)).count()
}

/// Returns how many of a reply's landings have another outcome.
#[tactic(auto, using(crate::proofs::Landings::among_landings), unfolding(crate::specs::Counts::unplaced_in))]
fn unplaced_in(reply: &Reply) -> usize
    ensures { result ≡ unplaced_in reply.now }
{
    landings_of(reply).len() - placed_in(reply)
}

impl Counts {
    /// What is counted of no reply.
    pub(crate) fn new() -> Counts
        ensures { result ≡ counts_of [] }
    {
        Counts {
            events: 0,
            placed: 0,
            refused: 0,
            torn: false,
            unplaced: 0,
        }
    }

    /// Returns what is counted once there is one more reply, or `None` if a count would not fit.
    pub(crate) fn with(&self, reply: &Reply) -> Option<Counts>
        ensures { IfSome result (λ counts. counts ≡ counts_more self.now reply.now) }
    {
        let refused = usize::from(is_refusal(reply));
        Some(Counts {
            events: self.events.checked_add(1)?,
            placed: self.placed.checked_add(placed_in(reply))?,
            refused: self.refused.checked_add(refused)?,
            torn: self.torn || tears_down(reply),
            unplaced: self.unplaced.checked_add(unplaced_in(reply))?,
        })
    }
}
