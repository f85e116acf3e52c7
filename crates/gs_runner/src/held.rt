ghost use Rattle.std.specs.Prelude.{◌≡◌, Option, List, IfSome, IfNone, None, Some};
ghost use Rattle.gs_link.specs.declared.poster.RtrbPoster.{RtrbPoster};
ghost use Rattle.gs_link.specs.Between.{IsPairOf};
ghost use Rattle.gs_runner.specs.Ends.{live_of};

use crate::site::Site;
use gs_agent::Role;
use gs_link::RtrbTaker;
use gs_slots::Region;
use std::marker::{Model, PhantomData};

/// What an agent's thread holds: the role, if there is one, the policy for the next one, the end of the ring
/// that messages are taken from, and the slots.
#[derive(Drop)]
pub struct Held<L: Site, P> {
    pub(crate) role: Option<Role<P>>,
    pub(crate) policy: P,
    pub(crate) taker: RtrbTaker,
    pub(crate) region: Region,
    of: PhantomData<L>,
}

impl<L: Site, P> Model for Held<L, P> {
    ghost use Rattle.gs_link.specs.declared.poster.RtrbPoster.{RtrbPoster};
    ghost use Rattle.gs_link.specs.Between.{IsPairOf};
    ghost use Rattle.gs_runner.specs.Holding.{HeldOf};

    ghost Value = { HeldOf P };

    ghost view = { λ h. record { role = h.role; policy = h.policy; taker = h.taker; slots = h.region } };

    ghost invariant = { λ h. (p : RtrbPoster) → L.is_ring p → IsPairOf p h.taker };
}

impl<L: Site, P> Held<L, P> {
    /// Holds the role of an active agent, the end of its ring, and its slots.
    pub(crate) fn new(role: Role<P>, policy: P, taker: RtrbTaker, region: Region) -> Held<L, P>
        requires { (p : RtrbPoster) → L.is_ring p → IsPairOf p taker }
        ensures { result ≡ record { role = Some role; policy = policy; taker = taker; slots = region } }
    {
        Held {
            role: Some(role),
            policy,
            taker,
            region,
            of: PhantomData,
        }
    }

    /// Returns how many threads the role knows. There are none without a role.
    pub fn live(&self) -> usize
        ensures { result ≡ live_of self.now.role }
    {
        match &self.role {
            Some(role) => role.view().len(),
            None => 0,
        }
    }
}
