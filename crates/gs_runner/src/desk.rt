//! Where one agent's thread leaves what it holds for the next.

ghost use Rattle.std.specs.Prelude.{◌≡◌, ◌≢◌, IfNone, IfSome, None, Some};
ghost use Rattle.gs_runner.specs.Holding.{HeldOf};

use crate::held::Held;
use crate::site::Site;
use crossbeam_utils::Backoff;
use std::sync::{Mutex, Wait};

/// What lies at a desk, and the turn that it lies there for.
#[derive(Drop)]
struct Lying<L: Site, P> {
    turn: u32,
    held: Held<L, P>,
}

/// The place at a desk: at most one agent's things lie there.
#[derive(Drop)]
struct Place<L: Site, P> {
    lying: Option<Lying<L, P>>,
}

impl<L: Site, P: Drop> Place<L, P> {
    /// Lays this there for a turn, or gives it back if something lies there.
    fn lay(&mut self, turn: u32, held: Held<L, P>) -> Option<Held<L, P>>
        ensures laid { IfNone result ((self.old.lying ≡ None) × (self.new.lying ≡ Some (record { turn = turn; held = held }))) }
        ensures back { IfSome result (λ h. (h ≡ held) × (self.old.lying ≢ None) × (self.new ≡ self.old)) }
    {
        if self.lying.is_some() {
            return Some(held);
        }
        self.lying = Some(Lying { turn, held });
        None
    }

    /// Takes what lies there for this turn.
    fn lift(&mut self, turn: u32) -> Option<Held<L, P>>
        ensures lifted { IfSome result (λ h. (self.old.lying ≡ Some (record { turn = turn; held = h })) × (self.new.lying ≡ None)) }
        ensures same { IfNone result ((self.new ≡ self.old) × ((h : HeldOf P) → self.old.lying ≢ Some (record { turn = turn; held = h }))) }
    {
        match self.lying.take() {
            Some(Lying { turn: due, held }) if due == turn => Some(held),
            other => {
                self.lying = other;
                None
            }
        }
    }
}

/// A desk: an agent's thread puts there what it holds, for the thread of the next turn. Nothing of it is held twice.
#[derive(Drop)]
pub struct Desk<L: Site, P> {
    place: Mutex<Place<L, P>>,
}

impl<L: Site, P: Drop> Desk<L, P> {
    /// Makes an empty desk.
    pub fn new() -> Desk<L, P> {
        Desk {
            place: Mutex::new(Place { lying: None }),
        }
    }

    /// Waits while something lies there, and puts this there for a turn.
    pub fn put<R: Wait>(&self, rt: &R, turn: u32, held: Held<L, P>) {
        let backoff = Backoff::new();
        let mut held = held;
        for _ in rt.forever() {
            match self.place.lock(rt).lay(turn, held) {
                None => return,
                Some(back) => held = back,
            }
            backoff.snooze();
        }
    }

    /// Waits until something lies there for this turn, and takes it.
    pub fn take<R: Wait>(&self, rt: &R, turn: u32) -> Held<L, P> {
        let backoff = Backoff::new();
        for _ in rt.forever() {
            if let Some(held) = self.place.lock(rt).lift(turn) {
                return held;
            }
            backoff.snooze();
        }
        unreachable!()
    }
}
