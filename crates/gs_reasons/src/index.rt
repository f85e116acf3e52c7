ghost use Rattle.std.specs.Prelude.{◌≡◌, ◌++◌, ◌∷◌, [], OnOk, length};
ghost use Rattle.gs_journal.specs.History.{History};
ghost use Rattle.gs_layout.specs.declared.message.Message.{Message as TheMessage};
ghost use Rattle.gs_layout.specs.declared.message.Message.TheVariants.{Thread};
ghost use Rattle.gs_journal.specs.declared.entry.Entry.TheVariants.{Posted, Placed, Taken, Given};
ghost use Rattle.gs_reasons.specs.Cause.{cause_of};
ghost use Rattle.gs_reasons.specs.Kept.{HasHeard, Hears, look};

use crate::landing::sign_of;
use crate::marks::{Marks, place_if};
use crate::sign::{Sign, says_creation, says_death, says_mask, says_runs};
use gs_journal::Entry;
use gs_kernel::Landing;
use gs_layout::{Change, Message};
use std::alloc::{AllocError, Global};

/// Where the last entry stands that says something of this or that, kept as the entries come: each question is
/// answered at once. It keeps memory by threads and CPUs, and not by entries.
#[derive(Drop)]
pub struct Index {
    torn: Option<usize>,
    agent: Option<usize>,
    generation: Option<usize>,
    created: Option<usize>,
    death: Marks,
    off: Marks,
    about: Marks,
    runs: Marks,
    mask: Marks,
    seat: Marks,
    held: Marks,
}

impl Index {
    /// Makes an index that has heard nothing. It does not allocate.
    #[tactic(auto, using(crate::proofs::Heard::none_heard))]
    pub fn new(alloc: Global) -> Index
        ensures { HasHeard result [] }
    {
        Index {
            torn: None,
            agent: None,
            generation: None,
            created: None,
            death: Marks::new(alloc),
            off: Marks::new(alloc),
            about: Marks::new(alloc),
            runs: Marks::new(alloc),
            mask: Marks::new(alloc),
            seat: Marks::new(alloc),
            held: Marks::new(alloc),
        }
    }

    /// Returns the place of the last entry that says something of this, at once.
    #[inline(always)]
    pub fn last(&self, sign: &Sign) -> Option<usize>
        ensures { result ≡ look self.now sign.now }
    {
        match sign {
            Sign::TornDown => self.torn,
            Sign::Agent => self.agent,
            Sign::Generation => self.generation,
            Sign::Created => self.created,
            Sign::Death { tid } => self.death.get(*tid as usize),
            Sign::Off { tid } => self.off.get(*tid as usize),
            Sign::About { tid } => self.about.get(*tid as usize),
            Sign::Runs { tid } => self.runs.get(*tid as usize),
            Sign::Mask { tid } => self.mask.get(*tid as usize),
            Sign::Seat { cpu } => self.seat.get(*cpu as usize),
            Sign::Held { cpu } => self.held.get(*cpu as usize),
        }
    }

    /// Returns the place of the last entry that made a landing what it is, at once, as [`cause`](crate::cause) finds
    /// it by a walk over all entries that were heard.
    #[inline(always)]
    #[tactic(auto, using(crate::proofs::Heard::heard_none, crate::proofs::Heard::heard_some))]
    pub fn cause(&self, landing: &Landing) -> Option<usize>
        ensures { (h : History) → HasHeard self.now h → result ≡ cause_of h landing.now }
    {
        match sign_of(landing) {
            Some(sign) => self.last(&sign),
            None => None,
        }
    }

    /// Hears a change of a thread.
    #[tactic(auto, using(crate::proofs::Heard::change_heard))]
    fn hear_change(
        &mut self,
        place: usize,
        tid: u32,
        tseq: u32,
        change: &Change,
    ) -> Result<(), AllocError>
        ensures { OnOk result (Hears self.old place (Posted (Thread tid tseq change.now)) self.new) }
    {
        self.about.set_if(true, tid, place)?;
        self.runs.set_if(says_runs(change), tid, place)?;
        self.mask.set_if(says_mask(change), tid, place)?;
        self.death.set_if(says_death(change), tid, place)?;
        self.off.set_if(change.takes_off_cpu(), tid, place)?;
        self.created = place_if(says_creation(change), place, self.created);
        Ok(())
    }

    /// Hears an entry that stands at this place.
    #[tactic(auto, using(crate::proofs::Heard::placed_heard, crate::proofs::Heard::taken_heard, crate::proofs::Heard::given_heard, crate::proofs::Heard::role_heard, crate::proofs::Heard::begin_heard, crate::proofs::Heard::left_heard, crate::proofs::Heard::torn_heard, crate::proofs::Heard::tick_heard))]
    fn hear_at(&mut self, place: usize, entry: &Entry) -> Result<(), AllocError>
        ensures { OnOk result (Hears self.old place entry.now self.new) }
    {
        match entry {
            Entry::Posted { message } => match message {
                Message::Thread { tid, tseq, change } => {
                    self.hear_change(place, *tid, *tseq, change)?;
                }
                Message::TimerTick { .. } => {}
            },
            Entry::Placed { cpu, .. } => self.seat.set_if(true, *cpu as u32, place)?,
            Entry::Taken { cpu } | Entry::Given { cpu } => {
                self.held.set_if(true, *cpu as u32, place)?;
            }
            Entry::Role { .. } | Entry::Begin { .. } => {
                self.agent = Some(place);
                self.generation = Some(place);
            }
            Entry::Left => self.agent = Some(place),
            Entry::Torn => {
                self.agent = Some(place);
                self.torn = Some(place);
            }
        }
        Ok(())
    }

    /// Hears one more entry, which stands at this place.
    ///
    /// # Errors
    ///
    /// `AllocError` if out of memory.
    #[tactic(auto, using(crate::proofs::Heard::one_more))]
    pub fn hear(&mut self, place: usize, entry: &Entry) -> Result<(), AllocError>
        ensures { OnOk result ((h : History) → length h ≡ place → HasHeard self.old h → HasHeard self.new (h ++ entry.now ∷ [])) }
    {
        self.hear_at(place, entry)
    }
}
