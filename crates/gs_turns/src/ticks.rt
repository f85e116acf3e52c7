ghost use Rattle.std.specs.Prelude.{◌≡◌, ◌∷◌, ◌++◌, ◌<◌, ◌≤◌, ℕ, List, IfOk, OnOk, Some, [], length, nat_lt, replicate, slice_get};
ghost use Rattle.std.specs.List.{count_by};
ghost use Rattle.gs_journal.specs.History.{History};
ghost use Rattle.gs_turns.specs.Ticked.{tick_cpu, tick_places, tick_then, ticked};

use gs_journal::{Entry, Journal};
use gs_layout::Message;
use std::alloc::{AllocError, Global};
use std::marker::Model;

/// The places in a journal of the ticks of a CPU, in order.
#[derive(Drop)]
pub struct Ticks {
    places: Vec<usize>,
}

impl Model for Ticks {
    ghost use Rattle.std.specs.Prelude.{List, ℕ};

    ghost Value = { List ℕ };

    ghost view = { λ ticks. ticks.places.items };
}

impl Ticks {
    /// Makes those of a CPU that no tick was of. It does not allocate.
    fn new(alloc: Global) -> Ticks
        ensures { result ≡ [] }
    {
        Ticks {
            places: Vec::new(alloc),
        }
    }

    /// Adds the place of a tick.
    fn push(&mut self, place: usize) -> Result<(), AllocError>
        ensures { OnOk result (self.new ≡ self.old ++ place ∷ []) }
    {
        Ok(self.places.push(place)?)
    }

    /// Returns how many of the places are before one.
    fn before(&self, place: usize) -> usize
        ensures { (h : History) (c : ℕ) → self.now ≡ tick_places h c (length h) → result ≡ count_by (λ p. nat_lt p place) self.now }
    {
        self.places.partition_point(|other| *other < place)
    }

    /// Returns how many ticks there are from one place on and before another.
    pub fn between(&self, from: usize, to: usize) -> usize
        ensures { (h : History) (c : ℕ) → self.now ≡ tick_places h c (length h) → result ≡ ticked h c from to }
    {
        self.before(to).saturating_sub(self.before(from))
    }
}

/// Returns the CPU that an entry is a tick of, if it is a tick.
pub fn tick_cpu(entry: &Entry) -> Option<u16>
    ensures { result ≡ tick_cpu entry.now }
{
    match entry {
        Entry::Posted {
            message: Message::TimerTick { cpu },
        } => Some(*cpu),
        _ => None,
    }
}

/// Makes those of so many CPUs that no tick was of.
fn no_ticks(alloc: Global, cpus: u16) -> Result<Vec<Ticks>, AllocError>
    ensures { IfOk result (λ all. all.items ≡ replicate cpus []) }
{
    let mut all = Vec::with_capacity(alloc, cpus as usize)?;
    for _ in 0..cpus {
        all.push(Ticks::new(alloc))?;
    }
    Ok(all)
}

/// Notes the entry of this place, if it is a tick of one of these CPUs. After an error it is not noted.
fn hear_tick(all: &mut Vec<Ticks>, place: usize, entry: &Entry) -> Result<(), AllocError>
    ensures count { OnOk result (length all.new.items ≡ length all.old.items) }
    ensures each { OnOk result ((c : ℕ) (ps : List ℕ) → slice_get all.old.items c ≡ Some ps → slice_get all.new.items c ≡ Some (tick_then c place entry.now ps)) }
{
    let Some(cpu) = tick_cpu(entry) else {
        return Ok(());
    };
    if cpu as usize >= all.len() {
        return Ok(());
    }
    all[cpu as usize].push(place)
}

/// Returns the places of the ticks of each of so many CPUs. It walks the entries once.
///
/// # Errors
///
/// `AllocError` if out of memory.
pub(crate) fn ticks_of(
    alloc: Global,
    journal: &Journal,
    cpus: u16,
) -> Result<Vec<Ticks>, AllocError>
    ensures count { IfOk result (λ all. length all.items ≡ cpus) }
    ensures ticks { IfOk result (λ all. (c : ℕ) → c < cpus → slice_get all.items c ≡ Some (tick_places journal.now.entries c (length journal.now.entries))) }
{
    let mut all = no_ticks(alloc, cpus)?;
    for place in 0..journal.len() {
        hear_tick(&mut all, place, &journal.entry(place))?;
    }
    Ok(all)
}
