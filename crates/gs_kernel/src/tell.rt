//! What a step adds is told: to the ring, to the journal, and in the tables; or the enclave is torn down.

ghost use Rattle.std.specs.Prelude.{◌≡◌, ℕ, ◌+◌, ◌<◌, ◌≤◌, ◌++◌, ◌∷◌, [], None, Some, true, false, length, IfSome};
ghost use Rattle.std.specs.Option.{is_some, option_copied};
ghost use Rattle.gs_layout.specs.declared.message.Change.{Change};
ghost use Rattle.gs_layout.specs.declared.message.Message.{Message};
ghost use Rattle.gs_layout.specs.Spelling.{IsSpellable};
ghost use Rattle.gs_journal.specs.History.{posted};
ghost use Rattle.gs_status.specs.Masks.{has};
ghost use Rattle.gs_kernel.specs.Legal.{Frame, RoomOf, Tells, entries_in, message_in};
ghost use Rattle.gs_kernel.specs.declared.effect.Effect.{Effect};
ghost use Rattle.gs_kernel.specs.Lands.{ComesNext};
ghost use Rattle.gs_kernel.specs.Inside.{HoldsNear, SeatsBelow, agents_by, behind, created_in, freed, held_by, left_by, left_in, listed_entry, listed_message, rows_seated, rows_told, seats_seated, seats_told};

use crate::agents::Agents;
use crate::effect::Effect;
use crate::kernel::Kernel;
use crate::post::post;
use gs_journal::{Entry, Journal};
use gs_layout::{Change, Facts, Message};
use gs_ring::{MOST_POSTS, Poster};
use gs_status::Mask;
use gs_threads::ThreadTable;

impl<P: Poster> Kernel<P> {
    /// Posts the message of what a step adds, if it has one, and appends the entry behind it, if there is
    /// one. Returns whether the message fits; if it does not, the enclave is torn down in place of all this.
    /// There is room for it.
    pub(crate) fn tell(&mut self, effect: &Effect) -> bool
        requires due { ComesNext self.old.settings self.old.history effect.now }
        requires spellable { IfSome (message_in effect.now) IsSpellable }
        requires room { length (entries_in effect.now) ≤ self.old.room }
        requires rows { IfSome (message_in effect.now) (λ m. is_some (created_in m) ≡ true → 0 < self.old.rows) }
        ensures tells { Tells (RoomOf P.same P.consumed P.posted P.tight self.old.poster) self.old.history effect.now result self.new.history }
        ensures frame { Frame P.same P.consumed P.posted self.old self.new }
        ensures room { self.old.room + length self.old.history ≤ self.new.room + length self.new.history }
    {
        if !send(&mut self.journal, &mut self.poster, effect) {
            self.tear_down();
            return false;
        }
        append(&mut self.journal, effect);
        update(&mut self.threads, &mut self.running, effect);
        self.taken = hold(self.taken, effect);
        self.agents = lead(self.agents, effect);
        true
    }

    /// Does the same with an entry that is all that a step adds. Nothing has to fit into the ring then.
    #[inline(always)]
    pub(crate) fn tell_alone(&mut self, entry: Entry)
        requires due { ComesNext self.old.settings self.old.history (Effect.Append None entry) }
        requires room { 0 < self.old.room }
        ensures tells { Tells (RoomOf P.same P.consumed P.posted P.tight self.old.poster) self.old.history (Effect.Append None entry) true self.new.history }
        ensures frame { Frame P.same P.consumed P.posted self.old self.new }
        ensures room { self.old.room + length self.old.history ≤ self.new.room + length self.new.history }
    {
        let effect = Effect::Append {
            victim: None,
            entry,
        };
        append(&mut self.journal, &effect);
        seat(&mut self.threads, &mut self.running, &effect);
        self.taken = hold(self.taken, &effect);
        self.agents = lead(self.agents, &effect);
    }

    /// Does the same with an entry behind PREEMPTED of a thread, which this takes off a CPU.
    #[inline(always)]
    pub(crate) fn tell_behind(&mut self, tid: u32, tseq: u32, cpu: u16, entry: Entry) -> bool
        requires due { ComesNext self.old.settings self.old.history (Effect.Append (Some (Message.Thread tid tseq (Change.Preempted cpu))) entry) }
        requires spellable { IsSpellable (Message.Thread tid tseq (Change.Preempted cpu)) }
        requires room { 2 ≤ self.old.room }
        ensures tells { Tells (RoomOf P.same P.consumed P.posted P.tight self.old.poster) self.old.history (Effect.Append (Some (Message.Thread tid tseq (Change.Preempted cpu))) entry) result self.new.history }
        ensures frame { Frame P.same P.consumed P.posted self.old self.new }
        ensures room { self.old.room + length self.old.history ≤ self.new.room + length self.new.history }
    {
        if !post_preempted(&mut self.journal, &mut self.poster, tid, tseq, cpu) {
            self.tear_down();
            return false;
        }
        let effect = Effect::Append {
            victim: Some(Message::Thread {
                tid,
                tseq,
                change: Change::Preempted { cpu },
            }),
            entry,
        };
        append(&mut self.journal, &effect);
        update(&mut self.threads, &mut self.running, &effect);
        self.taken = hold(self.taken, &effect);
        self.agents = lead(self.agents, &effect);
        true
    }

    /// Does the same with a message that is all that a step adds.
    #[inline(always)]
    pub(crate) fn tell_message(&mut self, message: &Message) -> bool
        requires due { ComesNext self.old.settings self.old.history (Effect.Post message.now) }
        requires spellable { IsSpellable message.now }
        requires room { 0 < self.old.room }
        requires rows { is_some (created_in message.now) ≡ true → 0 < self.old.rows }
        ensures tells { Tells (RoomOf P.same P.consumed P.posted P.tight self.old.poster) self.old.history (Effect.Post message.now) result self.new.history }
        ensures frame { Frame P.same P.consumed P.posted self.old self.new }
        ensures room { self.old.room + length self.old.history ≤ self.new.room + length self.new.history }
    {
        if !post(&mut self.journal, &mut self.poster, message) {
            self.tear_down();
            return false;
        }
        follow_message(&mut self.threads, &mut self.running, message);
        true
    }
}

/// Posts PREEMPTED of a thread to the ring and to the journal together, or to neither if it does not fit into
/// the ring. Returns whether it fits.
#[inline(never)]
fn post_preempted<P: Poster>(
    journal: &mut Journal,
    poster: &mut P,
    tid: u32,
    tseq: u32,
    cpu: u16,
) -> bool
    requires entry { 0 < journal.old.room }
    requires few { P.count poster.old < MOST_POSTS }
    requires spellable { IsSpellable (Message.Thread tid tseq (Change.Preempted cpu)) }
    ensures entries { result ≡ true → journal.new.entries ≡ journal.old.entries ++ Entry.Posted (Message.Thread tid tseq (Change.Preempted cpu)) ∷ [] }
    ensures refused { result ≡ false → journal.new ≡ journal.old }
    ensures limit { journal.new.limit ≡ journal.old.limit }
    ensures first_tseq { journal.new.first_tseq ≡ journal.old.first_tseq }
    ensures told { P.posted poster.old (posted journal.old.entries) → P.posted poster.new (posted journal.new.entries) }
    ensures tight { result ≡ false → P.tight poster.old (Message.Thread tid tseq (Change.Preempted cpu)) }
    ensures ring { P.same poster.old poster.new }
    ensures stays { P.consumed poster.new ≡ P.consumed poster.old }
    ensures room { journal.old.room ≤ journal.new.room + 1 }
{
    let message = Message::Thread {
        tid,
        tseq,
        change: Change::Preempted { cpu },
    };
    post(journal, poster, &message)
}

/// Posts the message, if there is one, to the ring and to the journal together, or to neither if it does not
/// fit into the ring. Returns whether it fits.
#[inline(always)]
fn send<P: Poster>(journal: &mut Journal, poster: &mut P, effect: &Effect) -> bool
    requires room { length (listed_message (message_in effect.now)) ≤ journal.old.room }
    requires few { P.count poster.old < MOST_POSTS }
    requires spellable { IfSome (message_in effect.now) IsSpellable }
    ensures entries { result ≡ true → journal.new.entries ≡ journal.old.entries ++ listed_message (message_in effect.now) }
    ensures refused { result ≡ false → journal.new ≡ journal.old }
    ensures limit { journal.new.limit ≡ journal.old.limit }
    ensures first_tseq { journal.new.first_tseq ≡ journal.old.first_tseq }
    ensures told { P.posted poster.old (posted journal.old.entries) → P.posted poster.new (posted journal.new.entries) }
    ensures tight { result ≡ false → (m : Message) × (message_in effect.now ≡ Some m) × P.tight poster.old m }
    ensures ring { P.same poster.old poster.new }
    ensures stays { P.consumed poster.new ≡ P.consumed poster.old }
    ensures room { journal.old.room ≤ journal.new.room + length (listed_message (message_in effect.now)) }
{
    match effect {
        Effect::Post { message } => post(journal, poster, message),
        Effect::Append { victim, .. } => match victim {
            Some(message) => post(journal, poster, message),
            None => true,
        },
    }
}

/// Appends the entry behind the message, if there is one.
#[inline(always)]
fn append(journal: &mut Journal, effect: &Effect)
    requires { length (listed_entry (behind effect.now)) ≤ journal.old.room }
    ensures entries { journal.new.entries ≡ journal.old.entries ++ listed_entry (behind effect.now) }
    ensures limit { journal.new.limit ≡ journal.old.limit }
    ensures first_tseq { journal.new.first_tseq ≡ journal.old.first_tseq }
    ensures room { journal.old.room ≤ journal.new.room + length (listed_entry (behind effect.now)) }
{
    if let Effect::Append { entry, .. } = effect {
        journal.append(*entry);
    }
}

/// Changes the rows and the seats by all that a step adds.
#[inline(always)]
fn update(threads: &mut ThreadTable, running: &mut [Option<u32>], effect: &Effect)
    requires room { IfSome (message_in effect.now) (λ m. is_some (created_in m) ≡ true → 0 < threads.old.room) }
    requires seats { IfSome (message_in effect.now) (λ m. (c : ℕ) → left_by m ≡ Some c → c < length running.old) }
    requires seated { IfSome (behind effect.now) (SeatsBelow (length running.old)) }
    ensures rows { threads.new.rows ≡ rows_seated (rows_told threads.old.first_tseq threads.old.rows (message_in effect.now)) (behind effect.now) }
    ensures first_tseq { threads.new.first_tseq ≡ threads.old.first_tseq }
    ensures seats { running.new ≡ seats_seated (seats_told running.old (message_in effect.now)) (behind effect.now) }
{
    follow(threads, running, effect);
    seat(threads, running, effect);
}

/// Changes the rows and the seats by the message, if there is one.
#[inline(always)]
fn follow(threads: &mut ThreadTable, running: &mut [Option<u32>], effect: &Effect)
    requires room { IfSome (message_in effect.now) (λ m. is_some (created_in m) ≡ true → 0 < threads.old.room) }
    requires seats { IfSome (message_in effect.now) (λ m. (c : ℕ) → left_by m ≡ Some c → c < length running.old) }
    ensures rows { threads.new.rows ≡ rows_told threads.old.first_tseq threads.old.rows (message_in effect.now) }
    ensures first_tseq { threads.new.first_tseq ≡ threads.old.first_tseq }
    ensures seats { running.new ≡ seats_told running.old (message_in effect.now) }
{
    match effect {
        Effect::Post { message } => follow_message(threads, running, message),
        Effect::Append { victim, .. } => {
            if let Some(message) = victim {
                follow_message(threads, running, message);
            }
        }
    }
}

/// Changes the rows and the seats by a message.
#[inline(always)]
fn follow_message(threads: &mut ThreadTable, running: &mut [Option<u32>], message: &Message)
    requires room { is_some (created_in message.now) ≡ true → 0 < threads.old.room }
    requires seats { (c : ℕ) → left_by message.now ≡ Some c → c < length running.old }
    ensures rows { threads.new.rows ≡ rows_told threads.old.first_tseq threads.old.rows (Some message.now) }
    ensures first_tseq { threads.new.first_tseq ≡ threads.old.first_tseq }
    ensures seats { running.new ≡ seats_told running.old (Some message.now) }
{
    match created_in(message) {
        Some(facts) => threads.create(facts),
        None => threads.apply(message),
    }
    free(running, left_by(message));
}

/// Changes the rows and the seats by the entry behind the message, if there is one.
#[inline(always)]
fn seat(threads: &mut ThreadTable, running: &mut [Option<u32>], effect: &Effect)
    requires { IfSome (behind effect.now) (SeatsBelow (length running.old)) }
    ensures rows { threads.new.rows ≡ rows_seated threads.old.rows (behind effect.now) }
    ensures first_tseq { threads.new.first_tseq ≡ threads.old.first_tseq }
    ensures seats { running.new ≡ seats_seated running.old (behind effect.now) }
{
    if let Effect::Append {
        entry: Entry::Placed { tid, cpu, .. },
        ..
    } = effect
    {
        threads.place(*tid, Some(*cpu));
        running[*cpu as usize] = Some(*tid);
    }
}

/// Frees a seat, if one is named.
#[inline(always)]
fn free(running: &mut [Option<u32>], seat: Option<u16>)
    requires { (c : ℕ) → seat ≡ Some c → c < length running.old }
    ensures { running.new ≡ freed running.old seat }
{
    if let Some(cpu) = seat {
        running[cpu as usize] = None;
    }
}

/// Returns the facts of the thread that a message creates, if it does.
#[inline(always)]
fn created_in(message: &Message) -> Option<&Facts>
    ensures { option_copied result ≡ created_in message.now }
{
    match message {
        Message::Thread {
            change: Change::Created { facts },
            ..
        } => Some(facts),
        _ => None,
    }
}

/// Returns the CPU that a message takes its thread off, if it does.
#[inline(always)]
fn left_by(message: &Message) -> Option<u16>
    ensures { result ≡ left_by message.now }
{
    match message {
        Message::Thread { change, .. } => left_in(change),
        Message::TimerTick { .. } => None,
    }
}

/// Returns the CPU that a change takes its thread off, if it does.
#[inline(always)]
fn left_in(change: &Change) -> Option<u16>
    ensures { result ≡ left_in change.now }
{
    match change {
        Change::Blocked { cpu } | Change::Yield { cpu } | Change::Preempted { cpu } => Some(*cpu),
        Change::Dead { cpu } => *cpu,
        Change::Affinity { cpu, off, .. } => { if *off { *cpu } else { None } }
        Change::Created { .. } | Change::Wakeup => None,
    }
}

/// Returns the agents after the entry behind the message, if there is one.
#[inline(always)]
fn lead(agents: Agents, effect: &Effect) -> Agents
    ensures { result ≡ agents_by (behind effect.now) agents }
{
    let Effect::Append { entry, .. } = effect else {
        return agents;
    };
    match entry {
        Entry::Role { generation, cpu } => Agents {
            active: Some((*generation, *cpu)),
            attaching: None,
            generation: *generation,
        },
        Entry::Begin { generation } => Agents {
            active: None,
            attaching: Some(*generation),
            generation: *generation,
        },
        Entry::Left | Entry::Torn => agents.gone(),
        _ => agents,
    }
}

/// Returns the CPUs that the other class holds after the entry behind the message, if there is one.
#[inline(always)]
fn hold(taken: Mask, effect: &Effect) -> Mask
    requires { IfSome (behind effect.now) HoldsNear }
    ensures { (c : ℕ) → has result c ≡ held_by (behind effect.now) c (has taken c) }
{
    match effect {
        Effect::Append {
            entry: Entry::Taken { cpu },
            ..
        } => taken.with(*cpu),
        Effect::Append {
            entry: Entry::Given { cpu },
            ..
        } => taken.without(*cpu),
        _ => taken,
    }
}
