//! Commands that nothing refuses are applied.

ghost use Rattle.std.specs.Prelude.{◌≡◌, ◌+◌, ◌<◌, ◌≤◌, None, false, length, true};
ghost use Rattle.std.specs.Option.{is_some};
ghost use Rattle.gs_layout.specs.Spelling.{IsSpellable};
ghost use Rattle.gs_kernel.specs.declared.command.Command.{Command};
ghost use Rattle.gs_kernel.specs.declared.effect.Effect.{Effect};
ghost use Rattle.gs_journal.specs.History.{on};
ghost use Rattle.gs_kernel.specs.Kernel.{is_spent_there, preemption};
ghost use Rattle.gs_kernel.specs.Landing.{placing_entries};
ghost use Rattle.gs_kernel.specs.Lands.{ComesNext};
ghost use Rattle.gs_kernel.specs.Legal.{Frame, RoomOf, Tells, creates, effect, entries_in, message_in, most_entries, refusal};

use crate::command::Command;
use crate::effect::Effect;
use crate::kernel::Kernel;
use crate::thread_event::ThreadEvent;
use gs_journal::Entry;
use gs_layout::{Facts, Message};
use gs_ring::Poster;

impl<P: Poster> Kernel<P> {
    /// Creates a thread.
    #[inline(always)]
    pub(crate) fn tell_creation(&mut self, facts: &Facts) -> bool
        requires free { refusal self.old.settings self.old.history self.old.paged (Command.Create facts.now) ≡ None }
        requires room { 1 ≤ self.old.room }
        requires rows { 0 < self.old.rows }
        ensures told { Tells (RoomOf P.same P.consumed P.posted P.tight self.old.poster) self.old.history (effect self.old.settings self.old.history (Command.Create facts.now)) result self.new.history }
        ensures frame { Frame P.same P.consumed P.posted self.old self.new }
    {
        let message = self.creation(facts);
        self.tell_message(&message)
    }

    /// Lets something happen to a thread.
    #[inline(always)]
    pub(crate) fn tell_happening(&mut self, tid: u32, event: ThreadEvent) -> bool
        requires free { refusal self.old.settings self.old.history self.old.paged (Command.Thread tid event) ≡ None }
        requires room { 1 ≤ self.old.room }
        ensures told { Tells (RoomOf P.same P.consumed P.posted P.tight self.old.poster) self.old.history (effect self.old.settings self.old.history (Command.Thread tid event)) result self.new.history }
        ensures frame { Frame P.same P.consumed P.posted self.old self.new }
    {
        let message = self.happening(tid, event);
        self.tell_message(&message)
    }

    /// Takes a CPU for the other class.
    #[inline(always)]
    pub(crate) fn tell_taking(&mut self, cpu: u16) -> bool
        requires free { refusal self.old.settings self.old.history self.old.paged (Command.Take cpu) ≡ None }
        requires room { 2 ≤ self.old.room }
        ensures told { Tells (RoomOf P.same P.consumed P.posted P.tight self.old.poster) self.old.history (effect self.old.settings self.old.history (Command.Take cpu)) result self.new.history }
        ensures frame { Frame P.same P.consumed P.posted self.old self.new }
    {
        self.tell_entry(cpu, Entry::Taken { cpu })
    }

    /// Gives a CPU back.
    #[inline(always)]
    pub(crate) fn tell_giving(&mut self, cpu: u16) -> bool
        requires free { refusal self.old.settings self.old.history self.old.paged (Command.Give cpu) ≡ None }
        requires room { 1 ≤ self.old.room }
        ensures told { Tells (RoomOf P.same P.consumed P.posted P.tight self.old.poster) self.old.history (effect self.old.settings self.old.history (Command.Give cpu)) result self.new.history }
        ensures frame { Frame P.same P.consumed P.posted self.old self.new }
    {
        self.tell_alone(Entry::Given { cpu });
        true
    }

    /// Lets the timer of a CPU tick.
    #[inline(always)]
    pub(crate) fn tell_tick(&mut self, cpu: u16) -> bool
        requires free { refusal self.old.settings self.old.history self.old.paged (Command.Tick cpu) ≡ None }
        requires room { 1 ≤ self.old.room }
        ensures told { Tells (RoomOf P.same P.consumed P.posted P.tight self.old.poster) self.old.history (effect self.old.settings self.old.history (Command.Tick cpu)) result self.new.history }
        ensures frame { Frame P.same P.consumed P.posted self.old self.new }
    {
        // Reads a field to expose the invariant.
        let _settings = &self.settings;
        self.tell_message(&Message::TimerTick { cpu })
    }

    /// Hands the active agent off to a CPU, as one of the next generation.
    #[inline(always)]
    pub(crate) fn tell_hand_off(&mut self, cpu: u16) -> bool
        requires free { refusal self.old.settings self.old.history self.old.paged (Command.HandOff cpu) ≡ None }
        requires room { 2 ≤ self.old.room }
        ensures told { Tells (RoomOf P.same P.consumed P.posted P.tight self.old.poster) self.old.history (effect self.old.settings self.old.history (Command.HandOff cpu)) result self.new.history }
        ensures frame { Frame P.same P.consumed P.posted self.old self.new }
    {
        let effect = self.handing_over(cpu);
        self.tell(&effect)
    }

    /// Lets the agent leave.
    #[inline(always)]
    pub(crate) fn tell_leaving(&mut self) -> bool
        requires free { refusal self.old.settings self.old.history self.old.paged Command.Leave ≡ None }
        requires room { 1 ≤ self.old.room }
        ensures told { Tells (RoomOf P.same P.consumed P.posted P.tight self.old.poster) self.old.history (effect self.old.settings self.old.history Command.Leave) result self.new.history }
        ensures frame { Frame P.same P.consumed P.posted self.old self.new }
    {
        self.tell_alone(Entry::Left);
        true
    }

    /// Lets a new agent begin to attach.
    #[inline(always)]
    pub(crate) fn tell_beginning(&mut self) -> bool
        requires free { refusal self.old.settings self.old.history self.old.paged Command.Begin ≡ None }
        requires room { 1 ≤ self.old.room }
        ensures told { Tells (RoomOf P.same P.consumed P.posted P.tight self.old.poster) self.old.history (effect self.old.settings self.old.history Command.Begin) result self.new.history }
        ensures frame { Frame P.same P.consumed P.posted self.old self.new }
    {
        let generation = self.next_generation();
        self.tell_alone(Entry::Begin { generation });
        true
    }

    /// Activates the agent that attaches, on a CPU.
    #[inline(always)]
    pub(crate) fn tell_activation(&mut self, cpu: u16) -> bool
        requires free { refusal self.old.settings self.old.history self.old.paged (Command.Activate cpu) ≡ None }
        requires room { 2 ≤ self.old.room }
        ensures told { Tells (RoomOf P.same P.consumed P.posted P.tight self.old.poster) self.old.history (effect self.old.settings self.old.history (Command.Activate cpu)) result self.new.history }
        ensures frame { Frame P.same P.consumed P.posted self.old self.new }
    {
        let effect = self.activating(cpu);
        self.tell(&effect)
    }

    /// Appends an entry that gives a CPU to another, behind PREEMPTED of the thread there, if there is one. Returns whether
    /// that fits, as [`Kernel::tell`] does.
    #[inline(always)]
    pub(crate) fn tell_entry(&mut self, cpu: u16, entry: Entry) -> bool
        requires cpu { cpu < self.old.settings.cpus }
        requires numbers { is_spent_there self.old.settings self.old.history (on self.old.history cpu) ≡ false }
        requires due { ComesNext self.old.settings self.old.history (Effect.Append (preemption self.old.settings self.old.history cpu) entry) }
        requires room { placing_entries (on self.old.history cpu) ≤ self.old.room }
        ensures told { Tells (RoomOf P.same P.consumed P.posted P.tight self.old.poster) self.old.history (Effect.Append (preemption self.old.settings self.old.history cpu) entry) result self.new.history }
        ensures frame { Frame P.same P.consumed P.posted self.old self.new }
        ensures room { self.old.room + length self.old.history ≤ self.new.room + length self.new.history }
    {
        match self.victim(cpu) {
            Some((tid, tseq)) => self.tell_behind(tid, tseq, cpu, entry),
            None => {
                self.tell_alone(entry);
                true
            }
        }
    }
}
