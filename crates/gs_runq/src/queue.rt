ghost use Rattle.std.specs.Prelude.{◌≡◌, ◌==◌, ◌<◌, ◌≤◌, All, length, false, OnOk, OnErr};
ghost use Rattle.gs_layout.specs.declared.facts.Class.{Class as ClassOf};
ghost use Rattle.gs_runq.specs.Queue.{IsTid, is_in, empty, order, class_of, put, removed, Apart};

use crate::line::Line;
use crate::walk::{QueueWalk, both};
use gs_layout::{Class, MOST_TIDS};
use std::alloc::{AllocError, Global};
use std::marker::Model;

/// Threads that wait, each once: those of class 0 in the order in which they came, then those of
/// class 1. A thread is named by its tid.
///
/// `push`, `remove` and `has` take a constant number of steps, however many threads wait, and do not
/// allocate. Only the first push of a tid above all that came takes a step for each tid in between. A walk
/// visits only the threads that wait.
#[derive(Drop)]
pub struct RunQueue {
    zero_class: Line,
    one_class: Line,
}

impl Model for RunQueue {
    ghost use Rattle.gs_runq.specs.Queue.{Queue};

    ghost Value = { Queue };

    ghost use Rattle.gs_runq.specs.Held.{queue_view, QueueInvariant};

    ghost view = { queue_view };

    ghost invariant = { QueueInvariant };
}

impl RunQueue {
    /// Makes a queue in which nobody waits, with room for nobody. It does not allocate.
    pub fn new(alloc: Global) -> RunQueue
        ensures { result ≡ empty }
    {
        RunQueue {
            zero_class: Line::new(alloc),
            one_class: Line::new(alloc),
        }
    }

    /// Makes room for that many threads of each class, at most [`MOST_TIDS`]. It changes nothing of who
    /// waits, and keeps the room that was there.
    ///
    /// # Errors
    ///
    /// `AllocError` if out of memory. Nothing changes then.
    pub fn reserve(&mut self, n: u32) -> Result<(), AllocError>
        requires { n ≤ MOST_TIDS }
        ensures ok { OnOk result (n ≤ self.new.room) }
        ensures zero_class { self.new.zero_class ≡ self.old.zero_class }
        ensures one_class { self.new.one_class ≡ self.old.one_class }
        ensures room { self.old.room ≤ self.new.room }
        ensures err { OnErr result (self.new ≡ self.old) }
    {
        if n == 0 {
            return Ok(());
        }
        self.zero_class.reserve()?;
        self.one_class.reserve()?;
        Ok(())
    }

    /// Puts a thread that does not wait yet last of its class. There has to be room for it. It does not
    /// allocate.
    #[inline(always)]
    pub fn push(&mut self, tid: u32, class: Class)
        requires tid { IsTid tid }
        requires room { length (class_of class self.old) < self.old.room }
        requires absent { is_in tid (order self.old) ≡ false }
        ensures { self.new ≡ put class tid self.old }
    {
        match class {
            Class::Zero => self.zero_class.push(tid),
            Class::One => self.one_class.push(tid),
        }
    }

    /// Takes a thread out of its class, or changes nothing if it does not wait.
    #[inline(always)]
    pub fn remove(&mut self, tid: u32)
        ensures { self.new ≡ removed tid self.old }
    {
        self.zero_class.remove(tid);
        self.one_class.remove(tid);
    }

    /// Takes out all that wait, and keeps the room that was made. It does not allocate.
    pub fn clear(&mut self)
        ensures { self.new ≡ record empty { room = self.old.room } }
    {
        self.zero_class.clear();
        self.one_class.clear();
    }

    /// Returns whether a thread waits. Tid 0 and tids above [`MOST_TIDS`] never do. A thread that does not
    /// wait finds room in a queue that was given room for all of them.
    #[tactic(auto, using(crate::proofs::Queues::in_append))]
    #[inline(always)]
    pub fn has(&self, tid: u32) -> bool
        ensures has { result ≡ is_in tid (order self.now) }
        ensures spare { result ≡ false → IsTid tid → (class : ClassOf) → length (class_of class self.now) < MOST_TIDS }
    {
        self.zero_class.has(tid) || self.one_class.has(tid)
    }

    /// Returns how many threads wait, of both classes together.
    pub fn len(&self) -> usize
        ensures { result ≡ length (order self.now) }
    {
        self.zero_class.len() as usize + self.one_class.len() as usize
    }

    /// Returns how many threads of each class there is room for, those that wait among them.
    pub fn room(&self) -> u32
        ensures { result ≡ self.now.room }
    {
        self.one_class.room()
    }

    /// Returns whether nobody waits.
    pub fn is_empty(&self) -> bool
        ensures { result ≡ (length (order self.now) == 0) }
    {
        self.len() == 0
    }

    /// Walks the tids of those who wait, in order, each once. It does not allocate.
    pub fn walk(&self) -> QueueWalk<'_>
        ensures order { result ≡ order self.now }
        ensures apart { Apart (order self.now) }
        ensures tids { All IsTid (order self.now) }
    {
        both(self.zero_class.walk(), self.one_class.walk())
    }
}
