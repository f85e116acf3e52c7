ghost use Rattle.std.specs.Prelude.{◌≡◌, ◌<◌, ◌≤◌, ◌++◌, ◌∷◌, [], false, ℕ, length, slice_index, vec_capacity, All, OnOk, OnErr};
ghost use Rattle.gs_runq.specs.Inside.{IsLonger};
ghost use Rattle.gs_runq.specs.Queue.{IsTid, is_in, without};

use crate::walk::{LineWalk, along};
use gs_layout::MOST_TIDS;
use std::alloc::{AllocError, Global};
use std::marker::Model;

/// How many places a table has: place 0, and one for each tid.
const PLACES: u32 = MOST_TIDS + 1;

/// Lengthens a table up to a thread's place: each place that it lacked up to there leads to itself. Memory
/// for it is reserved.
#[inline(always)]
fn lengthen(table: &mut Vec<u32>, tid: u32)
    requires room { tid < vec_capacity table.old }
    requires tid { tid ≤ MOST_TIDS }
    ensures longer { IsLonger table.old.items table.new.items tid }
    ensures capacity { vec_capacity table.new ≡ vec_capacity table.old }
{
    while table.len() <= tid as usize {
        table.push_reserved(table.len() as u32);
    }
}

/// Lets each place of a table lead to itself.
fn lead_back(table: &mut [u32])
    requires { length table.old ≤ PLACES }
    ensures count { length table.new ≡ length table.old }
    ensures own { (i : ℕ) → i < length table.old → slice_index table.new i ≡ i }
{
    for at in 0..table.len() {
        table[at] = at as u32;
    }
}

/// Threads in line: those of one class that wait.
///
/// They are linked in a circle through two tables by tid. Place t of `next` has the thread that follows
/// thread t, and place t of `previous` the one before it. Place 0 is no thread's and closes the circle: it
/// leads to the first thread, and the last one leads to it. In an empty line it leads to itself. A thread
/// that is not in the line follows itself, which no thread in line does.
///
/// So whether a thread is there is one look at its own place. It goes last behind the one before place 0, and
/// it leaves by linking its two neighbours. None of these walks along the line.
///
/// The first reservation allocates all places. The tables grow into it as far as the greatest tid that came,
/// so that memory for tids that never come is not touched.
#[derive(Drop)]
pub struct Line {
    next: Vec<u32>,
    previous: Vec<u32>,
    count: u32,
}

impl Model for Line {
    ghost use Rattle.gs_runq.specs.Line.{LineState};

    ghost Value = { LineState };

    ghost use Rattle.gs_runq.specs.Inside.{line_view, LineInvariant};

    ghost view = { line_view };

    ghost invariant = { LineInvariant };
}

impl Line {
    /// Makes an empty line, with room for nobody. It does not allocate.
    pub fn new(alloc: Global) -> Line
        ensures threads { result.threads ≡ [] }
        ensures room { result.room ≡ 0 }
    {
        Line {
            next: Vec::new(alloc),
            previous: Vec::new(alloc),
            count: 0,
        }
    }

    /// Makes room for each thread that there can be.
    ///
    /// # Errors
    ///
    /// `AllocError` if out of memory for both tables; nothing changes then.
    pub fn reserve(&mut self) -> Result<(), AllocError>
        ensures ok { OnOk result (self.new.room ≡ MOST_TIDS) }
        ensures threads { self.new.threads ≡ self.old.threads }
        ensures room { self.old.room ≤ self.new.room }
        ensures most { self.new.room ≤ MOST_TIDS }
        ensures err { OnErr result (self.new ≡ self.old) }
    {
        if self.previous.capacity() == 0 {
            self.next.reserve(PLACES as usize)?;
            self.previous.reserve(PLACES as usize)?;
        }
        Ok(())
    }

    /// Takes everybody out of the line, and keeps the memory that was reserved.
    pub fn clear(&mut self)
        ensures threads { self.new.threads ≡ [] }
        ensures room { self.new.room ≡ self.old.room }
    {
        lead_back(&mut self.next);
        if let Some(last) = self.previous.first_mut() {
            *last = 0;
        }
        self.count = 0;
    }

    /// Returns how many threads are in line.
    pub fn len(&self) -> u32
        ensures { result ≡ length self.now.threads }
    {
        self.count
    }

    /// Returns how many threads there is room for, those in line among them.
    pub fn room(&self) -> u32
        ensures { result ≡ self.now.room }
    {
        let places = self.previous.capacity().min(PLACES as usize);
        places.saturating_sub(1) as u32
    }

    /// Walks the threads in order, each a thread's number.
    pub fn walk(&self) -> LineWalk<'_>
        ensures threads { result ≡ self.now.threads }
        ensures tids { All IsTid self.now.threads }
    {
        along(&self.next, self.count)
    }

    /// Returns whether a thread is in line. Each thread in line has a thread's number.
    #[inline(always)]
    pub fn has(&self, tid: u32) -> bool
        ensures has { result ≡ is_in tid self.now.threads }
        ensures tids { All IsTid self.now.threads }
    {
        let at = tid as usize;
        if at >= self.next.len() {
            return false;
        }
        tid != 0 && self.next[at] != tid
    }

    /// Puts a thread last. It does not allocate. It takes a constant number of steps, and one more for each
    /// place that comes before the thread's own for the first time.
    #[inline(always)]
    pub fn push(&mut self, tid: u32)
        requires tid { IsTid tid }
        requires room { length self.old.threads < self.old.room }
        requires absent { is_in tid self.old.threads ≡ false }
        ensures threads { self.new.threads ≡ self.old.threads ++ tid ∷ [] }
        ensures room { self.new.room ≡ self.old.room }
    {
        lengthen(&mut self.next, tid);
        lengthen(&mut self.previous, tid);
        let last = self.previous[0];
        self.next[last as usize] = tid;
        self.previous[tid as usize] = last;
        self.next[tid as usize] = 0;
        self.previous[0] = tid;
        self.count += 1;
    }

    /// Takes a thread out of the line, if it is there.
    #[inline(always)]
    pub fn remove(&mut self, tid: u32)
        ensures threads { self.new.threads ≡ without tid self.old.threads }
        ensures room { self.new.room ≡ self.old.room }
    {
        if !self.has(tid) {
            return;
        }
        let at = tid as usize;
        let before = self.previous[at];
        let after = self.next[at];
        self.next[before as usize] = after;
        self.previous[after as usize] = before;
        self.next[at] = tid;
        self.count -= 1;
    }
}
