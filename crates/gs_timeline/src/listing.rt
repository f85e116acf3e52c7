//! Which threads are listed below the rows: those that never ran first, and the longest wait before a shorter one.

use crate::lives::{Life, class_known, life_of};
use crate::notes::Listed;
use gs_layout::Class;
use std::alloc::{AllocError, Global};
use std::mem;

/// How many threads of a class that never ran are listed, if a few are.
pub const FEW_IDLE: usize = 3;

/// How many threads that ran are listed, if a few are.
pub const FEW: usize = 40;

/// A line below the rows.
#[derive(Clone, Copy)]
pub(crate) enum Line {
    /// That of a thread.
    Thread { tid: u32 },
    /// How many more of a class there are that ran, or that never did.
    More { class: Class, ran: bool, count: u64 },
}

/// Where a thread stands among those that ran, or among those that never did: it waited long or less so, and its tid.
type Rank = (usize, u32);

/// Returns where a thread stands.
#[inline(always)]
fn rank_of(life: &Life) -> Rank {
    (usize::MAX - life.waited(), life.tid)
}

/// The first few threads of some, which are counted.
#[derive(Drop)]
struct Firsts {
    /// How many these are at most.
    most: usize,
    /// The first few, and some of those behind them. Those up to the bound are in order.
    ranks: Vec<Rank>,
    /// Where the last of the first few stood, once there were more.
    bound: Option<Rank>,
    count: u64,
}

impl Firsts {
    /// Makes those of no threads, of which so many are kept at most. It does not allocate.
    fn new(alloc: Global, most: usize) -> Firsts {
        Firsts {
            most,
            ranks: Vec::new(alloc),
            bound: None,
            count: 0,
        }
    }

    /// Puts the threads in order, and lets go of those behind the first few.
    fn cut(&mut self) -> Result<(), AllocError> {
        self.ranks.sort()?;
        if self.ranks.len() > self.most {
            self.ranks.truncate(self.most);
            self.bound = self.ranks.last().copied();
        }
        Ok(())
    }

    /// Adds a thread that stands at this place. It is kept only if it may be one of the first few.
    #[inline(always)]
    fn add(&mut self, rank: Rank) -> Result<(), AllocError> {
        if self.bound.is_some_and(|bound| bound < rank) {
            return Ok(());
        }
        self.ranks.push(rank)?;
        if self.ranks.len() > self.most.saturating_mul(2) {
            return self.cut();
        }
        Ok(())
    }
}

/// How many threads may be listed of those that ran, or of those that never did: of each class, and in all.
#[derive(Clone, Copy)]
struct Room {
    each: usize,
    all: usize,
}

impl Room {
    /// Returns the room for threads that ran, or that never did.
    fn new(listed: Listed, ran: bool) -> Room {
        let (each, all) = match listed {
            Listed::All | Listed::One(_) => (usize::MAX, usize::MAX),
            Listed::Most(most) => (usize::MAX, most),
            Listed::Few if ran => (usize::MAX, FEW),
            Listed::Few => (FEW_IDLE, usize::MAX),
        };
        Room { each, all }
    }
}

/// Returns whether a thread may be listed at all.
#[inline(always)]
fn may_have_line(listed: Listed, tid: u32) -> bool {
    match listed {
        Listed::One(only) => only == tid as usize,
        _ => true,
    }
}

/// The threads that ran, or those that never did.
#[derive(Drop)]
struct Those {
    zero: Firsts,
    one: Firsts,
    ran: bool,
}

impl Those {
    /// Makes those of no threads.
    fn new(alloc: Global, listed: Listed, ran: bool) -> Those {
        let room = Room::new(listed, ran);
        let most = room.each.min(room.all);
        Those {
            zero: Firsts::new(alloc, most),
            one: Firsts::new(alloc, most),
            ran,
        }
    }

    /// Counts a thread, and keeps it if it may have a line.
    #[inline(always)]
    fn add(&mut self, life: &Life, listed: Listed) -> Result<(), AllocError> {
        let firsts = match life.class {
            Class::Zero => &mut self.zero,
            Class::One => &mut self.one,
        };
        firsts.count = firsts.count.saturating_add(1);
        if may_have_line(listed, life.tid) {
            return firsts.add(rank_of(life));
        }
        Ok(())
    }

    /// Returns the first of both classes, as many as there is room for, in order.
    fn ranks(&mut self, room: usize) -> Result<Vec<Rank>, AllocError> {
        self.zero.cut()?;
        self.one.cut()?;
        let mut ranks = mem::try_take(&mut self.zero.ranks)?;
        ranks.extend_from_slice(&self.one.ranks)?;
        ranks.sort()?;
        ranks.truncate(room);
        Ok(ranks)
    }

    /// Adds the lines of the first threads, as many as there is room for, and of how many more there are. Returns how many
    /// have a line of their own.
    fn add_lines(
        &mut self,
        lines: &mut Vec<Line>,
        lives: &[Life],
        room: usize,
    ) -> Result<usize, AllocError> {
        let ranks = self.ranks(room)?;
        let mut zero = self.zero.count;
        let mut one = self.one.count;
        for (_, tid) in &ranks {
            lines.push(Line::Thread { tid: *tid })?;
            match class_known(life_of(lives, *tid)) {
                Some(Class::Zero) => zero = zero.saturating_sub(1),
                Some(Class::One) => one = one.saturating_sub(1),
                None => {}
            }
        }
        add_more(lines, Class::Zero, self.ran, zero)?;
        add_more(lines, Class::One, self.ran, one)?;
        Ok(ranks.len())
    }
}

/// Adds the line of how many more there are, if there are any.
fn add_more(lines: &mut Vec<Line>, class: Class, ran: bool, count: u64) -> Result<(), AllocError> {
    if count > 0 {
        lines.push(Line::More { class, ran, count })?;
    }
    Ok(())
}

/// Returns the lines below the rows.
pub(crate) fn listing(
    alloc: Global,
    lives: &[Life],
    listed: Listed,
) -> Result<Vec<Line>, AllocError> {
    let mut idle = Those::new(alloc, listed, false);
    let mut ran = Those::new(alloc, listed, true);
    for life in lives {
        let those = if life.ran() > 0 { &mut ran } else { &mut idle };
        those.add(life, listed)?;
    }
    let mut lines = Vec::new(alloc);
    let count = idle.add_lines(&mut lines, lives, Room::new(listed, false).all)?;
    let room = match listed {
        Listed::Most(most) => most.saturating_sub(count),
        _ => Room::new(listed, true).all,
    };
    let _ = ran.add_lines(&mut lines, lives, room)?;
    Ok(lines)
}
