ghost use Rattle.std.specs.Prelude.{◌≡◌, ◌++◌, ◌-◌, OnOk, map};
ghost use Rattle.gs_timeline.specs.Lives.{born, class_among, class_known, created};

use crate::decided::failure_of;
use crate::lane::Lane;
use crate::notes::Mark;
use crate::part::Part;
use crate::phrases::write_escaped;
use crate::readiness::{Readiness, is_turn};
use crate::stay::Stay;
use crate::text::Text;
use crate::words::{Words, write_words};
use gs_journal::Entry;
use gs_layout::{Change, Class, Facts, Message, Name};
use std::alloc::{AllocError, Global};

/// What a history tells of a thread.
#[derive(Drop)]
pub(crate) struct Life {
    pub tid: u32,
    pub class: Class,
    name: Name,
    /// Which thread it is, in words, if that is told often.
    words: Option<Box<Words>>,
    readiness: Readiness,
    /// Behind how many of the shown entries it lived and could run.
    ready: usize,
    /// Behind how many of the shown entries it was on a CPU.
    ran: usize,
}

impl Life {
    /// Makes the life of a thread of these facts, of which nothing is told yet.
    #[inline(always)]
    fn new(tid: u32, facts: &Facts) -> Life
        ensures { born result ≡ (tid, facts.now.class) }
    {
        Life {
            tid,
            class: facts.class,
            name: facts.name,
            words: None,
            readiness: Readiness::none(),
            ready: 0,
            ran: 0,
        }
    }

    /// Returns how many letters its name has: none if it has no name.
    pub(crate) fn letters(&self) -> u64 {
        self.name.as_bytes().len() as u64
    }

    /// Returns whether it has a name.
    pub(crate) fn has_name(&self) -> bool {
        self.letters() > 0
    }

    /// Adds its name as it is shown.
    pub(crate) fn write_name(&self, out: &mut Text) -> Result<(), AllocError>
        ensures { out.new.settled ≡ out.old.settled }
    {
        match &self.words {
            Some(words) => out.push_str(words.name()),
            None => write_escaped(out, &self.name),
        }
    }

    /// Adds the words that say which thread it is.
    #[inline(always)]
    pub(crate) fn write(&self, out: &mut Text) -> Result<(), AllocError>
        ensures { out.new.settled ≡ out.old.settled }
    {
        match &self.words {
            Some(words) => out.push_str(words.all()),
            None => write_words(out, self.tid, &self.name, self.class),
        }
    }

    /// Makes the words that say which thread it is, and keeps them. They are written into a text first.
    fn make_words(&mut self, alloc: Global, scratch: &mut Text) -> Result<(), AllocError>
        ensures { born self.new ≡ born self.old }
    {
        let words = Words::new(alloc, scratch, self.tid, &self.name, self.class)?;
        self.words = Some(Box::new(alloc, words)?);
        Ok(())
    }

    /// Keeps the words that say which thread it is, if they are not kept yet.
    #[inline(always)]
    fn keep_words(&mut self, alloc: Global, scratch: &mut Text) -> Result<(), AllocError>
        ensures { born self.new ≡ born self.old }
    {
        if self.words.is_none() {
            return self.make_words(alloc, scratch);
        }
        Ok(())
    }

    /// Counts the entries from one on and before that of this place, which are shown, as those behind which it could run.
    #[inline(always)]
    fn add_ready(&mut self, part: &Part<'_>, since: Option<usize>, place: usize)
        ensures { born self.new ≡ born self.old }
    {
        if let Some(since) = since {
            self.ready = self.ready.saturating_add(part.shown(since, place));
        }
    }

    /// Ends the time that it may run, by the entry of this place, if it may.
    fn end(&mut self, part: &Part<'_>, place: usize)
        ensures { born self.new ≡ born self.old }
    {
        let since = self.readiness.end();
        self.add_ready(part, since, place);
    }

    /// Changes as a message about it says, whose entry is that of this place.
    #[inline(always)]
    fn tell(&mut self, part: &Part<'_>, place: usize, change: &Change)
        ensures { born self.new ≡ born self.old }
    {
        let since = self.readiness.tell(place, change);
        self.add_ready(part, since, place);
    }

    /// Counts a stay on a CPU, and keeps the words that say which thread it is.
    #[inline(always)]
    fn add_stay(
        &mut self,
        alloc: Global,
        part: &Part<'_>,
        stay: &Stay,
        scratch: &mut Text,
    ) -> Result<(), AllocError>
        ensures { born self.new ≡ born self.old }
    {
        self.ran = self.ran.saturating_add(part.shown(stay.from, stay.to));
        self.keep_words(alloc, scratch)
    }

    /// Returns behind how many of the shown entries it was on a CPU.
    pub(crate) fn ran(&self) -> usize {
        self.ran
    }

    /// Returns behind how many of the shown entries it could run, and was on no CPU.
    pub(crate) fn waited(&self) -> usize {
        self.ready.saturating_sub(self.ran)
    }
}

/// Returns the place of a thread in a list by tid, whose first is 1.
pub(crate) fn index_of(tid: u32) -> usize
    ensures { result ≡ tid - 1 }
{
    (tid as usize).saturating_sub(1)
}

/// Lends the life of a thread, or returns `None` if it was not created.
pub(crate) fn life_of(lives: &[Life], tid: u32) -> Option<&Life>
    ensures { class_known result ≡ class_among (map born lives.now) tid }
{
    match lives.get(index_of(tid)) {
        Some(life) if life.tid == tid => Some(life),
        _ => None,
    }
}

/// Returns the class of a life, if there is one.
pub(crate) fn class_known(life: Option<&Life>) -> Option<Class>
    ensures { result ≡ class_known life.entry }
{
    match life {
        Some(life) => Some(life.class),
        None => None,
    }
}

/// Changes a thread's life as a message about it says.
#[inline(always)]
fn tell(lives: &mut [Life], part: &Part<'_>, place: usize, tid: u32, change: &Change)
    ensures { map born lives.new ≡ map born lives.old }
{
    let index = index_of(tid);
    if index < lives.len() {
        lives[index].tell(part, place, change);
    }
}

/// Ends the time that each thread may run, by the entry of this place.
fn end_all(lives: &mut [Life], part: &Part<'_>, place: usize)
    ensures { map born lives.new ≡ map born lives.old }
{
    for index in 0..lives.len() {
        lives[index].end(part, place);
    }
}

/// Counts the stays of threads on a CPU, and keeps the words for these threads: they are told again and again.
fn add_stays(
    alloc: Global,
    lives: &mut [Life],
    part: &Part<'_>,
    stays: &[Stay],
    scratch: &mut Text,
) -> Result<(), AllocError>
    ensures { OnOk result (map born lives.new ≡ map born lives.old) }
{
    for stay in stays {
        let index = index_of(stay.tid);
        if index < lives.len() {
            lives[index].add_stay(alloc, part, stay, scratch)?;
        }
    }
    Ok(())
}

/// Keeps the words for each thread that a transaction did not place: they are told again and again, too.
fn keep_words_of_failed(
    alloc: Global,
    lives: &mut [Life],
    marks: &[Mark],
    scratch: &mut Text,
) -> Result<(), AllocError>
    ensures { OnOk result (map born lives.new ≡ map born lives.old) }
{
    for mark in marks {
        if failure_of(mark).is_none() {
            continue;
        }
        let index = index_of(mark.tid);
        if index < lives.len() {
            lives[index].keep_words(alloc, scratch)?;
        }
    }
    Ok(())
}

/// Changes the lives of threads as the entry of a place says.
#[inline(always)]
pub(crate) fn hear_lives(
    lives: &mut Vec<Life>,
    part: &Part<'_>,
    place: usize,
    entry: &Entry,
) -> Result<(), AllocError>
    ensures { OnOk result (map born lives.new.items ≡ map born lives.old.items ++ created entry.now) }
{
    match entry {
        Entry::Posted {
            message: Message::Thread { tid, change, .. },
        } => {
            if let Change::Created { facts } = change {
                lives.push(Life::new(*tid, facts))?;
            }
            if is_turn(change) {
                tell(lives, part, place, *tid, change);
            }
        }
        Entry::Torn => end_all(lives, part, place),
        _ => {}
    }
    Ok(())
}

/// Ends the lives of threads behind so many entries, and counts their stays on CPUs, of which there is a lane each. The words
/// for threads that are told often are kept: of most of many thousands they are never told.
pub(crate) fn end_lives(
    alloc: Global,
    lives: &mut [Life],
    part: &Part<'_>,
    entries: usize,
    lanes: &[Lane],
    marks: &[Mark],
) -> Result<(), AllocError>
    ensures { OnOk result (map born lives.new ≡ map born lives.old) }
{
    end_all(lives, part, entries);
    let mut scratch = Text::new(alloc);
    for lane in lanes {
        add_stays(alloc, lives, part, lane.stays(), &mut scratch)?;
    }
    keep_words_of_failed(alloc, lives, marks, &mut scratch)
}
