ghost use Rattle.std.specs.Prelude.{◌≡◌, ◌≢◌, ◌↔◌, ◌==◌, ◌<◌, ◌≤◌, ◌+◌, ℕ, true, false, [], length, All, IfOk, OnOk, OnErr};
ghost use Rattle.std.specs.List.Sorted.{IsStrictlyIncreasing};
ghost use Rattle.gs_layout.specs.Spelling.{kind_of, tid_of};
ghost use Rattle.gs_layout.specs.View.{apply, is_gap, look_up, word};
ghost use Rattle.gs_view.specs.Begins.{begins};
ghost use Rattle.gs_view.specs.Loaded.{HasRoomFor, loaded, with_record};
ghost use Rattle.gs_view.specs.Shown.{if_shown, tids};
ghost use Rattle.gs_view.specs.News.{ready_of, word_of};

use crate::fault::ApplyFault;
use crate::news::{Heard, News};
use crate::records::{Records, ready};
use crate::walk::ViewWalk;
use gs_dump::{DumpRecord, Page, WrittenPage};
use gs_layout::{Class, Facts, Kind, Known};
use gs_reader::MessageRef;
use std::alloc::{AllocError, Global};
use std::marker::Model;

/// What the agent knows of each thread: its facts, at a sequence number. Clauses see the records in
/// increasing order of tid (`entries`), and how much room there is.
///
/// To look a record up, and to apply a message, takes the same time for any number of records. It allocates the
/// records, and a place for each tid up to the greatest that was seen.
#[derive(Drop)]
pub struct AgentView {
    records: Records,
}

impl Model for AgentView {
    ghost use Rattle.gs_view.specs.Records.{RecordsState};

    ghost Value = { RecordsState };

    ghost view = { λ v. v.records };
}

impl AgentView {
    /// Makes a view that knows nothing. It does not allocate.
    pub fn new(alloc: Global) -> AgentView
        ensures { result.entries ≡ [] }
    {
        AgentView {
            records: Records::new(alloc),
        }
    }

    /// Forgets all that is known, and keeps the memory of the records for those to come. It does not allocate.
    pub fn clear(&mut self, alloc: Global)
        ensures { self.new.entries ≡ [] }
    {
        self.records.clear(alloc);
    }

    /// Returns of how many threads something is known.
    pub fn len(&self) -> usize
        ensures { result ≡ length self.now.entries }
    {
        self.records.len()
    }

    /// Returns whether nothing is known of any thread.
    pub fn is_empty(&self) -> bool
        ensures { result ≡ (length self.now.entries == 0) }
    {
        self.records.len() == 0
    }

    /// Lends the facts of a thread and returns the sequence number at which they were so, or `None` if nothing
    /// is known. It does not allocate.
    pub fn get(&self, tid: u32) -> Option<(&Facts, u32)>
        ensures { if_shown result ≡ look_up self.now.entries tid }
    {
        let known = self.records.get(tid)?;
        Some((&known.facts, known.tseq))
    }

    /// Returns the class of a thread that may run, and `None` if it may not, or nothing is known of it. It does not
    /// allocate.
    pub fn ready(&self, tid: u32) -> Option<Class>
        ensures { result ≡ ready_of (look_up self.now.entries tid) }
    {
        let (facts, _) = self.get(tid)?;
        ready(facts)
    }

    /// Walks all that is known, in increasing order of tid: of each thread its tid, its facts, and the sequence
    /// number at which they were so. It does not allocate.
    pub fn walk(&self) -> ViewWalk<'_>
        ensures whole { result ≡ self.now.entries }
        ensures rising { IsStrictlyIncreasing (tids self.now.entries) }
        ensures found { All (λ entry. look_up self.now.entries entry.0 ≡ Some entry.1) self.now.entries }
    {
        self.records.walk()
    }

    /// Applies a message, and returns what it was to the view. Only news changes the view, at the message's
    /// own thread, and only the creation of a thread allocates.
    ///
    /// # Errors
    ///
    /// `Gap` if the message's number is more than one above the one that is known of its thread: messages
    /// between are missing. `OutOfMemory` if out of memory for the record of a thread that the message
    /// creates and of which nothing is known. Then nothing changes, and the message can be applied later.
    pub fn apply(&mut self, message: MessageRef<'_>) -> Result<News, ApplyFault>
        ensures word { IfOk result (λ news. word (look_up self.old.entries) message.entry ≡ word_of news) }
        ensures known { OnOk result ((t : ℕ) → look_up self.new.entries t ≡ apply (look_up self.old.entries) message.entry t) }
        ensures unchanged { OnErr result (self.new.entries ≡ self.old.entries) }
        ensures gap { (result ≡ Err ApplyFault.Gap) ↔ (is_gap (word (look_up self.old.entries) message.entry) ≡ true) }
        ensures memory { result ≡ Err ApplyFault.OutOfMemory → begins (look_up self.old.entries) message.entry ≡ true }
    {
        let kind = message.kind();
        if kind == Kind::TimerTick {
            return Ok(News::Applied);
        }
        let heard = self.hear(kind, &message)?;
        Ok(heard.news)
    }

    /// Applies a message about a thread, of this kind, as [`AgentView::apply`] does. Returns what it was to the view, and
    /// if it was news the thread's class, if that may run then.
    ///
    /// # Errors
    ///
    /// As of [`AgentView::apply`].
    #[inline(always)]
    pub fn hear(&mut self, kind: Kind, message: &MessageRef<'_>) -> Result<Heard, ApplyFault>
        requires kind { kind ≡ kind_of message.now }
        requires thread { kind ≢ Kind.TimerTick }
        ensures word { IfOk result (λ heard. word (look_up self.old.entries) message.now ≡ word_of heard.news) }
        ensures known { OnOk result ((t : ℕ) → look_up self.new.entries t ≡ apply (look_up self.old.entries) message.now t) }
        ensures ready { IfOk result (λ heard. heard.news ≡ News.Applied → heard.ready ≡ ready_of (look_up self.new.entries (tid_of message.now))) }
        ensures quiet { IfOk result (λ heard. heard.news ≢ News.Applied → heard.ready ≡ None) }
        ensures unchanged { OnErr result (self.new.entries ≡ self.old.entries) }
        ensures gap { (result ≡ Err ApplyFault.Gap) ↔ (is_gap (word (look_up self.old.entries) message.now) ≡ true) }
        ensures memory { result ≡ Err ApplyFault.OutOfMemory → begins (look_up self.old.entries) message.now ≡ true }
    {
        let tid = message.tid();
        let tseq = message.tseq();
        let Some(known) = self.records.get(tid) else {
            return self.begin(kind, message);
        };
        if tseq <= known.tseq {
            return Ok(Heard::unready(News::Skipped));
        }
        if tseq - known.tseq > 1 {
            return Err(ApplyFault::Gap);
        }
        if kind == Kind::Dead {
            self.records.remove(tid);
            return Ok(Heard::unready(News::Applied));
        }
        let ready = self.records.renew(tid, kind, message);
        Ok(Heard {
            news: News::Applied,
            ready,
        })
    }

    /// Makes room for the records of a page, so that [`AgentView::set`] can set each of them.
    ///
    /// # Errors
    ///
    /// `AllocError` if out of memory. Either way what is known stays.
    pub fn reserve(&mut self, page: &Page) -> Result<(), AllocError>
        ensures room { OnOk result (HasRoomFor page.now.records self.new) }
        ensures same { self.new.entries ≡ self.old.entries }
    {
        if let Some(last) = page.records.last() {
            self.records.reserve(last.tid, page.records.len())?;
        }
        Ok(())
    }

    /// Makes room for the records of a page that is given as bytes, so that [`AgentView::set`] can set each of them.
    ///
    /// # Errors
    ///
    /// `AllocError` if out of memory. Either way what is known stays.
    pub fn reserve_written(&mut self, page: &WrittenPage) -> Result<(), AllocError>
        ensures room { OnOk result (HasRoomFor page.now.records self.new) }
        ensures same { self.new.entries ≡ self.old.entries }
    {
        let count = page.count();
        if count > 0 {
            self.records.reserve(page.last(), count as usize)?;
        }
        Ok(())
    }

    /// Sets a page's record: what it tells of its thread is known then, whatever was known of it before. There
    /// is room, so it does not allocate.
    #[inline(always)]
    pub fn set(&mut self, thread: &DumpRecord)
        requires place { thread.now.tid < self.old.tids }
        requires room { 0 < self.old.room }
        ensures known { (t : ℕ) → look_up self.new.entries t ≡ with_record thread.now (look_up self.old.entries) t }
        ensures places { self.new.tids ≡ self.old.tids }
        ensures room { self.old.room ≤ self.new.room + 1 }
    {
        self.records.put(thread.tid, thread.known);
    }

    /// Loads a page: what it tells of its threads is known then, whatever was known of them before. Of all
    /// other threads nothing changes. It takes as many look-ups as the page has records.
    ///
    /// # Errors
    ///
    /// `AllocError` if out of memory for its records. Then nothing changes.
    pub fn load(&mut self, page: &Page) -> Result<(), AllocError>
        ensures known { OnOk result ((t : ℕ) → look_up self.new.entries t ≡ loaded page.now.records (look_up self.old.entries) t) }
        ensures unchanged { OnErr result (self.new.entries ≡ self.old.entries) }
    {
        self.reserve(page)?;
        for thread in &page.records {
            self.set(thread);
        }
        Ok(())
    }

    /// Applies a message about a thread of which nothing is known.
    fn begin(&mut self, kind: Kind, message: &MessageRef<'_>) -> Result<Heard, ApplyFault>
        requires kind { kind ≡ kind_of message.now }
        requires thread { kind ≢ Kind.TimerTick }
        requires unknown { look_up self.old.entries (tid_of message.now) ≡ None }
        ensures word { IfOk result (λ heard. word (look_up self.old.entries) message.now ≡ word_of heard.news) }
        ensures known { OnOk result ((t : ℕ) → look_up self.new.entries t ≡ apply (look_up self.old.entries) message.now t) }
        ensures ready { IfOk result (λ heard. heard.news ≡ News.Applied → heard.ready ≡ ready_of (look_up self.new.entries (tid_of message.now))) }
        ensures quiet { IfOk result (λ heard. heard.news ≢ News.Applied → heard.ready ≡ None) }
        ensures unchanged { OnErr result (self.new.entries ≡ self.old.entries) }
        ensures memory { OnErr result (begins (look_up self.old.entries) message.now ≡ true) }
        ensures no_gap { result ≢ Err ApplyFault.Gap }
    {
        if kind != Kind::Created {
            return Ok(Heard::unready(News::Orphan));
        }
        let tid = message.tid();
        let tseq = message.tseq();
        self.records.reserve(tid, 1)?;
        let facts = message.facts();
        self.records.insert(tid, Known { facts, tseq });
        Ok(Heard {
            news: News::Applied,
            ready: ready(&facts),
        })
    }
}
