ghost use Rattle.std.specs.Prelude.{◌≡◌, ◌∷◌, [], None, OnOk, IfOk};
ghost use Rattle.gs_trace.specs.Came.{reply_in};
ghost use Rattle.gs_trace.specs.Noted.{filled, page_after};

use crate::came::Came;
use gs_core::Reply;
use gs_journal::Entry;
use gs_kernel::Executed;
use std::alloc::{AllocError, Global};

/// What is noted of the lines of a script as its events happen.
#[derive(Drop)]
pub struct Lines {
    /// The line that added each entry.
    pub entries: Vec<usize>,
    /// The line that stamped each transaction.
    pub stamped: Vec<usize>,
    /// The line that gave the agent that attaches its last page, if one did.
    pub page: Option<usize>,
}

/// Adds a line for each of so many things that has none yet.
#[inline(always)]
fn fill(lines: &mut Vec<usize>, count: usize, line: usize) -> Result<(), AllocError>
    ensures { OnOk result (lines.new.items ≡ filled count line lines.old.items) }
{
    if lines.len() >= count {
        return Ok(());
    }
    if count - lines.len() == 1 {
        lines.push(line)?;
    } else {
        lines.resize(count, line)?;
    }
    Ok(())
}

/// Returns the line of the last page, by the reply to an event of this line.
fn page_after(line: usize, reply: &Reply, page: Option<usize>) -> Option<usize>
    ensures { result ≡ page_after line reply.now page }
{
    match reply {
        Reply::Page { next: None, .. } => Some(line),
        Reply::Done(Entry::Begin { .. }) => None,
        _ => page,
    }
}

/// Returns the line of the last page, by what came of an event of this line.
#[inline(always)]
fn page_after_came(line: usize, came: Came<'_>, page: Option<usize>) -> Option<usize>
    ensures { result ≡ page_after line (reply_in came.entry) page }
{
    match came {
        Came::Executed(Ok(Executed::Done), last) => match last.entry() {
            Entry::Begin { .. } => None,
            _ => page,
        },
        Came::Replied(reply) => page_after(line, reply, page),
        _ => page,
    }
}

impl Lines {
    /// Notes what is so at the beginning: the header's line added one entry. It fails only if out of memory, as do the calls below.
    pub fn new(alloc: Global, header: usize) -> Result<Lines, AllocError>
        ensures entries { IfOk result (λ n. n.entries.items ≡ header ∷ []) }
        ensures stamped { IfOk result (λ n. n.stamped.items ≡ []) }
        ensures page { IfOk result (λ n. n.page ≡ None) }
    {
        let mut entries = Vec::new(alloc);
        entries.push(header)?;
        Ok(Lines {
            entries,
            stamped: Vec::new(alloc),
            page: None,
        })
    }

    /// Notes the line of the entries that an event added, by how many there are behind it.
    #[inline(always)]
    pub fn note_entries(&mut self, line: usize, count: usize) -> Result<(), AllocError>
        ensures entries { OnOk result (self.new.entries.items ≡ filled count line self.old.entries.items) }
        ensures stamped { self.new.stamped ≡ self.old.stamped }
        ensures page { self.new.page ≡ self.old.page }
    {
        fill(&mut self.entries, count, line)
    }

    /// Notes an event of a line: by its reply, and by how many entries and transactions there are behind it.
    #[inline(always)]
    pub fn note(
        &mut self,
        line: usize,
        reply: &Reply,
        entries: usize,
        transactions: usize,
    ) -> Result<(), AllocError>
        ensures entries { OnOk result (self.new.entries.items ≡ filled entries line self.old.entries.items) }
        ensures stamped { OnOk result (self.new.stamped.items ≡ filled transactions line self.old.stamped.items) }
        ensures page { OnOk result (self.new.page ≡ page_after line reply.now self.old.page) }
    {
        fill(&mut self.entries, entries, line)?;
        fill(&mut self.stamped, transactions, line)?;
        self.page = page_after(line, reply, self.page);
        Ok(())
    }

    /// Notes an event of a line by what came of it, as [`Lines::note`] notes the reply to it.
    #[inline(always)]
    pub fn note_came(
        &mut self,
        line: usize,
        came: Came<'_>,
        entries: usize,
        transactions: usize,
    ) -> Result<(), AllocError>
        ensures entries { OnOk result (self.new.entries.items ≡ filled entries line self.old.entries.items) }
        ensures stamped { OnOk result (self.new.stamped.items ≡ filled transactions line self.old.stamped.items) }
        ensures page { OnOk result (self.new.page ≡ page_after line (reply_in came.entry) self.old.page) }
    {
        fill(&mut self.entries, entries, line)?;
        fill(&mut self.stamped, transactions, line)?;
        self.page = page_after_came(line, came, self.page);
        Ok(())
    }
}
