//! Events explained one after another, beside the machine on which they happen.

ghost use Rattle.std.specs.Prelude.{◌≡◌, IfOk, OnOk};
ghost use Rattle.gs_core.specs.Machine.{planning};
ghost use Rattle.gs_trace.specs.Noted.{noted_after, noted_first};
ghost use Rattle.gs_explain.specs.Knowing.{IsStarted, Knows, KnowsFirst, known_of, shown_after};

use crate::hearing::hear_all;
use crate::marking::mark_last;
use crate::moment::Scene;
use crate::page::Page;
use crate::row::write_shown;
use gs_core::{Event, Machine, Reply};
use gs_lines::Text;
use gs_policy::Counted;
use gs_reasons::{Index, Marks};
use gs_trace::Lines;
use std::alloc::{AllocError, Global};
use std::marker::Model;

/// What is kept beside a machine, so that each of its events can be explained as it happens. Clauses see the lines that
/// were noted, the index of the entries, and which transaction was stamped last for each CPU.
#[derive(Drop)]
pub struct Explainer {
    lines: Lines,
    index: Index,
    last: Marks,
}

impl Model for Explainer {
    ghost use Rattle.gs_explain.specs.Knowing.{Known, known_of};

    ghost Value = { Known };

    ghost view = { λ x. known_of x.lines x.index x.last };
}

/// Returns what is shown of an event, and notes and hears what it added.
fn explain_event<P: Counted + Copy>(
    alloc: Global,
    lines: &mut Lines,
    index: &mut Index,
    last: &mut Marks,
    machine: &Machine<P>,
    line: usize,
    event: &Event<P>,
    reply: &Reply,
) -> Result<Text, AllocError>
    requires { KnowsFirst (known_of lines.old index.old last.old) (planning P.chosen machine.now) }
    ensures shown { IfOk result (λ text. text ≡ shown_after (known_of lines.old index.old last.old).noted line event.now reply.now (planning P.chosen machine.now)) }
    ensures noted { OnOk result ((known_of lines.new index.new last.new).noted ≡ noted_after line reply.now (planning P.chosen machine.now) (known_of lines.old index.old last.old).noted) }
    ensures knows { OnOk result (Knows (known_of lines.new index.new last.new) (planning P.chosen machine.now)) }
{
    let transactions = machine.transactions();
    let first = lines.entries.len();
    let stamped = lines.stamped.len();
    mark_last(last, transactions, stamped)?;
    let entries = machine.kernel().journal().len();
    lines.note(line, reply, entries, transactions.len())?;
    let bare = event.with_policy(());
    let scene = Scene::new(machine, lines, last, &bare);
    let mut page = Page::new(alloc);
    write_shown(&mut page, &scene, index, first, reply)?;
    Ok(page.into_text())
}

impl Explainer {
    /// Makes one beside a machine that the header of a script has just opened. The header's line is given.
    ///
    /// # Errors
    ///
    /// `AllocError` if out of memory.
    pub fn new<P: Counted + Copy>(
        alloc: Global,
        header: usize,
        machine: &Machine<P>,
    ) -> Result<Explainer, AllocError>
        requires { IsStarted machine.now }
        ensures noted { IfOk result (λ x. x.noted ≡ noted_first header) }
        ensures knows { IfOk result (λ x. Knows x (planning P.chosen machine.now)) }
    {
        let lines = Lines::new(alloc, header)?;
        let mut index = Index::new(alloc);
        hear_all(&mut index, machine.kernel().journal(), 0)?;
        Ok(Explainer {
            lines,
            index,
            last: Marks::new(alloc),
        })
    }

    /// Returns what explains an event that has just happened: the lines of its reply. Behind each landing that was not placed, each
    /// refusal, each tear-down and each stop stands an indented line that says why. It is what `ghost explain` shows
    /// between the script's line and the entries that it added.
    ///
    /// The machine is the one that the event left. The number is that of the line which says the event: later sentences
    /// name the line by it.
    ///
    /// # Errors
    ///
    /// `AllocError` if out of memory. Then no later event can be explained.
    pub fn explain<P: Counted + Copy>(
        &mut self,
        alloc: Global,
        machine: &Machine<P>,
        line: usize,
        event: &Event<P>,
        reply: &Reply,
    ) -> Result<Text, AllocError>
        requires { KnowsFirst self.old (planning P.chosen machine.now) }
        ensures shown { IfOk result (λ text. text ≡ shown_after self.old.noted line event.now reply.now (planning P.chosen machine.now)) }
        ensures noted { OnOk result (self.new.noted ≡ noted_after line reply.now (planning P.chosen machine.now) self.old.noted) }
        ensures knows { OnOk result (Knows self.new (planning P.chosen machine.now)) }
    {
        explain_event(
            alloc,
            &mut self.lines,
            &mut self.index,
            &mut self.last,
            machine,
            line,
            event,
            reply,
        )
    }
}
