//! What is written of a run.

ghost use Rattle.std.specs.Prelude.{◌≡◌, IfOk};
ghost use Rattle.gs_workers.specs.Written.{settled_line, shown_of};

use gs_history::journal_text;
use gs_lines::Text;
use gs_runner::Finished;
use std::alloc::{AllocError, Global};

/// How a run is shown.
#[derive(Clone, Copy, PartialEq, Eq, Debug)]
pub enum Shown {
    /// One line: how many threads the agent knew at the end, and how many calls were accepted.
    Line,
    /// The journal of all that happened, a line for each entry.
    Journal,
}

/// Returns the line of a run that settled.
fn settled_line(alloc: Global, finished: &Finished) -> Result<Text, AllocError>
    ensures { IfOk result (λ text. text ≡ settled_line finished.now) }
{
    let mut text = Text::new(alloc);
    text.push_number("settled threads ", finished.threads as u64)?;
    text.push_number(" calls ", finished.closed.calls().len() as u64)?;
    text.end_line()?;
    Ok(text)
}

/// Returns what is written of a run that settled.
pub(crate) fn shown_text(
    alloc: Global,
    shown: Shown,
    finished: &Finished,
) -> Result<Text, AllocError>
    ensures { IfOk result (λ text. text ≡ shown_of shown finished.now) }
{
    match shown {
        Shown::Line => settled_line(alloc, finished),
        Shown::Journal => journal_text(alloc, finished.closed.journal()),
    }
}
