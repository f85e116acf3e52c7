//! Answers that say what was heard.

ghost use Rattle.std.specs.Prelude.{◌≡◌, ◌++◌, IfOk, OnOk};
ghost use Rattle.gs_serve.specs.Answered.{none_noted, plain};
ghost use Rattle.gs_serve.specs.Served.{said_of};

use crate::answers::Answers;
use gs_lines::{Text, write_reply};
use gs_script::NamedPolicy;
use gs_session::{Heard, Session};
use gs_trace::fault_text;
use std::alloc::{AllocError, Global};

/// Adds the lines that say what was heard: those of a reply, or that of a fault.
fn write_heard(alloc: Global, text: &mut Text, heard: &Heard) -> Result<(), AllocError>
    ensures { OnOk result (text.new ≡ text.old ++ said_of heard.now) }
{
    match heard {
        Heard::Nothing | Heard::Opened => Ok(()),
        Heard::Stepped(reply) => write_reply(text, reply),
        Heard::Fault(fault) => text.push_str(&fault_text(alloc, *fault)?),
    }
}

/// Returns the lines that say what was heard.
pub(crate) fn heard_text(alloc: Global, heard: &Heard) -> Result<Text, AllocError>
    ensures { IfOk result (λ text. text ≡ said_of heard.now) }
{
    let mut text = Text::new(alloc);
    write_heard(alloc, &mut text, heard)?;
    Ok(text)
}

/// Answers by the lines of the reply, or of the fault.
#[derive(Drop)]
pub(crate) struct Plain;

impl<P: NamedPolicy> Answers<P> for Plain {
    ghost way = { plain P.naming P.chosen };

    ghost noted = { λ _. none_noted };

    ghost follows = { λ _ _. Unit {0} };

    fn hear(
        &mut self,
        alloc: Global,
        session: &mut Session<P>,
        line: &[u8],
    ) -> Result<Text, AllocError> {
        let heard = session.hear(line)?;
        heard_text(alloc, &heard)
    }
}
