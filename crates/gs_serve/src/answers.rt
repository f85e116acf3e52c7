ghost use Rattle.std.specs.Prelude.{◌≡◌, IfOk, OnOk};
ghost use Rattle.gs_session.specs.Session.{Session as Held};
ghost use Rattle.gs_trace.specs.Noted.{Noted};
ghost use Rattle.gs_serve.specs.Answered.{Shows, Way};

use gs_lines::Text;
use gs_script::NamedPolicy;
use gs_session::Session;
use std::alloc::{AllocError, Global};

/// What lets a session hear lines, and says what came of each.
pub(crate) trait Answers<P: NamedPolicy> {
    /// How it answers.
    ghost way: { Way P };

    /// What it noted of the lines before.
    ghost noted: { Self → Noted };

    /// It has heard the lines that the session has.
    ghost follows: { Self → Held P → Type 0 };

    /// Lets a session hear a line, and returns the lines that say what came of it, without the empty one behind them.
    /// It fails only if out of memory, also if the reply to an event tells of that.
    fn hear(
        &mut self,
        alloc: Global,
        session: &mut Session<P>,
        line: &[u8],
    ) -> Result<Text, AllocError>
        requires { follows self.old session.old }
        ensures shown { IfOk result (λ text. Shows way (noted self.old) session.old line.now (noted self.new) session.new text) }
        ensures follows { OnOk result (follows self.new session.new) };
}
