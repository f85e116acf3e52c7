ghost use Rattle.std.specs.Prelude.{◌≡◌, ◌≤◌, ◌++◌, List, ℕ, OnOk, length, take, true};
ghost use Rattle.gs_journal.specs.Last.{entry_lent};
ghost use Rattle.gs_reasons.specs.Kept.{HasHeard};
ghost use Rattle.gs_replies.specs.declared.reply.Reply.TheVariants as replies;
ghost use Rattle.gs_script.specs.Words.{is_text};
ghost use Rattle.gs_explain.specs.Explained.{Show};
ghost use Rattle.gs_explain.specs.Marked.{IsMarked};
ghost use Rattle.gs_explain.specs.Moment.{Moment, moment_of};
ghost use Rattle.gs_explain.specs.Quiet.{quiet_reply};
ghost use Rattle.gs_script.specs.Unread.{said_line};
ghost use Rattle.gs_trace.specs.Came.{reply_in};

use crate::moment::Scene;
use crate::quiet::Quiet;
use gs_journal::{Journal, LastEntry};
use gs_layout::Refusal;
use gs_reasons::Index;
use gs_script::SaidLine;
use gs_trace::Came;
use std::alloc::AllocError;

/// What writes what explains a script, event by event.
pub(crate) trait Teller<'a>: Drop {
    /// The bytes that are written.
    ghost bytes: { Self → List ℕ };

    /// What it writes of an event.
    ghost show: { Show };

    /// Adds an event with what came of it. An index has heard the entries before the event, so many, and hears those of the
    /// event. It fails only if out of memory.
    fn row(
        &mut self,
        said: &SaidLine<'a>,
        scene: &Scene<'_>,
        index: &mut Index,
        first: usize,
        came: Came<'_>,
    ) -> Result<(), AllocError>
        requires text { is_text said.now.bytes.now ≡ true }
        requires within { first ≤ length scene.now.journal.now.entries }
        requires heard { HasHeard index.old (take first scene.now.journal.now.entries) }
        requires marked { IsMarked scene.now.last.now.places.items scene.now.transactions.now }
        ensures shown { OnOk result (bytes self.new ≡ bytes self.old ++ show (said_line said.now) (moment_of scene.now) first (reply_in came.entry)) }
        ensures heard { OnOk result (HasHeard index.new scene.now.journal.now.entries) };

    /// Adds a command that was done, by the kernel's journal and the last entry, as [`Teller::row`] does.
    fn done_row(
        &mut self,
        said: &SaidLine<'a>,
        journal: &Journal,
        index: &mut Index,
        first: usize,
        last: LastEntry<'_>,
    ) -> Result<(), AllocError>
        requires text { is_text said.now.bytes.now ≡ true }
        requires within { first ≤ length journal.now.entries }
        requires heard { HasHeard index.old (take first journal.now.entries) }
        ensures shown { (x : Moment) → x.history ≡ journal.now.entries → OnOk result (bytes self.new ≡ bytes self.old ++ show (said_line said.now) x first (replies.Done (entry_lent last.entry))) }
        ensures heard { OnOk result (HasHeard index.new journal.now.entries) };

    /// Adds an event that added no entry, and before which so many stand, with what came of it. It fails only if out of memory.
    fn quiet_row(
        &mut self,
        said: &SaidLine<'a>,
        first: usize,
        quiet: Quiet,
    ) -> Result<(), AllocError>
        requires text { is_text said.now.bytes.now ≡ true }
        ensures shown { (x : Moment) → length x.history ≡ first → OnOk result (bytes self.new ≡ bytes self.old ++ show (said_line said.now) x first (quiet_reply quiet)) };

    /// Adds an event that was refused, as [`Teller::row`] does.
    fn refused_row(
        &mut self,
        said: &SaidLine<'a>,
        scene: &Scene<'_>,
        index: &mut Index,
        first: usize,
        refusal: Refusal,
    ) -> Result<(), AllocError>
        requires text { is_text said.now.bytes.now ≡ true }
        requires within { first ≤ length scene.now.journal.now.entries }
        requires heard { HasHeard index.old (take first scene.now.journal.now.entries) }
        requires marked { IsMarked scene.now.last.now.places.items scene.now.transactions.now }
        ensures shown { OnOk result (bytes self.new ≡ bytes self.old ++ show (said_line said.now) (moment_of scene.now) first (replies.Refused refusal)) }
        ensures heard { OnOk result (HasHeard index.new scene.now.journal.now.entries) };
}
