//! What is noted of the calls that were accepted.

ghost use Rattle.std.specs.Prelude.{◌≡◌, ◌+◌, ◌≤◌, ◌<◌, ◌++◌, ◌∷◌, [], length, true, vec_len, vec_capacity};
ghost use Rattle.gs_board.specs.Words.{MayFollow};
ghost use Rattle.gs_kernel.specs.declared.executed.Executed.{Executed};
ghost use Rattle.gs_kernel.specs.Kernel.{last_entry};
ghost use Rattle.gs_runner.specs.Enclaves.{IsShown, generation_number};
ghost use Rattle.gs_runner.specs.Quiet.{posts_alone};
ghost use Rattle.gs_runner.specs.Kept.{AllWithin, calls_kept, command_by, is_told_by_entry, told_call};

use crate::call::Call;
use crate::kept::CallList;
use crate::publish::publish;
use crate::share::Share;
use crate::site::Site;
use gs_board::{Board, WriterSeat};
use gs_kernel::{Command as Told, Executed, Kernel};
use gs_link::RtrbPoster;
use std::sync::ledger::Book;

/// The calls that were accepted, the book that counts them, and the seat by which the board shows what they left.
#[derive(Drop)]
pub(crate) struct Log<L: Site> {
    pub list: CallList,
    pub book: Book<L>,
    pub seat: WriterSeat<L>,
}

impl<L: Site> Log<L> {
    /// Appends that the kernel was told a command, which was not refused and for which there is room. Counts it in share
    /// and book, and publishes what the kernel is after it, unless that cannot have changed.
    #[inline(always)]
    pub(crate) fn accept_told(
        &mut self,
        board: &Board<L>,
        share: &mut Share<L>,
        kernel: &Kernel<RtrbPoster>,
        command: &Told,
        executed: Executed,
        at: u32,
        end: u32,
    )
        requires kept { vec_len self.old.list.kept < vec_capacity self.old.list.kept }
        requires others { vec_len self.old.list.others < vec_capacity self.old.list.others }
        requires order { at ≤ end }
        requires end { end ≡ length kernel.now.history }
        requires follows { executed ≡ Executed.Done → is_told_by_entry command.now ≡ true → command_by (last_entry kernel.now.history) ≡ command.now }
        requires within { AllWithin end (length self.old.list.others.items) self.old.list.kept.items }
        requires quiet { executed ≡ Executed.Done → posts_alone command.now ≡ true → IsShown self.old.seat kernel.now.history }
        requires rises { MayFollow self.old.seat.roles (generation_number kernel.now.history) }
        ensures calls { calls_kept kernel.now.history self.new.list.others.items self.new.list.kept.items ≡ calls_kept kernel.now.history self.old.list.others.items self.old.list.kept.items ++ told_call command.now executed (last_entry kernel.now.history) at end ∷ [] }
        ensures within { AllWithin end (length self.new.list.others.items) self.new.list.kept.items }
        ensures counted { (self.new.book.total ≡ self.old.book.total + 1) × (share.new ≡ share.old + 1) }
        ensures shown { IsShown self.new.seat kernel.now.history }
    {
        self.list
            .push_told(command, executed, kernel.last(), at, end);
        share.count(&mut self.book);
        match executed {
            Executed::Done if posts_alone(command) => {}
            _ => publish(board, &mut self.seat, kernel),
        }
    }

    /// Appends a call, for which there is room, counts it in share and book, and publishes what the kernel is after it.
    pub(crate) fn accept(
        &mut self,
        board: &Board<L>,
        share: &mut Share<L>,
        kernel: &Kernel<RtrbPoster>,
        call: Call,
    )
        requires kept { vec_len self.old.list.kept < vec_capacity self.old.list.kept }
        requires others { vec_len self.old.list.others < vec_capacity self.old.list.others }
        requires within { AllWithin (length kernel.now.history) (length self.old.list.others.items) self.old.list.kept.items }
        requires rises { MayFollow self.old.seat.roles (generation_number kernel.now.history) }
        ensures calls { calls_kept kernel.now.history self.new.list.others.items self.new.list.kept.items ≡ calls_kept kernel.now.history self.old.list.others.items self.old.list.kept.items ++ call ∷ [] }
        ensures within { AllWithin (length kernel.now.history) (length self.new.list.others.items) self.new.list.kept.items }
        ensures counted { (self.new.book.total ≡ self.old.book.total + 1) × (share.new ≡ share.old + 1) }
        ensures shown { IsShown self.new.seat kernel.now.history }
    {
        self.list.push_other(call);
        share.count(&mut self.book);
        publish(board, &mut self.seat, kernel);
    }
}

/// Returns whether a command that is done posts a message and does nothing else.
fn posts_alone(command: &Told) -> bool
    ensures { result ≡ posts_alone command.now }
{
    matches!(
        command,
        Told::Create { .. } | Told::Thread { .. } | Told::Tick { .. }
    )
}
