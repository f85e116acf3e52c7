//! What lies under the lock.

ghost use Rattle.std.specs.Prelude.{◌≡◌, ◌+◌, ◌∷◌, ◌++◌, [], false, length, true};
ghost use Rattle.gs_journal.specs.declared.entry.Entry.{Entry};
ghost use Rattle.gs_journal.specs.History.{posted};
ghost use Rattle.gs_link.specs.Between.{Posted};
ghost use Rattle.gs_runner.specs.declared.call.Called.{Called};
ghost use Rattle.gs_runner.specs.Calls.{GoesOnBy, LegalCall, ThreadRoom, is_refused};
ghost use Rattle.gs_runner.specs.Enclaves.{IsKept, IsShown, enclave_of};
ghost use Rattle.gs_runner.specs.Pages.{Reads};
ghost use Rattle.gs_runner.specs.declared.command.Command.{Command as Commands};
ghost use Rattle.gs_runner.specs.Serving.{Serves, is_told};
ghost use Rattle.gs_runner.specs.Told.{parcels_of};
ghost use Rattle.gs_runner.specs.declared.pass.TheConstants.{PASSES};

use crate::call::{Call, Called, Receipt};
use crate::calls::Calls;
use crate::carry::{carry_out, entries, execute, short_refusal};
use crate::command::Command;
use crate::kept::CallList;
use crate::log::Log;
use crate::reader::{Nobody, PageReader};
use crate::share::Share;
use crate::site::Site;
use gs_board::{Board, WriterSeat};
use gs_kernel::{Command as Told, Kernel};
use gs_link::RtrbPoster;
use gs_replies::Reply;
use std::alloc::Global;
use std::marker::Model;
use std::sync::ledger::Book;

/// What lies under the lock: the kernel, and the calls that it accepted. Whenever the lock is got, the calls are a
/// legal history for the journal, and the book counts them. What was sent through the ring is what was posted, and
/// the board's last words are the journal's.
#[derive(Drop)]
pub struct Enclave<L: Site> {
    pub(crate) alloc: Global,
    pub(crate) kernel: Kernel<RtrbPoster>,
    pub(crate) log: Log<L>,
}

impl<L: Site> Model for Enclave<L> {
    ghost use Rattle.std.specs.Prelude.{length};
    ghost use Rattle.gs_runner.specs.Enclaves.{EnclaveOf, IsEnclave, enclave_of};
    ghost use Rattle.gs_runner.specs.Kept.{AllWithin, calls_kept};

    ghost Value = { EnclaveOf };

    ghost view = { λ e. enclave_of e.kernel (calls_kept e.kernel.history e.log.list.others.items e.log.list.kept.items) e.log.book.total e.log.seat };

    ghost invariant = { λ e. IsEnclave L.is_ring L.parcels L.parts e.kernel (enclave_of e.kernel (calls_kept e.kernel.history e.log.list.others.items e.log.list.kept.items) e.log.book.total e.log.seat) × AllWithin (length e.kernel.history) (length e.log.list.others.items) e.log.list.kept.items };
}

impl<L: Site> Enclave<L> {
    /// Puts a kernel in which nothing was called beside an empty list of calls.
    pub(crate) fn new(
        alloc: Global,
        kernel: Kernel<RtrbPoster>,
        book: Book<L>,
        seat: WriterSeat<L>,
    ) -> Enclave<L>
        requires ring { L.is_ring kernel.poster × (parcels_of kernel ≡ L.parcels) }
        requires opening { (kernel.history ≡ Entry.Role kernel.settings.first_generation 0 ∷ []) × (kernel.paged ≡ false) }
        requires sent { Posted kernel.poster [] }
        requires shown { IsShown seat kernel.history }
        requires book { (book.total ≡ 0) × (L.parts ≡ PASSES) }
        ensures { result ≡ enclave_of kernel [] 0 seat }
    {
        Enclave {
            alloc,
            kernel,
            log: Log {
                list: CallList::new(alloc),
                book,
                seat,
            },
        }
    }

    /// Serves a command: the kernel's legal step, with the reply that the receipt has. Unless it is refused, the call
    /// stands in the list then, and share and book count it. A refused one changes nothing.
    ///
    /// # Examples
    ///
    /// The agent is handed off to CPU 1, by whoever holds the lock:
    ///
    /// ```
    /// let command = Command::Kernel {
    ///     command: Told::HandOff { cpu: 1 },
    /// };
    /// station
    ///     .enclave()
    ///     .lock(rt)
    ///     .serve(station.board(), pass.share(), &command)
    ///     .reply
    /// ```
    #[inline(always)]
    pub fn serve(&mut self, board: &Board<L>, share: &mut Share<L>, command: &Command) -> Receipt
        ensures legal { LegalCall (ThreadRoom L.parcels) self.old.settings self.old.history self.old.given (Called.Served command.now) result.reply self.new.history }
        ensures at { result.at ≡ length self.old.history }
        ensures entries { GoesOnBy result.entries self.old.history self.new.history }
        ensures accepted { is_refused result.reply ≡ false → self.new.calls ≡ self.old.calls ++ record { called = Called.Served command.now; at = result.at; entries = result.entries; reply = result.reply } ∷ [] }
        ensures counted { is_refused result.reply ≡ false → (share.new ≡ share.old + 1) × (self.new.counted ≡ self.old.counted + 1) }
        ensures refused { is_refused result.reply ≡ true → (self.new ≡ self.old) × (share.new ≡ share.old) }
        ensures settings { self.new.settings ≡ self.old.settings }
    {
        self.serve_to(board, share, command, &mut Nobody)
    }

    /// Serves a command as [`Enclave::serve`] does. A page is read before it counts as given: out of memory for that
    /// it is refused.
    #[inline(always)]
    pub(crate) fn serve_to<T: PageReader>(
        &mut self,
        board: &Board<L>,
        share: &mut Share<L>,
        command: &Command,
        reader: &mut T,
    ) -> Receipt
        ensures serves { Serves L.parcels command.now self.old share.old result self.new share.new }
        ensures reads { Reads T.read command.now result.reply reader.old reader.new }
    {
        match command {
            Command::Kernel { command } => self.tell(board, share, command),
            _ => self.serve_other(board, share, command, reader),
        }
    }

    /// Tells the kernel a command. What it did is not copied, but for an activation: it follows from the journal.
    #[inline(always)]
    fn tell(&mut self, board: &Board<L>, share: &mut Share<L>, command: &Told) -> Receipt
        ensures { Serves L.parcels (Commands.Kernel command.now) self.old share.old result self.new share.new }
    {
        let at = entries(&self.kernel);
        if self.log.list.reserve().is_err() {
            let command = Command::Kernel { command: *command };
            return Receipt::refused(at, short_refusal(&self.kernel, &command));
        }
        let executed = match execute(&mut self.kernel, command) {
            Ok(executed) => executed,
            Err(refusal) => return Receipt::refused(at, refusal),
        };
        let end = entries(&self.kernel);
        self.log
            .accept_told(board, share, &self.kernel, command, executed, at, end);
        Receipt::executed(at, end - at, executed, self.kernel.last())
    }

    /// Serves a command of which the kernel is not told as it is.
    fn serve_other<T: PageReader>(
        &mut self,
        board: &Board<L>,
        share: &mut Share<L>,
        command: &Command,
        reader: &mut T,
    ) -> Receipt
        requires { is_told command.now ≡ false }
        ensures serves { Serves L.parcels command.now self.old share.old result self.new share.new }
        ensures reads { Reads T.read command.now result.reply reader.old reader.new }
    {
        let at = entries(&self.kernel);
        if self.log.list.reserve().is_err() {
            return Receipt::refused(at, short_refusal(&self.kernel, command));
        }
        let (reply, again) = carry_out(&mut self.kernel, self.alloc, command, reader);
        if let Reply::Refused(refusal) = reply {
            return Receipt::refused(at, refusal);
        }
        let more = entries(&self.kernel) - at;
        let call = Call {
            called: Called::Served(*command),
            at,
            entries: more,
            reply: again,
        };
        self.log.accept(board, share, &self.kernel, call);
        Receipt {
            at,
            entries: more,
            reply,
        }
    }

    /// Lends the kernel, to look: what was sent through its ring is what was posted.
    pub fn kernel(&self) -> &Kernel<RtrbPoster>
        ensures value { (result.now.settings ≡ self.now.settings) × (result.now.history ≡ self.now.history) × (result.now.paged ≡ self.now.given) }
        ensures sent { Posted result.now.poster (posted self.now.history) }
    {
        &self.kernel
    }

    /// Shows the calls that were accepted, in order: a legal history for the journal. The book counts them, and the
    /// last words on the board are the journal's.
    pub fn calls(&self) -> Calls<'_>
        ensures value { result ≡ self.now.calls }
        ensures kept { IsKept L.parcels self.now }
    {
        Calls::new(self.kernel.journal(), &self.log.list)
    }
}
