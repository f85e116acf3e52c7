//! What a command does to the kernel under the lock.

ghost use Rattle.std.specs.Prelude.{◌≡◌, ℕ, Ok, IfErr, IfOk, OnErr, None, false, length, true};
ghost use Rattle.gs_dump.specs.Page.{page_spelling};
ghost use Rattle.gs_journal.specs.declared.entry.Entry.{Entry};
ghost use Rattle.gs_kernel.specs.declared.executed.Executed.{Executed};
ghost use Rattle.gs_kernel.specs.Kernel.{IsRefusal, last_entry};
ghost use Rattle.gs_replies.specs.declared.reply.Reply.{Reply};
ghost use Rattle.gs_replies.specs.Replies.{page_reply, reply_of};
ghost use Rattle.gs_runner.specs.declared.call.Called.{Called};
ghost use Rattle.gs_runner.specs.declared.command.Command.{Command};
ghost use Rattle.gs_runner.specs.Calls.{LegalCall, ThreadRoom, call_page_refusal, call_refusal, crash_reply};
ghost use Rattle.gs_runner.specs.Kept.{command_by, is_told_by_entry};
ghost use Rattle.gs_runner.specs.Pages.{Reads};
ghost use Rattle.gs_runner.specs.Quiet.{PostsOne, posts_alone};
ghost use Rattle.gs_runner.specs.Serving.{is_told};
ghost use Rattle.gs_runner.specs.Told.{IsTold};

use crate::command::Command;
use crate::land::{land, land_refusal};
use crate::reader::PageReader;
use gs_dump::{Page, write_page};
use gs_kernel::{Command as Told, Executed, Kernel};
use gs_layout::Refusal;
use gs_link::RtrbPoster;
use gs_replies::{Items, Reply};
use std::alloc::Global;

/// Returns how many entries the journal has.
pub(crate) fn entries(kernel: &Kernel<RtrbPoster>) -> u32
    ensures { result ≡ length kernel.now.history }
{
    // Reads the numbers to expose the most entries.
    let _settings = kernel.settings();
    kernel.journal().len() as u32
}

/// Returns why a command is refused, apart from `OutOfMemory`.
fn call_refusal(kernel: &Kernel<RtrbPoster>, command: &Command) -> Option<Refusal>
    ensures { result ≡ call_refusal kernel.now.settings kernel.now.history kernel.now.paged command.now }
{
    match command {
        Command::Kernel { command } => kernel.refusal(command),
        Command::Crash => kernel.refusal(&Told::Leave),
        Command::Page { .. } => kernel.page_refusal(),
        Command::Land { bytes } => land_refusal(kernel, bytes),
    }
}

/// Returns why a command is refused if out of memory for its call.
#[tactic(auto, using(crate::proofs::Refused::short_call))]
pub(crate) fn short_refusal(kernel: &Kernel<RtrbPoster>, command: &Command) -> Refusal
    ensures { (parcels : ℕ) → LegalCall (ThreadRoom parcels) kernel.now.settings kernel.now.history kernel.now.paged (Called.Served command.now) (Reply.Refused result) kernel.now.history }
{
    call_refusal(kernel, command).unwrap_or(Refusal::OutOfMemory)
}

/// Tells the kernel a command, and returns what became of it. If it was done, the command, but for an activation, follows
/// from the last entry. A creation, what happens to a thread, and a tick then posted a message and did nothing else.
#[inline(always)]
pub(crate) fn execute(kernel: &mut Kernel<RtrbPoster>, command: &Told) -> Result<Executed, Refusal>
    ensures told { IsTold kernel.old (Called.Served (Command.Kernel command.now)) (reply_of result (last_entry kernel.new.history)) kernel.new }
    ensures follows { result ≡ Ok Executed.Done → is_told_by_entry command.now ≡ true → command_by (last_entry kernel.new.history) ≡ command.now }
    ensures quiet { result ≡ Ok Executed.Done → posts_alone command.now ≡ true → PostsOne kernel.old.history kernel.new.history }
{
    kernel.execute(command)
}

/// Carries a command out of which the kernel is not told as it is, or refuses it. A page is read before it counts as
/// given. Returns the reply twice.
pub(crate) fn carry_out<T: PageReader>(
    kernel: &mut Kernel<RtrbPoster>,
    alloc: Global,
    command: &Command,
    reader: &mut T,
) -> (Reply, Reply)
    requires { is_told command.now ≡ false }
    ensures told { IsTold kernel.old (Called.Served command.now) result.0 kernel.new }
    ensures same { result.1 ≡ result.0 }
    ensures reads { Reads T.read command.now result.0 reader.old reader.new }
{
    match command {
        Command::Kernel { .. } => unreachable!(),
        Command::Crash => crash(kernel),
        Command::Page { from, max } => page(kernel, alloc, *from, *max, reader),
        Command::Land { bytes } => land(kernel, alloc, bytes),
    }
}

/// Tells the kernel that the agent crashed.
fn crash(kernel: &mut Kernel<RtrbPoster>) -> (Reply, Reply)
    ensures told { IsTold kernel.old (Called.Served Command.Crash) result.0 kernel.new }
    ensures same { result.1 ≡ result.0 }
{
    let executed = kernel.execute(&Told::Leave);
    (crash_reply(executed), crash_reply(executed))
}

/// Returns the reply to a crash, by what became of a leaving.
fn crash_reply(executed: Result<Executed, Refusal>) -> Reply
    ensures { result ≡ crash_reply executed }
{
    match executed {
        Ok(Executed::Done) => Reply::Crashed,
        Ok(Executed::Torn) => Reply::Torn,
        Err(refusal) => Reply::Refused(refusal),
    }
}

/// Gives a page.
#[tactic(auto, using(crate::proofs::Refused::told_refused))]
fn page<T: PageReader>(
    kernel: &mut Kernel<RtrbPoster>,
    alloc: Global,
    from: u32,
    max: u16,
    reader: &mut T,
) -> (Reply, Reply)
    ensures told { IsTold kernel.old (Called.Served (Command.Page from max)) result.0 kernel.new }
    ensures same { result.1 ≡ result.0 }
    ensures reads { Reads T.read (Command.Page from max) result.0 reader.old reader.new }
{
    // Reads the end of the ring to expose what was sent.
    let _poster = kernel.poster();
    match try_page(kernel, alloc, from, max, reader) {
        Ok(replies) => replies,
        Err(refusal) => (Reply::Refused(refusal), Reply::Refused(refusal)),
    }
}

/// Writes a page twice, lets it be read, and notes that it was given. Returns the reply twice.
#[tactic(auto, using(crate::proofs::Refused::told_page))]
fn try_page<T: PageReader>(
    kernel: &mut Kernel<RtrbPoster>,
    alloc: Global,
    from: u32,
    max: u16,
    reader: &mut T,
) -> Result<(Reply, Reply), Refusal>
    ensures told { IfOk result (λ r. IsTold kernel.old (Called.Served (Command.Page from max)) r.0 kernel.new) }
    ensures same { IfOk result (λ r. r.1 ≡ r.0) }
    ensures reads { IfOk result (λ r. Reads T.read (Command.Page from max) r.0 reader.old reader.new) }
    ensures refused { IfErr result (IsRefusal (call_page_refusal kernel.old.history kernel.old.paged)) }
    ensures unchanged { OnErr result (kernel.new ≡ kernel.old) }
    ensures unread { OnErr result (reader.new ≡ reader.old) }
{
    let page = kernel.dump(alloc, from, max)?;
    let bytes = write_page(alloc, &page)?;
    let again = write_page(alloc, &page)?;
    reader.read(alloc, &bytes)?;
    kernel.note_page(&page);
    // Reads the end of the ring to expose what was sent.
    let _poster = kernel.poster();
    Ok((page_reply(&page, bytes), page_reply(&page, again)))
}

/// Returns the reply to a page with these bytes.
fn page_reply(page: &Page, bytes: Vec<u8>) -> Reply
    requires { bytes.items ≡ page_spelling page.now }
    ensures { result ≡ page_reply page.now }
{
    Reply::Page {
        count: page.records.len() as u16,
        next: page.next,
        bytes: Items::new(bytes),
    }
}
