//! Following a page's records, one at a time.

ghost use Rattle.std.specs.Prelude.{◌≡◌, ◌<◌, ◌≤◌, ◌+◌, ◌∷◌, ℕ, Some, length, slice_get, OnErr, OnOk};
ghost use Rattle.std.specs.List.{AllByRecursion};
ghost use Rattle.std.specs.Option.{option_to_list};
ghost use Rattle.gs_layout.specs.View.{look_up};
ghost use Rattle.gs_dump.specs.declared.record.DumpRecord.{DumpRecord as DumpRecordOf};
ghost use Rattle.gs_dump.specs.Record.{IsLive};
ghost use Rattle.gs_view.specs.Loaded.{HasRoomFor, with_record};
ghost use Rattle.gs_runq.specs.Queue.{IsTid};
ghost use Rattle.gs_agent.specs.Held.{HasRoom};
ghost use Rattle.gs_agent.specs.Mind.{bare};
ghost use Rattle.gs_agent.specs.Pages.{after_page, told_on};
ghost use Rattle.gs_agent.specs.Picture.{displaced, parts, settled, settled_all};

use crate::waiting::{running_on, settle_if_any};
use gs_beliefs::Beliefs;
use gs_dump::{DumpRecord, Page, WrittenPage, WrittenRecords};
use gs_layout::MOST_TIDS;
use gs_runq::RunQueue;
use gs_view::AgentView;
use std::alloc::AllocError;

/// Makes room in the queue for all threads that there may be, if a page tells of any. Who waits stays as it
/// is.
///
/// # Errors
///
/// If out of memory for the room.
pub(crate) fn make_room_for_page(queue: &mut RunQueue, page: &Page) -> Result<(), AllocError>
    ensures told { OnOk result (0 < length page.now.records → MOST_TIDS ≤ queue.new.room) }
    ensures waiting { bare queue.new ≡ bare queue.old }
    ensures room { queue.old.room ≤ queue.new.room }
{
    if !page.records.is_empty() && queue.room() < MOST_TIDS {
        queue.reserve(MOST_TIDS)?;
    }
    Ok(())
}

/// Follows the records of a page, one at a time. There is room for them, and it does not allocate.
pub(crate) fn follow_records(
    view: &mut AgentView,
    cpus: &mut Beliefs,
    queue: &mut RunQueue,
    threads: &[DumpRecord],
)
    requires view_room { HasRoomFor threads.now view.old }
    requires queue_room { 0 < length threads.now → MOST_TIDS ≤ queue.old.room }
    requires tids { (i : ℕ) (r : DumpRecordOf) → slice_get threads.now i ≡ Some r → IsTid r.tid }
    requires room { HasRoom (look_up view.old.entries) queue.old }
    ensures picture { parts (look_up view.new.entries) cpus.new queue.new ≡ after_page threads.now (parts (look_up view.old.entries) cpus.old queue.old) }
    ensures room { HasRoom (look_up view.new.entries) queue.new }
{
    for thread in threads {
        follow_record(view, cpus, queue, thread);
    }
}

/// Makes the same room for a page that is given as bytes.
///
/// # Errors
///
/// If out of memory for the room.
pub(crate) fn make_room_for_written(
    queue: &mut RunQueue,
    page: &WrittenPage,
) -> Result<(), AllocError>
    ensures told { OnOk result (0 < length page.now.records → MOST_TIDS ≤ queue.new.room) }
    ensures waiting { bare queue.new ≡ bare queue.old }
    ensures room { queue.old.room ≤ queue.new.room }
{
    if page.count() > 0 && queue.room() < MOST_TIDS {
        return queue.reserve(MOST_TIDS);
    }
    Ok(())
}

/// Follows the records of a page that is given as bytes, one at a time. There is room for them, and it does not
/// allocate.
#[inline(never)]
pub(crate) fn follow_written(
    view: &mut AgentView,
    cpus: &mut Beliefs,
    queue: &mut RunQueue,
    records: WrittenRecords<'_>,
)
    requires view_room { HasRoomFor records view.old }
    requires queue_room { 0 < length records → MOST_TIDS ≤ queue.old.room }
    requires tids { AllByRecursion IsLive records }
    requires room { HasRoom (look_up view.old.entries) queue.old }
    ensures picture { parts (look_up view.new.entries) cpus.new queue.new ≡ after_page records.entry (parts (look_up view.old.entries) cpus.old queue.old) }
    ensures room { HasRoom (look_up view.new.entries) queue.new }
{
    for thread in records {
        follow_record(view, cpus, queue, &thread);
    }
}

/// Follows a page's record: what it tells of its thread is known, and the thread is believed to run where it
/// says. It, and whoever was believed to run there, begins to wait, goes on or stops.
#[tactic(auto, using(crate::proofs::Paged::room_set, crate::proofs::Paged::room_told))]
#[inline(always)]
fn follow_record(
    view: &mut AgentView,
    cpus: &mut Beliefs,
    queue: &mut RunQueue,
    thread: &DumpRecord,
)
    requires place { thread.now.tid < view.old.tids }
    requires view_room { 0 < view.old.room }
    requires queue_room { MOST_TIDS ≤ queue.old.room }
    requires tid { IsTid thread.now.tid }
    requires room { HasRoom (look_up view.old.entries) queue.old }
    ensures known { (t : ℕ) → look_up view.new.entries t ≡ with_record thread.now (look_up view.old.entries) t }
    ensures places { view.new.tids ≡ view.old.tids }
    ensures view_room { view.old.room ≤ view.new.room + 1 }
    ensures cpus { cpus.new ≡ told_on thread.now.tid thread.now.known.tseq thread.now.cpu cpus.old }
    ensures queue { queue.new ≡ settled_all (look_up view.new.entries) cpus.new (thread.now.tid ∷ option_to_list (displaced cpus.old thread.now.cpu)) queue.old }
    ensures queue_room { MOST_TIDS ≤ queue.new.room }
    ensures room { HasRoom (look_up view.new.entries) queue.new }
{
    let displaced = running_on(cpus, thread.cpu);
    view.set(thread);
    if let Some(cpu) = thread.cpu {
        cpus.place(cpu, thread.tid, thread.known.tseq);
    }
    settle_known(view, cpus, queue, thread);
    settle_if_any(view, cpus, queue, displaced);
}

/// Brings the queue up to date with a thread of which a page's record tells what is known, as `settle` does. The view
/// is not asked again.
#[inline(always)]
fn settle_known(_view: &AgentView, cpus: &Beliefs, queue: &mut RunQueue, thread: &DumpRecord)
    requires known { look_up _view.now.entries thread.now.tid ≡ Some thread.now.known }
    requires room { HasRoom (look_up _view.now.entries) queue.old }
    ensures settled { queue.new ≡ settled (look_up _view.now.entries) cpus.now thread.now.tid queue.old }
    ensures room { HasRoom (look_up _view.now.entries) queue.new }
{
    let tid = thread.tid;
    if !thread.known.facts.runnable || cpus.runs(tid) || cpus.names(tid) {
        queue.remove(tid);
    } else if !queue.has(tid) {
        queue.push(tid, thread.known.facts.class);
    }
}
