//! Bringing the queue up to date with what is known and believed.

ghost use Rattle.std.specs.Prelude.{◌≡◌, ◌≢◌, ◌≤◌, ℕ, None, false, is_some, true, if◌then◌else◌, option_map, IfErr, OnOk, OnErr};
ghost use Rattle.gs_beliefs.specs.Cpus.{is_believed};
ghost use Rattle.gs_layout.specs.declared.known.Known.{Known};
ghost use Rattle.gs_layout.specs.declared.message.Message.{Message};
ghost use Rattle.gs_layout.specs.Spelling.{kind_of, tid_of};
ghost use Rattle.gs_layout.specs.View.{look_up};
ghost use Rattle.gs_view.specs.declared.fault.ApplyFault.{ApplyFault};
ghost use Rattle.gs_view.specs.Begins.{begins};
ghost use Rattle.gs_view.specs.News.{ready_of};
ghost use Rattle.gs_agent.specs.Held.{HasRoom};
ghost use Rattle.gs_agent.specs.Mind.{bare};
ghost use Rattle.gs_agent.specs.Picture.{displaced, ends_own_turn, is_mask_alone, other_than, requeued, settled, settled_all, waits};
ghost use Rattle.gs_runq.specs.Queue.{removed};
ghost use Rattle.std.specs.Option.{option_to_list};

use gs_beliefs::Beliefs;
use gs_layout::{Class, Kind, MOST_TIDS};
use gs_reader::MessageRef;
use gs_runq::RunQueue;
use gs_view::{AgentView, ApplyFault};

/// Makes room in the queue, before the view applies a message, for the thread whose record the
/// message begins. Who waits stays as it is.
///
/// # Errors
///
/// [`ApplyFault::OutOfMemory`] if out of memory for the room. No other message takes any.
pub(crate) fn make_room(
    view: &AgentView,
    queue: &mut RunQueue,
    message: &MessageRef<'_>,
) -> Result<(), ApplyFault>
    ensures begun { OnOk result (begins (look_up view.now.entries) message.now ≡ true → MOST_TIDS ≤ queue.new.room) }
    ensures waiting { bare queue.new ≡ bare queue.old }
    ensures room { queue.old.room ≤ queue.new.room }
    ensures memory { OnErr result (begins (look_up view.now.entries) message.now ≡ true) }
    ensures fault { IfErr result (λ fault. fault ≡ ApplyFault.OutOfMemory) }
{
    if queue.room() < MOST_TIDS && is_begun_by(view, message) {
        queue.reserve(MOST_TIDS)?;
    }
    Ok(())
}

/// Tells whether a message begins a record of the view: it creates a thread of which nothing is known.
fn is_begun_by(view: &AgentView, message: &MessageRef<'_>) -> bool
    ensures { result ≡ begins (look_up view.now.entries) message.now }
{
    matches!(message.kind(), Kind::Created) && view.get(message.tid()).is_none()
}

/// Returns the class of a thread that waits, `None` if it does not. It has this class if it may run.
#[inline(always)]
fn waiting_class(_view: &AgentView, cpus: &Beliefs, tid: u32, ready: Option<Class>) -> Option<Class>
    requires { ready ≡ ready_of (look_up _view.now.entries tid) }
    ensures { result ≡ (if waits (look_up _view.now.entries) cpus.now tid then option_map (λ (k : Known). k.facts.class) (look_up _view.now.entries tid) else None) }
{
    let class = ready?;
    if cpus.runs(tid) || cpus.names(tid) {
        return None;
    }
    Some(class)
}

/// Puts a thread that begins to wait last of its class, and takes one that does not wait out. One that
/// waits already keeps its place. It does not allocate.
pub(crate) fn settle(view: &AgentView, cpus: &Beliefs, queue: &mut RunQueue, tid: u32)
    requires { HasRoom (look_up view.now.entries) queue.old }
    ensures settled { queue.new ≡ settled (look_up view.now.entries) cpus.now tid queue.old }
    ensures room { HasRoom (look_up view.now.entries) queue.new }
{
    let ready = view.ready(tid);
    settle_ready(view, cpus, queue, tid, ready);
}

/// Does the same of a thread that has this class if it may run. The view is not asked again.
#[inline(always)]
#[tactic(auto, using(crate::proofs::Rooms::room_settled))]
fn settle_ready(
    view: &AgentView,
    cpus: &Beliefs,
    queue: &mut RunQueue,
    tid: u32,
    ready: Option<Class>,
)
    requires room { HasRoom (look_up view.now.entries) queue.old }
    requires ready { ready ≡ ready_of (look_up view.now.entries tid) }
    ensures settled { queue.new ≡ settled (look_up view.now.entries) cpus.now tid queue.old }
    ensures room { HasRoom (look_up view.now.entries) queue.new }
{
    match waiting_class(view, cpus, tid, ready) {
        None => queue.remove(tid),
        Some(class) => {
            if !queue.has(tid) {
                queue.push(tid, class);
            }
        }
    }
}

/// Does the same of a thread that no CPU is believed to run, and puts it last of its class anew if it waits already.
/// Neither its place in the queue nor what is believed of it is asked.
#[inline(always)]
#[tactic(auto, using(crate::proofs::Rooms::room_settled))]
fn settle_anew(
    _view: &AgentView,
    cpus: &Beliefs,
    queue: &mut RunQueue,
    tid: u32,
    ready: Option<Class>,
)
    requires room { HasRoom (look_up _view.now.entries) queue.old }
    requires ready { ready ≡ ready_of (look_up _view.now.entries tid) }
    requires off { is_believed cpus.now tid ≡ false }
    ensures settled { queue.new ≡ settled (look_up _view.now.entries) cpus.now tid (removed tid queue.old) }
    ensures room { HasRoom (look_up _view.now.entries) queue.new }
{
    queue.remove(tid);
    // That it is gone is why there is room for it.
    let _gone = queue.has(tid);
    if let Some(class) = ready
        && !cpus.names(tid)
    {
        queue.push(tid, class);
    }
}

/// Does the same of a thread that was stamped for a CPU. The stamp there is asked first: whom it names does not wait.
#[inline(always)]
#[tactic(auto, using(crate::proofs::Rooms::room_settled, crate::proofs::Settling::settled_stamped))]
pub(crate) fn settle_stamped(
    view: &AgentView,
    cpus: &Beliefs,
    queue: &mut RunQueue,
    cpu: u16,
    tid: u32,
)
    requires { HasRoom (look_up view.now.entries) queue.old }
    ensures settled { queue.new ≡ settled (look_up view.now.entries) cpus.now tid queue.old }
    ensures room { HasRoom (look_up view.now.entries) queue.new }
{
    if cpus.stamp_on(cpu) == Some(tid) {
        queue.remove(tid);
    } else {
        settle(view, cpus, queue, tid);
    }
}

/// Does the same of a thread that was found on a CPU, or nowhere. The belief of that CPU is asked first: whoever runs
/// there does not wait.
#[inline(always)]
#[tactic(auto, using(crate::proofs::Rooms::room_settled, crate::proofs::Settling::settled_found))]
pub(crate) fn settle_found(
    view: &AgentView,
    cpus: &Beliefs,
    queue: &mut RunQueue,
    cpu: Option<u16>,
    tid: u32,
)
    requires { HasRoom (look_up view.now.entries) queue.old }
    ensures settled { queue.new ≡ settled (look_up view.now.entries) cpus.now tid queue.old }
    ensures room { HasRoom (look_up view.now.entries) queue.new }
{
    if running_on(cpus, cpu) == Some(tid) {
        queue.remove(tid);
    } else {
        settle(view, cpus, queue, tid);
    }
}

/// Does the same of a thread, if there is one.
pub(crate) fn settle_if_any(
    view: &AgentView,
    cpus: &Beliefs,
    queue: &mut RunQueue,
    tid: Option<u32>,
)
    requires { HasRoom (look_up view.now.entries) queue.old }
    ensures settled { queue.new ≡ settled_all (look_up view.now.entries) cpus.now (option_to_list tid) queue.old }
    ensures room { HasRoom (look_up view.now.entries) queue.new }
{
    if let Some(tid) = tid {
        settle(view, cpus, queue, tid);
    }
}

/// Returns the thread that is believed to run on a CPU, if there is one.
pub(crate) fn running_on(cpus: &Beliefs, cpu: Option<u16>) -> Option<u32>
    ensures { result ≡ displaced cpus.now cpu }
{
    let running = cpus.believed(cpu?)?;
    Some(running.tid)
}

/// Returns the found thread, if there is one and it is another than this one.
pub(crate) fn other_than(tid: u32, found: Option<u32>) -> Option<u32>
    ensures { result ≡ other_than tid found }
{
    found.filter(|found| *found != tid)
}

/// Tells whether a message of this kind is a new mask by which its thread stays where it is.
#[inline(always)]
#[tactic(auto, using(crate::proofs::Minds::alone_of, crate::proofs::Minds::alone_by))]
pub(crate) fn is_mask_alone(kind: Kind, message: &MessageRef<'_>) -> bool
    requires { kind ≡ kind_of message.now }
    ensures { result ≡ is_mask_alone message.now }
{
    match kind {
        Kind::Affinity => !message.takes_off_as(kind),
        _ => false,
    }
}

/// Brings the queue up to date after a message about a thread, of this kind, that view and beliefs followed. The thread is settled, and
/// goes last anew if its turn ended. It has this class if it may run. No CPU is believed to run it then if its turn ended.
#[inline(always)]
pub(crate) fn requeue(
    view: &AgentView,
    cpus: &Beliefs,
    queue: &mut RunQueue,
    kind: Kind,
    message: &MessageRef<'_>,
    ready: Option<Class>,
)
    requires room { HasRoom (look_up view.now.entries) queue.old }
    requires kind { kind ≡ kind_of message.now }
    requires thread { kind ≢ Kind.TimerTick }
    requires off { ends_own_turn message.now ≡ true → is_believed cpus.now (tid_of message.now) ≡ false }
    requires ready { ready ≡ ready_of (look_up view.now.entries (tid_of message.now)) }
    ensures requeued { queue.new ≡ requeued (look_up view.now.entries) cpus.now message.now queue.old }
    ensures room { HasRoom (look_up view.now.entries) queue.new }
{
    let tid = message.tid();
    if ends_turn(kind) {
        settle_anew(view, cpus, queue, tid, ready);
    } else {
        settle_ready(view, cpus, queue, tid, ready);
    }
}

/// Tells whether a message of this kind ends its thread's turn, though it may go on waiting.
fn ends_turn(kind: Kind) -> bool
    ensures { (m : Message) → kind ≡ kind_of m → result ≡ ends_own_turn m }
{
    matches!(kind, Kind::Preempted | Kind::Yield)
}
