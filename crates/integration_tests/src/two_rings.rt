//! The same calls over two rings: one of bytes, and one of fixed places.

ghost use Rattle.std.specs.Prelude.{◌≡◌, ◌≤◌, List, map, None, Ok, IfOk};
ghost use Rattle.gs_kernel.specs.declared.executed.Executed.{Executed};
ghost use Rattle.integration_tests.specs.FixedPlaces.{IsFull, unused};
ghost use Rattle.gs_journal.specs.History.{posted};
ghost use Rattle.gs_layout.specs.Spelling.{IsSpellable, tid_of};
ghost use Rattle.gs_layout.specs.declared.message.Message.{Message};

use crate::fixed_places::FixedPlaces;
use gs_journal::Entry;
use gs_kernel::{Executed, Kernel, Settings};
use gs_layout::{Change, Class, Facts, MOST_TIDS, Message, Name, Refusal};
use gs_ring::{ByteRing, Poster, Ring, Taker};
use gs_status::Mask;
use std::alloc::{AllocError, Global};
use std::test::Fail;

/// Two CPUs, and a journal that never fills here.
const SETTINGS: Settings = Settings {
    cpus: 2,
    first_tseq: 0,
    first_generation: 1,
    history: 100,
};

/// A thread whose creation has 56 bytes, so that a ring of 128 has room for two.
fn web() -> Option<Facts> {
    Some(Facts {
        runnable: true,
        mask: Mask::new(3),
        class: Class::Zero,
        name: Name::new(b"abcdefghijklmnop")?,
    })
}

/// A message about a thread.
fn woken(tid: u32) -> Message
    requires tid { (1 ≤ tid) × (tid ≤ MOST_TIDS) }
    ensures { IsSpellable result }
{
    Message::Thread {
        tid,
        tseq: 2,
        change: Change::Wakeup,
    }
}

/// What came of creations and then of a tick.
#[derive(Clone, Copy)]
struct Answers {
    created: [Result<Option<(u32, u32)>, Refusal>; 4],
    ticked: Result<Option<(u32, u32)>, Refusal>,
}

/// What came of a command: the thread and the number of the message that was posted, `None` if it did not fit,
/// or the refusal.
fn said<P: Poster>(
    kernel: &Kernel<P>,
    came: Result<Executed, Refusal>,
) -> Result<Option<(u32, u32)>, Refusal> {
    match came? {
        Executed::Torn => Ok(None),
        Executed::Done => Ok(numbers(&kernel.last().entry())),
    }
}

fn numbers(entry: &Entry) -> Option<(u32, u32)> {
    match entry {
        Entry::Posted { message } => Some((message.tid(), message.tseq())),
        _ => None,
    }
}

/// The tids of the messages that come next, at most so many, which are taken.
fn take_tids<T: Taker>(alloc: Global, taker: &mut T, max: usize) -> Result<Vec<u32>, AllocError>
    ensures { IfOk result (λ tids. (ms : List Message) × T.passed taker.old ms taker.new × (tids.items ≡ map tid_of ms)) }
{
    let mut tids = Vec::with_capacity(alloc, max)?;
    for _ in 0..max {
        let Some(next) = taker.peek() else {
            break;
        };
        tids.push_reserved(next.message().tid());
        taker.advance();
    }
    Ok(tids)
}

/// Creates a thread. If its message did not fit, every place was used.
fn create(kernel: &mut Kernel<FixedPlaces>, facts: &Facts) -> Result<Executed, Refusal>
    ensures { result ≡ Ok Executed.Torn → IsFull kernel.old.poster }
{
    // Reads the ring to expose what was posted to it.
    let _ring = kernel.poster();
    kernel.create(facts)
}

/// Creates a thread, and returns what came of it.
fn created<P: Poster>(kernel: &mut Kernel<P>, facts: &Facts) -> Result<Option<(u32, u32)>, Refusal>
    ensures ring { P.same kernel.old.poster kernel.new.poster }
    ensures stays { P.consumed kernel.new.poster ≡ P.consumed kernel.old.poster }
    ensures told { P.posted kernel.new.poster (posted kernel.new.history) }
{
    let came = kernel.create(facts);
    said(kernel, came)
}

/// Creates threads until the ring is full, and one more, and ticks.
fn fill<P: Poster>(kernel: &mut Kernel<P>, facts: &Facts) -> Answers
    ensures ring { P.same kernel.old.poster kernel.new.poster }
    ensures stays { P.consumed kernel.new.poster ≡ P.consumed kernel.old.poster }
    ensures told { P.posted kernel.new.poster (posted kernel.new.history) }
{
    let created = [
        created(kernel, facts),
        created(kernel, facts),
        created(kernel, facts),
        created(kernel, facts),
    ];
    let ticked = kernel.tick(0);
    Answers {
        created,
        ticked: said(kernel, ticked),
    }
}

/// Whether the messages that come next are about these threads, and no other waits. They are taken.
fn takes<T: Taker>(alloc: Global, taker: &mut T, wanted: &[u32]) -> Result<bool, AllocError>
    ensures { IfOk result (λ _. (ms : List Message) × T.passed taker.old ms taker.new) }
{
    let tids = take_tids(alloc, taker, 9)?;
    Ok(tids.as_slice() == wanted)
}

/// Whether two places are used by one message each, even if the first was taken before the second comes.
fn uses_each_once(alloc: Global, ring: &mut FixedPlaces) -> Result<bool, AllocError>
    requires { ring.old ≡ unused 2 }
{
    let is_first = ring.post(&woken(1)).is_ok() && takes(alloc, ring, &[1])?;
    let is_second = ring.post(&woken(2)).is_ok();
    let is_third = ring.post(&woken(3)).is_ok();
    let is_taken = takes(alloc, ring, &[2])?;
    Ok(is_first && is_second && !is_third && is_taken && ring.is_full())
}

/// A place that was used is not used again.
#[test]
fn uses_a_place_once(rt: HostRuntime) -> Result<(), Fail> {
    let mut ring = FixedPlaces::new(rt.alloc(), 2)?;
    assert!(rt; uses_each_once(rt.alloc(), &mut ring)?);
    Ok(())
}

/// What creations return over two places, whether both are used then, and whether the enclave is torn down.
const CREATIONS: [(Result<Option<(u32, u32)>, Refusal>, bool, bool); 4] = [
    (Ok(Some((1, 1))), false, false),
    (Ok(Some((2, 1))), true, false),
    (Ok(None), true, true),
    (Err(Refusal::Gone), true, true),
];

/// The first creation that comes out otherwise, or leaves another state.
fn first_wrong(kernel: &mut Kernel<FixedPlaces>, facts: &Facts) -> Option<usize> {
    for (i, (created, is_full, is_torn)) in CREATIONS.iter().enumerate() {
        let came = create(kernel, facts);
        let is_so = said(kernel, came) == *created;
        if !is_so || kernel.poster().is_full() != *is_full || kernel.is_torn() != *is_torn {
            return Some(i);
        }
    }
    None
}

/// The third creation finds no place, and from then on the enclave is gone.
#[test]
fn tears_down_at_the_last_place(rt: HostRuntime) -> Result<(), Fail> {
    let facts = web().ok_or("a name")?;
    let ring = FixedPlaces::new(rt.alloc(), 2)?;
    let mut kernel = Kernel::new(rt.alloc(), SETTINGS, ring)?;
    let wrong = first_wrong(&mut kernel, &facts);
    let ticked = kernel.tick(0);
    assert_eq!(rt; (wrong, said(&kernel, ticked)), (None, Err(Refusal::Gone)));
    Ok(())
}

/// Whether a kernel with room for two messages returns this, and these two are taken from its ring.
fn answers_so<P: Ring>(
    alloc: Global,
    kernel: &mut Kernel<P>,
    facts: &Facts,
) -> Result<bool, AllocError> {
    let Answers { created, ticked } = fill(kernel, facts);
    for (answer, (wanted, _, _)) in created.iter().zip(&CREATIONS) {
        if answer != wanted {
            return Ok(false);
        }
    }
    Ok(ticked == Err(Refusal::Gone) && takes(alloc, &mut kernel.taker(), &[1, 2])?)
}

/// A kernel over a ring of bytes that has room for two such messages.
fn over_bytes(alloc: Global) -> Option<Kernel<ByteRing>> {
    let Ok(bytes) = ByteRing::new(alloc, 128) else {
        return None;
    };
    Kernel::new(alloc, SETTINGS, bytes).ok()
}

/// Kernels over the two rings return the same, and the same messages are taken from them.
#[test]
fn answers_alike_over_two_rings(rt: HostRuntime) -> Result<(), Fail> {
    let facts = web().ok_or("a name")?;
    let places = FixedPlaces::new(rt.alloc(), 2)?;
    let mut kernel = Kernel::new(rt.alloc(), SETTINGS, places)?;
    assert!(rt; answers_so(rt.alloc(), &mut kernel, &facts)?);
    let mut kernel = over_bytes(rt.alloc()).ok_or("a kernel")?;
    assert!(rt; answers_so(rt.alloc(), &mut kernel, &facts)?);
    Ok(())
}
