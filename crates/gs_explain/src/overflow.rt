ghost use Rattle.std.specs.Prelude.{◌≡◌, ◌≤◌};
ghost use Rattle.gs_explain.specs.Moment.{overflow_in, size_of};

use gs_core::Event;
use gs_kernel::{Command, Kernel, ThreadEvent};
use gs_layout::{AFFINITY_LEN, HEADER_LEN, creation_len};
use gs_ring::ByteRing;
use gs_sentences::Overflow;

/// Returns how many bytes the message of an event has.
fn size_of(event: &Event<()>) -> usize
    ensures value { result ≡ size_of event.now }
    ensures most { result ≤ 64 }
{
    match event {
        Event::Kernel {
            command: Command::Create { facts },
        } => creation_len(facts.name.as_bytes().len()),
        Event::Kernel {
            command: Command::Thread {
                event: ThreadEvent::Affinity { .. },
                ..
            },
        } => AFFINITY_LEN,
        _ => HEADER_LEN,
    }
}

/// Returns what the message of an event needs behind all that was posted, and what is free.
pub(crate) fn overflow_of(event: &Event<()>, kernel: &Kernel<ByteRing>) -> Overflow
    ensures { result ≡ overflow_in event.now kernel.now.poster }
{
    let ring = kernel.poster();
    Overflow {
        needs: ring.need(size_of(event)),
        free: ring.free(),
    }
}
