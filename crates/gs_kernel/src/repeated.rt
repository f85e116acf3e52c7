//! Threads that more than one transaction of a group names.

ghost use Rattle.std.specs.Prelude.{◌≡◌, ◌==◌, ◌%◌, ◌<◌, ◌&&◌};
ghost use Rattle.std.specs.List.{list_any};
ghost use Rattle.gs_status.specs.Masks.{has};
ghost use Rattle.gs_kernel.specs.Group.{AreMarked};
ghost use Rattle.gs_kernel.specs.Ready.{Rises};

use gs_slots::Stamp;
use gs_status::{MOST_CPUS, Mask};

/// Returns the CPUs of a group whose transactions name a thread that one for a lower CPU names.
///
/// A mask notes which threads were named, each by its number modulo [`MOST_CPUS`], so that the transactions before are
/// looked at only if one may name the same thread.
pub(crate) fn repeated_in(group: &[(u16, Stamp)]) -> Mask
    requires { Rises 0 MOST_CPUS group.now }
    ensures { AreMarked result group.now group.now }
{
    let mut named = Mask::none();
    let mut repeated = Mask::none();
    let mut at = 0;
    'members: while at < group.len() {
        let (cpu, tid) = (group[at].0, group[at].1.tid);
        let again = is_repeated(named, tid, &group[..at]);
        repeated = repeated.with_if(cpu, again);
        named = named.with(place_of(tid));
        at += 1;
    }
    repeated
}

/// Returns where a mask notes a thread.
fn place_of(tid: u32) -> u16
    ensures value { result ≡ tid % MOST_CPUS }
    ensures below { result < MOST_CPUS }
{
    (tid % MOST_CPUS as u32) as u16
}

/// Returns whether one of the transactions before names a thread, of which a mask notes the threads.
fn is_repeated(named: Mask, tid: u32, before: &[(u16, Stamp)]) -> bool
    ensures { result ≡ (has named (tid % MOST_CPUS) && list_any (λ x. x.1.tid == tid) before.now) }
{
    named.has(place_of(tid)) && is_named(tid, before)
}

/// Returns whether one of these transactions names a thread.
fn is_named(tid: u32, group: &[(u16, Stamp)]) -> bool
    ensures { result ≡ list_any (λ x. x.1.tid == tid) group.now }
{
    group.iter().any(|member| member.1.tid == tid)
}
