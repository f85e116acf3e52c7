ghost use Rattle.std.specs.Prelude.{◌≡◌, ◌<◌, ◌≤◌, length, take, drop};
ghost use Rattle.gs_reasons.specs.Group.{by_itself, fault_of_group, cpu_naming, named_twice, own_failure};

use gs_kernel::Landing;
use gs_layout::Outcome;

/// What fails a group, all of which is placed or nothing.
#[derive(Clone, Copy, PartialEq, Eq, Debug)]
pub enum GroupFault {
    /// One of it would not be placed by itself either.
    Slot {
        /// The CPU in whose slot it is.
        cpu: u16,
        /// Its thread.
        tid: u32,
        /// What becomes of it by itself.
        outcome: Outcome,
    },
    /// Two of it name the same thread.
    Twice {
        tid: u32,
        /// The lower of their CPUs.
        lower: u16,
        /// The other one.
        cpu: u16,
    },
}

/// Returns whether an outcome is one that a transaction has by itself, and is not to place it.
fn by_itself(outcome: Outcome) -> bool
    ensures { result ≡ by_itself outcome }
{
    !matches!(outcome, Outcome::Placed | Outcome::GroupFailed)
}

/// Returns the first landing of a group that would not be placed by itself.
fn own_failure(landings: &[Landing]) -> Option<GroupFault>
    ensures { result ≡ own_failure landings.now }
{
    let mut rest = landings;
    'landings: while let Some((first, behind)) = rest.split_first() {
        if by_itself(first.outcome) {
            return Some(GroupFault::Slot {
                cpu: first.cpu,
                tid: first.tid,
                outcome: first.outcome,
            });
        }
        rest = behind;
    }
    None
}

/// Returns the CPU of the first landing that names a thread.
fn cpu_naming(tid: u32, landings: &[Landing]) -> Option<u16>
    ensures { result ≡ cpu_naming tid landings.now }
{
    let mut rest = landings;
    'landings: while let Some((first, behind)) = rest.split_first() {
        if first.tid == tid {
            return Some(first.cpu);
        }
        rest = behind;
    }
    None
}

/// Returns the first landing of a group whose thread an earlier one names.
fn named_twice(landings: &[Landing]) -> Option<GroupFault>
    ensures { result ≡ named_twice landings.now }
{
    let mut rest = landings;
    'landings: while let Some((first, behind)) = rest.split_first() {
        if let Some(cpu) = cpu_naming(first.tid, behind) {
            return Some(GroupFault::Twice {
                tid: first.tid,
                lower: first.cpu,
                cpu,
            });
        }
        rest = behind;
    }
    None
}

/// Returns what fails a group, by what became of all of it, in increasing order of CPU.
pub fn fault_of_group(landings: &[Landing]) -> Option<GroupFault>
    ensures { result ≡ fault_of_group landings.now }
{
    match own_failure(landings) {
        Some(failure) => Some(failure),
        None => named_twice(landings),
    }
}
