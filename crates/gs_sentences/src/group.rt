ghost use Rattle.std.specs.Prelude.{◌≡◌, ◌≤◌, ◌+◌, ◌++◌, length};
ghost use Rattle.gs_sentences.specs.Landed.{fault_text, group_text};

use crate::sentence::{SENTENCE_LEN, Sentence};
use crate::words::{Words, put_numbered, put_words};
use gs_lines::outcome_name;
use gs_reasons::GroupFault;

/// Puts what fails a group.
fn put_fault(to: &mut Sentence, fault: &GroupFault)
    requires { length to.old + 252 ≤ SENTENCE_LEN }
    ensures value { to.new ≡ fault_text fault.now ++ to.old }
    ensures short { length to.new ≤ length to.old + 252 }
{
    match fault {
        GroupFault::Slot { cpu, tid, outcome } => {
            to.put(outcome_name(*outcome));
            put_words(to, Words::LandedAs);
            put_numbered(to, Words::ForCpu, *cpu as u64);
            put_numbered(to, Words::Thread, *tid as u64);
        }
        GroupFault::Twice { tid, lower, cpu } => {
            put_numbered(to, Words::AndForCpu, *cpu as u64);
            put_numbered(to, Words::IsNamedForCpu, *lower as u64);
            put_numbered(to, Words::Thread, *tid as u64);
        }
    }
}

/// Puts that a group failed, and by what.
pub(crate) fn put_group(to: &mut Sentence, fault: &Option<GroupFault>)
    requires { length to.old + 316 ≤ SENTENCE_LEN }
    ensures value { to.new ≡ group_text fault.now ++ to.old }
    ensures short { length to.new ≤ length to.old + 316 }
{
    match fault {
        Some(fault) => {
            put_fault(to, fault);
            put_words(to, Words::ItsGroupFailedAs);
        }
        None => put_words(to, Words::ItsGroupFailed),
    }
}
