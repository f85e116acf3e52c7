ghost use Rattle.std.specs.Prelude.{◌≡◌};
ghost use Rattle.gs_layout.specs.Record.{after, begun, changed};

use crate::facts::Facts;
use crate::message::{Change, Message};

/// What a thread is: it never was, it is dead, or it lives.
#[derive(Clone, Copy, PartialEq, Eq, Debug)]
pub enum Record {
    Absent,
    Dead,
    Live { facts: Facts },
}

impl Record {
    /// Returns the record after one more message about the thread. A timer tick leaves it.
    #[inline(always)]
    pub fn after(self, message: &Message) -> Record
        ensures { result ≡ after self message.now }
    {
        let Message::Thread { change, .. } = message else {
            return self;
        };
        match self {
            Record::Live { facts } => changed(facts, change),
            Record::Dead => Record::Dead,
            Record::Absent => begun(change),
        }
    }
}

/// Returns what a change makes of a live thread.
#[inline(always)]
fn changed(mut facts: Facts, change: &Change) -> Record
    ensures { result ≡ changed facts change.now }
{
    if let Change::Dead { .. } = change {
        return Record::Dead;
    }
    facts.change(change);
    Record::Live { facts }
}

/// Returns what a change makes of a thread that never was.
fn begun(change: &Change) -> Record
    ensures { result ≡ begun change.now }
{
    match change {
        Change::Created { facts } => Record::Live { facts: *facts },
        Change::Dead { .. } => Record::Dead,
        _ => Record::Absent,
    }
}
