ghost use Rattle.std.specs.Prelude.{◌≡◌, ◌<◌};
ghost use Rattle.gs_layout.specs.Record.{after};
ghost use Rattle.gs_threads.specs.Rows.{is_live, new_row, row_after};

use gs_layout::{Change, Facts, Message, Record};

/// What the kernel has of one thread.
#[derive(Clone, Copy)]
pub struct ThreadRow {
    /// The thread's sequence number, that of its latest message. It stands first, beside the mask, since both are read for most
    /// commands. So they mostly lie in one cache line.
    pub tseq: u32,
    /// The CPU that the thread is on.
    pub cpu: Option<u16>,
    /// What the thread's messages make of it.
    pub record: Record,
}

impl ThreadRow {
    /// Makes the row of a thread that was just created, on no CPU. Its sequence number is one above
    /// `first_tseq`.
    pub fn new(first_tseq: u32, facts: &Facts) -> ThreadRow
        requires { first_tseq < u32.MAX }
        ensures { result ≡ new_row first_tseq facts.now }
    {
        ThreadRow {
            record: Record::Live { facts: *facts },
            tseq: first_tseq + 1,
            cpu: None,
        }
    }

    /// Takes in a message about the thread. A timer tick leaves the row.
    #[inline(always)]
    pub fn take_in(&mut self, message: &Message)
        ensures { self.new ≡ row_after self.old message.now }
    {
        let Message::Thread { tseq, change, .. } = message else {
            return;
        };
        follow(&mut self.record, message);
        self.tseq = *tseq;
        if change.takes_off_cpu() {
            self.cpu = None;
        }
    }

    /// Returns whether the thread lives.
    pub fn is_live(&self) -> bool
        ensures { result ≡ is_live self.now.record }
    {
        matches!(self.record, Record::Live { .. })
    }
}

/// Changes a thread's record as a message about the thread says. The facts of a thread that lives on change
/// where they stand.
#[inline(always)]
fn follow(found: &mut Record, message: &Message)
    ensures { found.new ≡ after found.old message.now }
{
    if let Record::Live { facts } = found
        && let Message::Thread { change, .. } = message
        && !matches!(change, Change::Dead { .. })
    {
        facts.change(change);
    } else {
        *found = found.after(message);
    }
}
