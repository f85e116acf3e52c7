//! The messages that tables tell. Each is made as a test runs, if its fields are in their ranges, so that
//! rows may be sent in a loop whatever they hold.

ghost use Rattle.std.specs.Prelude.{IfSome};
ghost use Rattle.gs_layout.specs.Spelling.{IsSpellable};

use gs_layout::{Change, Class, Facts, Message, Name};
use gs_status::Mask;

/// What came of a table.
#[derive(Clone, Copy, PartialEq, Eq, Debug)]
pub(crate) enum Tried {
    /// Each row came out as it says.
    Well,
    /// This row was the first that was not.
    WrongRow(usize),
    /// What the rows are tried on could not be made.
    NotMade,
}

impl Tried {
    /// What came of a table, by its first row that did not come out as it says.
    pub(crate) fn with(first_wrong: Option<usize>) -> Tried {
        match first_wrong {
            Some(row) => Tried::WrongRow(row),
            None => Tried::Well,
        }
    }
}

/// What a row tells.
#[derive(Clone, Copy)]
pub(crate) enum Told {
    /// A runnable thread is created: its tid, its number, its class, its mask and its name.
    Creation(u32, u32, Class, u128, &'static str),
    /// What happened to a thread, of this tid, at this number.
    Thread(u32, u32, Change),
    /// The timer of a CPU ticked.
    Tick(u16),
}

impl Told {
    /// The message, or `None` if a field of it is out of its range.
    pub(crate) fn message(&self) -> Option<Message>
        ensures { IfSome result IsSpellable }
    {
        match self {
            Told::Creation(tid, tseq, class, mask, name) => {
                about(*tid, *tseq, creation(*class, *mask, name)?)
            }
            Told::Thread(tid, tseq, change) => about(*tid, *tseq, *change),
            Told::Tick(cpu) => tick(*cpu),
        }
    }
}

/// The creation of a runnable thread of this class, mask and name.
pub(crate) fn creation(class: Class, mask: u128, name: &str) -> Option<Change> {
    let facts = Facts {
        runnable: true,
        mask: Mask::new(mask),
        class,
        name: Name::new(name.as_bytes())?,
    };
    Some(Change::Created { facts })
}

/// What happened to a thread, or `None` if a field of it is out of its range.
pub(crate) fn about(tid: u32, tseq: u32, change: Change) -> Option<Message>
    ensures { IfSome result IsSpellable }
{
    spellable(Message::Thread { tid, tseq, change })
}

/// A tick of a CPU's timer, or `None` if there can be no such CPU.
pub(crate) fn tick(cpu: u16) -> Option<Message>
    ensures { IfSome result IsSpellable }
{
    spellable(Message::TimerTick { cpu })
}

/// The message, or `None` if a field of it is out of its range.
fn spellable(message: Message) -> Option<Message>
    ensures { IfSome result IsSpellable }
{
    if message.is_spellable() {
        Some(message)
    } else {
        None
    }
}
