use gs_journal::Entry;
use gs_layout::Message;

/// What a step of the kernel adds to the journal. Of its entries at most one is a message, and that one has
/// to fit into the ring. A message that is all that a step adds is told with no such value made, since this
/// has places for a message and an entry besides.
#[derive(Clone, Copy)]
pub enum Effect {
    /// A message is posted.
    Post {
        message: Message,
    },
    /// An entry is appended, behind PREEMPTED of the victim, if there is one.
    Append {
        victim: Option<Message>,
        entry: Entry,
    },
}
