//! What is wide of an entry: the facts of a new thread, or a new mask.

ghost use Rattle.std.specs.Prelude.{◌≡◌, ◌+◌, ◌<◌, ◌≤◌, ◌++◌, ◌∷◌, [], vec_len, vec_capacity};
ghost use Rattle.gs_journal.specs.Narrow.{change_to, facts_of, masks_of};

use crate::entry::Entry;
use gs_layout::{Change, Facts, Message};
use gs_status::Mask;

/// What is wide of a new mask.
#[derive(Clone, Copy)]
pub(crate) struct NewMask {
    pub(crate) mask: Mask,
    /// The CPU that the thread was on.
    pub(crate) cpu: Option<u16>,
    /// Whether it was taken off that CPU.
    pub(crate) off: bool,
}

const _: () = prove!(size_of::<NewMask>() == 24);

impl NewMask {
    /// Returns the change.
    #[inline(always)]
    pub(crate) fn change(&self) -> Change
        ensures { result ≡ change_to self.now }
    {
        Change::Affinity {
            cpu: self.cpu,
            off: self.off,
            mask: self.mask,
        }
    }
}

/// Appends what is wide of an entry, if anything is. There is room for it.
#[inline(always)]
pub(crate) fn push_wide(facts: &mut Vec<Facts>, masks: &mut Vec<NewMask>, entry: &Entry)
    requires facts { vec_len facts.old < vec_capacity facts.old }
    requires masks { vec_len masks.old < vec_capacity masks.old }
    ensures facts { facts.new.items ≡ facts.old.items ++ facts_of entry.now }
    ensures masks { masks.new.items ≡ masks.old.items ++ masks_of entry.now }
    ensures facts_len { vec_len facts.new ≤ vec_len facts.old + 1 }
    ensures masks_len { vec_len masks.new ≤ vec_len masks.old + 1 }
    ensures facts_capacity { vec_capacity facts.new ≡ vec_capacity facts.old }
    ensures masks_capacity { vec_capacity masks.new ≡ vec_capacity masks.old }
{
    if let Entry::Posted {
        message: Message::Thread { change, .. },
    } = entry
    {
        match change {
            Change::Created { facts: of_thread } => push_facts(facts, of_thread),
            Change::Affinity { cpu, off, mask } => {
                let new = NewMask {
                    mask: *mask,
                    cpu: *cpu,
                    off: *off,
                };
                push_copy(masks, &new);
            }
            _ => (),
        }
    }
}

/// Appends the facts of a new thread, for which there is room. It is called: with it in place what tells of an event would be too large
/// for the compiler to fold it where it is called.
#[inline(never)]
fn push_facts(facts: &mut Vec<Facts>, of_thread: &Facts)
    requires { vec_len facts.old < vec_capacity facts.old }
    ensures items { facts.new.items ≡ facts.old.items ++ of_thread.now ∷ [] }
    ensures len { vec_len facts.new ≡ vec_len facts.old + 1 }
    ensures capacity { vec_capacity facts.new ≡ vec_capacity facts.old }
{
    push_copy(facts, of_thread);
}

/// Appends a copy of an item, for which there is room.
#[inline(always)]
pub(crate) fn push_copy<T: Copy>(items: &mut Vec<T>, item: &T)
    requires { vec_len items.old < vec_capacity items.old }
    ensures items { items.new.items ≡ items.old.items ++ item.now ∷ [] }
    ensures len { vec_len items.new ≡ vec_len items.old + 1 }
    ensures capacity { vec_capacity items.new ≡ vec_capacity items.old }
{
    items.push_reserved(*item);
}
