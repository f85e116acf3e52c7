//! In which groups turns and landings are.

ghost use Rattle.std.specs.Prelude.{◌≡◌};
ghost use Rattle.gs_tallies.specs.Accounts.{class_known, class_place};

use crate::group::Grouping;
use gs_kernel::Landing;
use gs_layout::Class;
use gs_turns::{Known, Turn};

/// Groups by class.
#[derive(Drop)]
pub(crate) struct ByClass<'a> {
    /// What is known of each thread, in the place of its tid.
    pub(crate) threads: &'a [Known],
}

/// Groups by thread, each in the place of its tid.
#[derive(Drop)]
pub(crate) struct ByThread;

/// Returns the place of a class: those of which none is known are behind the others.
fn class_place(class: Option<Class>) -> usize
    ensures { result ≡ class_place class }
{
    match class {
        Some(Class::Zero) => 0,
        Some(Class::One) => 1,
        None => 2,
    }
}

/// Returns the class of a thread, by what is known of each, or `None` if none is known.
pub(crate) fn class_known(threads: &[Known], tid: usize) -> Option<Class>
    ensures { result ≡ class_known threads.now tid }
{
    threads.get(tid)?.class
}

impl<'a> Grouping<Turn> for ByClass<'a> {
    ghost group = { λ self turn. class_place turn.class };

    fn group_of(&self, turn: &Turn) -> usize {
        class_place(turn.class)
    }
}

impl<'a> Grouping<Landing> for ByClass<'a> {
    ghost group = { λ self landing. class_place (class_known self.threads.now landing.tid) };

    fn group_of(&self, landing: &Landing) -> usize {
        class_place(class_known(self.threads, landing.tid as usize))
    }
}

impl Grouping<Turn> for ByThread {
    ghost group = { λ self turn. turn.stay.tid };

    fn group_of(&self, turn: &Turn) -> usize {
        turn.stay.tid as usize
    }
}

impl Grouping<Landing> for ByThread {
    ghost group = { λ self landing. landing.tid };

    fn group_of(&self, landing: &Landing) -> usize {
        landing.tid as usize
    }
}
