ghost use Rattle.std.specs.Prelude.{◌≡◌, None};

use gs_layout::Class;

/// What a message was to a view.
#[derive(Clone, Copy, PartialEq, Eq, Debug)]
pub enum News {
    /// It was news: the view knows now what it says. A timer tick says nothing of any thread.
    Applied,
    /// It was not above the number that the view has of its thread. Nothing changed.
    Skipped,
    /// It was about a thread of which the view knows nothing, and no creation. Nothing changed.
    Orphan,
}

/// What a message about a thread was to a view, and whether its thread may run then.
#[derive(Clone, Copy, PartialEq, Eq, Debug)]
pub struct Heard {
    pub news: News,
    /// The class of the thread, if the message applied and the thread may run then.
    pub ready: Option<Class>,
}

impl Heard {
    /// Returns that a message was this, and that its thread may not run.
    pub(crate) fn unready(news: News) -> Heard
        ensures news { result.news ≡ news }
        ensures ready { result.ready ≡ None }
    {
        Heard { news, ready: None }
    }
}
