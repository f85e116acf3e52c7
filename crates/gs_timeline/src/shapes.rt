ghost use Rattle.std.specs.Prelude.{◌≡◌};
ghost use Rattle.gs_timeline.specs.Shapes.{outcome_shape, outcome_words};

use gs_layout::Outcome;

/// The ring that stands for a stamp, about where a path is.
pub(crate) const STAMP: &str = "m-4 0a4 4 0 1 0 8 0a4 4 0 1 0-8 0";

/// The shape that stands for several outcomes, about where a path is.
pub(crate) const MIXED: &str = "m-6 0h12m-6-6v12";

/// Returns the words for an outcome: its name, in words.
pub(crate) fn words_of(outcome: Outcome) -> &'static str
    ensures { result.now ≡ outcome_words outcome }
{
    match outcome {
        Outcome::Placed => "placed",
        Outcome::Gone => "gone",
        Outcome::Displaced => "displaced",
        Outcome::NoThread => "no thread",
        Outcome::Stale => "stale",
        Outcome::NotRunnable => "not runnable",
        Outcome::AlreadyPlaced => "already placed",
        Outcome::NotAllowed => "not allowed",
        Outcome::CpuIsAgent => "CPU is agent",
        Outcome::CpuTaken => "CPU taken",
        Outcome::CpuBusy => "CPU busy",
        Outcome::SeqSpent => "seq spent",
        Outcome::HistoryFull => "history full",
        Outcome::Malformed => "malformed",
        Outcome::GroupFailed => "group failed",
    }
}

/// Returns the shape that stands for an outcome, about where a path is. No two have the same. What was decided on old knowledge is a cross
/// or a diamond. What is so of the thread has three corners, what is so of the CPU four, and a limit that was met is two lines.
pub(crate) fn shape_of(outcome: Outcome) -> &'static str
    ensures { result.now ≡ outcome_shape outcome }
{
    match outcome {
        Outcome::Placed => "m-4 0h8",
        Outcome::Stale => "m-5-5l10 10m0-10l-10 10",
        Outcome::Displaced => "m0-6l6 6l-6 6l-6-6z",
        Outcome::NoThread => "m0-5l5 9h-10z",
        Outcome::NotRunnable => "m0 5l5-9h-10z",
        Outcome::AlreadyPlaced => "m5 0l-9 5v-10z",
        Outcome::NotAllowed => "m-5-5h10v10h-10zl10 10",
        Outcome::CpuIsAgent => "m-5-5h10v10h-10zm5 0v10",
        Outcome::CpuTaken => "m-5-5h10v10h-10zm0 5h10",
        Outcome::CpuBusy => "m-5-5h10v10h-10z",
        Outcome::SeqSpent => "m-5 5h10m-10-10h10",
        Outcome::HistoryFull => "m-3-5v10m6-10v10",
        Outcome::Gone => "m-5-5h10l-10 10h10z",
        Outcome::Malformed => "m-5-5l10 10m0-10l-10 10m5-11v12",
        Outcome::GroupFailed => "m5-5h-10v10h10m-3-5h-3",
    }
}
