//! The forms of lines as they are written in docs/REFERENCE.md.

use gs_script::{PolicyForm, PolicyWord};
use std::alloc::AllocError;
use std::fmt::Write;

/// The first words of lines that say an event.
pub(crate) const EVENTS: [&str; 23] = [
    "create", "block", "wake", "yield", "die", "affinity", "take", "give", "tick", "handoff",
    "crash", "leave", "begin", "page", "activate", "drain", "stamp", "decide", "commit", "late",
    "view", "state", "unread",
];

/// The form of a line.
#[derive(Clone, Copy)]
pub(crate) struct LineForm {
    front: &'static str,
    /// What stands before the words of a policy, where such words may stand behind the others.
    before_policy: Option<&'static str>,
}

/// The header of a script.
pub(crate) const HEADER: LineForm = LineForm {
    front: "cpus C ring B [first-tseq N] [first-gen N] [history N]",
    before_policy: Some("policy "),
};

/// What begins an agent.
const BEGIN: LineForm = LineForm {
    front: "begin",
    before_policy: Some(""),
};

/// Returns the words of the line that begins with this word, if no policy is named in it.
fn plain_text(first: &str) -> Option<&'static str> {
    match first {
        "create" => Some("create M CLASS R NAME"),
        "block" => Some("block T"),
        "wake" => Some("wake T"),
        "yield" => Some("yield T"),
        "die" => Some("die T"),
        "affinity" => Some("affinity T M"),
        "take" => Some("take C"),
        "give" => Some("give C"),
        "tick" => Some("tick C"),
        "handoff" => Some("handoff C"),
        "crash" => Some("crash"),
        "leave" => Some("leave"),
        "page" => Some("page N"),
        "activate" => Some("activate C"),
        "drain" => Some("drain N"),
        "stamp" => Some("stamp C T [p | g | pg]"),
        "decide" => Some("decide"),
        "commit" => Some("commit M"),
        "late" => Some("late N"),
        "view" => Some("view"),
        "state" => Some("state"),
        "unread" => Some("unread"),
        _ => None,
    }
}

/// Returns the form of the line that begins with this word, if any does.
pub(crate) fn line_form(first: &str) -> Option<LineForm> {
    match first {
        "cpus" => Some(HEADER),
        "begin" => Some(BEGIN),
        _ => {
            let front = plain_text(first)?;
            Some(LineForm {
                front,
                before_policy: None,
            })
        }
    }
}

/// Writes the forms of words that name a policy, each behind the same text: one of them may stand there.
fn write_policies(
    text: &mut String,
    before: &str,
    policies: &[&[PolicyWord]],
) -> Result<(), AllocError> {
    text.push_str(" [")?;
    for (place, form) in policies.iter().enumerate() {
        text.push_str(if place == 0 { "" } else { " | " })?;
        text.push_str(before)?;
        write!(text, "{}", PolicyForm { words: form })?;
    }
    text.push(']')
}

impl LineForm {
    /// Writes the form, where these are the forms of the words that name a policy.
    pub(crate) fn write(
        self,
        text: &mut String,
        policies: &[&[PolicyWord]],
    ) -> Result<(), AllocError> {
        text.push_str(self.front)?;
        match self.before_policy {
            Some(before) => write_policies(text, before, policies),
            None => Ok(()),
        }
    }
}
