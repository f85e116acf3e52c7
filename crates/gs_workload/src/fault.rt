//! Why a text is no workload.

use crate::key::Key;
use gs_script::{MOST_BYTES, PolicyForms, PolicyWord};
use std::alloc::{AllocError, AllocFailed};
use std::fmt;
use toml::de::Error;

/// What a value is to be.
#[derive(Clone, Copy, Debug)]
pub enum Kind {
    Number,
    /// A number, or a list of the least and the most.
    Span,
    Text,
    Flag,
    Cpus,
    Table,
    Tables,
}

/// What is wrong with the value of a key.
#[derive(Clone, Copy, Debug)]
pub enum Reason {
    /// The key has to be there, and is not.
    Missing,
    /// The value is not of this kind.
    NotOfKind { kind: Kind },
    /// The number, or one of the value's numbers, is not from `least` to `most`.
    OutOfRange { least: u32, most: u32 },
    /// The number is no multiple of this one.
    NoMultiple { of: u32 },
    /// Of a list of two numbers, the first is above the second.
    Reversed,
    /// The list has no CPU.
    NoCpu,
    /// The text is no name of a thread: 1 to 16 bytes from 33 to 126, and not `-` alone.
    NoName,
    /// The text is none of those that may stand there. A policy is named by words of [`WorkloadFault::Wrong`]'s `policies`.
    OtherWord,
    /// The key means something only beside another value, and has to be left out.
    Unused,
    /// There is no group.
    NoGroup,
    /// All groups together have over 65,536 threads.
    TooManyThreads,
    /// The tick is not behind the one before.
    NotLater,
}

/// The part of a workload that a key stands in.
#[derive(Clone, Copy, Debug)]
pub enum Part {
    Whole,
    Agent,
    /// The group of this place, counted from 0.
    Group { place: usize },
    /// The taking of this place, counted from 0.
    Taking { place: usize },
    /// The change of this place, counted from 0.
    Change { place: usize },
}

/// What is wrong with a document that is one of TOML, and has no unknown key.
#[derive(Clone, Copy, Debug)]
pub struct Wrong {
    pub part: Part,
    pub key: Key,
    pub reason: Reason,
}

/// Why a document was not read.
#[derive(Clone, Copy)]
pub(crate) enum Failure {
    Wrong(Wrong),
    OutOfMemory,
}

impl<T: Drop> From<AllocFailed<T>> for Failure {
    ghost use Rattle.std.specs.Prelude.{◌≡◌};
    ghost use Rattle.gs_workload.specs.declared.fault.Failure.TheVariants.{OutOfMemory};

    ghost from_gives = { λ _ failure. failure ≡ OutOfMemory };

    fn from(_failed: AllocFailed<T>) -> Failure {
        Failure::OutOfMemory
    }
}

impl From<Wrong> for Failure {
    ghost use Rattle.std.specs.Prelude.{◌≡◌};
    ghost use Rattle.gs_workload.specs.declared.fault.Failure.TheVariants.{Wrong};

    ghost from_gives = { λ wrong failure. failure ≡ Wrong wrong };

    fn from(wrong: Wrong) -> Failure {
        Failure::Wrong(wrong)
    }
}

/// Why a text is no workload. Lines are counted from 1; it is line 0 if the key was not found in the text.
#[derive(Debug, Drop)]
pub enum WorkloadFault {
    /// The text has more bytes than a script may have, [`gs_script::MOST_BYTES`].
    TooLong,
    /// The text is not one of TOML.
    NotToml {
        line: usize,
        error: Error,
    },
    /// A key that none of its part has. `meant` is the nearest one that it may have, if one is near.
    UnknownKey {
        line: usize,
        key: String,
        meant: Option<&'static str>,
    },
    /// The value of a key is wrong, or the key is missing. `policies` are the forms of the words that name a policy.
    Wrong {
        line: usize,
        wrong: Wrong,
        policies: &'static [&'static [PolicyWord]],
    },
    /// Memory ran out, which says nothing of the text.
    OutOfMemory,
}

impl From<AllocError> for WorkloadFault {
    ghost use Rattle.std.specs.Prelude.{◌≡◌};
    ghost use Rattle.gs_workload.specs.declared.fault.WorkloadFault.TheVariants.{OutOfMemory};

    ghost from_gives = { λ _ fault. fault ≡ OutOfMemory };

    fn from(_failed: AllocError) -> WorkloadFault {
        WorkloadFault::OutOfMemory
    }
}

impl Kind {
    /// Returns what a value of the kind is, in words.
    fn text(self) -> &'static str {
        match self {
            Kind::Number => "a whole number",
            Kind::Span => "a whole number, or [least, most]",
            Kind::Text => "a text in quotation marks",
            Kind::Flag => "true or false",
            Kind::Cpus => "a list of CPUs, as [0, 1]",
            Kind::Table => "a table, as [agent]",
            Kind::Tables => "a list of tables",
        }
    }
}

/// Returns the words that may stand behind a key.
fn words(key: Key) -> &'static str {
    match key {
        Key::Leaving => "`block`, `yield` or `die`",
        Key::What => "`hand-off`, `crash` or `replace`",
        _ => "another word",
    }
}

/// Returns whether a key may have a span in place of a number.
fn has_span(key: Key) -> bool {
    matches!(key, Key::Run | Key::Sleep | Key::Created | Key::Late)
}

/// Writes what the value of a key has to be.
fn write_kind<W: fmt::Write>(f: &mut fmt::Formatter<W>, key: Key, kind: Kind) -> fmt::Result {
    match kind {
        Kind::Number if has_span(key) => write!(f, "has to be {}", Kind::Span.text()),
        Kind::Tables => write!(
            f,
            "has to be {}, each behind a line [[{}]]",
            kind.text(),
            key.word()
        ),
        _ => write!(f, "has to be {}", kind.text()),
    }
}

/// Writes what the text of a key has to be.
fn write_words<W: fmt::Write>(
    f: &mut fmt::Formatter<W>,
    key: Key,
    policies: &[&[PolicyWord]],
) -> fmt::Result {
    f.write_str("has to be ")?;
    match key {
        Key::Policy => write!(f, "{}", PolicyForms { forms: policies }),
        _ => f.write_str(words(key)),
    }
}

/// Writes what is wrong with the value of a key.
fn write_reason<W: fmt::Write>(
    f: &mut fmt::Formatter<W>,
    key: Key,
    reason: Reason,
    policies: &[&[PolicyWord]],
) -> fmt::Result {
    match reason {
        Reason::Missing => f.write_str("is missing"),
        Reason::NotOfKind { kind } => write_kind(f, key, kind),
        Reason::OutOfRange { least, most } => match key {
            Key::Mask => write!(f, "has to have CPUs from {least} to {most} alone"),
            _ => write!(f, "has to be from {least} to {most}"),
        },
        Reason::NoMultiple { of } => write!(f, "has to be a multiple of {of}"),
        Reason::Reversed => f.write_str("has to be [least, most], with the lower number first"),
        Reason::NoCpu => f.write_str("has to have a CPU, or to be left out for all CPUs"),
        Reason::NoName => f.write_str(
            "has to be a name of 1 to 16 letters, digits and signs without a space, and not `-`",
        ),
        Reason::OtherWord => write_words(f, key, policies),
        Reason::Unused => f.write_str("has to be left out where `what` is `crash`"),
        Reason::NoGroup => f.write_str("has to have a group of threads, behind a line [[groups]]"),
        Reason::TooManyThreads => {
            f.write_str("has to have fewer threads: at most 65536 in all groups together")
        }
        Reason::NotLater => match key {
            Key::Until => f.write_str("has to be above `from`"),
            _ => f.write_str("has to be above that of the change before"),
        },
    }
}

/// Writes where a key stands.
fn write_part<W: fmt::Write>(f: &mut fmt::Formatter<W>, part: Part) -> fmt::Result {
    match part {
        Part::Whole => Ok(()),
        Part::Agent => f.write_str(" of the agent"),
        Part::Group { place } => write!(f, " of group {}", place.saturating_add(1)),
        Part::Taking { place } => write!(f, " of taking {}", place.saturating_add(1)),
        Part::Change { place } => write!(f, " of change {}", place.saturating_add(1)),
    }
}

/// Writes the line of a fault, if it has one.
fn write_line<W: fmt::Write>(f: &mut fmt::Formatter<W>, line: usize) -> fmt::Result {
    match line {
        0 => Ok(()),
        line => write!(f, "line {line}: "),
    }
}

/// Writes which key is wrong, and why.
fn write_wrong<W: fmt::Write>(
    f: &mut fmt::Formatter<W>,
    wrong: Wrong,
    policies: &[&[PolicyWord]],
) -> fmt::Result {
    write!(f, "`{}`", wrong.key.word())?;
    write_part(f, wrong.part)?;
    f.write_str(" ")?;
    write_reason(f, wrong.key, wrong.reason, policies)
}

impl fmt::Display for WorkloadFault {
    fn fmt<W: fmt::Write>(&self, f: &mut fmt::Formatter<W>) -> fmt::Result {
        match self {
            WorkloadFault::TooLong => write!(f, "a workload has at most {MOST_BYTES} bytes"),
            WorkloadFault::NotToml { line, error } => {
                write_line(f, *line)?;
                write!(f, "this is not TOML: {}", error.message())
            }
            WorkloadFault::UnknownKey { line, key, meant } => {
                write_line(f, *line)?;
                write!(f, "no such key here: `{key}`")?;
                match meant {
                    Some(word) => write!(f, "; `{word}` is one"),
                    None => Ok(()),
                }
            }
            WorkloadFault::Wrong {
                line,
                wrong,
                policies,
            } => {
                write_line(f, *line)?;
                write_wrong(f, *wrong, policies)
            }
            WorkloadFault::OutOfMemory => f.write_str("out of memory"),
        }
    }
}

impl std::error::Error for WorkloadFault {}
