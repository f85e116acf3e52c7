use crate::script::MOST_BYTES;
use thiserror::Error;

/// Why a script can't be read. Its length is tested first. Then the earliest line that has a fault counts,
/// and in it the first of these faults:
///
/// - a bad byte, in a comment too;
/// - if the header is to stand there, a first word that isn't `cpus`;
/// - a first word that no event has;
/// - a count of words that no form of the line has, for a header only one under four;
/// - the words, from left to right.
///
/// A line that ends inside a part of it, and words behind all that may stand there, are `BadCount`.
#[derive(Clone, Copy, PartialEq, Eq, Debug, Error)]
pub enum Reason {
    #[error("the script has over {} bytes", MOST_BYTES)]
    TooLong,
    #[error("a byte is not from 32 to 126")]
    BadByte,
    #[error("the first line that says anything does not begin with `cpus`")]
    NoHeader,
    #[error("a word is not one of those that may stand there")]
    BadWord,
    #[error("the line has too few words, or too many")]
    BadCount,
    #[error("a word is not a number in its range")]
    BadNumber,
    #[error("a word is not a name")]
    BadName,
}

/// A fault of a script, and the line that has it. Lines are counted from 1. Line 0 is the script itself, if
/// it is too long or has no header.
#[derive(Clone, Copy, PartialEq, Eq, Debug, Error)]
#[error("line {line}: {reason}")]
pub struct ScriptFault {
    pub line: usize,
    pub reason: Reason,
}
