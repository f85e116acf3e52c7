ghost use Rattle.std.specs.Prelude.{◌≡◌, ◌⊎◌};
ghost use Rattle.std.specs.IoError.{error_kind};
ghost use Rattle.clap.specs.Values.{kind_of};
ghost use Rattle.gs_commands.specs.Failures.{IsToldBy, IsUnopened, IsUnreadBy};
ghost use Rattle.gs_commands.specs.Policies.{IsOfPolicy};

use clap::error::ErrorKind;
use gs_script::{NamedPolicy, PolicyForms};
use gs_serve::ServeFault;
use gs_trace::TraceFault;
use gs_workbench::WorkbenchFault;
use gs_workers::WorkFault;
use std::alloc::Global;
use std::io;
use thiserror::Error;

/// Why the program did not do what it was called for.
#[derive(Debug, Drop, Error)]
pub(crate) enum Failure {
    /// The arguments are wrong, or they ask for the help or the version.
    #[error("{0}")]
    Arguments(clap::Error),
    #[error("ghost: the arguments are not text\n")]
    NotText,
    /// Nothing is said of the word that help is wanted for.
    #[error("ghost: nothing is said of this word\n")]
    UnknownWord,
    /// Nor of that, but of one that was probably meant.
    #[error("ghost: nothing is said of this word, but of `{0}`\n")]
    NearWord(&'static str),
    /// A text that is to name a policy names none: it would be one of these forms.
    #[error("ghost: `{named}` names no policy, whose words are {forms}\n")]
    NoPolicy {
        named: String,
        forms: PolicyForms<'static>,
    },
    /// The file that is to have the script cannot be opened.
    #[error("ghost: {file}: {error}\n")]
    Unopened {
        file: String,
        error: io::Error,
    },
    #[error("ghost: {0}\n")]
    Script(TraceFault),
    #[error("ghost: {0}\n")]
    Serve(ServeFault),
    #[error("ghost: {0}\n")]
    Workbench(WorkbenchFault),
    #[error("ghost: {0}\n")]
    Work(WorkFault),
}

/// Returns why there are no arguments: out of memory, or they are not text.
pub(crate) fn unread(error: io::Error) -> Failure
    ensures { IsUnreadBy (error_kind error) result }
{
    match error.kind() {
        io::ErrorKind::OutOfMemory => Failure::Script(TraceFault::OutOfMemory),
        _ => Failure::NotText,
    }
}

/// Returns why a file was not opened, or out of memory.
pub(crate) fn unopened(alloc: Global, file: &str, error: io::Error) -> Failure
    ensures { IsUnopened result }
{
    match String::from_str(alloc, file) {
        Ok(file) => Failure::Unopened { file, error },
        Err(_) => Failure::Script(TraceFault::OutOfMemory),
    }
}

/// Returns that a text names no policy, or out of memory.
pub(crate) fn unnamed<P: NamedPolicy>(alloc: Global, named: &str) -> Failure
    ensures { IsOfPolicy P.naming named.now result ⊎ (result ≡ Failure.Script TraceFault.OutOfMemory) }
{
    match String::from_str(alloc, named) {
        Ok(named) => Failure::NoPolicy {
            named,
            forms: PolicyForms { forms: P::forms() },
        },
        Err(_) => Failure::Script(TraceFault::OutOfMemory),
    }
}

/// Returns why the arguments give no command: out of memory, or they are told what is wrong with them, the
/// help or the version.
pub(crate) fn unsettled(error: clap::Error) -> Failure
    ensures { IsToldBy error result }
{
    match error.kind() {
        ErrorKind::OutOfMemory => Failure::Script(TraceFault::OutOfMemory),
        _ => Failure::Arguments(error),
    }
}
