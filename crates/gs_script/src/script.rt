ghost use Rattle.std.specs.Prelude.{◌≡◌, IfOk, None};
ghost use Rattle.gs_replies.specs.Config.{config_fault};
ghost use Rattle.gs_script.specs.declared.script.ScriptError.TheVariants.{OutOfMemory};
ghost use Rattle.gs_script.specs.Script.{script_of};
ghost use Rattle.gs_script.specs.Held.{GivesBy, seen};

use crate::fault::ScriptFault;
use crate::named_policy::NamedPolicy;
use crate::reading::{Opened, open_script};
use gs_core::{Config, Event};
use std::alloc::{AllocError, Global};
use thiserror::Error;

/// The most bytes that a script may have, so that the memory that it is read into has a bound. A longer one
/// has the fault `TooLong`.
pub const MOST_BYTES: usize = 1_048_576;

/// What an enclave is opened with, and what happens in it.
#[derive(Drop)]
pub struct Script<P> {
    pub config: Config<P>,
    pub events: Vec<Event<P>>,
}

/// Why a script wasn't read.
#[derive(Clone, Copy, PartialEq, Eq, Debug, Error)]
pub enum ScriptError {
    #[error("{0}")]
    Fault(ScriptFault),
    #[error("out of memory")]
    OutOfMemory,
}

impl From<AllocError> for ScriptError {
    ghost from_gives = { λ _ error. error ≡ OutOfMemory };

    fn from(_failed: AllocError) -> ScriptError {
        ScriptError::OutOfMemory
    }
}

/// Reads the script that these bytes say. A configuration that is read is one that an enclave can be opened
/// with.
///
/// # Errors
///
/// The first fault of the script, or out of memory.
///
/// # Examples
///
/// ```
/// match read_script(rt.alloc(), &input) {
///     Ok(script) => Ok(script),
///     Err(ScriptError::Fault(_)) => Err(Failure::BadScript),
///     Err(ScriptError::OutOfMemory) => Err(Failure::OutOfMemory),
/// }
/// ```
pub fn read_script<P: NamedPolicy>(alloc: Global, bytes: &[u8]) -> Result<Script<P>, ScriptError>
    ensures exact { GivesBy seen result (script_of P.naming bytes.now) }
    ensures fits { IfOk result (λ script. config_fault script.config ≡ None) }
{
    let Opened {
        config,
        header: _,
        reading,
    } = open_script(alloc, bytes)?;
    let events = reading.read_all(alloc)?;
    Ok(Script { config, events })
}
