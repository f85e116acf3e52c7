ghost use Rattle.gs_script.specs.Header.{policy_said};
ghost use Rattle.gs_script.specs.Held.{Gives};

use crate::fault::Reason;
use crate::line::LineError;
use crate::named_policy::NamedPolicy;
use crate::word::{split, text};
use std::alloc::Global;

/// Returns the policy that a text names, by the words that stand behind `policy` in a header. For the two policies that there
/// are these are `first`, or `two` and a slice from [`crate::LEAST_SLICE`] to [`crate::MOST_SLICE`].
///
/// # Errors
///
/// `Fault` with the reason that a header of these words would have, and `OutOfMemory` if out of memory.
pub fn read_policy<P: NamedPolicy>(alloc: Global, named: &[u8]) -> Result<P, LineError>
    ensures { Gives result (policy_said P.naming named.now) }
{
    let Some(named) = text(named) else {
        return Err(LineError::Fault(Reason::BadByte));
    };
    let mut words = Vec::new(alloc);
    if split(named, &mut words).is_err() {
        return Err(LineError::OutOfMemory);
    }
    match P::from_words(&words) {
        Ok(policy) => Ok(policy),
        Err(reason) => Err(LineError::Fault(reason)),
    }
}
