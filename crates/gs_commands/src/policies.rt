//! The policies that options name.

ghost use Rattle.std.specs.Prelude.{◌≡◌, IfOk, IfErr, Ok, map};
ghost use Rattle.gs_script.specs.Header.{policy_said};
ghost use Rattle.gs_commands.specs.Policies.{AreNamed, AreUnnamed, IsUnnamed};

use crate::failure::{Failure, unnamed};
use gs_script::{LineError, NamedPolicy, read_policy};
use gs_trace::TraceFault;
use std::alloc::Global;

/// Returns the policy that a text names, or why not: it names none, or out of memory.
fn policy_of<P: NamedPolicy>(alloc: Global, named: &str) -> Result<P, Failure>
    ensures named { IfOk result (λ policy. policy_said P.naming named.now ≡ Ok policy) }
    ensures unnamed { IfErr result (IsUnnamed P.naming named.now) }
{
    match read_policy(alloc, named.as_bytes()) {
        Ok(policy) => Ok(policy),
        Err(LineError::Fault(_)) => Err(unnamed::<P>(alloc, named)),
        Err(LineError::OutOfMemory) => Err(Failure::Script(TraceFault::OutOfMemory)),
    }
}

/// Returns the policies that texts name, in order, or why not: one of them names none, or out of memory.
pub(crate) fn policies_of<P: NamedPolicy>(alloc: Global, named: &[&str]) -> Result<Vec<P>, Failure>
    ensures named { IfOk result (λ policies. AreNamed P.naming (map (λ text. text.now) named.now) policies.items) }
    ensures unnamed { IfErr result (AreUnnamed P.naming (map (λ text. text.now) named.now)) }
{
    let mut policies = Vec::new(alloc);
    for text in named {
        let policy = policy_of(alloc, text)?;
        if policies.push(policy).is_err() {
            return Err(Failure::Script(TraceFault::OutOfMemory));
        }
    }
    Ok(policies)
}
