//! A policy by a test of its own, weighted round robin, and what words call it.
#![tactic(auto)]

mod policy;
mod words;

use gs_beside::Beside;
use keyed_policies::KeyedPolicies;
pub use policy::RoundRobin;
pub use words::ROUND_ROBIN;

/// It, and all policies that words name beside it.
pub type Policies = Beside<RoundRobin, KeyedPolicies>;
