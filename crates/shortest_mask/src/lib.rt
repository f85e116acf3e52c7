//! A policy by a key of its own, and what words call it.
#![tactic(auto)]

mod key;
mod words;

use gs_beside::Beside;
use gs_keyed::Keyed;
pub use key::ShortestMask;

/// It, and all policies that words name beside it. A header that names no policy has it.
pub type Policies = Beside<Keyed<ShortestMask>, round_robin::Policies>;
