//! Policies of one's own, named by words beside the two that there are, and beside each other.
#![tactic(auto)]

mod beside;
mod by_key;
mod own_policy;
mod own_words;

pub use beside::Beside;
pub use gs_script::{FIRST, TWO};
pub use own_words::{MOST_NUMBERS, OwnWords};
