//! Two keys, each a policy by [`Keyed`](gs_keyed::Keyed), and what words call these.
#![tactic(auto)]

mod class_share;
mod class_share_words;
mod home_first;
mod home_first_words;

pub use class_share::ClassShare;
pub use class_share_words::{MOST_WEIGHT, SHARE};
use gs_beside::Beside;
use gs_keyed::Keyed;
pub use home_first::HomeFirst;
pub use home_first_words::HOME;

/// Both, beside the two policies that there are.
pub type KeyedPolicies = Beside<Keyed<ClassShare>, Beside<Keyed<HomeFirst>>>;
