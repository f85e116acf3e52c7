//! Why a landing was not placed: the last entry of the journal that made it so.
#![tactic(auto)]

mod group;
mod index;
mod landing;
mod law;
mod marks;
mod place;
mod sign;

pub use group::{GroupFault, fault_of_group};
pub use index::Index;
pub use landing::{cause, sign_of};
pub use law::{place_is_last, refusal_is_explained, verdict_is_explained};
pub use marks::Marks;
pub use place::last_place;
pub use sign::Sign;
