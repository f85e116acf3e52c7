//! Tests of the public calls that cross crates, and a policy of one's own, as a user of the libraries writes it.
//! What a script can show is a case of the folder cases/.
#![tactic(auto)]

mod both_ends;
#[cfg(test)]
mod driving;
#[cfg(test)]
mod fixed_places;
#[cfg(test)]
mod looking;
#[cfg(test)]
mod reading;
#[cfg(test)]
mod replacing;
#[cfg(test)]
mod saying;
#[cfg(test)]
mod showing;
#[cfg(test)]
mod streams;
#[cfg(test)]
mod two_rings;
#[cfg(test)]
mod upgrading;

pub use both_ends::BothEnds;
