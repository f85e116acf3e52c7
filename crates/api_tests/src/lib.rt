//! What the public calls of each library return, in tables of cases.
#![tactic(auto)]

#[cfg(test)]
mod agent;
#[cfg(test)]
mod batches;
#[cfg(test)]
mod beliefs;
#[cfg(test)]
mod dump;
#[cfg(test)]
mod groups;
#[cfg(test)]
mod journal;
#[cfg(test)]
mod kernel;
#[cfg(test)]
mod layout;
#[cfg(test)]
mod messages;
#[cfg(test)]
mod mind;
#[cfg(test)]
mod owned;
#[cfg(test)]
mod pages;
#[cfg(test)]
mod plans;
#[cfg(test)]
mod policy;
#[cfg(test)]
mod reader;
#[cfg(test)]
mod ring;
#[cfg(test)]
mod runq;
#[cfg(test)]
mod slot_bytes;
#[cfg(test)]
mod slots;
#[cfg(test)]
mod status;
#[cfg(test)]
mod threads;
#[cfg(test)]
mod view;
