//! What a run did, as a trace that Perfetto and chrome://tracing show: events on tracks, as JSON.
#![tactic(auto)]

mod agents;
mod events;
mod labels;
mod queue;
mod slices;
mod slots;
mod trace;
mod tracks;
mod walk;

pub use trace::Trace;
