//! A script explained: each event with its reply, and why it came out so.
#![tactic(auto)]

mod cause;
mod content;
mod draft;
mod explainer;
mod hearing;
mod kept;
mod landed;
mod landings;
mod law;
mod marking;
mod moment;
mod object;
mod objects;
mod once;
mod outline;
mod outlines;
mod overflow;
mod page;
mod piece;
mod pieces;
mod pushing;
mod quiet;
mod quoted;
mod refusal;
mod refused;
mod row;
mod rows;
mod run;
mod same;
mod slots;
mod tail;
mod teller;
mod telling;
mod whys;

pub use explainer::Explainer;
pub use law::{
    event_is_known, explained_is_run, landings_are_met, placings_find_free, refusals_are_explained,
    rows_show_it, sentences_are_added,
};
pub use run::{Explanation, explain_script};
