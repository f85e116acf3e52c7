//! A workload under several policies, and a table of what each came to.
#![tactic(auto)]

mod asked;
mod column;
mod comparing;
mod lines;
mod measure;
mod measured;
mod measuring;
mod objects;
mod progress;
mod records;
mod row;
mod share;
mod summary;

pub use asked::{Asked, Form};
pub use comparing::compare_workload;
pub use progress::Progress;
