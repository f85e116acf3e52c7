//! A script that is answered line by line, from a reader to a writer.
#![tactic(auto)]

mod answering;
mod answers;
mod explained;
mod fault;
mod law;
mod plain;
mod prompt;
mod serving;
mod source;
mod writing;

pub use fault::ServeFault;
pub use law::{explained_answers_are_heard, sentences_are_added};
pub use prompt::{Prompt, Silent};
pub use serving::{serve, serve_explained};
