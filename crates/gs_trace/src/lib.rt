//! From a script to the lines of its replies, a report, the journal or a picture.
#![tactic(auto)]

mod answering;
mod came;
mod form;
mod law;
mod noted;
mod noting;
mod pipe;
mod run;
mod running;

pub use answering::{Answering, Unanswered, answer_script};
pub use came::Came;
pub use form::{Form, Notation};
pub use gs_text::{WriteFailed, write_out};
pub use gs_timeline::Listed;
pub use law::one_output;
pub use noted::Lines;
pub use pipe::{InputError, MOST_READ_BYTES, read_all};
pub use run::{Ended, Kept, TraceFault, fault_text, run_and_keep, run_as, run_report, run_script};
