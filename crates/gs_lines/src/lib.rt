//! The machine's replies as lines of text, and the words that other texts share with them.
#![tactic(auto)]

mod choice_line;
mod column;
mod message_line;
mod reply_line;
mod thread;
mod thread_line;

pub use choice_line::write_decided;
pub use column::{MOST_COLUMN, blanks, class_word, push_column};
pub use gs_text::Sheet as Text;
pub use message_line::{change_name, write_cpu, write_placed};
pub use reply_line::{
    outcome_name, text_of, write_committed, write_drained, write_executed, write_landing,
    write_late, write_refused, write_reply, write_stamped, write_torn,
};
pub use thread::push_thread;
pub use thread_line::{name_str, write_facts};
