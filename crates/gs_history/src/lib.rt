//! All that happened in an enclave, as text: its journal, by lines and by JSON Lines.
#![tactic(auto)]

mod entry_json;
mod entry_line;
mod law;

pub use entry_json::json_text;
pub use entry_line::journal_text;
pub use law::lines_tell_all;
