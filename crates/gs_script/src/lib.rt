//! Scripts: what an enclave is opened with, and its events, as text.
#![tactic(auto)]

mod any_policy;
mod cursor;
mod event_line;
mod fault;
mod forms;
mod found;
mod header;
mod line;
mod marked;
mod named_policy;
mod plain_line;
mod policy;
mod policy_forms;
mod policy_word;
mod reading;
mod said_line;
mod script;
mod spot;
mod wanted;
mod word;

pub use any_policy::{FIRST, TWO};
pub use cursor::first_line;
pub use fault::{Reason, ScriptFault};
pub use found::{Found, find_fault};
pub use header::{LEAST_SLICE, MOST_SLICE};
pub use line::{LineError, read_event, read_header};
pub use marked::Marked;
pub use named_policy::NamedPolicy;
pub use policy::read_policy;
pub use policy_forms::{PolicyForm, PolicyForms};
pub use policy_word::PolicyWord;
pub use reading::{Opened, Reading, SaidLine, open_script};
pub use said_line::lines_say_events;
pub use script::{MOST_BYTES, Script, ScriptError, read_script};
pub use wanted::Wanted;
pub use word::number;
