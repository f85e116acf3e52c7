//! The machine, for whoever embeds it: all that is needed to open an enclave, to let events happen in it, to write the replies
//! and to ask what is so. The types are those of the crates that they come from.
#![tactic(auto)]

mod fault;
mod setup;
mod text;

pub use fault::SetupFault;
pub use gs_agent::{Drained, Role, Stop};
pub use gs_beliefs::{CpuBeliefs, Running};
pub use gs_core::{Event, Items, Machine, Reply, Transaction, is_short};
pub use gs_dump::DumpRecord;
pub use gs_journal::{Entry, Journal, LastEntry};
pub use gs_kernel::{Command, Executed, Kernel, Landing, ThreadEvent};
pub use gs_layout::{Change, Class, Facts, Known, Message, Name, Outcome, Refusal};
pub use gs_lines::{Text, write_reply};
pub use gs_policy::{AnyPolicy, Choice, Counted, FirstCome, Policy, TwoClass};
pub use gs_runq::RunQueue;
pub use gs_slots::{Flags, Region, SlotState, Stamp};
pub use gs_status::{Mask, StatusWord};
pub use gs_view::AgentView;
pub use setup::Setup;
pub use text::reply_text;
