//! The table of threads: one row for each thread that ever was, found in constant time.
//!
//! A row is what the thread's messages make of it, its sequence number, and the CPU that it is on.
#![tactic(auto)]

mod law;
mod live;
mod row;
mod table;

pub use law::{row_is_fold, tables_mirror};
pub use live::LiveRows;
pub use row::ThreadRow;
pub use table::ThreadTable;
