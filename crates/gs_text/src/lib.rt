//! Texts that grow at their end: words, and numbers between them; and bytes that go to a writer.
#![tactic(auto)]

mod digits;
mod forwards;
mod row;
mod sheet;
mod writing;

pub use digits::Digits;
pub use row::Row;
pub use sheet::Sheet;
pub use writing::{WriteFailed, write_out};
