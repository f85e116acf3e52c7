//! Pages: what the kernel knows of its live threads, told to a new agent a page at a time, as bytes.
#![tactic(auto)]

mod fault;
mod fields;
mod page;
mod read;
mod record;
mod version;
mod wire;
mod write;
mod written;

pub use fault::PageFault;
pub use page::Page;
pub use read::read_page;
pub use record::DumpRecord;
pub use version::Version;
pub use write::write_page;
pub use written::{PageWriter, WrittenPage, WrittenRecords};
