//! Where the parts of a page and of a record stand in their bytes, and how long each is. The writer, the reader
//! and the definitions take them from here.

/// Where the count of records stands in a page.
pub const COUNT_AT: usize = 0;
/// Where it stands whether the page is the last.
pub const LAST_AT: usize = 2;
/// Where the thread stands at which the next page begins.
pub const NEXT_AT: usize = 4;
/// How many bytes stand before the records of a page.
pub const HEADER_LEN: usize = 8;
/// Where the version stands in a record.
pub const VERSION_AT: usize = 0;
/// How many bytes the version has.
pub const VERSION_LEN: usize = 2;
/// Where the class stands.
pub const CLASS_AT: usize = 2;
/// Where the length of the name stands.
pub const NAME_LEN_AT: usize = 3;
/// Where the thread stands.
pub const TID_AT: usize = 4;
/// Where the thread's sequence number stands.
pub const TSEQ_AT: usize = 8;
/// Where the CPU stands that the thread is on.
pub const CPU_AT: usize = 12;
/// Where the flags stand.
pub const FLAGS_AT: usize = 14;
/// Where the mask begins. Behind it stands the name, and where that is, and how long a record is, depends on the
/// [`Version`](crate::Version).
pub const MASK_AT: usize = 16;
/// How many bytes a mask has in the first version. In the second it has those that it has in a message.
pub const FIRST_MASK_LEN: usize = 8;
