use gs_layout::Known;

/// What the kernel knows of a live thread.
#[derive(Clone, Copy, PartialEq, Eq, Debug)]
pub struct DumpRecord {
    /// The thread, from 1 to 65,536.
    pub tid: u32,
    /// Its facts, and its sequence number, from 1 on.
    pub known: Known,
    /// The CPU that it is on, from 0 to 127, or `None` if it is on none.
    pub cpu: Option<u16>,
}
