use crate::record::DumpRecord;
use std::marker::Model;

/// Some of the kernel's live threads, in increasing order of tid.
///
/// There are at most 65,535 records, each in its ranges. A thread on a CPU is runnable and has that CPU in
/// its mask. The next page begins above the last record. No other page can be made.
#[derive(Drop, Debug)]
pub struct Page {
    /// The threads, in increasing order of tid.
    pub records: Vec<DumpRecord>,
    /// The first live thread that this page does not tell of, or `None` on the last page.
    pub next: Option<u32>,
}

impl Model for Page {
    ghost use Rattle.gs_dump.specs.Page.{Contents, IsPage};

    ghost Value = { Contents };

    ghost view = { λ p. record { records = p.records.items; next = p.next } };

    ghost invariant = { λ p. IsPage (record { records = p.records.items; next = p.next }) };
}
