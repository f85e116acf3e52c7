//! Pages as bytes, which are written from rows and read into a mind, with no list of records in between.

ghost use Rattle.std.specs.Prelude.{◌≡◌, ◌+◌, ◌^◌, ◌<◌, ◌≤◌, ◌++◌, ◌∷◌, [], IfOk, OnOk, drop, length};
ghost use Rattle.std.specs.Iterator.{YieldsFirst, item_count};
ghost use Rattle.gs_dump.specs.Page.{IsPage, header_of, page_spelling};
ghost use Rattle.gs_dump.specs.Record.{IsLive};
ghost use Rattle.gs_dump.specs.Written.{last_from};

use crate::fields::{next_at, record_at};
use crate::record::DumpRecord;
use crate::version::Version;
use crate::wire::{COUNT_AT, HEADER_LEN};
use crate::write::{RECORD_LEN, page_header, write_record};
use gs_layout::u16_at;
use std::alloc::{AllocError, Global};
use std::marker::Model;

/// A page as its bytes, in the second version of the layout. Clauses see the page that they tell.
#[derive(Drop)]
pub struct WrittenPage {
    bytes: Vec<u8>,
    /// The last thread that the page tells of, 0 if it tells of none.
    last: u32,
}

impl Model for WrittenPage {
    ghost use Rattle.gs_dump.specs.Page.{Contents};
    ghost use Rattle.gs_dump.specs.Written.{IsWritten, contents_in};

    ghost Value = { Contents };

    ghost view = { λ p. contents_in p.bytes.items };

    ghost invariant = { λ p. IsWritten p.bytes.items p.last };
}

impl WrittenPage {
    /// Returns of how many threads the page tells, at most 65,535.
    #[inline(always)]
    pub fn count(&self) -> u16
        ensures { result ≡ length self.now.records }
    {
        u16_at(&self.bytes, COUNT_AT)
    }

    /// Returns the first live thread that the page does not tell of, or `None` on the last page.
    #[inline(always)]
    pub fn next(&self) -> Option<u32>
        ensures { result ≡ self.now.next }
    {
        next_at(&self.bytes)
    }

    /// Returns the last thread that the page tells of, 0 if it tells of none.
    #[inline(always)]
    pub fn last(&self) -> u32
        ensures last { result ≡ last_from 0 self.now.records }
        ensures page { IsPage self.now }
    {
        self.last
    }

    /// Walks the records, in increasing order of tid. Each is read from its bytes.
    #[inline(always)]
    pub fn records(&self) -> WrittenRecords<'_>
        ensures records { result ≡ self.now.records }
        ensures page { IsPage self.now }
    {
        WrittenRecords {
            rest: &self.bytes[HEADER_LEN..],
        }
    }

    /// Gives the bytes of the page.
    #[inline(always)]
    pub fn into_bytes(self) -> Vec<u8>
        ensures { result.items ≡ page_spelling self }
    {
        let WrittenPage { bytes, .. } = self;
        bytes
    }
}

/// The records of a page that a walk has still to show. None of its bytes is tested again: they are known to be a
/// page's.
#[derive(Drop)]
pub struct WrittenRecords<'a> {
    rest: &'a [u8],
}

impl<'a> Model for WrittenRecords<'a> {
    ghost use Rattle.std.specs.Prelude.{List};
    ghost use Rattle.gs_dump.specs.declared.record.DumpRecord.{DumpRecord as DumpRecordOf};
    ghost use Rattle.gs_dump.specs.Written.{AreSpelled, records_in};

    ghost Value = { List DumpRecordOf };

    ghost view = { λ r. records_in r.rest.now };

    ghost invariant = { λ r. AreSpelled r.rest.now };
}

impl<'a> Iterator for WrittenRecords<'a> {
    type Item = DumpRecord;

    ghost next_gives = { YieldsFirst (λ records. records) };

    ghost remaining = { item_count (λ records. records) };

    #[inline(always)]
    fn next(&mut self) -> Option<DumpRecord> {
        if self.rest.is_empty() {
            return None;
        }
        let (text, rest) = self.rest.split_at(RECORD_LEN);
        self.rest = rest;
        Some(record_at(Version::Two, text))
    }
}

/// Writes the header of a page of so many records, behind which the next one begins at this thread.
#[inline(always)]
fn put_header(bytes: &mut [u8], count: u16, next: Option<u32>)
    requires { HEADER_LEN ≤ length bytes.old }
    ensures { bytes.new ≡ header_of count next ++ drop HEADER_LEN bytes.old }
{
    bytes[..HEADER_LEN].copy_from_slice(&page_header(count, next));
}

/// A page that is being written, a record at a time. Clauses see the records so far.
#[derive(Drop)]
pub struct PageWriter {
    bytes: Vec<u8>,
    count: u16,
    /// The last thread so far, 0 if there is none.
    last: u32,
}

impl Model for PageWriter {
    ghost use Rattle.std.specs.Prelude.{List, drop};
    ghost use Rattle.gs_dump.specs.declared.record.DumpRecord.{DumpRecord as DumpRecordOf};
    ghost use Rattle.gs_dump.specs.declared.wire.TheConstants.{HEADER_LEN};
    ghost use Rattle.gs_dump.specs.Written.{IsBegun, records_in};

    ghost Value = { List DumpRecordOf };

    ghost view = { λ w. records_in (drop HEADER_LEN w.bytes.items) };

    ghost invariant = { λ w. IsBegun w.bytes.items w.count w.last };
}

impl PageWriter {
    /// Begins a page, with room for so many records, below 65,536.
    ///
    /// # Errors
    ///
    /// `AllocError` if out of memory.
    #[inline(always)]
    pub fn new(alloc: Global, records: usize) -> Result<PageWriter, AllocError>
        requires { records < 2 ^ 16 }
        ensures { IfOk result (λ writer. writer ≡ []) }
    {
        let mut bytes = Vec::with_capacity(alloc, HEADER_LEN + RECORD_LEN * records)?;
        bytes.extend_from_slice(&[0; HEADER_LEN])?;
        Ok(PageWriter {
            bytes,
            count: 0,
            last: 0,
        })
    }

    /// Returns of how many threads the page tells so far.
    #[inline(always)]
    pub fn count(&self) -> u16
        ensures { result ≡ length self.now }
    {
        self.count
    }

    /// Writes a record behind the others. It allocates if there is no room for it.
    ///
    /// # Errors
    ///
    /// `AllocError` if out of memory.
    #[inline(always)]
    pub fn push(&mut self, thread: &DumpRecord) -> Result<(), AllocError>
        requires few { length self.old + 1 < 2 ^ 16 }
        requires live { IsLive thread.now }
        ensures { OnOk result (self.new ≡ self.old ++ thread.now ∷ []) }
    {
        let at = self.bytes.len();
        self.bytes.extend_from_slice(&[0; RECORD_LEN])?;
        write_record(thread, &mut self.bytes[at..]);
        self.count += 1;
        self.last = thread.tid;
        Ok(())
    }

    /// Ends the page, behind which the next one begins at this thread. It is the last page if there is none.
    #[inline(always)]
    pub fn finish(self, next: Option<u32>) -> WrittenPage
        requires { IsPage (record { records = self; next = next }) }
        ensures { result ≡ record { records = self; next = next } }
    {
        let PageWriter {
            mut bytes,
            count,
            last,
        } = self;
        put_header(&mut bytes, count, next);
        WrittenPage { bytes, last }
    }
}
