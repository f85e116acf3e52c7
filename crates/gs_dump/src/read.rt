//! Reading a page.

ghost use Rattle.std.specs.Prelude.{◌≡◌, ◌≤◌, ◌*◌, [], IfOk, IfErr, Some, length, true, false};
ghost use Rattle.gs_dump.specs.declared.fault.PageFault.{PageFault};
ghost use Rattle.gs_dump.specs.Page.{Contents, rises};
ghost use Rattle.gs_dump.specs.Reading.{IsFault, IsSpelled, ReadsAs, count_in, field_fault, is_headless, page_fault, texts, version_of};
ghost use Rattle.gs_dump.specs.Scan.{Faults, Scanned};
ghost use Rattle.gs_dump.specs.Version.{record_len};

use crate::fault::PageFault;
use crate::fields::{end_fits, next_at, read_record};
use crate::page::Page;
use crate::record::DumpRecord;
use crate::version::Version;
use crate::wire::{COUNT_AT, HEADER_LEN, VERSION_LEN};
use gs_layout::u16_at;
use std::alloc::Global;

/// Returns whether the next page, if there is one, begins above a thread.
fn begins_above(last: u32, next: Option<u32>) -> bool
    ensures { result ≡ rises last [] next }
{
    match next {
        None => true,
        Some(next) => last < next,
    }
}

/// Reads the records of a page, all of one version, in one pass. `fit` says whether the header's fields are
/// in their ranges.
fn read_records(
    alloc: Global,
    version: Version,
    count: u16,
    fit: bool,
    next: Option<u32>,
    bytes: &[u8],
) -> Result<Vec<DumpRecord>, PageFault>
    requires { length bytes.now ≡ record_len version * count }
    ensures { Scanned version result (field_fault version fit true 0 next (texts version count bytes.now)) (texts version count bytes.now) }
{
    let (mut records, roomy) = match Vec::with_capacity(alloc, count as usize) {
        Ok(records) => (records, true),
        Err(_) => (Vec::new(alloc), false),
    };
    let mut fits = fit;
    let mut rise = true;
    let mut last = 0;
    let mut rest = bytes;
    for _ in 0..count {
        let (text, after) = rest.split_at(version.record_len());
        rest = after;
        match read_record(version, text) {
            Ok(record) => {
                rise &= last < record.tid;
                last = record.tid;
                if roomy {
                    records.push_reserved(record);
                }
            }
            Err(fault) => match fault {
                PageFault::BadVersion => return Err(PageFault::BadVersion),
                _ => fits = false,
            },
        }
    }
    if !fits {
        return Err(PageFault::BadField);
    }
    rise &= begins_above(last, next);
    if !rise {
        return Err(PageFault::BadOrder);
    }
    if !roomy {
        return Err(PageFault::OutOfMemory);
    }
    Ok(records)
}

/// Returns the version of a page: that of its first record, and the second if it has none.
#[tactic(auto, using(crate::proofs::Pages::few_for_version, crate::proofs::Pages::headless_page, crate::proofs::Pages::has_head, crate::proofs::Pages::no_version))]
fn version_at(count: u16, bytes: &[u8]) -> Result<Version, PageFault>
    requires count { count ≡ count_in bytes.now }
    requires long { HEADER_LEN ≤ length bytes.now }
    ensures head { IfOk result (λ _. is_headless bytes.now ≡ false) }
    ensures version { IfOk result (λ v. version_of bytes.now ≡ Some v) }
    ensures fault { IfErr result (λ f. Faults f (page_fault bytes.now)) }
{
    if count == 0 {
        return Ok(Version::Two);
    }
    if bytes.len() < HEADER_LEN + VERSION_LEN {
        return Err(PageFault::Short);
    }
    match Version::numbered(u16_at(bytes, HEADER_LEN)) {
        Some(version) => Ok(version),
        None => Err(PageFault::BadVersion),
    }
}

/// Reads a page if the bytes are its spelling in a version, the first or the second, and else returns what is
/// wrong with them. All records have the version of the first one.
///
/// # Errors
///
/// The first that applies to the whole of the bytes: `Short` if they end before the header does, or before the
/// first record's version. `BadVersion` of the first record. `Short` or `Trailing` by the size that the page has
/// in its version. `BadVersion` of a later record, `BadField` of the header or any record, `BadOrder`.
/// `OutOfMemory` if out of memory, only for bytes that are a page.
pub fn read_page(alloc: Global, bytes: &[u8]) -> Result<Page, PageFault>
    // What is read is spelled so, and what is spelled so is read, unless it is out of memory.
    ensures ok { IfOk result (IsSpelled bytes.now) }
    ensures only { (p : Contents) → IsSpelled bytes.now p → ReadsAs result p }

    // Each fault is returned exactly if it is the first in the order.
    ensures fault { IfErr result (IsFault bytes.now) }
    ensures only_fault { (f : PageFault) → page_fault bytes.now ≡ Some f → result ≡ Err f }
{
    if bytes.len() < HEADER_LEN {
        return Err(PageFault::Short);
    }
    let count = u16_at(bytes, COUNT_AT);
    let version = match version_at(count, bytes) {
        Ok(version) => version,
        Err(fault) => return Err(fault),
    };
    let size = HEADER_LEN + version.record_len() * count as usize;
    if bytes.len() < size {
        return Err(PageFault::Short);
    }
    if bytes.len() > size {
        return Err(PageFault::Trailing);
    }
    let next = next_at(bytes);
    let records = read_records(
        alloc,
        version,
        count,
        end_fits(bytes),
        next,
        &bytes[HEADER_LEN..],
    )?;
    Ok(Page { records, next })
}
