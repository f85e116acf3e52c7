//! A page as bytes.

ghost use Rattle.std.specs.Prelude.{◌≡◌, ◌+◌, ◌≤◌, ◌++◌, IfOk, drop, length, take};
ghost use Rattle.gs_dump.specs.Page.{header_bytes, header_of, page_spelling};
ghost use Rattle.gs_dump.specs.Record.{front_bytes, record_spelling};

use crate::page::Page;
use crate::record::DumpRecord;
use crate::version::Version;
use crate::wire::{
    CLASS_AT, CPU_AT, FLAGS_AT, HEADER_LEN, LAST_AT, MASK_AT, NEXT_AT, TID_AT, TSEQ_AT,
};
use byteorder::{ByteOrder, LittleEndian};
use gs_layout::{MASK_LEN, MOST_NAME_LEN, cpu_number};
use std::alloc::{AllocError, Global};

/// Where the name begins in a record that is written.
const NAME_AT: usize = MASK_AT + MASK_LEN;

/// How many bytes a record has that is written.
pub(crate) const RECORD_LEN: usize = NAME_AT + MOST_NAME_LEN;

/// Writes what stands before the mask of a record.
#[inline(always)]
fn write_front(thread: &DumpRecord, out: &mut [u8])
    requires { MASK_AT ≤ length out.old }
    ensures { out.new ≡ front_bytes Version.Two thread.now ++ drop MASK_AT out.old }
{
    LittleEndian::write_u16(out, Version::Two.number());
    out[CLASS_AT..TID_AT].copy_from_slice(&[
        thread.known.facts.class.number(),
        thread.known.facts.name.as_bytes().len() as u8,
    ]);
    LittleEndian::write_u32(&mut out[TID_AT..], thread.tid);
    LittleEndian::write_u32(&mut out[TSEQ_AT..], thread.known.tseq);
    LittleEndian::write_u16(&mut out[CPU_AT..], cpu_number(thread.cpu));
    LittleEndian::write_u16(&mut out[FLAGS_AT..], u16::from(thread.known.facts.runnable));
}

/// Writes a padded name over as many bytes. It goes as one number, where a copied slice may go byte by byte.
#[inline(always)]
fn write_name(name: &[u8; MOST_NAME_LEN], out: &mut [u8])
    requires { length out.old ≡ MOST_NAME_LEN }
    ensures { out.new ≡ name.now }
{
    LittleEndian::write_u128(out, u128::from_le_bytes(*name));
}

/// Writes a record over as many bytes as it has.
#[inline(always)]
pub(crate) fn write_record(thread: &DumpRecord, out: &mut [u8])
    requires { length out.old ≡ RECORD_LEN }
    ensures { out.new ≡ record_spelling Version.Two thread.now }
{
    let (numbers, name) = out.split_at_mut(NAME_AT);
    let (front, mask) = numbers.split_at_mut(MASK_AT);
    write_front(thread, front);
    LittleEndian::write_u128(mask, thread.known.facts.mask.bits());
    write_name(thread.known.facts.name.as_padded(), name);
}

fn record_bytes(thread: &DumpRecord) -> [u8; RECORD_LEN]
    ensures { result ≡ record_spelling Version.Two thread.now }
{
    let mut bytes = [0; RECORD_LEN];
    write_record(thread, &mut bytes);
    bytes
}

fn header(page: &Page) -> [u8; HEADER_LEN]
    ensures { result ≡ header_bytes page.now }
{
    page_header(page.records.len() as u16, page.next)
}

/// Returns the first bytes of a page of so many records, behind which the next one begins at this thread.
#[inline(always)]
pub(crate) fn page_header(count: u16, next: Option<u32>) -> [u8; HEADER_LEN]
    ensures { result ≡ header_of count next }
{
    let mut bytes = [0; HEADER_LEN];
    LittleEndian::write_u16(&mut bytes, count);
    LittleEndian::write_u16(&mut bytes[LAST_AT..], u16::from(next.is_none()));
    LittleEndian::write_u32(&mut bytes[NEXT_AT..], next.unwrap_or(0));
    bytes
}

/// Returns the bytes of a page in the second version: 8 of a header, and 48 for each record.
///
/// # Errors
///
/// `AllocError` if out of memory.
pub fn write_page(alloc: Global, page: &Page) -> Result<Vec<u8>, AllocError>
    ensures { IfOk result (λ bytes. bytes.items ≡ page_spelling page.now) }
{
    let mut bytes = Vec::with_capacity(alloc, HEADER_LEN + RECORD_LEN * page.records.len())?;
    bytes.extend_from_slice(&header(page))?;
    for record in &page.records {
        bytes.extend_from_slice(&record_bytes(record))?;
    }
    Ok(bytes)
}
