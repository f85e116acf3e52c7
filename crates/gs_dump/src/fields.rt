//! The ranges of a record's fields, and the record that they name.

ghost use Rattle.std.specs.Prelude.{◌≡◌, ◌==◌, ◌≤◌, ◌&&◌, drop, length, slice_index, true};
ghost use Rattle.gs_layout.specs.Name.{is_name, name_field};
ghost use Rattle.gs_dump.specs.Version.{name_at, record_len};
ghost use Rattle.gs_dump.specs.Reading.{cpu_fits, end_fits, facts_fit, mask_in, name_fits, name_in, next_in, numbers_fit, record_fits, record_in, record_read};

use crate::fault::PageFault;
use crate::record::DumpRecord;
use crate::version::Version;
use crate::wire::{
    CLASS_AT, CPU_AT, FLAGS_AT, HEADER_LEN, LAST_AT, MASK_AT, NAME_LEN_AT, NEXT_AT, TID_AT,
    TSEQ_AT, VERSION_AT,
};
use gs_layout::{
    Class, Facts, Known, MOST_NAME_LEN, NO_CPU, Name, are_numbers, are_zeros, cpu_numbered, is_tid,
    u16_at, u32_at, u64_at, u128_at,
};
use gs_status::{MOST_CPUS, Mask};

/// Returns the mask of a record. A mask of the first version has no CPU from 64 on.
fn mask_at(version: Version, text: &[u8]) -> Mask
    requires { length text.now ≡ record_len version }
    ensures { result ≡ mask_in version text.now }
{
    match version {
        Version::One => Mask::new(u64_at(text, MASK_AT) as u128),
        Version::Two => Mask::new(u128_at(text, MASK_AT)),
    }
}

fn numbers_fit(text: &[u8]) -> bool
    requires { MASK_AT ≤ length text.now }
    ensures { result ≡ numbers_fit text.now }
{
    are_numbers(u32_at(text, TID_AT), u32_at(text, TSEQ_AT))
}

fn facts_fit(version: Version, text: &[u8]) -> bool
    requires { length text.now ≡ record_len version }
    ensures { result ≡ facts_fit version text.now }
{
    text[CLASS_AT] < 2 && u16_at(text, FLAGS_AT) < 2 && !mask_at(version, text).is_empty()
}

fn name_at(version: Version, text: &[u8]) -> &[u8]
    requires size { length text.now ≡ record_len version }
    requires len { slice_index text.now NAME_LEN_AT ≤ MOST_NAME_LEN }
    ensures { result.now ≡ name_in version text.now }
{
    let start = version.name_at();
    &text[start..start + text[NAME_LEN_AT] as usize]
}

fn name_fits(version: Version, text: &[u8]) -> bool
    requires { length text.now ≡ record_len version }
    ensures { result ≡ name_fits version text.now }
{
    let len = text[NAME_LEN_AT] as usize;
    len <= MOST_NAME_LEN
        && Name::is_name(name_at(version, text))
        && are_zeros(&text[version.name_at() + len..])
}

fn cpu_fits(version: Version, text: &[u8]) -> bool
    requires { length text.now ≡ record_len version }
    ensures { result ≡ cpu_fits version text.now }
{
    let cpu = u16_at(text, CPU_AT);
    let mask = mask_at(version, text);
    cpu == NO_CPU || (cpu < MOST_CPUS && u16_at(text, FLAGS_AT) == 1 && mask.has(cpu))
}

/// Returns whether each field of a record is in its range.
fn record_fits(version: Version, text: &[u8]) -> bool
    requires { length text.now ≡ record_len version }
    ensures { result ≡ record_fits version text.now }
{
    numbers_fit(text)
        && facts_fit(version, text)
        && name_fits(version, text)
        && cpu_fits(version, text)
}

#[inline(always)]
fn facts_at(version: Version, text: &[u8]) -> Facts
    requires size { length text.now ≡ record_len version }
    requires len { slice_index text.now NAME_LEN_AT ≤ MOST_NAME_LEN }
    requires name { is_name (name_in version text.now) ≡ true }
    requires zeros { name_field (name_in version text.now) ≡ drop (name_at version) text.now }
    ensures { result ≡ (record_in version text.now).known.facts }
{
    let mut name = [0; MOST_NAME_LEN];
    name.copy_from_slice(&text[version.name_at()..]);
    Facts {
        runnable: u16_at(text, FLAGS_AT) == 1,
        mask: mask_at(version, text),
        class: Class::numbered(text[CLASS_AT]),
        name: Name::from_padded(name, text[NAME_LEN_AT]),
    }
}

/// Returns the record that these bytes tell. Its fields are in their ranges.
#[inline(always)]
pub(crate) fn record_at(version: Version, text: &[u8]) -> DumpRecord
    requires size { length text.now ≡ record_len version }
    requires len { slice_index text.now NAME_LEN_AT ≤ MOST_NAME_LEN }
    requires name { is_name (name_in version text.now) ≡ true }
    requires zeros { name_field (name_in version text.now) ≡ drop (name_at version) text.now }
    ensures { result ≡ record_in version text.now }
{
    DumpRecord {
        tid: u32_at(text, TID_AT),
        known: Known {
            facts: facts_at(version, text),
            tseq: u32_at(text, TSEQ_AT),
        },
        cpu: cpu_numbered(u16_at(text, CPU_AT)),
    }
}

/// Returns the record that these bytes tell, or what is wrong with them.
pub(crate) fn read_record(version: Version, text: &[u8]) -> Result<DumpRecord, PageFault>
    requires { length text.now ≡ record_len version }
    ensures { result ≡ record_read version text.now }
{
    if u16_at(text, VERSION_AT) != version.number() {
        return Err(PageFault::BadVersion);
    }
    if !record_fits(version, text) {
        return Err(PageFault::BadField);
    }
    Ok(record_at(version, text))
}

/// Returns whether the header says that the page is the last and names no next thread, or names one.
pub(crate) fn end_fits(bytes: &[u8]) -> bool
    requires { HEADER_LEN ≤ length bytes.now }
    ensures { result ≡ end_fits bytes.now }
{
    let next = u32_at(bytes, NEXT_AT);
    match u16_at(bytes, LAST_AT) {
        0 => is_tid(next),
        1 => next == 0,
        _ => false,
    }
}

/// Returns the thread at which the next page begins, as the header says, or `None` on the last page.
pub(crate) fn next_at(bytes: &[u8]) -> Option<u32>
    requires { HEADER_LEN ≤ length bytes.now }
    ensures { result ≡ next_in bytes.now }
{
    if u16_at(bytes, LAST_AT) == 1 {
        None
    } else {
        Some(u32_at(bytes, NEXT_AT))
    }
}
