//! What was read of an item, as a line.

use crate::items::Item;
use gs_dump::{DumpRecord, Page, read_page};
use gs_reader::{MessageRef, read_one};
use gs_slots::SlotMut;
use gs_status::StatusWord;
use std::alloc::{AllocError, Global};

/// Adds the fields of a message that has so many bytes.
fn write_message(
    line: &mut String,
    message: &MessageRef<'_>,
    len: usize,
) -> Result<(), AllocError> {
    let kind = message.kind();
    let tid = message.tid();
    let tseq = message.tseq();
    let cpu = message.cpu();
    let flags = message.flags();
    let mask = message.mask().map(|mask| mask.bits());
    let class = message.class().map(|class| class.number());
    let name = message.name();
    writeln!(
        line,
        "{kind:?} {tid} {tseq} {cpu:?} {flags} {mask:?} {class:?} {name:?} {len}"
    )
}

/// Adds what bytes begin with, and how many bytes that has.
fn write_first(line: &mut String, bytes: &[u8]) -> Result<(), AllocError> {
    match read_one(bytes) {
        Ok((first, len)) => match first {
            gs_reader::Item::Message(message) => write_message(line, &message, len),
            gs_reader::Item::Pad => writeln!(line, "Pad {len}"),
        },
        Err(fault) => writeln!(line, "{fault:?}"),
    }
}

/// Adds the fields of a record.
fn write_record(line: &mut String, record: &DumpRecord) -> Result<(), AllocError> {
    let tid = record.tid;
    let tseq = record.known.tseq;
    let cpu = record.cpu;
    let runnable = record.known.facts.runnable;
    let mask = record.known.facts.mask.bits();
    let class = record.known.facts.class.number();
    let name = record.known.facts.name.as_bytes();
    write!(
        line,
        "{tid} {tseq} {cpu:?} {runnable} {mask} {class} {name:?} "
    )
}

/// Adds the records of a page, and where the next one begins.
fn write_read(line: &mut String, page: &Page) -> Result<(), AllocError> {
    for record in &page.records {
        write_record(line, record)?;
    }
    let next = page.next;
    writeln!(line, "{next:?}")
}

/// Adds the page that bytes are.
fn write_page(alloc: Global, line: &mut String, bytes: &[u8]) -> Result<(), AllocError> {
    match read_page(alloc, bytes) {
        Ok(page) => write_read(line, &page),
        Err(fault) => writeln!(line, "{fault:?}"),
    }
}

/// Adds what is in a slot.
fn write_slot(line: &mut String, low: u8, high: u8, bytes: [u8; 32]) -> Result<(), AllocError> {
    let mut bytes = bytes;
    let slot = SlotMut::over(u16::from_le_bytes([low, high]), &mut bytes);
    match slot.state() {
        Ok(state) => writeln!(line, "{state:?}"),
        Err(fault) => writeln!(line, "{fault:?}"),
    }
}

/// Adds what a status word shows.
fn write_status(line: &mut String, bytes: [u8; 8]) -> Result<(), AllocError> {
    let status = StatusWord::unpack(u64::from_le_bytes(bytes));
    writeln!(line, "{status:?}")
}

/// Adds the line of an item: `NoItem` if there is no such layout, or if a slot or a status word has another length.
pub(crate) fn write_line(
    alloc: Global,
    lines: &mut String,
    item: &Item<'_>,
) -> Result<(), AllocError> {
    match (item.layout, item.bytes) {
        (b'm', bytes) => write_first(lines, bytes),
        (b'p', bytes) => write_page(alloc, lines, bytes),
        (b's', [low, high, bytes @ ..]) if bytes.len() == 32 => {
            write_slot(lines, *low, *high, bytes.try_into().unwrap())
        }
        (b'w', bytes) if bytes.len() == 8 => write_status(lines, bytes.try_into().unwrap()),
        _ => writeln!(lines, "NoItem"),
    }
}
