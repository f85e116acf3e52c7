//! The program `layout_driver`: gives each item of standard input to the reader of its layout, and writes a line that tells
//! what was read of it. `.ci/sweeps` runs it, and compares the lines with what a second reader makes of the same items.
//!
//! An item is the letter of its layout, its length as two bytes, the lower first, and so many bytes:
//!
//! - `m`: bytes for `read_one`. The line tells the fields of the message, and how many bytes it has.
//! - `p`: bytes for `read_page`. The line tells the records, one after the other, and where the next page begins.
//! - `s`: a CPU as two bytes, the lower first, and the 32 bytes of its slot.
//! - `w`: the eight bytes of a status word, the lowest first.
//!
//! If an item is refused, the line is the name of the fault.
#![tactic(auto)]

mod items;
mod lines;

use crate::items::first_item;
use crate::lines::write_line;
use std::alloc::{AllocError, Global};
use std::io::{self, Read};

/// Returns the lines of items, up to the first one that ends too early.
fn lines_of(alloc: Global, bytes: &[u8]) -> Result<String, AllocError> {
    let mut lines = String::new(alloc);
    let mut left = bytes;
    'items: while let Some((item, later)) = first_item(left) {
        write_line(alloc, &mut lines, &item)?;
        left = later;
    }
    Ok(lines)
}

fn main(rt: HostRuntime) -> io::Result<()> {
    let mut bytes = Vec::new(rt.alloc());
    rt.stdin().read_to_end(&mut bytes)?;
    let lines = lines_of(rt.alloc(), &bytes)?;
    rt.print(lines)
}
