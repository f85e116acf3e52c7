//! What threads are called.

use gs_journal::{Entry, Journal};
use gs_layout::{Change, MOST_NAME_LEN, Message, Name};
use gs_lines::name_str;
use json::Writer;
use std::alloc::{AllocError, Global};

/// What a thread is called of which nothing is known.
const UNKNOWN: &str = "\"thread\"";

/// Room for a name in quotation marks, or for `thread` and a tid.
const ROOM: usize = 2 * MOST_NAME_LEN + 2;

/// What each thread of a journal is called, as JSON, by tid.
#[derive(Drop)]
pub(crate) struct Labels {
    quoted: Vec<String>,
}

/// Returns a text in quotation marks, as JSON has it.
fn quoted(alloc: Global, text: &str) -> Result<String, AllocError> {
    let mut writer = Writer::new(Vec::with_capacity(alloc, ROOM)?);
    writer.string(text)?;
    match String::from_utf8(writer.into_inner()) {
        Ok(quoted) => Ok(quoted),
        Err(_) => Err(AllocError),
    }
}

/// Returns what a thread of this name is called, as JSON: by its name, or by its tid if the name is empty.
fn label(alloc: Global, tid: u32, name: &Name) -> Result<String, AllocError> {
    let name = name_str(name);
    if name.is_empty() {
        let words = format!(in alloc; "thread {tid}")?;
        return quoted(alloc, words.as_str());
    }
    quoted(alloc, name)
}

impl Labels {
    /// Notes what each thread is called that a journal creates. It walks the entries once.
    pub(crate) fn new(alloc: Global, journal: &Journal) -> Result<Labels, AllocError> {
        let mut quoted = Vec::new(alloc);
        for place in 0..journal.len() {
            if let Entry::Posted {
                message: Message::Thread {
                    tid,
                    change: Change::Created { facts },
                    ..
                },
            } = journal.entry(place)
            {
                quoted.push(label(alloc, tid, &facts.name)?)?;
            }
        }
        Ok(Labels { quoted })
    }

    /// Returns how many threads there are.
    pub(crate) fn len(&self) -> usize {
        self.quoted.len()
    }

    /// Lends what a thread is called, as JSON.
    pub(crate) fn of(&self, tid: u32) -> &str {
        match self.quoted.get((tid as usize).saturating_sub(1)) {
            Some(quoted) => quoted.as_str(),
            None => UNKNOWN,
        }
    }
}
