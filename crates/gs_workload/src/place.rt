//! Where in a text a key stands.

use crate::fault::Part;
use crate::key::Key;

/// Returns the bytes without spaces and tabs in front.
fn without_blanks(line: &[u8]) -> &[u8] {
    let mut rest = line;
    'blanks: while let [b' ' | b'\t', behind @ ..] = rest {
        rest = behind;
    }
    rest
}

/// Returns what stands behind a key in front of a line, if the line begins with it, in quotation marks or not.
fn behind_key<'a>(line: &'a [u8], key: &[u8]) -> Option<&'a [u8]> {
    let line = without_blanks(line);
    let Some(quote @ (b'"' | b'\'')) = line.first() else {
        let rest = line.strip_prefix(key)?;
        return Some(without_blanks(rest));
    };
    let rest = line[1..].strip_prefix(key)?;
    match rest.split_first() {
        Some((first, rest)) if first == quote => Some(without_blanks(rest)),
        _ => None,
    }
}

/// Returns whether a line gives a value to a key, or to a key within it.
fn has_key(line: &[u8], key: &[u8]) -> bool {
    matches!(behind_key(line, key), Some([b'=' | b'.', ..]))
}

/// Returns what stands in the brackets of a line that is the header of a table.
fn in_brackets(line: &[u8]) -> Option<&[u8]> {
    match without_blanks(line) {
        [b'[', b'[', rest @ ..] => Some(rest),
        [b'[', rest @ ..] => Some(rest),
        _ => None,
    }
}

/// Returns whether what stands in brackets is this name.
fn is_named(inside: &[u8], name: &[u8]) -> bool {
    matches!(behind_key(inside, name), Some([b']', ..]))
}

/// Which header the lines of a part stand behind: the one at this place of those with this name.
#[derive(Clone, Copy)]
struct Header {
    name: Key,
    place: usize,
}

/// Returns the header of a part, if it has one.
fn header_of(part: Part) -> Option<Header> {
    let (name, place) = match part {
        Part::Whole => return None,
        Part::Agent => (Key::Agent, 0),
        Part::Group { place } => (Key::Groups, place),
        Part::Taking { place } => (Key::Takings, place),
        Part::Change { place } => (Key::Changes, place),
    };
    Some(Header { name, place })
}

/// Returns the line, counted from 1, of a key of the whole document. It is the one that gives it a value, or the first header that is named
/// so, or 0 if none is found.
fn line_in_whole(text: &[u8], key: &[u8]) -> usize {
    let mut number = 0usize;
    let mut is_first = true;
    for line in text.split(|byte| *byte == b'\n') {
        number = number.saturating_add(1);
        match in_brackets(line) {
            Some(inside) => {
                is_first = false;
                if is_named(inside, key) {
                    return number;
                }
            }
            None => {
                if is_first && has_key(line, key) {
                    return number;
                }
            }
        }
    }
    0
}

/// Returns the line of a key of the table behind a header. It is the one that gives it a value, or else that of the header, or 0 if neither
/// is found.
fn line_behind(text: &[u8], header: Header, key: &[u8]) -> usize {
    let name = header.name.word().as_bytes();
    let mut number = 0usize;
    let mut seen = 0usize;
    let mut found = 0;
    let mut is_inside = false;
    for line in text.split(|byte| *byte == b'\n') {
        number = number.saturating_add(1);
        if let Some(inside) = in_brackets(line) {
            let is_its_own = is_named(inside, name);
            is_inside = is_its_own && seen == header.place;
            if is_inside {
                found = number;
            }
            seen = seen.saturating_add(is_its_own as usize);
        } else if is_inside && has_key(line, key) {
            return number;
        }
    }
    found
}

/// Returns the line, counted from 1, of a key of a part. It is that of the part's header if the key is not there, that
/// of the whole part if it has no header, and 0 if no line is found.
pub(crate) fn line_of(text: &[u8], part: Part, key: &str) -> usize {
    let key = key.as_bytes();
    let Some(header) = header_of(part) else {
        return line_in_whole(text, key);
    };
    match line_behind(text, header, key) {
        0 => line_in_whole(text, header.name.word().as_bytes()),
        line => line,
    }
}

/// Returns the line, counted from 1, of a byte.
pub(crate) fn line_at(text: &[u8], place: usize) -> usize {
    let before = text.iter().take(place).filter(|byte| **byte == b'\n');
    before.count().saturating_add(1)
}
