//! Reading one message or PAD.

ghost use Rattle.std.specs.Prelude.{◌≡◌, ◌≤◌, ◌++◌, ℕ, List, length, IfOk, IfErr};
ghost use Rattle.gs_layout.specs.declared.message.Message.{Message};
ghost use Rattle.gs_layout.specs.Spelling.{IsSpellable, spelling};
ghost use Rattle.gs_reader.specs.declared.fault.ReadFault.{ReadFault};
ghost use Rattle.gs_reader.specs.declared.item.Item.{Item};
ghost use Rattle.gs_reader.specs.Fault.{front_fault, has_length, is_length};
ghost use Rattle.gs_reader.specs.Reading.{IsFault, IsRead, IsWhole, item_in, read};

use crate::fault::ReadFault;
use crate::fields::fields_fit;
use crate::item::Item;
use crate::message_ref::MessageRef;
use gs_layout::{
    AFFINITY_LEN, ALIGNMENT, FRONT_LEN, HEADER_LEN, KIND_AT, Kind, LEAST_CREATION_LEN,
    LEAST_PAD_LEN, LEN_AT, MOST_MESSAGE_LEN, MOST_PAD_LEN, PAD, are_zeros, u16_at,
};

fn is_length(least: usize, most: usize, len: usize) -> bool
    ensures { result ≡ is_length least most len }
{
    least <= len && len <= most && len % ALIGNMENT == 0
}

/// Returns whether a message of this kind, or a PAD, may have so many bytes.
fn has_length(kind: Option<Kind>, len: usize) -> bool
    ensures { result ≡ has_length kind len }
{
    match kind {
        Some(Kind::Created) => is_length(LEAST_CREATION_LEN, MOST_MESSAGE_LEN, len),
        Some(Kind::Affinity) => len == AFFINITY_LEN,
        Some(_) => len == HEADER_LEN,
        None => is_length(LEAST_PAD_LEN, MOST_PAD_LEN, len),
    }
}

fn front_fault(bytes: &[u8]) -> Option<ReadFault>
    ensures { result ≡ front_fault bytes.now }
{
    if bytes.len() < FRONT_LEN {
        return Some(ReadFault::Short);
    }
    let len = u16_at(bytes, LEN_AT) as usize;
    let kind = u16_at(bytes, KIND_AT);
    if kind < 1 || kind > PAD {
        return Some(ReadFault::BadKind);
    }
    if !has_length(Kind::numbered(kind), len) {
        return Some(ReadFault::BadLength);
    }
    if bytes.len() < len {
        return Some(ReadFault::Short);
    }
    None
}

/// Returns the item that all of these bytes are.
fn item_in(kind: Option<Kind>, text: &[u8]) -> Result<Item<'_>, ReadFault>
    requires { IsWhole kind text.now }
    ensures { result ≡ item_in kind text.now }
{
    match kind {
        None if are_zeros(&text[FRONT_LEN..]) => Ok(Item::Pad),
        Some(kind) if fields_fit(kind, text) => Ok(Item::Message(MessageRef::over(text))),
        _ => Err(ReadFault::BadField),
    }
}

fn first_item(bytes: &[u8]) -> Result<(Item<'_>, usize), ReadFault>
    ensures { result ≡ read bytes.now }
{
    if let Some(fault) = front_fault(bytes) {
        return Err(fault);
    }
    let len = u16_at(bytes, LEN_AT) as usize;
    let kind = Kind::numbered(u16_at(bytes, KIND_AT));
    Ok((item_in(kind, &bytes[..len])?, len))
}

/// Reads the message or the PAD that the bytes begin with, and returns how many bytes it has. The message
/// stays where it is.
///
/// # Errors
///
/// The first that applies, in this order: `Short` for fewer than 4 bytes, `BadKind`, `BadLength`, `Short` for
/// fewer bytes than the length says, `BadField`.
///
/// # Examples
///
/// A line that says what the bytes begin with:
///
/// ```
/// match read_one(bytes) {
///     Ok((first, len)) => match first {
///         gs_reader::Item::Message(message) => write_message(line, &message, len),
///         gs_reader::Item::Pad => writeln!(line, "Pad {len}"),
///     },
///     Err(fault) => writeln!(line, "{fault:?}"),
/// }
/// ```
pub fn read_one(bytes: &[u8]) -> Result<(Item<'_>, usize), ReadFault>
    // What is read is spelled so, and what is spelled so is read.
    ensures ok { IfOk result (IsRead bytes.now) }
    ensures only { (found : Item × ℕ) → IsRead bytes.now found → result ≡ Ok found }

    // Each fault is returned exactly if it is the first in the order.
    ensures fault { IfErr result (IsFault bytes.now) }
    ensures only_fault { (f : ReadFault) → IsFault bytes.now f → result ≡ Err f }

    // What was encoded is read again as itself, whatever follows.
    ensures again { (m : Message) (rest : List ℕ) → IsSpellable m → bytes.now ≡ spelling m ++ rest
        → result ≡ Ok (Item.Message m, length (spelling m)) }

    ensures size { IfOk result (λ found. (LEAST_PAD_LEN ≤ found.1) × (found.1 ≤ length bytes.now)) }
    ensures exact { result ≡ read bytes.now }
{
    first_item(bytes)
}
