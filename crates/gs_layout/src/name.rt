ghost use Rattle.std.specs.Prelude.{◌≡◌, ◌↔◌, ◌≤◌, IsSome, IfSome, take, true};
ghost use Rattle.std.specs.List.{list_all};
ghost use Rattle.gs_layout.specs.Name.{is_name, is_name_byte, name_field};

use std::marker::Model;

/// The most bytes that a name has.
pub const MOST_NAME_LEN: usize = 16;

/// A thread's name: at most [`MOST_NAME_LEN`] bytes, each from 33 to 126. Clauses see it as its bytes.
#[derive(Clone, Copy, PartialEq, Eq, Debug)]
pub struct Name {
    bytes: [u8; MOST_NAME_LEN],
    len: u8,
}

impl Model for Name {
    ghost use Rattle.std.specs.Prelude.{List, ℕ, take};

    ghost Value = { List ℕ };

    ghost use Rattle.gs_layout.specs.NameHeld.{IsHeld, held_of, held_of-text};

    ghost view = { λ n. take n.len n.bytes };

    ghost invariant = { IsHeld };

    ghost inverse = { held_of };

    ghost inverse_ok = { held_of-text };
}

/// Returns whether a byte may stand in a name.
#[inline(always)]
fn is_name_byte(byte: u8) -> bool
    ensures { result ≡ is_name_byte byte }
{
    33 <= byte && byte <= 126
}

/// Returns whether each byte may stand in a name.
fn is_printed(text: &[u8]) -> bool
    ensures { result ≡ list_all is_name_byte text.now }
{
    text.iter().all(|byte| is_name_byte(*byte))
}

impl Name {
    /// Returns whether these bytes are a name: at most [`MOST_NAME_LEN`], each from 33 to 126.
    pub fn is_name(text: &[u8]) -> bool
        ensures { result ≡ is_name text.now }
    {
        text.len() <= MOST_NAME_LEN && is_printed(text)
    }

    /// Returns the name of these bytes, or `None` if they are over [`MOST_NAME_LEN`] or one of them is not
    /// from 33 to 126.
    #[inline(always)]
    pub fn new(text: &[u8]) -> Option<Name>
        ensures some { IsSome result ↔ (is_name text.now ≡ true) }
        ensures value { IfSome result (λ name. name ≡ text.now) }
    {
        if text.len() > MOST_NAME_LEN {
            return None;
        }
        let mut bytes = [0; MOST_NAME_LEN];
        // One pass tests the bytes and copies them.
        for n in 0..text.len() {
            if !is_name_byte(text[n]) {
                return None;
            }
            bytes[n] = text[n];
        }
        Some(Name {
            bytes,
            len: text.len() as u8,
        })
    }

    /// Returns the name that these bytes begin with, of so many bytes. It is known to be one, and to have zeros behind it, so no
    /// byte is tested.
    #[inline(always)]
    pub fn from_padded(bytes: [u8; MOST_NAME_LEN], len: u8) -> Name
        requires short { len ≤ MOST_NAME_LEN }
        requires name { is_name (take len bytes) ≡ true }
        requires zeros { name_field (take len bytes) ≡ bytes }
        ensures { result ≡ take len bytes }
    {
        Name { bytes, len }
    }

    /// Lends the bytes of the name, and the zeros behind it, [`MOST_NAME_LEN`] in all.
    #[inline(always)]
    pub fn as_padded(&self) -> &[u8; MOST_NAME_LEN]
        ensures { result.now ≡ name_field self.now }
    {
        &self.bytes
    }

    /// Lends the bytes of the name.
    pub fn as_bytes(&self) -> &[u8]
        ensures value { result.now ≡ self.now }
        ensures name { is_name result.now ≡ true }
    {
        &self.bytes[..self.len as usize]
    }
}
