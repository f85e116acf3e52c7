ghost use Rattle.std.specs.Prelude.{◌≡◌};
ghost use Rattle.gs_dump.specs.Version.{mask_len, name_at, record_len, version_number, version_numbered};

use crate::wire::{FIRST_MASK_LEN, MASK_AT};
use gs_layout::{MASK_LEN, MOST_NAME_LEN};

/// A version of the layout of records: in the first one a mask has 8 bytes, and in the second 16.
#[derive(Clone, Copy, PartialEq, Eq, Debug)]
pub enum Version {
    One,
    Two,
}

impl Version {
    /// Returns the number that a record of this version names, 1 or 2.
    pub fn number(self) -> u16
        ensures { result ≡ version_number self }
    {
        match self {
            Version::One => 1,
            Version::Two => 2,
        }
    }

    /// Returns the version of this number, or `None` if there is none.
    pub fn numbered(number: u16) -> Option<Version>
        ensures { result ≡ version_numbered number }
    {
        match number {
            1 => Some(Version::One),
            2 => Some(Version::Two),
            _ => None,
        }
    }

    /// Returns how many bytes a mask has, 8 or 16.
    pub fn mask_len(self) -> usize
        ensures { result ≡ mask_len self }
    {
        match self {
            Version::One => FIRST_MASK_LEN,
            Version::Two => MASK_LEN,
        }
    }

    /// Returns where the name begins in a record, behind the mask: 24 or 32.
    pub fn name_at(self) -> usize
        ensures { result ≡ name_at self }
    {
        MASK_AT + self.mask_len()
    }

    /// Returns how many bytes a record has, 40 or 48.
    pub fn record_len(self) -> usize
        ensures { result ≡ record_len self }
    {
        self.name_at() + MOST_NAME_LEN
    }
}
