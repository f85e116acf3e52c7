//! The facts that a creation tells, read where they stand.

ghost use Rattle.std.specs.Prelude.{◌≡◌, ◌<◌, ◌≤◌, length};
ghost use Rattle.gs_layout.specs.Reading.{facts_in};
ghost use Rattle.gs_reader.specs.Creation.{IsCreation, name_front};

use gs_layout::{
    CLASS_AT, Class, FLAGS_AT, Facts, MASK_AT, MIDDLE_NAME_LEN, MOST_NAME_LEN, NAME_AT,
    NAME_LEN_AT, Name, SHORT_NAME_LEN, u16_at, u128_at,
};
use gs_status::Mask;

/// Copies the bytes from one place up to another into a name that has those before them, and zeros behind.
#[inline(always)]
fn copy_part(name: &mut [u8; MOST_NAME_LEN], field: &[u8], from: usize, to: usize)
    requires order { from ≤ to }
    requires most { to ≤ MOST_NAME_LEN }
    requires there { to ≤ length field.now }
    requires front { name.old ≡ name_front from field.now }
    ensures { name.new ≡ name_front to field.now }
{
    name[from..to].copy_from_slice(&field[from..to]);
}

/// Returns a creation's name in as many bytes as a name may have, with zeros behind it. It is copied in pieces whose
/// lengths the compiler knows: those of the shortest creation, and then those that longer ones have besides.
#[inline(always)]
fn padded_name(field: &[u8]) -> [u8; MOST_NAME_LEN]
    requires few { SHORT_NAME_LEN ≤ length field.now }
    requires more { SHORT_NAME_LEN < length field.now → MIDDLE_NAME_LEN ≤ length field.now }
    requires all { MIDDLE_NAME_LEN < length field.now → MOST_NAME_LEN ≤ length field.now }
    ensures { result ≡ name_front MOST_NAME_LEN field.now }
{
    let mut name = [0; MOST_NAME_LEN];
    copy_part(&mut name, field, 0, 2);
    copy_part(&mut name, field, 2, SHORT_NAME_LEN);
    if field.len() > SHORT_NAME_LEN {
        copy_part(&mut name, field, SHORT_NAME_LEN, MIDDLE_NAME_LEN);
        if field.len() > MIDDLE_NAME_LEN {
            copy_part(&mut name, field, MIDDLE_NAME_LEN, MOST_NAME_LEN);
        }
    }
    name
}

/// Returns the facts that a creation's bytes tell. No byte of the name is tested, since it is known to be one.
#[inline(always)]
pub(crate) fn facts_at(text: &[u8]) -> Facts
    requires { IsCreation text.now }
    ensures { result ≡ facts_in text.now }
{
    Facts {
        runnable: u16_at(text, FLAGS_AT) == 1,
        mask: Mask::new(u128_at(text, MASK_AT)),
        class: Class::numbered(text[CLASS_AT]),
        name: Name::from_padded(padded_name(&text[NAME_AT..]), text[NAME_LEN_AT]),
    }
}
