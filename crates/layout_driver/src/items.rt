//! Items, one after the other.

ghost use Rattle.std.specs.Prelude.{◌≡◌, ◌<◌, ◌++◌, ◌∷◌, [], IfSome, length, take};

/// Bytes of one layout.
#[derive(Clone, Copy)]
pub(crate) struct Item<'a> {
    /// The letter of the layout.
    pub(crate) layout: u8,
    pub(crate) bytes: &'a [u8],
}

/// Returns the item that bytes begin with, and what follows it.
pub(crate) fn first_item(bytes: &[u8]) -> Option<(Item<'_>, &[u8])>
    ensures whole { IfSome result (λ found. bytes.now ≡ take 3 bytes.now ++ found.0.bytes.now ++ found.1.now) }
    ensures layout { IfSome result (λ found. take 1 bytes.now ≡ found.0.layout ∷ []) }
    ensures less { IfSome result (λ found. length found.1.now < length bytes.now) }
{
    let [layout, low, high, rest @ ..] = bytes else {
        return None;
    };
    let len = u16::from_le_bytes([*low, *high]) as usize;
    let (bytes, later) = rest.split_at_checked(len)?;
    Some((
        Item {
            layout: *layout,
            bytes,
        },
        later,
    ))
}
