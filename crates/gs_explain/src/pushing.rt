//! Adding to a list from the loop over a script.

ghost use Rattle.std.specs.Prelude.{◌≡◌, ◌++◌, ◌∷◌, [], OnErr, OnOk};

use std::alloc::AllocError;

/// Adds an item at the end of a list. It makes room by itself: a call that does both is not folded into the loop over a script. It fails
/// only if out of memory.
#[inline(always)]
pub(crate) fn push_in_place<T: Copy>(items: &mut Vec<T>, item: T) -> Result<(), AllocError>
    ensures added { OnOk result (items.new.items ≡ items.old.items ++ item ∷ []) }
    ensures kept { OnErr result (items.new.items ≡ items.old.items) }
{
    items.reserve(1)?;
    items.push_reserved(item);
    Ok(())
}
