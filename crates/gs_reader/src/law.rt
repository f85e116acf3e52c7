ghost use Rattle.std.specs.Prelude.{◌≡◌, ◌<◌, ℕ, List, [], ◌∷◌, ◌++◌, length, slice_index};
ghost use Rattle.gs_reader.specs.declared.fault.ReadFault.{ReadFault};
ghost use Rattle.gs_reader.specs.declared.item.Item.{Item};
ghost use Rattle.gs_reader.specs.Reading.{IsFault, IsSpelled};
ghost use Rattle.gs_reader.specs.Records.{item_then, segment};

/// States what is read of a segment. Of no bytes nothing is read, and of a fault that fault alone. A
/// message's spelling is read as the message, a PAD as nothing, and then the bytes after it are read. It does
/// nothing when it runs.
pub fn segment_law()
    ensures item { (item : Item) (text rest : List ℕ) → IsSpelled item text → segment (text ++ rest) ≡ item_then item (segment rest) }
    ensures fault { (bytes : List ℕ) (f : ReadFault) → ((i : ℕ) → slice_index bytes i < 256) → 0 < length bytes → IsFault bytes f
        → segment bytes ≡ Err f ∷ [] }
    ensures end { segment [] ≡ [] }
{}
