ghost use Rattle.std.specs.Prelude.{◌≡◌, ◌++◌, List, ℕ};
ghost use Rattle.gs_layout.specs.declared.message.Message.{Message};
ghost use Rattle.gs_layout.specs.Spelling.{IsSpellable, spelling};

/// States that messages that differ have spellings that differ, and that no message's spelling begins
/// another's. So bytes that begin with a message determine the message and what follows it. It does nothing
/// when it runs.
pub fn one_spelling()
    ensures { (m n : Message) (x y : List ℕ) → IsSpellable m → IsSpellable n → spelling m ++ x ≡ spelling n ++ y → (m ≡ n) × (x ≡ y) }
{}
