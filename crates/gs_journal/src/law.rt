ghost use Rattle.std.specs.Prelude.{◌≡◌, ◌<◌, ℕ, None, Some, [], ◌∷◌, ◌++◌};
ghost use Rattle.std.specs.List.{fold};
ghost use Rattle.gs_layout.specs.declared.record.Record.{Record};
ghost use Rattle.gs_layout.specs.Record.{after};
ghost use Rattle.gs_journal.specs.declared.entry.Entry.{Entry};
ghost use Rattle.gs_journal.specs.History.{History, at, messages, on, record_in};
ghost use Rattle.gs_journal.specs.Walk.{record_then};

/// States that a thread's record is the fold of what each message about it makes of the record before, from a
/// thread that never was. So one more entry makes of a record what its message does, and leaves it if it is
/// no message about the thread. It does nothing when it runs.
pub fn record_is_fold()
    ensures fold { (h : History) (t : ℕ) → record_in h t ≡ fold after Record.Absent (messages h t) }
    ensures more { (h : History) (e : Entry) (t : ℕ) → record_in (h ++ e ∷ []) t ≡ record_then t (record_in h t) e }
{}

/// States that a thread that is said to be on a CPU is on it, and that this is the least one below the count
/// that it is on. A thread that is said to be on none is on none of them. It does nothing when it runs.
pub fn at_is_least()
    ensures found { (n : ℕ) (h : History) (t c : ℕ) → at n h t ≡ Some c → (c < n) × (on h c ≡ Some t) × ((d : ℕ) → d < c → on h d ≡ Some t → ⊥) }
    ensures nowhere { (n : ℕ) (h : History) (t : ℕ) → at n h t ≡ None → (d : ℕ) → d < n → on h d ≡ Some t → ⊥ }
{}
