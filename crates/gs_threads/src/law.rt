//! What is true of every table that mirrors a history.

ghost use Rattle.std.specs.Prelude.{◌≡◌, ◌↔◌, ◌+◌, ℕ, List, [], ◌∷◌, ◌++◌, length, map, IsSome, None, Some, true};
ghost use Rattle.std.specs.List.{fold};
ghost use Rattle.gs_layout.specs.declared.facts.Facts.{Facts};
ghost use Rattle.gs_layout.specs.declared.message.Change.{Change};
ghost use Rattle.gs_layout.specs.declared.message.Message.{Message};
ghost use Rattle.gs_layout.specs.declared.record.Record.{Record};
ghost use Rattle.gs_layout.specs.Record.{after};
ghost use Rattle.gs_journal.specs.declared.entry.Entry.{Entry};
ghost use Rattle.gs_journal.specs.History.{History, messages, on};
ghost use Rattle.gs_threads.specs.declared.row.ThreadRow.{ThreadRow};
ghost use Rattle.gs_threads.specs.Mirrors.{IsNext, Mirrors, is_quiet};
ghost use Rattle.gs_threads.specs.Rows.{new_row, row_placed};
ghost use Rattle.gs_threads.specs.Table.{place_at, row_of, rows_after, rows_placed};

/// States that of a table that mirrors a history a thread's row is what the history says of the thread. Its
/// record is the fold of what each message about it makes of the record before. Its sequence number is the
/// first one and one more for each of them. Its CPU is the one that it is on. It does nothing when it runs.
pub fn row_is_fold()
    ensures facts { (first : ℕ) (h : History) (rows : List ThreadRow) (t : ℕ) (row : ThreadRow) → Mirrors first h rows → row_of rows t ≡ Some row
        → row.record ≡ fold after Record.Absent (messages h t) }
    ensures number { (first : ℕ) (h : History) (rows : List ThreadRow) (t : ℕ) (row : ThreadRow) → Mirrors first h rows → row_of rows t ≡ Some row
        → row.tseq ≡ first + length (messages h t) }
    ensures place { (first : ℕ) (h : History) (rows : List ThreadRow) (t c : ℕ) (row : ThreadRow) → Mirrors first h rows → row_of rows t ≡ Some row
        → (row.cpu ≡ Some c) ↔ (on h c ≡ Some t) }
{}

/// States that a table of no threads mirrors a history in which nothing has happened, and that one that
/// mirrors a history goes on to do so. It does nothing when it runs.
///
/// It goes on through each of these:
///
/// - A thread's creation is posted and its row appended.
/// - A message is posted and taken in.
/// - A thread that is nowhere is placed on a CPU on which nobody is.
/// - Something happens that concerns no thread.
/// - The enclave is torn down and everybody is taken off.
pub fn tables_mirror()
    ensures none { (first : ℕ) → Mirrors first [] [] }
    ensures created { (first : ℕ) (h : History) (rows : List ThreadRow) (f : Facts) → Mirrors first h rows
        → Mirrors first (h ++ Entry.Posted (Message.Thread (length rows + 1) (first + 1) (Change.Created f)) ∷ []) (rows ++ new_row first f ∷ []) }
    ensures posted { (first : ℕ) (h : History) (rows : List ThreadRow) (m : Message) → Mirrors first h rows → IsNext first h rows m
        → Mirrors first (h ++ Entry.Posted m ∷ []) (rows_after rows m) }
    ensures placed { (first : ℕ) (h : History) (rows : List ThreadRow) (t s c g : ℕ) → Mirrors first h rows → IsSome (row_of rows t) → place_at rows t ≡ None → on h c ≡ None
        → Mirrors first (h ++ Entry.Placed t s c g ∷ []) (rows_placed rows t (Some c)) }
    ensures quiet { (first : ℕ) (h : History) (rows : List ThreadRow) (e : Entry) → Mirrors first h rows → is_quiet e ≡ true → Mirrors first (h ++ e ∷ []) rows }
    ensures torn { (first : ℕ) (h : History) (rows : List ThreadRow) → Mirrors first h rows
        → Mirrors first (h ++ Entry.Torn ∷ []) (map (λ row. row_placed row None) rows) }
{}
