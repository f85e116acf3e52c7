ghost use Rattle.std.specs.Prelude.{◌≡◌, ◌⊎◌, Bool, false, ℕ, None, Some, take};
ghost use Rattle.gs_journal.specs.History.{History};
ghost use Rattle.gs_turns.specs.Since.{LastsSince, since};

/// States what it means that something has been so since an entry, as that a thread is ready. Behind that entry and
/// each later one it is so, and it was not before. If it has been so since none, it is not so, or there is no entry. It
/// does nothing when it runs.
#[tactic(auto, using(crate::proofs::Lasting::none_since))]
pub fn since_is_longest()
    ensures lasts { (p : History → Bool) (h : History) (n m : ℕ) → since p h n ≡ Some m → LastsSince p h n m }
    ensures none { (p : History → Bool) (h : History) (n : ℕ) → since p h n ≡ None → (n ≡ 0) ⊎ (p (take n h) ≡ false) }
{}
