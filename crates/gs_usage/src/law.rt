ghost use Rattle.std.specs.Prelude.{◌≡◌, ℕ, length};
ghost use Rattle.std.specs.List.{count_by};
ghost use Rattle.gs_journal.specs.History.{History};
ghost use Rattle.gs_turns.specs.Ticked.{is_tick};
ghost use Rattle.gs_usage.specs.Times.{all_entries, all_ticks};
ghost use Rattle.gs_usage.specs.Uses.{usage_of};

/// States that the five uses of a CPU leave nothing out and count nothing twice: behind each entry it has just one of
/// them. So their entries together are those of the history, and their ticks are the CPU's. It does nothing when it runs.
#[tactic(auto, using(crate::proofs::Adding::entries_together, crate::proofs::Adding::ticks_together))]
pub fn each_time_has_one_use()
    ensures entries { (h : History) (c : ℕ) → all_entries (usage_of h c) ≡ length h }
    ensures ticks { (h : History) (c : ℕ) → all_ticks (usage_of h c) ≡ count_by (is_tick c) h }
{}
