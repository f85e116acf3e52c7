ghost use Rattle.std.specs.Prelude.{◌≡◌, All};
ghost use Rattle.gs_journal.specs.History.{History};
ghost use Rattle.gs_history.specs.Journal.{journal_lines};
ghost use Rattle.gs_history.specs.Legible.{IsLegible};
ghost use Rattle.gs_history.specs.Reading.{history_in};

/// States that a journal's entries are read back from its lines, so two journals with the same lines are one.
/// That asks of each entry that its numbers have at most 64 digits. The name of a new thread has to be a name
/// and not `-`, which stands for no name in a line. It does nothing when it runs.
#[tactic(auto, using(crate::proofs::Laws::history_read_back, crate::proofs::Laws::same_lines))]
pub fn lines_tell_all()
    ensures read_back { (h : History) → All IsLegible h → history_in (journal_lines h) ≡ h }
    ensures one { (g h : History) → All IsLegible g → All IsLegible h → journal_lines g ≡ journal_lines h → g ≡ h }
{}
