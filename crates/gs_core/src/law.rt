ghost use Rattle.std.specs.Prelude.{◌≡◌, ◌++◌, List, Some};
ghost use Rattle.gs_layout.specs.declared.known.Known.{Known};
ghost use Rattle.gs_layout.specs.declared.record.Record.TheVariants.{Live};
ghost use Rattle.gs_journal.specs.History.{History, record_in};
ghost use Rattle.gs_replies.specs.declared.reply.Reply.{Reply};
ghost use Rattle.gs_core.specs.declared.event.Event.{Event};
ghost use Rattle.gs_core.specs.declared.transaction.Transaction.{Transaction};
ghost use Rattle.gs_core.specs.Machine.{Plan, State, view};
ghost use Rattle.gs_core.specs.Safe.{IsFaithful, IsTimely, Run};

/// States that a transaction takes effect only while the record that it was stamped from is the kernel's. An agent has a record, and
/// stamps its number. Wherever the transaction is timely then, however much happened meanwhile, the thread has just that record. It does
/// nothing when it runs.
#[tactic(auto, using(crate::proofs::Once::stamped_from))]
pub fn stamped_record_is_current()
    ensures { (m : State) (more : History) (x : Transaction) (k : Known) → IsFaithful m → view m x.slot.tid ≡ Some k → k.tseq ≡ x.slot.tseq → IsTimely m.settings (m.history ++ more) x → record_in (m.history ++ more) x.slot.tid ≡ Live k.facts }
{}

/// States that events only add to a history, and keep the settings. So [`stamped_record_is_current`] speaks of each placing on the way. It
/// does nothing when it runs.
#[tactic(auto, using(crate::proofs::Added::run_adds))]
pub fn histories_grow()
    ensures added { (m n : State) (es : List (Event Plan)) (rs : List Reply) → Run m es rs n → (more : History) × (n.history ≡ m.history ++ more) }
    ensures settings { (m n : State) (es : List (Event Plan)) (rs : List Reply) → Run m es rs n → n.settings ≡ m.settings }
{}
