ghost use Rattle.std.specs.Prelude.{◌≡◌, ◌≤◌, Some, Bool, List, ℕ, map, length, [], ◌∷◌, ◌++◌};
ghost use Rattle.gs_kernel.specs.declared.landing.Landing.{Landing};
ghost use Rattle.gs_replies.specs.declared.config.Config.{Config};
ghost use Rattle.gs_replies.specs.declared.reply.Reply.{Reply};
ghost use Rattle.gs_core.specs.declared.event.Event.{Event};
ghost use Rattle.gs_core.specs.declared.event.Event.TheVariants as events;
ghost use Rattle.gs_replies.specs.declared.reply.Reply.TheVariants as replies;
ghost use Rattle.gs_core.specs.Machine.{Plan, State, Step, is_given_all, planned, start};
ghost use Rattle.gs_core.specs.Safe.{Run};
ghost use Rattle.gs_layout.specs.declared.refusal.Refusal.{Refusal};
ghost use Rattle.gs_layout.specs.declared.refusal.Refusal.TheVariants as refusals;
ghost use Rattle.gs_journal.specs.State.{IsNumbered};
ghost use Rattle.gs_kernel.specs.declared.command.Command.{Command};
ghost use Rattle.gs_reasons.specs.ExplainsRefusal.{ExplainsRefusal, FindsFree};
ghost use Rattle.gs_explain.specs.Commands.{command_of};
ghost use Rattle.gs_explain.specs.Refusals.{refusal_sign};
ghost use Rattle.gs_trace.specs.Noted.{Noted};
ghost use Rattle.gs_explain.specs.Explained.{Explains, Line, Show};
ghost use Rattle.gs_explain.specs.Met.{AreJudged};
ghost use Rattle.gs_explain.specs.Knowing.{Known, Knows, KnowsFirst, shown_after};
ghost use Rattle.gs_explain.specs.Moment.{Moment, bare};
ghost use Rattle.gs_explain.specs.Explained.{event_shown, row_of};
ghost use Rattle.gs_explain.specs.Rows.{added, heading, reply_shown, row};
ghost use Rattle.gs_explain.specs.Sentenced.{AddsSentences};
ghost use Rattle.gs_lines.specs.Lines.{reply_lines};

use gs_policy::Policy;

/// States that what is explained is a run: the rows have the replies of a run of the events, one each, in order. It does
/// nothing when it runs.
#[tactic(auto, using(crate::proofs::Runs::run_of))]
pub fn explained_is_run<P: Policy>()
    ensures { (show : Show) (n : Noted) (m : State) (es : List (Event P)) (rs : List Reply) (xs : List Line) (end : State) (out : List ℕ) → Explains P.chosen show n m es rs xs end out → Run m (map (planned P.chosen) es) rs end }
{}

/// States that a landing's reason is asked for among the entries that it met. If an outcome is a verdict that speaks of what
/// stood before the landing, it is the verdict on those entries. So it is of a commit's landings, those of a group too, and of
/// a late one. It does nothing when it runs.
#[tactic(auto, using(crate::proofs::Meeting::commit_judged, crate::proofs::Meeting::late_judged))]
pub fn landings_are_met()
    ensures commit { (m n : State) (mask : ℕ) (ls : List Landing) (t : Bool) → Step m (events.Commit mask) (replies.Landed ls t) n → AreJudged m.settings n.history (length m.history) ls }
    ensures late { (m n : State) (k : ℕ) (l : Landing) (t : Bool) → Step m (events.Late k) (replies.Late k l t) n → AreJudged m.settings n.history (length m.history) (l ∷ []) }
{}

/// States that an explanation of a refused command names the entry that explains the refusal (gs_reasons). It is the last
/// that is a sign of what the explanation asks for, and it says what refuses the command. So it is of a crash and of the
/// beginning of a new agent too. It is claimed of machines whose messages are numbered as a kernel's are. Nothing is
/// claimed if memory ran out, or if a slot was not idle. It does nothing when it runs.
#[tactic(auto, using(crate::proofs::Refusing::refused_explained))]
pub fn refusals_are_explained<P: Policy>()
    ensures { (m n : State) (e : Event P) (c : Command) (r : Refusal) → command_of e ≡ Some c → IsNumbered m.settings.first_tseq m.history → Step m (planned P.chosen e) (replies.Refused r) n → (r ≡ refusals.OutOfMemory → ⊥) → (r ≡ refusals.SlotOpen → ⊥) → ExplainsRefusal (refusal_sign (bare e) r) r m.settings m.history (is_given_all m) c }
{}

/// States that each placing of a machine finds its CPU free. So it is in the beginning, and each step of a machine that has
/// no more slots than CPUs keeps it. Of such histories gs_reasons says which entry took a thread off its CPU. It does
/// nothing when it runs.
#[tactic(auto, using(crate::proofs::Finding::start_free, crate::proofs::Finding::step_free))]
pub fn placings_find_free<P>()
    ensures start { (c : Config P) → FindsFree (start c).history }
    ensures step { (m n : State) (e : Event Plan) (r : Reply) → length m.slots ≤ m.settings.cpus → Step m e r n → FindsFree m.history → FindsFree n.history }
{}

/// States that what was known of a machine before an event is known of what it did first, behind the event. So an
/// [`Explainer`](crate::Explainer) can explain each event, one after another. It does nothing when it runs.
#[tactic(auto, using(crate::proofs::Knowing::step_known))]
pub fn event_is_known()
    ensures { (x : Known) (m n : State) (e : Event Plan) (r : Reply) → Knows x m → Step m e r n → KnowsFirst x n }
{}

/// States that what an [`Explainer`](crate::Explainer) shows of an event is what its row has between the script's line and
/// the entries that were added. It does nothing when it runs.
#[tactic(auto, using(crate::proofs::Knowing::same_shown, crate::proofs::Knowing::row_shows))]
pub fn rows_show_it<P>()
    ensures shown { (x : Known) (m n : State) (line : ℕ) (e : Event P) (r : Reply) → Knows x m → shown_after x.noted line e r n ≡ event_shown x.noted m line e r n }
    ensures row { (noted : Noted) (m n : State) (said : Line) (e : Event P) (r : Reply) → row_of row noted m said e r n ≡ heading said ++ event_shown noted m said.0 e r n ++ added (length m.history) (length n.history) }
{}

/// States that what is shown of a reply is the reply with sentences among its lines: without them it is the reply. It
/// does nothing when it runs.
#[tactic(auto, using(crate::proofs::Sentences::reply_adds))]
pub fn sentences_are_added()
    ensures { (x : Moment) (first : ℕ) (r : Reply) → AddsSentences (reply_lines r) (reply_shown x first r) }
{}
