ghost use Rattle.std.specs.Prelude.{◌≡◌, ◌<◌, ◌&&◌, ◌==◌, not, ℕ, List, IfSome};
ghost use Rattle.std.specs.Option.{option_to_list};
ghost use Rattle.gs_layout.specs.declared.facts.Class.{Class as ClassOf};
ghost use Rattle.gs_layout.specs.declared.known.Known.{Known as KnownOf};
ghost use Rattle.gs_layout.specs.View.{look_up};
ghost use Rattle.gs_runq.specs.Queue.{Queue};
ghost use Rattle.gs_status.specs.Masks.{has, least};
ghost use Rattle.gs_policy.specs.Candidates.{AreLeft, AreTakenBy, are_spent, busy_for, picked, plan_among, is_busy_for};
ghost use Rattle.gs_policy.specs.Plan.{Taking, plan};
ghost use Rattle.gs_policy.specs.Safety.{IsTaking};
ghost use Rattle.gs_policy.specs.Shown.{shows};

use crate::choice::Choice;
use gs_beliefs::CpuBeliefs;
use gs_layout::Class;
use gs_status::{MOST_CPUS, Mask};
use gs_view::AgentView;

/// The CPUs that can still be chosen: those that are free, and those that a thread of each class may
/// take from somebody.
#[derive(Clone, Copy)]
pub struct Candidates {
    /// The CPUs that any thread may use.
    pub free: Mask,
    /// The CPUs that a thread of class 0 may take from somebody, if none is free for it.
    pub zero_class: Mask,
    /// The same of a thread of class 1.
    pub one_class: Mask,
}

/// Returns the least CPU that is in both sets.
#[tactic(auto, using(gs_status::proofs::Laws::least_same))]
fn least_of(one: Mask, other: Mask) -> Option<u16>
    ensures least { result ≡ least (λ c. has one c && has other c) MOST_CPUS }
    ensures within { IfSome result (λ c. c < MOST_CPUS) }
{
    one.both(other).lowest()
}

impl Candidates {
    /// Gathers the free CPUs, and these, which a thread of class 0 and one of class 1 may take from somebody.
    /// It does not allocate.
    ///
    /// Take a test of which CPUs a thread may take from somebody. If it allows just these, and only usable ones on which
    /// somebody is believed to run, what is planned among them is the plan by that test. That holds whatever is known of
    /// threads, and whoever waits.
    ///
    /// # Examples
    ///
    /// Under round robin either class may take the CPUs of the threads that have had their slices:
    ///
    /// ```
    /// let spent = self.spent_cpus(view, cpus);
    /// Candidates::new(cpus, spent, spent)
    /// ```
    pub fn new(cpus: &CpuBeliefs<'_>, zero_class: Mask, one_class: Mask) -> Candidates
        ensures { (may_take : Taking) (records : List (ℕ × KnownOf)) (queue : Queue) → IsTaking (shows records cpus.now queue) (may_take (shows records cpus.now queue)) → AreTakenBy (may_take (shows records cpus.now queue)) zero_class one_class → plan_among result (shows records cpus.now queue) ≡ plan may_take (shows records cpus.now queue) }
    {
        // There are at most MOST_CPUS, so that a mask has them all.
        let _most = cpus.cpus();
        Candidates {
            free: cpus.free(),
            zero_class,
            one_class,
        }
    }

    /// Returns whether no CPU can be chosen any more.
    pub fn are_spent(self) -> bool
        ensures { result ≡ are_spent self }
    {
        self.free.is_empty() && self.zero_class.is_empty() && self.one_class.is_empty()
    }

    /// Returns the CPUs that a thread of a class may take from somebody.
    fn busy_for(self, class: Class) -> Mask
        ensures { result ≡ busy_for self class }
    {
        match class {
            Class::Zero => self.zero_class,
            Class::One => self.one_class,
        }
    }

    /// Returns all of them but a CPU.
    fn without(self, cpu: u16) -> Candidates
        requires { cpu < MOST_CPUS }
        ensures free { (c : ℕ) → has result.free c ≡ (has self.free c && not (cpu == c)) }
        ensures busy { (class : ClassOf) (c : ℕ) → is_busy_for result class c ≡ (is_busy_for self class c && not (cpu == c)) }
    {
        Candidates {
            free: self.free.without(cpu),
            zero_class: self.zero_class.without(cpu),
            one_class: self.one_class.without(cpu),
        }
    }

    /// Returns the choice of a thread among them, if it has one.
    #[tactic(auto, using(crate::proofs::Left::picked_unknown, crate::proofs::Left::picked_free, crate::proofs::Left::picked_busy))]
    fn pick(self, view: &AgentView, tid: u32) -> Option<Choice>
        ensures pick { option_to_list result ≡ picked self (look_up view.now.entries) tid }
        ensures below { IfSome result (λ x. x.cpu < MOST_CPUS) }
    {
        let (facts, _) = view.get(tid)?;
        if let Some(cpu) = least_of(self.free, facts.mask) {
            return Some(Choice {
                cpu,
                tid,
                preempt: false,
            });
        }
        let cpu = least_of(self.busy_for(facts.class), facts.mask)?;
        Some(Choice {
            cpu,
            tid,
            preempt: true,
        })
    }

    /// Takes out the CPU that a thread chooses among them, and returns the choice, or `None` if it has none.
    /// It does not allocate.
    pub fn choose(&mut self, view: &AgentView, tid: u32) -> Option<Choice>
        ensures choice { option_to_list result ≡ picked self.old (look_up view.now.entries) tid }
        ensures left { AreLeft self.old self.new (picked self.old (look_up view.now.entries) tid) }
    {
        let choice = self.pick(view, tid)?;
        *self = self.without(choice.cpu);
        Some(choice)
    }
}
