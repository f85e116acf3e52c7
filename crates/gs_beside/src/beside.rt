ghost use Rattle.std.specs.Prelude.{◌≡◌};

use crate::own_policy::{own_word, read_own, write_own};
use crate::own_words::OwnWords;
use gs_beliefs::CpuBeliefs;
use gs_policy::{AnyPolicy, Choice, Counted, Policy};
use gs_runq::RunQueue;
use gs_script::{NamedPolicy, PolicyWord, Reason};
use gs_view::AgentView;
use std::alloc::{AllocError, Global};

/// A policy of one's own, or one of others: either of the two that there are, or a `Beside` again.
#[derive(Clone, Copy, PartialEq, Eq, Debug)]
pub enum Beside<P, Q = AnyPolicy> {
    Other(Q),
    Own(P),
}

impl<P: Policy, Q: Policy> Policy for Beside<P, Q> {
    ghost use Rattle.gs_beside.specs.Beside.{chosen, chosen-safe};

    ghost chosen = { chosen P.chosen Q.chosen };

    fn plan(
        &self,
        alloc: Global,
        view: &AgentView,
        cpus: &CpuBeliefs<'_>,
        queue: &RunQueue,
    ) -> Result<Vec<Choice>, AllocError> {
        match self {
            Beside::Other(policy) => policy.plan(alloc, view, cpus, queue),
            Beside::Own(policy) => policy.plan(alloc, view, cpus, queue),
        }
    }

    fn plan_into(
        &self,
        alloc: Global,
        view: &AgentView,
        cpus: &CpuBeliefs<'_>,
        queue: &RunQueue,
        choices: &mut Vec<Choice>,
    ) -> Result<(), AllocError> {
        match self {
            Beside::Other(policy) => policy.plan_into(alloc, view, cpus, queue, choices),
            Beside::Own(policy) => policy.plan_into(alloc, view, cpus, queue, choices),
        }
    }

    ghost safe = { chosen-safe P.chosen Q.chosen P.safe Q.safe };
}

impl<P: Counted, Q: Counted> Counted for Beside<P, Q> {
    fn count(&self, view: &AgentView, cpus: &CpuBeliefs<'_>, queue: &RunQueue) -> usize {
        match self {
            Beside::Other(policy) => policy.count(view, cpus, queue),
            Beside::Own(policy) => policy.count(view, cpus, queue),
        }
    }
}

impl<P: Counted + OwnWords<Q>, Q: NamedPolicy> NamedPolicy for Beside<P, Q> {
    ghost use Rattle.gs_beside.specs.Beside.{beside};
    ghost use Rattle.gs_beside.specs.Said.{some_form};
    ghost use Rattle.gs_beside.specs.Told.{told_apart};

    ghost naming = { beside P.own Q.naming };

    fn forms() -> &'static [&'static [PolicyWord]] {
        P::forms()
    }

    fn unnamed() -> Beside<P, Q> {
        Beside::Own(P::unnamed())
    }

    fn from_words(words: &[&str]) -> Result<Beside<P, Q>, Reason> {
        let Some((name, rest)) = words.split_first() else {
            return Err(Reason::BadCount);
        };
        if *name == own_word::<P, Q>() {
            Ok(Beside::Own(read_own::<P, Q>(rest)?))
        } else {
            Ok(Beside::Other(Q::from_words(words)?))
        }
    }

    fn words(&self, alloc: Global) -> Result<String, AllocError> {
        match self {
            Beside::Other(policy) => policy.words(alloc),
            Beside::Own(policy) => write_own::<P, Q>(policy, alloc),
        }
    }

    ghost some = { some_form P.own Q.naming };

    ghost told = { told_apart P.own Q.naming P.free P.short P.again Q.some P.apart Q.told };
}
