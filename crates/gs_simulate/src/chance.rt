//! What is drawn, by a seed.

ghost use Rattle.std.specs.Prelude.{◌≡◌, ◌≤◌};
ghost use Rattle.gs_simulate.specs.Chance.{drawn, seeded};
ghost use Rattle.rand_pcg.specs.Pcg.{pcg32};

use gs_workload::Span;
use rand_core::utils::NextWord;
use rand_pcg::Pcg32;
use std::marker::Model;

/// What numbers of ticks are drawn from. Clauses see the state of its generator. Of one seed the same numbers are drawn.
#[derive(Drop)]
pub(crate) struct Chance {
    generator: Pcg32,
}

impl Model for Chance {
    ghost use Rattle.rand_pcg.specs.Lcg.{Lcg};

    ghost Value = { Lcg };

    ghost view = { λ c. c.generator };
}

/// Returns the number of a span that a word stands for.
fn number_in(span: Span, word: u32) -> u32
    ensures value { result ≡ drawn span word }
    ensures least { span.least ≤ result }
    ensures most { span.least ≤ span.most → result ≤ span.most }
{
    let width = u64::from(span.most.saturating_sub(span.least)) + 1;
    let more = u64::from(word) % width;
    span.least + more as u32
}

impl Chance {
    /// Makes what is drawn by this seed.
    #[tactic(auto, unfolding(crate::specs::Chance::seeded))]
    pub(crate) fn new(seed: u64) -> Chance
        ensures { result ≡ seeded seed }
    {
        Chance {
            generator: Pcg32::new(seed, seed),
        }
    }

    /// Draws a number of a span, both of whose ends may come.
    pub(crate) fn draw(&mut self, span: Span) -> u32
        ensures value { result ≡ drawn span (pcg32 self.old).0 }
        ensures least { span.least ≤ result }
        ensures most { span.least ≤ span.most → result ≤ span.most }
        ensures next { self.new ≡ (pcg32 self.old).1 }
    {
        let word = self.generator.next_word();
        number_in(span, word)
    }
}
