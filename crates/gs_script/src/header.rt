ghost use Rattle.std.specs.Prelude.{◌≡◌, ◌∷◌, ◌≤◌, ◌%◌, IfOk, IfErr, IfSome};
ghost use Rattle.gs_replies.specs.Config.{config_fault};
ghost use Rattle.gs_script.specs.Rows.{shown};
ghost use Rattle.gs_script.specs.Header.{header_of, config_in, capacity_in, part_in, policy_in, firsts_in, AreAllowed};

use crate::fault::Reason;
use crate::named_policy::NamedPolicy;
use crate::word::number;
use gs_beliefs::MOST_TICKS;
use gs_core::Config;
use gs_kernel::{
    LEAST_CPUS, LEAST_GENERATION, LEAST_HISTORY, MOST_FIRST_TSEQ, MOST_GENERATION, MOST_HISTORY,
};
use gs_layout::ALIGNMENT;
use gs_ring::{LEAST_CAPACITY, MOST_CAPACITY};
use gs_status::MOST_CPUS;

/// The fewest ticks after which a thread of class 1 may have to make way for another.
pub const LEAST_SLICE: u16 = 1;

/// The most ticks after which it may: no more are counted of a thread.
pub const MOST_SLICE: u16 = MOST_TICKS;

/// What a header may say behind the sizes.
#[derive(Clone, Copy)]
struct Firsts<P> {
    tseq: u32,
    generation: u32,
    history: u32,
    policy: P,
}

/// The capacity of a ring.
pub(crate) fn capacity(word: &str) -> Result<u32, Reason>
    ensures exact { result ≡ capacity_in word.now }
    ensures low { IfOk result (λ n. LEAST_CAPACITY ≤ n) }
    ensures high { IfOk result (λ n. n ≤ MOST_CAPACITY) }
    ensures whole { IfOk result (λ n. n % ALIGNMENT ≡ 0) }
{
    let capacity = number(word, LEAST_CAPACITY as u64, MOST_CAPACITY as u64)? as u32;
    if capacity % ALIGNMENT as u32 != 0 {
        return Err(Reason::BadNumber);
    }
    Ok(capacity)
}

/// Returns the number behind the word `name`, if the words begin with that, and the words that are left.
fn part<'a, 'w>(
    words: &'a [&'w str],
    name: &str,
    least: u32,
    most: u32,
) -> Result<(Option<u32>, &'a [&'w str]), Reason>
    ensures ok { IfOk result (λ p. part_in name.now least most (shown words.now) ≡ Ok (p.0, shown p.1.now)) }
    ensures err { IfErr result (λ e. part_in name.now least most (shown words.now) ≡ Err e) }
    ensures within { IfOk result (λ p. IfSome p.0 (λ n. (least ≤ n) × (n ≤ most))) }
{
    let Some((first, rest)) = words.split_first() else {
        return Ok((None, words));
    };
    if *first != name {
        return Ok((None, words));
    }
    let Some((value, rest)) = rest.split_first() else {
        return Err(Reason::BadCount);
    };
    let value = number(value, least as u64, most as u64)? as u32;
    Ok((Some(value), rest))
}

/// Returns the policy, if the words begin with `policy`, or that of a header that names none, if there are none.
#[tactic(auto, using(crate::proofs::Policies::in_named, crate::proofs::Policies::in_other))]
fn policy<P: NamedPolicy>(words: &[&str]) -> Result<P, Reason>
    ensures { result ≡ policy_in P.naming (shown words.now) }
{
    let Some((first, rest)) = words.split_first() else {
        return Ok(P::unnamed());
    };
    match *first {
        "policy" => P::from_words(rest),
        _ => Err(Reason::BadWord),
    }
}

/// Returns what the words behind the sizes say: each part once or not at all, in this order. If they say
/// nothing of a part, sequence numbers begin above 0, and the generation is the least. Then the journal is
/// made for the most entries, and the policy is that of a header that names none.
#[tactic(auto, using(crate::proofs::Firsts::tseq_failed, crate::proofs::Firsts::generation_failed, crate::proofs::Firsts::history_failed, crate::proofs::Firsts::policy_failed))]
fn optional<P: NamedPolicy>(words: &[&str]) -> Result<Firsts<P>, Reason>
    ensures exact { result ≡ firsts_in P.naming (shown words.now) }
    ensures fits { IfOk result AreAllowed }
{
    let (tseq, rest) = part(words, "first-tseq", 0, MOST_FIRST_TSEQ)?;
    let (generation, rest) = part(rest, "first-gen", LEAST_GENERATION, MOST_GENERATION)?;
    let (history, rest) = part(rest, "history", LEAST_HISTORY, MOST_HISTORY)?;
    let policy = policy(rest)?;
    Ok(Firsts {
        tseq: tseq.unwrap_or(0),
        generation: generation.unwrap_or(LEAST_GENERATION),
        history: history.unwrap_or(MOST_HISTORY),
        policy,
    })
}

/// What the words behind `cpus` say.
#[tactic(auto)]
fn sizes<P: NamedPolicy>(
    cpus: &str,
    ring: &str,
    word: &str,
    rest: &[&str],
) -> Result<Config<P>, Reason>
    ensures exact { result ≡ config_in P.naming (cpus.now ∷ ring.now ∷ word.now ∷ shown rest.now) }
    ensures fits { IfOk result (λ config. config_fault config ≡ None) }
{
    let cpus = number(cpus, LEAST_CPUS as u64, MOST_CPUS as u64)? as u16;
    if ring != "ring" {
        return Err(Reason::BadWord);
    }
    let ring = capacity(word)?;
    let Firsts {
        tseq,
        generation,
        history,
        policy,
    } = optional(rest)?;
    Ok(Config {
        cpus,
        ring,
        first_tseq: tseq,
        first_generation: generation,
        history,
        policy,
    })
}

/// What a header of these words says.
#[tactic(auto, using(crate::proofs::Places::three_first))]
pub(crate) fn header<P: NamedPolicy>(words: &[&str]) -> Result<Config<P>, Reason>
    ensures exact { result ≡ header_of P.naming (shown words.now) }
    ensures fits { IfOk result (λ config. config_fault config ≡ None) }
{
    let Some((first, words)) = words.split_first() else {
        return Err(Reason::NoHeader);
    };
    if *first != "cpus" {
        return Err(Reason::NoHeader);
    }
    match words {
        [cpus, ring, capacity, rest @ ..] => sizes(cpus, ring, capacity, rest),
        _ => Err(Reason::BadCount),
    }
}
