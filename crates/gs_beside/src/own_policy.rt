//! The words of a policy of one's own, read and written.

ghost use Rattle.std.specs.Prelude.{◌≡◌, ◌≤◌, ℕ, List, ◌∷◌, [], true, None, Some, IfErr, IfOk, map, take, length, string_bytes};
ghost use Rattle.gs_script.specs.Words.{number as number_of};
ghost use Rattle.gs_script.specs.Grammar.{first_fault, literal};
ghost use Rattle.gs_script.specs.Naming.{policy_kind};
ghost use Rattle.gs_script.specs.Rows.{shown};
ghost use Rattle.gs_beside.specs.Own.{number_form, own_form};
ghost use Rattle.gs_beside.specs.Beside.{are_numbers, is_number_kind, number_said, own_said, own_words};

use crate::own_words::{MOST_NUMBERS, OwnWords};
use gs_script::{NamedPolicy, PolicyWord, Reason, number};
use std::alloc::{AllocError, Global};
use std::fmt::Write;

/// Returns the form of the words that name one's own policy.
fn own_form<P: OwnWords<Q>, Q: NamedPolicy>() -> &'static [PolicyWord]
    ensures { map policy_kind result.now ≡ own_form P.own }
{
    match P::forms() {
        [.., form] => form,
        [] => &[],
    }
}

/// Returns the text of a word that is to be this one.
fn text_of(wanted: PolicyWord) -> &'static str
    ensures { (word : List ℕ) → policy_kind wanted ≡ literal word → result.now ≡ word }
{
    match wanted {
        PolicyWord::Word(text) => text,
        PolicyWord::Number { .. } => "",
    }
}

/// Returns the word of one's own.
pub(crate) fn own_word<P: OwnWords<Q>, Q: NamedPolicy>() -> &'static str
    ensures { result.now ≡ P.own.word }
{
    match own_form::<P, Q>() {
        [first, ..] => text_of(*first),
        [] => "",
    }
}

/// Returns what the words behind it are to be.
fn own_numbers<P: OwnWords<Q>, Q: NamedPolicy>() -> &'static [PolicyWord]
    ensures { map policy_kind result.now ≡ number_form P.own.ranges }
{
    match own_form::<P, Q>() {
        [_, numbers @ ..] => numbers,
        [] => &[],
    }
}

/// Returns the number that a word writes which is to be such a one.
fn read_number(wanted: PolicyWord, word: &str) -> Result<u64, Reason>
    requires { is_number_kind (policy_kind wanted) ≡ true }
    ensures { result ≡ number_said (policy_kind wanted) word.now }
{
    match wanted {
        PolicyWord::Number { least, most, .. } => number(word, least, most),
        PolicyWord::Word(_) => Err(Reason::BadWord),
    }
}

/// Returns the numbers that words write which are to be such ones, and zeros behind them. It does not allocate.
fn read_numbers(wanted: &[PolicyWord], words: &[&str]) -> Result<[u64; MOST_NUMBERS], Reason>
    requires few { length wanted.now ≤ MOST_NUMBERS }
    requires numbers { are_numbers (map policy_kind wanted.now) ≡ true }
    ensures fault { IfErr result (λ reason. first_fault (map policy_kind wanted.now ∷ []) (shown words.now) ≡ Some reason) }
    ensures none { IfOk result (λ ns. first_fault (map policy_kind wanted.now ∷ []) (shown words.now) ≡ None) }
    ensures as_many { IfOk result (λ ns. length words.now ≡ length wanted.now) }
    ensures read { IfOk result (λ ns. take (length words.now) ns ≡ map number_of (shown words.now)) }
{
    let mut numbers = [0; MOST_NUMBERS];
    for (place, one) in wanted.iter().enumerate() {
        let Some(word) = words.get(place) else {
            return Err(Reason::BadCount);
        };
        numbers[place] = read_number(*one, word)?;
    }
    if wanted.len() < words.len() {
        return Err(Reason::BadCount);
    }
    Ok(numbers)
}

/// Returns the policy of one's own that the words behind its word name.
pub(crate) fn read_own<P: OwnWords<Q>, Q: NamedPolicy>(words: &[&str]) -> Result<P, Reason>
    ensures { result ≡ own_said P.own (shown words.now) }
{
    let numbers = read_numbers(own_numbers::<P, Q>(), words)?;
    Ok(P::of(&numbers[..words.len()]))
}

/// Returns the words of a policy of one's own.
pub(crate) fn write_own<P: OwnWords<Q>, Q: NamedPolicy>(
    policy: &P,
    alloc: Global,
) -> Result<String, AllocError>
    ensures { IfOk result (λ text. string_bytes text ≡ own_words P.own policy.now) }
{
    let mut text = String::from_str(alloc, own_word::<P, Q>())?;
    for place in 0..own_numbers::<P, Q>().len() {
        let number = policy.number(place);
        write!(text, " {number}")?;
    }
    Ok(text)
}
