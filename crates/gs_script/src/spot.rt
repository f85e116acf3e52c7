//! Where the fault of a line's words stands.

ghost use Rattle.std.specs.Prelude.{◌≡◌, ◌≤◌, ◌<◌, ◌^◌, [], IfOk, map, flat_map, length};
ghost use Rattle.gs_script.specs.Grammar.{after_word, has_count};
ghost use Rattle.gs_script.specs.Rows.{shown};
ghost use Rattle.gs_script.specs.Spot.{event_spot, first_spot, forms_of, header_spot, kind_of, line_spot, longest, next_kinds, one_on, sizes_spot};
ghost use Rattle.gs_script.specs.Found.{spot_of};

use crate::forms::{Form, event_forms, header_forms};
use crate::named_policy::NamedPolicy;
use crate::wanted::{Wanted, is_wanted};
use std::alloc::{AllocError, Global};

/// Where a fault stands, and what is wanted there.
#[derive(Drop)]
pub(crate) struct Spot {
    /// So many words stand before it.
    pub(crate) place: usize,
    /// What the word may be that stands there. There is none if no word may.
    pub(crate) wanted: Vec<Wanted>,
}

/// A fault at a place where nothing that is said here is wanted.
fn bare(alloc: Global, place: usize) -> Spot
    ensures { spot_of result ≡ record { place = place; wanted = [] } }
{
    let wanted = Vec::new(alloc);
    Spot { place, wanted }
}

/// The same spot, of words with one more before them.
fn one_on(spot: Spot) -> Spot
    requires { spot.place < 2 ^ 63 }
    ensures { spot_of result ≡ one_on (spot_of spot) }
{
    Spot {
        place: spot.place + 1,
        wanted: spot.wanted,
    }
}

/// Returns what each form wants next.
fn next_wanted(alloc: Global, forms: &[Form]) -> Result<Vec<Wanted>, AllocError>
    ensures { IfOk result (λ wanted. map kind_of wanted.items ≡ next_kinds (forms_of forms.now)) }
{
    let mut wanted = Vec::new(alloc);
    for form in forms {
        if let Some((first, _)) = form.split_first() {
            wanted.push(first)?;
        }
    }
    Ok(wanted)
}

/// Returns what is left of the forms that take a word.
fn narrowed(alloc: Global, forms: &[Form], word: &str) -> Result<Vec<Form>, AllocError>
    ensures { IfOk result (λ left. forms_of left.items ≡ flat_map (after_word word.now) (forms_of forms.now)) }
{
    let mut left = Vec::new(alloc);
    for form in forms {
        if let Some((first, rest)) = form.split_first() {
            if is_wanted(first, word) {
                left.push(rest)?;
            }
        }
    }
    Ok(left)
}

/// Returns where the first fault of words stands, if these forms are open.
fn first_spot(alloc: Global, forms: &[Form], words: &[&str]) -> Result<Spot, AllocError>
    ensures exact { IfOk result (λ spot. spot_of spot ≡ first_spot (forms_of forms.now) (shown words.now)) }
    ensures within { IfOk result (λ spot. spot.place ≤ length words.now) }
{
    let Some((word, rest)) = words.split_first() else {
        let wanted = next_wanted(alloc, forms)?;
        return Ok(Spot { place: 0, wanted });
    };
    let left = narrowed(alloc, forms, word)?;
    if left.is_empty() {
        let wanted = next_wanted(alloc, forms)?;
        return Ok(Spot { place: 0, wanted });
    }
    Ok(one_on(first_spot(alloc, &left, rest)?))
}

/// Returns the most words that a form has.
fn longest(forms: &[Form]) -> usize
    ensures { result ≡ longest (forms_of forms.now) }
{
    match forms {
        [] => 0,
        [form, rest @ ..] => form.count().max(longest(rest)),
    }
}

/// Returns whether a form has so many words.
fn has_count(forms: &[Form], count: usize) -> bool
    ensures { result ≡ has_count (forms_of forms.now) count }
{
    match forms {
        [] => false,
        [form, rest @ ..] => form.count() == count || has_count(rest, count),
    }
}

/// Returns where the fault of words stands that are to be of one of these forms.
fn line_spot(alloc: Global, forms: &[Form], words: &[&str]) -> Result<Spot, AllocError>
    ensures exact { IfOk result (λ spot. spot_of spot ≡ line_spot (forms_of forms.now) (shown words.now)) }
    ensures within { IfOk result (λ spot. spot.place ≤ length words.now) }
{
    if has_count(forms, words.len()) {
        return first_spot(alloc, forms, words);
    }
    Ok(bare(alloc, words.len().min(longest(forms))))
}

/// Returns where the fault of an event's line stands.
pub(crate) fn event_spot<P: NamedPolicy>(alloc: Global, words: &[&str]) -> Result<Spot, AllocError>
    requires { length words.now < 2 ^ 63 }
    ensures { IfOk result (λ spot. spot_of spot ≡ event_spot P.naming (shown words.now)) }
{
    let Some((first, rest)) = words.split_first() else {
        return Ok(bare(alloc, 0));
    };
    match event_forms::<P>(alloc, first)? {
        None => Ok(bare(alloc, 0)),
        Some(forms) => Ok(one_on(line_spot(alloc, &forms, rest)?)),
    }
}

/// Returns where the fault of the words behind `cpus` stands.
fn sizes_spot<P: NamedPolicy>(alloc: Global, words: &[&str]) -> Result<Spot, AllocError>
    ensures exact { IfOk result (λ spot. spot_of spot ≡ sizes_spot P.naming (shown words.now)) }
    ensures within { IfOk result (λ spot. spot.place ≤ length words.now) }
{
    if words.len() < 3 {
        return Ok(bare(alloc, words.len()));
    }
    let forms = header_forms::<P>(alloc)?;
    first_spot(alloc, &forms, words)
}

/// Returns where the fault of a line in the header's place stands.
pub(crate) fn header_spot<P: NamedPolicy>(alloc: Global, words: &[&str]) -> Result<Spot, AllocError>
    requires { length words.now < 2 ^ 63 }
    ensures { IfOk result (λ spot. spot_of spot ≡ header_spot P.naming (shown words.now)) }
{
    match words {
        [first, rest @ ..] if *first == "cpus" => Ok(one_on(sizes_spot::<P>(alloc, rest)?)),
        _ => Ok(bare(alloc, 0)),
    }
}
