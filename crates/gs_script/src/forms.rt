//! The forms that the lines of a script have.

ghost use Rattle.std.specs.Prelude.{◌≡◌, ◌++◌, ◌∷◌, [], IfOk, MatchOption, OnOk, codes, false, flat_map, length, map, option_map};
ghost use Rattle.gs_script.specs.Header.{header_forms};
ghost use Rattle.gs_script.specs.Naming.{forms_named};
ghost use Rattle.gs_script.specs.Rows.{is};
ghost use Rattle.gs_script.specs.Spot.{form_of, forms_of, fronted, kind_of, kinds_of, row_of};

use crate::named_policy::NamedPolicy;
use crate::policy_word::PolicyWord;
use crate::wanted::Wanted;
use crate::wanted::Wanted::{
    Capacity, Class, Cpu, Cpus, Entries, FirstGen, FirstTseq, Flag, Generation, History, Mask,
    Messages, Name, PageThreads, Policy, Ring, State, Thread, Transaction, Tseq,
};
use std::alloc::{AllocError, Global};

/// Words of a line, none of which names a policy.
type Plain = &'static [Wanted];

/// What the words of a line are to be, one after another.
#[derive(Clone, Copy)]
pub(crate) struct Form {
    front: Plain,
    /// Those that name a policy: they are the last.
    policy: &'static [PolicyWord],
}

impl Form {
    /// Returns what the first word is to be, and those behind it, if there is one.
    pub(crate) fn split_first(self) -> Option<(Wanted, Form)>
        ensures { MatchOption result (form_of self ≡ []) (λ p. form_of self ≡ kind_of p.0 ∷ form_of p.1) }
    {
        match self.front {
            [first, front @ ..] => Some((
                *first,
                Form {
                    front,
                    policy: self.policy,
                },
            )),
            [] => match self.policy {
                [first, policy @ ..] => Some((Wanted::Named(*first), Form { front: &[], policy })),
                [] => None,
            },
        }
    }

    /// Returns how many words there are.
    pub(crate) fn count(self) -> usize
        ensures { result ≡ length (form_of self) }
    {
        self.front.len() + self.policy.len()
    }
}

const CREATE: &[Plain] = &[&[Mask, Class, State, Name]];

const OF_THREAD: &[Plain] = &[&[Thread]];

const AFFINITY: &[Plain] = &[&[Thread, Mask]];

const OF_CPU: &[Plain] = &[&[Cpu]];

const PAGE: &[Plain] = &[&[PageThreads]];

const DRAIN: &[Plain] = &[&[Messages]];

const STAMP: &[Plain] = &[&[Cpu, Thread], &[Cpu, Thread, Flag]];

/// A line whose first word says all.
const ALONE: &[Plain] = &[&[]];

const COMMIT: &[Plain] = &[&[Mask]];

const LATE: &[Plain] = &[&[Transaction]];

/// Returns the forms of the words behind the first one of an event's line that names no policy, or `None` if no event has
/// this first word.
fn plain_forms<P: NamedPolicy>(first: &str) -> Option<&'static [Plain]>
    requires { is first.now (codes "begin") ≡ false }
    ensures { option_map (λ forms. kinds_of forms.now) result ≡ option_map (λ row. row.forms) (row_of P.naming first.now) }
{
    match first {
        "create" => Some(CREATE),
        "block" | "wake" | "yield" | "die" => Some(OF_THREAD),
        "affinity" => Some(AFFINITY),
        "take" | "give" | "tick" | "handoff" | "activate" => Some(OF_CPU),
        "page" => Some(PAGE),
        "drain" => Some(DRAIN),
        "stamp" => Some(STAMP),
        "crash" | "leave" | "decide" | "view" | "state" | "unread" => Some(ALONE),
        "commit" => Some(COMMIT),
        "late" => Some(LATE),
        _ => None,
    }
}

/// Adds forms that name no policy.
fn add_plain(forms: &mut Vec<Form>, plain: &[Plain]) -> Result<(), AllocError>
    ensures { OnOk result (forms_of forms.new.items ≡ forms_of forms.old.items ++ kinds_of plain.now) }
{
    for front in plain {
        forms.push(Form {
            front: *front,
            policy: &[],
        })?;
    }
    Ok(())
}

/// Adds a form for each that names a policy, with these words in front.
fn add_named(
    forms: &mut Vec<Form>,
    front: Plain,
    named: &[&'static [PolicyWord]],
) -> Result<(), AllocError>
    ensures { OnOk result (forms_of forms.new.items ≡ forms_of forms.old.items ++ map (λ form. map kind_of front.now ++ form) (forms_named named.now)) }
{
    for policy in named {
        forms.push(Form {
            front,
            policy: *policy,
        })?;
    }
    Ok(())
}

/// Returns the forms of the words behind `begin`.
fn begin_forms<P: NamedPolicy>(alloc: Global) -> Result<Vec<Form>, AllocError>
    ensures { IfOk result (λ forms. forms_of forms.items ≡ [] ∷ P.naming.forms) }
{
    let mut forms = Vec::new(alloc);
    add_plain(&mut forms, ALONE)?;
    add_named(&mut forms, &[], P::forms())?;
    Ok(forms)
}

/// Returns the forms of the words behind the first one of an event's line, or `None` if no event has this first word.
pub(crate) fn event_forms<P: NamedPolicy>(
    alloc: Global,
    first: &str,
) -> Result<Option<Vec<Form>>, AllocError>
    ensures { IfOk result (λ o. option_map (λ forms. forms_of forms.items) o ≡ option_map (λ row. row.forms) (row_of P.naming first.now)) }
{
    if first == "begin" {
        return Ok(Some(begin_forms::<P>(alloc)?));
    }
    let Some(plain) = plain_forms::<P>(first) else {
        return Ok(None);
    };
    let mut forms = Vec::new(alloc);
    add_plain(&mut forms, plain)?;
    Ok(Some(forms))
}

/// The words behind `cpus` up to the policy, each part behind the sizes once or not at all, in this order. First come those
/// of a header that names no policy, and then the same with `policy` behind them.
const FRONTS: &[(Plain, Plain)] = &[
    (&[Cpus, Ring, Capacity], &[Cpus, Ring, Capacity, Policy]),
    (
        &[Cpus, Ring, Capacity, History, Entries],
        &[Cpus, Ring, Capacity, History, Entries, Policy],
    ),
    (
        &[Cpus, Ring, Capacity, FirstGen, Generation],
        &[Cpus, Ring, Capacity, FirstGen, Generation, Policy],
    ),
    (
        &[Cpus, Ring, Capacity, FirstGen, Generation, History, Entries],
        &[
            Cpus, Ring, Capacity, FirstGen, Generation, History, Entries, Policy,
        ],
    ),
    (
        &[Cpus, Ring, Capacity, FirstTseq, Tseq],
        &[Cpus, Ring, Capacity, FirstTseq, Tseq, Policy],
    ),
    (
        &[Cpus, Ring, Capacity, FirstTseq, Tseq, History, Entries],
        &[
            Cpus, Ring, Capacity, FirstTseq, Tseq, History, Entries, Policy,
        ],
    ),
    (
        &[Cpus, Ring, Capacity, FirstTseq, Tseq, FirstGen, Generation],
        &[
            Cpus, Ring, Capacity, FirstTseq, Tseq, FirstGen, Generation, Policy,
        ],
    ),
    (
        &[
            Cpus, Ring, Capacity, FirstTseq, Tseq, FirstGen, Generation, History, Entries,
        ],
        &[
            Cpus, Ring, Capacity, FirstTseq, Tseq, FirstGen, Generation, History, Entries, Policy,
        ],
    ),
];

/// Adds the forms of the words behind `cpus` that begin so.
fn add_fronts(
    forms: &mut Vec<Form>,
    fronts: &[(Plain, Plain)],
    named: &[&'static [PolicyWord]],
) -> Result<(), AllocError>
    ensures { OnOk result (forms_of forms.new.items ≡ forms_of forms.old.items ++ flat_map (fronted (forms_named named.now)) fronts.now) }
{
    let Some((first, rest)) = fronts.split_first() else {
        return Ok(());
    };
    let (front, behind) = *first;
    forms.push(Form { front, policy: &[] })?;
    add_named(forms, behind, named)?;
    add_fronts(forms, rest, named)
}

/// Returns the forms of the words behind `cpus`.
pub(crate) fn header_forms<P: NamedPolicy>(alloc: Global) -> Result<Vec<Form>, AllocError>
    ensures { IfOk result (λ forms. forms_of forms.items ≡ header_forms P.naming) }
{
    let mut forms = Vec::new(alloc);
    add_fronts(&mut forms, FRONTS, P::forms())?;
    Ok(forms)
}
