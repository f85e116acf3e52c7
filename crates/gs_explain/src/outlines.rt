//! The events whose objects are put together at the end, in few bytes.

ghost use Rattle.std.specs.Prelude.{◌≡◌, ◌+◌, ◌<◌, ◌==◌, ◌++◌, ◌∷◌, [], ℕ, suc, IfOk, IfSome, IsTrue, List, OnErr, OnOk, Option, get_or, length};
ghost use Rattle.std.specs.List.{All};
ghost use Rattle.gs_script.specs.Unread.{said_line};
ghost use Rattle.gs_sentences.specs.Parts.{part};
ghost use Rattle.gs_explain.specs.Outlined.{AddsTold, Grows, HasParts, HasTold, NotesTold, all_events, later, told_count, told_of, untold, widened};
ghost use Rattle.gs_explain.specs.declared.outline.Outline.{Outline};
ghost use Rattle.gs_explain.specs.declared.outline.Told.{Told};
ghost use Rattle.gs_explain.specs.declared.outline.Told.TheVariants as tolds;

use crate::outline::{Outline, Told, parts_in, short};
use crate::pushing::push_in_place;
use gs_script::SaidLine;
use gs_sentences::Tail;
use std::alloc::{AllocError, Global};
use std::marker::Model;

/// The count of one whose event is told aside. Others added fewer entries.
const ASIDE: u8 = 255;

/// An event in few bytes. It is told by the fields of [`Told::Parts`] if these are small, and else aside.
#[derive(Clone, Copy)]
pub(crate) struct Short<'a> {
    pub(crate) line: &'a [u8],
    pub(crate) number: u32,
    pub(crate) first: u32,
    /// Where the lines of its reply begin, or the place of what is told aside.
    at: u32,
    whys: u8,
    lines: u8,
    /// How many entries it added, or `ASIDE`.
    pub(crate) count: u8,
    /// How often it comes again on the lines right behind, at most 255 times.
    pub(crate) times: u8,
}

const _: () = prove!(size_of::<Short<'static>>() == 32);

impl<'a> Short<'a> {
    /// Returns an event in few bytes, or `None` if it is to be told aside.
    #[inline(always)]
    fn of(line: &'a [u8], number: u32, first: u32, told: &Told) -> Option<Short<'a>>
        ensures told { (asides : List Told) → IfSome result (λ short. widened asides short ≡ record { line = line.entry; number = number; first = first; told = told.now }) }
        ensures alone { (len : ℕ) → IfSome result (HasTold len) }
        ensures once { IfSome result (λ short. short.times ≡ 0) }
    {
        let Told::Parts {
            count,
            from,
            lines,
            whys,
        } = *told
        else {
            return None;
        };
        let count = u8::try_from(count).ok()?;
        if count == ASIDE {
            return None;
        }
        Some(Short {
            line,
            number,
            first,
            at: u32::try_from(from).ok()?,
            whys: u8::try_from(whys).ok()?,
            lines: u8::try_from(lines).ok()?,
            count,
            times: 0,
        })
    }

    /// Returns an event that is told aside, at a place.
    #[inline(always)]
    fn aside(line: &'a [u8], number: u32, first: u32, place: u32) -> Short<'a>
        ensures at { result.at ≡ place }
        ensures told { (asides : List Told) → widened asides result ≡ record { line = line.entry; number = number; first = first; told = get_or asides place untold } }
        ensures once { result.times ≡ 0 }
    {
        Short {
            line,
            number,
            first,
            at: place,
            whys: 0,
            lines: 0,
            count: ASIDE,
            times: 0,
        }
    }

    /// Returns whether another event tells the same as it.
    #[inline(always)]
    fn tells_as(&self, other: &Short<'_>) -> bool
        ensures told { (asides : List Told) → IsTrue result → told_of asides self.now ≡ told_of asides other.now }
        ensures first { IsTrue result → self.now.first ≡ other.now.first }
    {
        self.at == other.at
            && self.whys == other.whys
            && self.lines == other.lines
            && self.count == other.count
            && self.first == other.first
    }

    /// Returns whether another event is the same on the next line, behind those on which it comes again.
    #[inline(always)]
    fn is_before(&self, other: &Short<'_>) -> bool
        ensures few { IsTrue result → self.now.times < 255 }
        ensures next { (asides : List Told) → IsTrue result → NotesTold (other.now.number, other.now.line.now) other.now.first (told_of asides other.now) (later (widened asides self.now) (suc self.now.times)) }
    {
        let next = self.number as u64 + self.times as u64 + 1;
        self.tells_as(other)
            && other.number as u64 == next
            && self.times < u8::MAX
            && self.line == other.line
    }

    /// Returns whether it is told aside.
    #[inline(always)]
    pub(crate) fn is_aside(&self) -> bool
        ensures { result ≡ (self.now.count == 255) }
    {
        self.count == ASIDE
    }

    /// Returns how many entries it added.
    #[inline(always)]
    pub(crate) fn added(&self, asides: &[Told]) -> u32
        requires { HasTold (length asides.now) self.now }
        ensures { result ≡ told_count (told_of asides.now self.now) }
    {
        if !self.is_aside() {
            return self.count as u32;
        }
        match *self.told(asides) {
            Told::Parts { count, .. } => count,
            Told::Refused { .. } => 0,
        }
    }

    /// Returns what is told of it aside.
    #[inline(always)]
    pub(crate) fn told<'t>(&self, asides: &'t [Told]) -> &'t Told
        requires aside { self.now.count ≡ 255 }
        requires told { HasTold (length asides.now) self.now }
        ensures { result.now ≡ told_of asides.now self.now }
    {
        &asides[self.at as usize]
    }

    /// Returns the lines of its reply and its reasons, which a text has.
    #[inline(always)]
    pub(crate) fn told_in<'t>(&self, text: &'t [u8]) -> (&'t [u8], &'t [u8])
        requires { HasParts text.now self.now.at (self.now.at + self.now.lines) (self.now.at + self.now.lines + self.now.whys) }
        ensures lines { result.0.now ≡ part self.now.at (self.now.at + self.now.lines) text.now }
        ensures whys { result.1.now ≡ part (self.now.at + self.now.lines) (self.now.at + self.now.lines + self.now.whys) text.now }
    {
        parts_in(text, self.at as usize, self.lines as u32, self.whys as u32)
    }
}

/// Returns whether an event that was refused tells the same as another.
#[inline(always)]
fn is_same(told: &Told, at: Option<(u32, u32)>, tail: &Tail) -> bool
    ensures { IsTrue result → told.now ≡ tolds.Refused at tail.now }
{
    match told {
        Told::Refused { at: a, tail: t } => t.is_same(tail) && *a == at,
        _ => false,
    }
}

/// Returns the place of what is told aside of an event that was refused, and adds that first unless it was told so last. It fails only if out
/// of memory; a place that is too large counts as that.
#[inline(always)]
#[tactic(auto, using(crate::proofs::Aside::grown_none))]
fn put_refused(
    asides: &mut Vec<Told>,
    at: Option<(u32, u32)>,
    tail: &Tail,
) -> Result<u32, AllocError>
    ensures grown { Grows asides.old.items asides.new.items }
    ensures within { IfOk result (λ n. n < length asides.new.items) }
    ensures told { IfOk result (λ n. get_or asides.new.items n untold ≡ tolds.Refused at tail.now) }
{
    if let Some(last) = asides.last() {
        if is_same(last, at, tail) {
            return short(asides.len() - 1);
        }
    }
    put_aside(asides, Told::Refused { at, tail: *tail })
}

/// Adds what is told aside, and returns its place. It fails only if out of memory; a place that is too large counts as that.
#[inline(always)]
fn put_aside(asides: &mut Vec<Told>, told: Told) -> Result<u32, AllocError>
    ensures grown { Grows asides.old.items asides.new.items }
    ensures within { IfOk result (λ n. n < length asides.new.items) }
    ensures told { IfOk result (λ n. get_or asides.new.items n untold ≡ told) }
{
    let place = short(asides.len())?;
    asides.push(told)?;
    Ok(place)
}

/// Adds an event in few bytes. If it is that of the line before once more, it is counted there. It fails only if out of memory.
#[inline(always)]
fn push_short<'a>(shorts: &mut Vec<Short<'a>>, short: Short<'a>) -> Result<(), AllocError>
    requires once { short.times ≡ 0 }
    ensures added { (asides : List Told) → OnOk result ((o : Outline) × (NotesTold (short.entry.number, short.entry.line.now) short.entry.first (told_of asides short.entry) o × (all_events asides shorts.new.items ≡ all_events asides shorts.old.items ++ o ∷ []))) }
    ensures kept { OnErr result (shorts.new.items ≡ shorts.old.items) }
    ensures told { (len : ℕ) → All (HasTold len) shorts.old.items → HasTold len short.entry → All (HasTold len) shorts.new.items }
{
    let len = shorts.len();
    if len != 0 && shorts[len - 1].is_before(&short) {
        shorts[len - 1].times += 1;
        return Ok(());
    }
    push_in_place(shorts, short)
}

/// Events in order. Clauses see them as outlines.
#[derive(Drop)]
pub(crate) struct Outlines<'a> {
    shorts: Vec<Short<'a>>,
    /// What is told of those that tell it aside.
    asides: Vec<Told>,
}

impl<'a> Model for Outlines<'a> {
    ghost use Rattle.std.specs.Prelude.{List, length};
    ghost use Rattle.std.specs.List.{All};
    ghost use Rattle.gs_explain.specs.declared.outline.Outline.{Outline};
    ghost use Rattle.gs_explain.specs.Outlined.{HasTold, all_events};

    ghost Value = { List Outline };

    ghost view = { λ o. all_events o.asides.items o.shorts.items };

    ghost invariant = { λ o. All (HasTold (length o.asides.items)) o.shorts.items };
}

impl<'a> Outlines<'a> {
    /// Makes those of no event.
    pub(crate) fn new(alloc: Global) -> Outlines<'a>
        ensures { result ≡ [] }
    {
        Outlines {
            shorts: Vec::new(alloc),
            asides: Vec::new(alloc),
        }
    }

    /// Adds an event that is told aside. It fails only if out of memory.
    #[inline(never)]
    fn push_aside(
        &mut self,
        line: &'a [u8],
        number: u32,
        first: u32,
        told: &Told,
    ) -> Result<(), AllocError>
        ensures added { OnOk result (self.new ≡ self.old ++ record { line = line.entry; number = number; first = first; told = told.now } ∷ []) }
        ensures kept { OnErr result (self.new ≡ self.old) }
    {
        let place = put_aside(&mut self.asides, *told)?;
        self.shorts.push(Short::aside(line, number, first, place))?;
        Ok(())
    }

    /// Adds any event. It fails only if out of memory.
    #[inline(always)]
    pub(crate) fn push(&mut self, outline: Outline<'a>) -> Result<(), AllocError>
        ensures added { OnOk result (self.new ≡ self.old ++ outline.entry ∷ []) }
        ensures kept { OnErr result (self.new ≡ self.old) }
    {
        match Short::of(outline.line, outline.number, outline.first, &outline.told) {
            Some(short) => push_in_place(&mut self.shorts, short),
            None => self.push_aside(outline.line, outline.number, outline.first, &outline.told),
        }
    }

    /// Adds an event that added no entry, and before which so many entries stand, by what is told of it. It fails only if out of memory;
    /// a number that is too large counts as that.
    #[inline(always)]
    pub(crate) fn push_told(
        &mut self,
        said: &SaidLine<'a>,
        first: usize,
        told: &Told,
    ) -> Result<(), AllocError>
        ensures added { OnOk result (AddsTold (said_line said.now) first told.now self.old self.new) }
        ensures kept { OnErr result (self.new ≡ self.old) }
    {
        let number = short(said.number)?;
        let first = short(first)?;
        match Short::of(said.bytes, number, first, told) {
            Some(short) => push_short(&mut self.shorts, short),
            None => self.push_aside(said.bytes, number, first, told),
        }
    }

    /// Adds an event that was refused, and before which so many entries stand, as [`Outlines::push_told`] does. It is called: with it in place the
    /// loop over a script would be too large for the compiler to fold what stands around it.
    #[inline(never)]
    pub(crate) fn push_refused(
        &mut self,
        said: &SaidLine<'a>,
        first: usize,
        at: Option<(u32, u32)>,
        tail: &Tail,
    ) -> Result<(), AllocError>
        ensures added { OnOk result (AddsTold (said_line said.now) first (tolds.Refused at tail.now) self.old self.new) }
        ensures kept { OnErr result (self.new ≡ self.old) }
    {
        let number = short(said.number)?;
        let first = short(first)?;
        let place = put_refused(&mut self.asides, at, tail)?;
        push_short(
            &mut self.shorts,
            Short::aside(said.bytes, number, first, place),
        )
    }

    /// Takes all events away.
    pub(crate) fn clear(&mut self)
        ensures { self.new ≡ [] }
    {
        self.shorts.clear();
        self.asides.clear();
    }

    /// Lends the events in few bytes, and what is told aside.
    #[inline(always)]
    pub(crate) fn as_slices(&self) -> (&[Short<'a>], &[Told])
        ensures value { all_events result.1.now result.0.now ≡ self.now }
        ensures aside { All (HasTold (length result.1.now)) result.0.now }
    {
        (self.shorts.as_slice(), self.asides.as_slice())
    }
}
