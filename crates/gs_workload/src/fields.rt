//! What a table has at a key.
ghost use Rattle.std.specs.Prelude.{◌≡◌, ◌≤◌, ◌<◌, ◌-◌, IfOk, IfSome, option_map, true, false};
ghost use Rattle.toml.specs.View.{view, table_view};
ghost use Rattle.gs_status.specs.Masks.{has_none, has_past};
ghost use Rattle.gs_workload.specs.Values.{number_said, span_said, mask_said, name_said, class_said, flag_said, leaving_said, change_name_said, is_thread_name};
ghost use Rattle.gs_workload.specs.Fields.{value_at, keyed, needed, or_else, if_said, left_out, span_of, all_cpus};

use crate::fault::{Part, Reason, Wrong};
use crate::key::Key;
use crate::values::{self, ChangeName};
use crate::workload::{Leaving, MOST_TIME, Span};
use gs_layout::{Class, Name};
use gs_status::Mask;
use toml::{Table, Value};

/// A table of a document, and the part of the workload that it is.
#[derive(Clone, Copy)]
pub(crate) struct Fields<'a> {
    pub table: &'a Table,
    pub part: Part,
}

/// What was read of the value of a key, or what is wrong there.
fn at<T>(part: Part, key: Key, read: Result<T, Reason>) -> Result<T, Wrong>
    ensures { result ≡ keyed part key read }
{
    match read {
        Ok(value) => Ok(value),
        Err(reason) => Err(Wrong { part, key, reason }),
    }
}

impl<'a> Fields<'a> {
    /// Returns the value of a key.
    pub(crate) fn find(&self, key: Key) -> Option<&'a Value>
        ensures { option_map (λ v. view v.now) result ≡ value_at key (table_view self.now.table.now) }
    {
        self.table.get(key.word())
    }

    /// What is wrong at a key.
    pub(crate) fn wrong(&self, key: Key, reason: Reason) -> Wrong
        ensures { result ≡ record { part = self.now.part; key = key; reason = reason } }
    {
        Wrong {
            part: self.part,
            key,
            reason,
        }
    }

    /// A number that has to be there.
    pub(crate) fn number(&self, key: Key, least: u32, most: u32) -> Result<u32, Wrong>
        ensures exact { result ≡ keyed self.now.part key (needed (number_said least most) (value_at key (table_view self.now.table.now))) }
        ensures low { IfOk result (λ n. least ≤ n) }
        ensures high { IfOk result (λ n. n ≤ most) }
    {
        match self.find(key) {
            Some(value) => at(self.part, key, values::number(value, least, most)),
            None => Err(self.wrong(key, Reason::Missing)),
        }
    }

    /// A number that may be left out.
    pub(crate) fn number_or(
        &self,
        key: Key,
        least: u32,
        most: u32,
        default: u32,
    ) -> Result<u32, Wrong>
        requires low { least ≤ default }
        requires high { default ≤ most }
        ensures exact { result ≡ keyed self.now.part key (or_else default (number_said least most) (value_at key (table_view self.now.table.now))) }
        ensures low { IfOk result (λ n. least ≤ n) }
        ensures high { IfOk result (λ n. n ≤ most) }
    {
        match self.find(key) {
            Some(value) => at(self.part, key, values::number(value, least, most)),
            None => Ok(default),
        }
    }

    /// A number, if one is there.
    pub(crate) fn number_if(&self, key: Key, least: u32, most: u32) -> Result<Option<u32>, Wrong>
        ensures exact { result ≡ keyed self.now.part key (if_said (number_said least most) (value_at key (table_view self.now.table.now))) }
        ensures low { IfOk result (λ o. IfSome o (λ n. least ≤ n)) }
        ensures high { IfOk result (λ o. IfSome o (λ n. n ≤ most)) }
    {
        match self.find(key) {
            Some(value) => {
                let number = at(self.part, key, values::number(value, least, most))?;
                Ok(Some(number))
            }
            None => Ok(None),
        }
    }

    /// Numbers of ticks that have to be there.
    pub(crate) fn span(&self, key: Key, least: u32) -> Result<Span, Wrong>
        ensures exact { result ≡ keyed self.now.part key (needed (span_said least MOST_TIME) (value_at key (table_view self.now.table.now))) }
        ensures low { IfOk result (λ s. least ≤ s.least) }
        ensures order { IfOk result (λ s. s.least ≤ s.most) }
        ensures high { IfOk result (λ s. s.most ≤ MOST_TIME) }
    {
        match self.find(key) {
            Some(value) => at(self.part, key, values::span(value, least, MOST_TIME)),
            None => Err(self.wrong(key, Reason::Missing)),
        }
    }

    /// Numbers of ticks, or the least one if they are left out.
    pub(crate) fn span_or_least(&self, key: Key, least: u32) -> Result<Span, Wrong>
        requires { least ≤ MOST_TIME }
        ensures exact { result ≡ keyed self.now.part key (or_else (span_of least) (span_said least MOST_TIME) (value_at key (table_view self.now.table.now))) }
        ensures low { IfOk result (λ s. least ≤ s.least) }
        ensures order { IfOk result (λ s. s.least ≤ s.most) }
        ensures high { IfOk result (λ s. s.most ≤ MOST_TIME) }
    {
        match self.find(key) {
            Some(value) => at(self.part, key, values::span(value, least, MOST_TIME)),
            None => Ok(Span { least, most: least }),
        }
    }

    /// A CPU of a machine of so many.
    pub(crate) fn cpu(&self, key: Key, cpus: u16) -> Result<u16, Wrong>
        requires { 1 ≤ cpus }
        ensures exact { result ≡ keyed self.now.part key (needed (number_said 0 (cpus - 1)) (value_at key (table_view self.now.table.now))) }
        ensures within { IfOk result (λ n. n < cpus) }
    {
        let cpu = self.number(key, 0, cpus as u32 - 1)?;
        Ok(cpu as u16)
    }

    /// The CPUs of a list, or all if it is left out.
    pub(crate) fn mask(&self, cpus: u16) -> Result<Mask, Wrong>
        requires some { 1 ≤ cpus }
        requires few { cpus ≤ 128 }
        ensures exact { result ≡ keyed self.now.part Key.Mask (or_else (all_cpus cpus) (mask_said cpus) (value_at Key.Mask (table_view self.now.table.now))) }
        ensures some { IfOk result (λ mask. has_none mask ≡ false) }
        ensures within { IfOk result (λ mask. has_past mask cpus ≡ false) }
    {
        match self.find(Key::Mask) {
            Some(value) => at(self.part, Key::Mask, values::mask(value, cpus)),
            None => Ok(every_cpu(cpus)),
        }
    }

    /// The name of threads.
    pub(crate) fn name(&self) -> Result<Name, Wrong>
        ensures exact { result ≡ keyed self.now.part Key.Name (needed name_said (value_at Key.Name (table_view self.now.table.now))) }
        ensures name { IfOk result (λ name. is_thread_name name ≡ true) }
    {
        match self.find(Key::Name) {
            Some(value) => at(self.part, Key::Name, values::name(value)),
            None => Err(self.wrong(Key::Name, Reason::Missing)),
        }
    }

    /// The class of threads, or class 0 if it is left out.
    pub(crate) fn class(&self) -> Result<Class, Wrong>
        ensures { result ≡ keyed self.now.part Key.Class (or_else Class.Zero class_said (value_at Key.Class (table_view self.now.table.now))) }
    {
        match self.find(Key::Class) {
            Some(value) => at(self.part, Key::Class, values::class(value)),
            None => Ok(Class::Zero),
        }
    }

    /// True or false, which is what it is if it is left out.
    pub(crate) fn flag(&self, key: Key) -> Result<bool, Wrong>
        ensures { result ≡ keyed self.now.part key (or_else false flag_said (value_at key (table_view self.now.table.now))) }
    {
        match self.find(key) {
            Some(value) => at(self.part, key, values::flag(value)),
            None => Ok(false),
        }
    }

    /// How a burst ends, which is that the thread blocks if it is left out.
    pub(crate) fn leaving(&self) -> Result<Leaving, Wrong>
        ensures { result ≡ keyed self.now.part Key.Leaving (or_else Leaving.Block leaving_said (value_at Key.Leaving (table_view self.now.table.now))) }
    {
        match self.find(Key::Leaving) {
            Some(value) => at(self.part, Key::Leaving, values::leaving(value)),
            None => Ok(Leaving::Block),
        }
    }

    /// Which change of the agent is named.
    pub(crate) fn change_name(&self) -> Result<ChangeName, Wrong>
        ensures { result ≡ keyed self.now.part Key.What (needed change_name_said (value_at Key.What (table_view self.now.table.now))) }
    {
        match self.find(Key::What) {
            Some(value) => at(self.part, Key::What, values::change_name(value)),
            None => Err(self.wrong(Key::What, Reason::Missing)),
        }
    }

    /// Tests that a key is left out that means nothing there.
    pub(crate) fn unused(&self, key: Key) -> Result<(), Wrong>
        ensures { result ≡ keyed self.now.part key (left_out (value_at key (table_view self.now.table.now))) }
    {
        match self.find(key) {
            Some(_) => Err(self.wrong(key, Reason::Unused)),
            None => Ok(()),
        }
    }
}

/// The bits of all CPUs of a machine of so many.
fn all_bits(cpus: u16) -> u128
    requires some { 1 ≤ cpus }
    requires few { cpus ≤ 128 }
    ensures { result ≡ all_cpus cpus }
{
    if cpus < 128 {
        (1u128 << cpus) - 1
    } else {
        u128::MAX
    }
}

/// All CPUs of a machine of so many.
#[tactic(auto, using(crate::proofs::Masks::some_cpu, crate::proofs::Masks::no_more))]
fn every_cpu(cpus: u16) -> Mask
    requires some { 1 ≤ cpus }
    requires few { cpus ≤ 128 }
    ensures exact { result ≡ all_cpus cpus }
    ensures some { has_none result ≡ false }
    ensures within { has_past result cpus ≡ false }
{
    Mask::new(all_bits(cpus))
}
