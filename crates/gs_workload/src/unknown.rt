//! Keys that a document should not have.
ghost use Rattle.std.specs.Prelude.{◌≡◌, bytes_eq, map, option_map};
ghost use Rattle.std.specs.List.{list_any};
ghost use Rattle.toml.specs.View.{items_view, view, table_view};
ghost use Rattle.gs_workload.specs.Unknown.{known_words, list_part, seen, stray_at, stray_in, stray_in_list, stray_said, strays_from};

use crate::fault::Part;
use crate::fields::Fields;
use crate::key::{Key, OF_AGENT, OF_CHANGE, OF_GROUP, OF_TAKING, OF_WHOLE};
use toml::{Table, Value};

/// A key that its part has not.
#[derive(Clone, Copy)]
pub(crate) struct Unknown<'a> {
    pub part: Part,
    pub key: &'a str,
}

/// Returns the keys that a part may have.
pub(crate) fn known(part: Part) -> &'static [&'static str]
    ensures { map (λ w. w.now) result.now ≡ known_words part }
{
    match part {
        Part::Whole => &OF_WHOLE,
        Part::Agent => &OF_AGENT,
        Part::Group { .. } => &OF_GROUP,
        Part::Taking { .. } => &OF_TAKING,
        Part::Change { .. } => &OF_CHANGE,
    }
}

/// Returns whether one of these words is this one.
fn is_among(words: &[&str], word: &str) -> bool
    ensures { result ≡ list_any (λ w. bytes_eq w.now word.now) words.now }
{
    words.iter().any(|other| *other == word)
}

/// Returns the first key of a table that its part has not.
fn unknown_in(table: &Table, part: Part) -> Option<Unknown<'_>>
    ensures { option_map seen result ≡ stray_in part (table_view table.now) }
{
    for key in table.keys() {
        if !is_among(known(part), key.as_str()) {
            return Some(Unknown {
                part,
                key: key.as_str(),
            });
        }
    }
    None
}

/// The same of a value that may be a table.
fn unknown_at(value: &Value, part: Part) -> Option<Unknown<'_>>
    ensures { option_map seen result ≡ stray_at part (view value.now) }
{
    match value.as_table() {
        Some(table) => unknown_in(table, part),
        None => None,
    }
}

/// A list of tables.
#[derive(Clone, Copy)]
pub(crate) enum List {
    Groups,
    Takings,
    Changes,
}

/// Returns the part that a table of a list is.
fn part_of(list: List, place: usize) -> Part
    ensures { result ≡ list_part list place }
{
    match list {
        List::Groups => Part::Group { place },
        List::Takings => Part::Taking { place },
        List::Changes => Part::Change { place },
    }
}

/// The same of values that may be tables.
fn unknown_among(values: &[Value], list: List) -> Option<Unknown<'_>>
    ensures { option_map seen result ≡ strays_from (list_part list) 0 (items_view values.now) }
{
    for place in 0..values.len() {
        let unknown = unknown_at(&values[place], part_of(list, place));
        if unknown.is_some() {
            return unknown;
        }
    }
    None
}

/// The same of a value that may be a list.
fn unknown_in_list(value: Option<&Value>, list: List) -> Option<Unknown<'_>>
    ensures { option_map seen result ≡ stray_in_list (list_part list) (option_map (λ v. view v.now) value.entry) }
{
    let values = value?.as_array()?;
    unknown_among(values.as_slice(), list)
}

/// Returns the first key of a document that its part has not.
pub(crate) fn find_unknown(table: &Table) -> Option<Unknown<'_>>
    ensures { option_map seen result ≡ stray_said (table_view table.now) }
{
    let part = Part::Whole;
    let fields = Fields { table, part };
    let whole = unknown_in(table, part);
    let agent = match fields.find(Key::Agent) {
        Some(value) => unknown_at(value, Part::Agent),
        None => None,
    };
    let groups = unknown_in_list(fields.find(Key::Groups), List::Groups);
    let takings = unknown_in_list(fields.find(Key::Takings), List::Takings);
    let changes = unknown_in_list(fields.find(Key::Changes), List::Changes);
    whole.or(agent).or(groups).or(takings).or(changes)
}
