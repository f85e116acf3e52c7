//! Lists of tables.
ghost use Rattle.std.specs.Prelude.{◌≡◌, ◌≤◌, IfOk};
ghost use Rattle.std.specs.List.{All};
ghost use Rattle.toml.specs.View.{view, table_view};
ghost use Rattle.gs_workload.specs.Entries.{row_said, list_said, GivesItems};
ghost use Rattle.gs_workload.specs.Fields.{value_at};

use crate::fault::{Failure, Kind, Reason, Wrong};
use crate::fields::Fields;
use crate::key::Key;
use crate::rows::Row;
use std::alloc::Global;
use toml::Value;

/// What is wrong with a list that is not one of tables.
fn no_tables(fields: &Fields<'_>, key: Key) -> Wrong
    ensures { result ≡ record { part = fields.now.part; key = key; reason = Reason.NotOfKind Kind.Tables } }
{
    fields.wrong(key, Reason::NotOfKind { kind: Kind::Tables })
}

/// The table at a place of a list.
fn row<T: Row>(
    fields: &Fields<'_>,
    key: Key,
    value: &Value,
    place: usize,
    cpus: u16,
) -> Result<T, Wrong>
    requires some { 1 ≤ cpus }
    requires few { cpus ≤ 128 }
    ensures exact { result ≡ row_said T.said T.part_at fields.now.part key cpus place (view value.now) }
    ensures fits { IfOk result (T.fits cpus) }
{
    let Some(table) = value.as_table() else {
        return Err(no_tables(fields, key));
    };
    let part = T::part(place);
    T::read(&Fields { table, part }, cpus)
}

/// The tables of a list, of which there is none if it is left out.
pub(crate) fn rows<T: Row + Drop>(
    alloc: Global,
    fields: &Fields<'_>,
    key: Key,
    cpus: u16,
) -> Result<Vec<T>, Failure>
    requires some { 1 ≤ cpus }
    requires few { cpus ≤ 128 }
    ensures exact { GivesItems result (list_said T.said T.part_at fields.now.part key cpus (value_at key (table_view fields.now.table.now))) }
    ensures fits { IfOk result (λ rows. All (T.fits cpus) rows.items) }
{
    let mut rows = Vec::new(alloc);
    let Some(value) = fields.find(key) else {
        return Ok(rows);
    };
    let Some(list) = value.as_array() else {
        return Err(Failure::Wrong(no_tables(fields, key)));
    };
    for item in list {
        match row(fields, key, item, rows.len(), cpus) {
            Ok(row) => rows.push(row)?,
            Err(wrong) => return Err(Failure::Wrong(wrong)),
        }
    }
    Ok(rows)
}
