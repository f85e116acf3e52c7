//! The tables of a workload of which there may be several: groups, takings and changes.
ghost use Rattle.std.specs.Prelude.{ℕ, ◌≡◌, ◌≤◌, IfOk, Result};
ghost use Rattle.toml.specs.Data.{Members};
ghost use Rattle.toml.specs.View.{table_view};
ghost use Rattle.gs_workload.specs.declared.fault.Part.{Part as PartOf};
ghost use Rattle.gs_workload.specs.declared.fault.Wrong.{Wrong as WrongOf};
ghost use Rattle.gs_workload.specs.Rows.{group_said, taking_said, change_said};
ghost use Rattle.gs_workload.specs.Workload.{IsGroup, IsTaking, IsChange};

use crate::fault::{Part, Reason, Wrong};
use crate::fields::Fields;
use crate::key::Key;
use crate::values::ChangeName;
use crate::workload::{Change, Group, MOST_THREADS, MOST_TIME, Taking};

/// What one of several tables says.
pub(crate) trait Row: Sized {
    /// What a table says, on a machine of so many CPUs.
    ghost said: { PartOf → ℕ → Members → Result Self WrongOf };

    /// Which part the table at a place is.
    ghost part_at: { ℕ → PartOf };

    /// What is so of what is read.
    ghost fits: { ℕ → Self → Type 0 };

    /// Returns the part that the table at a place is.
    fn part(place: usize) -> Part
        ensures { result ≡ part_at place };

    /// Reads what the table says, on a machine of so many CPUs.
    fn read(fields: &Fields<'_>, cpus: u16) -> Result<Self, Wrong>
        requires some { 1 ≤ cpus }
        requires few { cpus ≤ 128 }
        ensures exact { result ≡ said fields.now.part cpus (table_view fields.now.table.now) }
        ensures fits { IfOk result (fits cpus) };
}

impl Row for Group {
    ghost said = { group_said };

    ghost part_at = { λ place. PartOf.Group place };

    ghost fits = { IsGroup };

    fn part(place: usize) -> Part {
        Part::Group { place }
    }

    fn read(fields: &Fields<'_>, cpus: u16) -> Result<Group, Wrong> {
        let name = fields.name()?;
        let count = fields.number_or(Key::Count, 1, MOST_THREADS, 1)?;
        let class = fields.class()?;
        let mask = fields.mask(cpus)?;
        let run = fields.span(Key::Run, 1)?;
        let sleep = fields.span_or_least(Key::Sleep, 1)?;
        let bursts = fields.number_if(Key::Bursts, 1, MOST_TIME)?;
        let leaving = fields.leaving()?;
        let created = fields.span_or_least(Key::Created, 0)?;
        Ok(Group {
            mask,
            name,
            count,
            class,
            run,
            sleep,
            bursts,
            leaving,
            created,
        })
    }
}

impl Row for Taking {
    ghost said = { taking_said };

    ghost part_at = { λ place. PartOf.Taking place };

    ghost fits = { IsTaking };

    fn part(place: usize) -> Part {
        Part::Taking { place }
    }

    fn read(fields: &Fields<'_>, cpus: u16) -> Result<Taking, Wrong> {
        let cpu = fields.cpu(Key::Cpu, cpus)?;
        let from = fields.number(Key::From, 0, MOST_TIME)?;
        let until = fields.number(Key::Until, 0, MOST_TIME)?;
        if until <= from {
            return Err(fields.wrong(Key::Until, Reason::NotLater));
        }
        Ok(Taking { cpu, from, until })
    }
}

impl Row for Change {
    ghost said = { change_said };

    ghost part_at = { λ place. PartOf.Change place };

    ghost fits = { IsChange };

    fn part(place: usize) -> Part {
        Part::Change { place }
    }

    fn read(fields: &Fields<'_>, cpus: u16) -> Result<Change, Wrong> {
        let at = fields.number(Key::At, 0, MOST_TIME)?;
        match fields.change_name()? {
            ChangeName::HandOff => {
                let cpu = fields.cpu(Key::Cpu, cpus)?;
                Ok(Change::HandOff { at, cpu })
            }
            ChangeName::Crash => {
                fields.unused(Key::Cpu)?;
                Ok(Change::Crash { at })
            }
            ChangeName::Replace => {
                let cpu = fields.cpu(Key::Cpu, cpus)?;
                Ok(Change::Replace { at, cpu })
            }
        }
    }
}
