//! A whole workload, of a document that has no unknown key.
ghost use Rattle.std.specs.Prelude.{◌≡◌, ◌≤◌, IfOk, OnOk, None, length, true};
ghost use Rattle.toml.specs.View.{table_view};
ghost use Rattle.gs_ring.specs.Places.{is_capacity};
ghost use Rattle.gs_workload.specs.Fields.{keyed};
ghost use Rattle.gs_workload.specs.Values.{policy_of_text};
ghost use Rattle.gs_workload.specs.Machine.{agent_plan_said, agent_said, changes_checked, cpus_said, first_early, groups_checked, head_said, policy_at, ring_said, threads, workload_said, Gives, Reads};
ghost use Rattle.gs_workload.specs.Workload.{IsAgent, IsHead, IsNamed, IsPolicy, IsWorkload};

use crate::entries::rows;
use crate::fault::{Failure, Kind, Part, Reason, Wrong};
use crate::fields::Fields;
use crate::key::Key;
use crate::workload::{AgentPlan, Change, Group, MOST_THREADS, MOST_TIME, Span, Workload};
use gs_kernel::LEAST_CPUS;
use gs_layout::ALIGNMENT;
use gs_ring::{LEAST_CAPACITY, MOST_CAPACITY};
use gs_script::{LineError, NamedPolicy, read_policy};
use gs_status::MOST_CPUS;
use std::alloc::Global;
use toml::Table;

/// The capacity of a ring, if none is said.
const RING: u32 = 65_536;

/// How many ticks a workload goes on, if that is not said.
const TICKS: u32 = 1_000;

/// What a workload says of the machine.
#[derive(Clone, Copy)]
struct Head<P> {
    cpus: u16,
    ring: u32,
    policy: Option<P>,
    ticks: u32,
}

/// The policy that the words of a text name.
fn named<P: NamedPolicy>(alloc: Global, fields: &Fields<'_>, text: &str) -> Result<P, Failure>
    ensures exact { Reads result (keyed fields.now.part Key.Policy (policy_of_text P.naming text.now)) }
    ensures named { IfOk result (λ policy. IsNamed P.naming policy) }
{
    match read_policy(alloc, text.as_bytes()) {
        Ok(policy) => Ok(policy),
        Err(LineError::Fault(_)) => {
            Err(Failure::Wrong(fields.wrong(Key::Policy, Reason::OtherWord)))
        }
        Err(LineError::OutOfMemory) => Err(Failure::OutOfMemory),
    }
}

/// The policy that is named, if one is.
fn policy<P: NamedPolicy>(alloc: Global, fields: &Fields<'_>) -> Result<Option<P>, Failure>
    ensures exact { Reads result (policy_at P.naming fields.now.part (table_view fields.now.table.now)) }
    ensures named { IfOk result (λ policy. IsPolicy P.naming policy) }
{
    let Some(value) = fields.find(Key::Policy) else {
        return Ok(None);
    };
    let Some(text) = value.as_str() else {
        let reason = Reason::NotOfKind { kind: Kind::Text };
        return Err(Failure::Wrong(fields.wrong(Key::Policy, reason)));
    };
    let policy = named::<P>(alloc, fields, text)?;
    Ok(Some(policy))
}

/// The count of CPUs.
fn cpu_count(fields: &Fields<'_>) -> Result<u16, Wrong>
    ensures exact { result ≡ cpus_said fields.now.part (table_view fields.now.table.now) }
    ensures some { IfOk result (λ n. LEAST_CPUS ≤ n) }
    ensures few { IfOk result (λ n. n ≤ MOST_CPUS) }
{
    let cpus = fields.number(Key::Cpus, LEAST_CPUS as u32, MOST_CPUS as u32)?;
    Ok(cpus as u16)
}

/// The capacity of the ring.
fn capacity(fields: &Fields<'_>) -> Result<u32, Wrong>
    ensures exact { result ≡ ring_said fields.now.part (table_view fields.now.table.now) }
    ensures fits { IfOk result (λ n. is_capacity n ≡ true) }
{
    let least = LEAST_CAPACITY as u32;
    let ring = fields.number_or(Key::Ring, least, MOST_CAPACITY as u32, RING)?;
    if ring % ALIGNMENT as u32 != 0 {
        let of = ALIGNMENT as u32;
        return Err(fields.wrong(Key::Ring, Reason::NoMultiple { of }));
    }
    Ok(ring)
}

/// What is said of the machine.
fn read_head<P: NamedPolicy>(alloc: Global, fields: &Fields<'_>) -> Result<Head<P>, Failure>
    ensures exact { Reads result (head_said P.naming fields.now.part (table_view fields.now.table.now)) }
    ensures fits { IfOk result (λ head. IsHead P.naming head) }
{
    let cpus = cpu_count(fields)?;
    let ring = capacity(fields)?;
    let policy = policy(alloc, fields)?;
    let ticks = fields.number_or(Key::Ticks, 1, MOST_TIME, TICKS)?;
    Ok(Head {
        cpus,
        ring,
        policy,
        ticks,
    })
}

/// What is said in the agent's own table.
fn agent_plan(fields: &Fields<'_>) -> Result<AgentPlan, Wrong>
    ensures exact { result ≡ agent_plan_said fields.now.part (table_view fields.now.table.now) }
    ensures fits { IfOk result IsAgent }
{
    let every = fields.number_or(Key::Every, 1, MOST_TIME, 1)?;
    let late = fields.span_or_least(Key::Late, 0)?;
    let together = fields.flag(Key::Together)?;
    Ok(AgentPlan {
        every,
        late,
        together,
    })
}

/// What is said of the agent.
fn agent(fields: &Fields<'_>) -> Result<AgentPlan, Wrong>
    ensures exact { result ≡ agent_said fields.now.part (table_view fields.now.table.now) }
    ensures fits { IfOk result IsAgent }
{
    let Some(value) = fields.find(Key::Agent) else {
        return Ok(AgentPlan {
            every: 1,
            late: Span { least: 0, most: 0 },
            together: false,
        });
    };
    let Some(table) = value.as_table() else {
        return Err(fields.wrong(Key::Agent, Reason::NotOfKind { kind: Kind::Table }));
    };
    let part = Part::Agent;
    agent_plan(&Fields { table, part })
}

/// How many threads all groups have together.
fn thread_count(groups: &[Group]) -> u128
    ensures { result ≡ threads groups.now }
{
    let mut count = 0;
    for group in groups {
        count += group.count as u128;
    }
    count
}

/// Tests that there are threads, and not too many.
fn check_groups(fields: &Fields<'_>, groups: &[Group]) -> Result<(), Wrong>
    ensures exact { result ≡ groups_checked fields.now.part groups.now }
    ensures some { OnOk result (1 ≤ length groups.now) }
    ensures few { OnOk result (threads groups.now ≤ MOST_THREADS) }
{
    if groups.is_empty() {
        return Err(fields.wrong(Key::Groups, Reason::NoGroup));
    }
    if thread_count(groups) > MOST_THREADS as u128 {
        return Err(fields.wrong(Key::Groups, Reason::TooManyThreads));
    }
    Ok(())
}

/// Returns the place of the first change that is not behind the one before.
fn early(changes: &[Change]) -> Option<usize>
    ensures { result ≡ first_early changes.now }
{
    let mut least = 0u64;
    let mut place = 0;
    for change in changes {
        let at = change.at() as u64;
        if at < least {
            return Some(place);
        }
        least = at + 1;
        place += 1;
    }
    None
}

/// Tests that each change is behind the one before.
fn check_changes(changes: &[Change]) -> Result<(), Wrong>
    ensures exact { result ≡ changes_checked changes.now }
    ensures order { OnOk result (first_early changes.now ≡ None) }
{
    match early(changes) {
        Some(place) => Err(Wrong {
            part: Part::Change { place },
            key: Key::At,
            reason: Reason::NotLater,
        }),
        None => Ok(()),
    }
}

/// Reads the workload that a document says.
pub(crate) fn workload<P: NamedPolicy>(alloc: Global, table: &Table) -> Result<Workload<P>, Failure>
    ensures exact { Gives result (workload_said P.naming (table_view table.now)) }
    ensures fits { IfOk result (λ workload. IsWorkload P.naming workload) }
{
    let part = Part::Whole;
    let fields = &Fields { table, part };
    let Head {
        cpus,
        ring,
        policy,
        ticks,
    } = read_head(alloc, fields)?;
    let agent = agent(fields)?;
    let groups = rows(alloc, fields, Key::Groups, cpus)?;
    check_groups(fields, groups.as_slice())?;
    let takings = rows(alloc, fields, Key::Takings, cpus)?;
    let changes = rows(alloc, fields, Key::Changes, cpus)?;
    check_changes(changes.as_slice())?;
    Ok(Workload {
        cpus,
        ring,
        policy,
        ticks,
        agent,
        groups,
        takings,
        changes,
    })
}
