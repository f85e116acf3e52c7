//! Pages that are written, read, and taken in by those who know something of other threads already.

ghost use Rattle.gs_layout.specs.Spelling.{IsSpellable};

use crate::agent::ring_with;
use crate::dump::{GREATEST, NONE, NONE_YET, TWO, WEB_ONE};
use crate::messages::Told::{self, Creation};
use crate::messages::Tried;
use crate::plans::is_order;
use crate::view::{send, shows};
use gs_agent::{Mind, Role};
use gs_dump::{Page, read_page, write_page};
use gs_layout::{Class, Message, Parcel};
use gs_policy::TwoClass;
use gs_reader::MessageRef;
use gs_runq::QueueWalk;
use gs_view::{AgentView, ApplyFault, News};
use std::alloc::Global;

/// Those who are believed to run on CPUs 0 and 127, by their tids, their numbers and their ticks.
type Runners = [Option<(u32, u32, u16)>; 2];

/// The bytes of a page, and what is so once it is taken in. That is where the next one begins, and the
/// threads that are known, in increasing order of tid (whether each may run, and its number). It is also who
/// waits, in order, and who runs.
type Row = (
    &'static [u8],
    Option<u32>,
    &'static [(u32, bool, u32)],
    &'static [u32],
    Runners,
);

const FIFTH: Option<(u32, u32, u16)> = Some((5, 7, 0));

const LAST: Option<(u32, u32, u16)> = Some((65_536, 4_294_967_295, 0));

/// What is known at first: threads 5 and 9, both of which wait.
const EARLIER: [Told; 2] = [
    Creation(5, 9, Class::One, 3, "old"),
    Creation(9, 6, Class::Zero, 3, "web"),
];

/// Pages into those, of which one is in version 1. Of thread 5 another number is known then, and other facts.
const ROWS: [Row; 6] = [
    (
        &TWO,
        Some(6),
        &[(2, false, 4_294_967_294), (5, true, 7), (9, true, 6)],
        &[9],
        [None, FIFTH],
    ),
    (
        &GREATEST,
        None,
        &[
            (2, false, 4_294_967_294),
            (5, true, 7),
            (9, true, 6),
            (65_536, true, 4_294_967_295),
        ],
        &[9],
        [LAST, FIFTH],
    ),
    (
        &NONE_YET,
        Some(1),
        &[
            (2, false, 4_294_967_294),
            (5, true, 7),
            (9, true, 6),
            (65_536, true, 4_294_967_295),
        ],
        &[9],
        [LAST, FIFTH],
    ),
    (
        &WEB_ONE,
        None,
        &[
            (1, true, 1),
            (2, false, 4_294_967_294),
            (5, true, 7),
            (9, true, 6),
            (65_536, true, 4_294_967_295),
        ],
        &[9, 1],
        [LAST, FIFTH],
    ),
    (
        &TWO,
        Some(6),
        &[
            (1, true, 1),
            (2, false, 4_294_967_294),
            (5, true, 7),
            (9, true, 6),
            (65_536, true, 4_294_967_295),
        ],
        &[9, 1],
        [LAST, FIFTH],
    ),
    (
        &NONE,
        None,
        &[
            (1, true, 1),
            (2, false, 4_294_967_294),
            (5, true, 7),
            (9, true, 6),
            (65_536, true, 4_294_967_295),
        ],
        &[9, 1],
        [LAST, FIFTH],
    ),
];

/// A page that was read, written and read again.
fn page_of(alloc: Global, bytes: &[u8]) -> Option<Page> {
    let page = read_page(alloc, bytes).ok()?;
    let written = write_page(alloc, &page).ok()?;
    read_page(alloc, &written).ok()
}

/// What a mind returns for a message.
fn tell(mind: &mut Mind, message: &Message) -> Result<News, ApplyFault>
    requires { IsSpellable message.now }
{
    let parcel = Parcel::new(message);
    mind.follow(MessageRef::in_parcel(&parcel))
}

/// Tells a view of threads 5 and 9: whether it took them in.
fn view_hears(view: &mut AgentView) -> bool {
    for told in &EARLIER {
        let Some(message) = told.message() else {
            return false;
        };
        if send(view, &message).is_err() {
            return false;
        }
    }
    true
}

/// Tells a mind of them.
fn mind_hears(mind: &mut Mind) -> bool {
    for told in &EARLIER {
        let Some(message) = told.message() else {
            return false;
        };
        if tell(mind, &message).is_err() {
            return false;
        }
    }
    true
}

/// Tells a role of them.
fn role_hears(alloc: Global, role: &mut Role<TwoClass>) -> bool {
    match ring_with(alloc, 1024, &EARLIER) {
        Some(mut ring) => role.drain(&mut ring, 9).count == 2,
        None => false,
    }
}

/// Whether a view loads a page, and knows then what the row says.
fn is_loaded(alloc: Global, view: &mut AgentView, row: &Row) -> bool {
    let (bytes, _, known, _, _) = row;
    match page_of(alloc, bytes) {
        Some(page) => view.load(&page).is_ok() && shows(view, known),
        None => false,
    }
}

/// Who is believed to run on a CPU.
fn mind_runner(mind: &Mind, cpu: u16) -> Option<(u32, u32, u16)> {
    let running = mind.believed(cpu)?;
    Some((running.tid, running.tseq, running.ticks))
}

fn role_runner(role: &Role<TwoClass>, cpu: u16) -> Option<(u32, u32, u16)> {
    let running = role.believed(cpu)?;
    Some((running.tid, running.tseq, running.ticks))
}

/// Whether what is known, who waits and who runs is as a row says.
fn is_so(view: &AgentView, waiting: QueueWalk<'_>, runs: Runners, row: &Row) -> bool {
    let (_, _, known, waits, runners) = row;
    shows(view, known) && is_order(waiting, waits) && runs == *runners
}

/// Whether a mind takes a page in, and has in mind then what the row says.
fn mind_takes(alloc: Global, mind: &mut Mind, row: &Row) -> bool {
    let Some(page) = page_of(alloc, row.0) else {
        return false;
    };
    let runs = mind.rebuild(&page).is_ok();
    runs && is_so(
        mind.view(),
        mind.waiting(),
        [mind_runner(mind, 0), mind_runner(mind, 127)],
        row,
    )
}

/// Whether a role takes a page in, and has in mind then what the row says.
fn role_takes(alloc: Global, role: &mut Role<TwoClass>, row: &Row) -> bool {
    let Some(page) = page_of(alloc, row.0) else {
        return false;
    };
    let rebuilt = role.rebuild(&page).is_ok() && role.next_page() == row.1;
    rebuilt
        && is_so(
            role.view(),
            role.waiting(),
            [role_runner(role, 0), role_runner(role, 127)],
            row,
        )
}

fn first_not_loaded(alloc: Global, view: &mut AgentView) -> Option<usize> {
    for (index, row) in ROWS.iter().enumerate() {
        if !is_loaded(alloc, view, row) {
            return Some(index);
        }
    }
    None
}

fn first_wrong_in_mind(alloc: Global, mind: &mut Mind) -> Option<usize> {
    for (index, row) in ROWS.iter().enumerate() {
        if !mind_takes(alloc, mind, row) {
            return Some(index);
        }
    }
    None
}

fn first_wrong_in_role(alloc: Global, role: &mut Role<TwoClass>) -> Option<usize> {
    for (index, row) in ROWS.iter().enumerate() {
        if !role_takes(alloc, role, row) {
            return Some(index);
        }
    }
    None
}

fn tried_view(alloc: Global, view: &mut AgentView) -> Tried {
    if !view_hears(view) {
        return Tried::NotMade;
    }
    Tried::with(first_not_loaded(alloc, view))
}

fn try_view(alloc: Global) -> Tried {
    let mut view = AgentView::new(alloc);
    tried_view(alloc, &mut view)
}

fn tried_mind(alloc: Global, mind: &mut Mind) -> Tried {
    if !mind_hears(mind) {
        return Tried::NotMade;
    }
    Tried::with(first_wrong_in_mind(alloc, mind))
}

fn try_mind(alloc: Global) -> Tried {
    match Mind::new(alloc, 128, None) {
        Ok(mut mind) => tried_mind(alloc, &mut mind),
        Err(_) => Tried::NotMade,
    }
}

/// Whether the role of an agent that attaches needs its first page, and is of this generation.
fn begins_attaching(role: &Role<TwoClass>) -> bool {
    role.next_page() == Some(1) && role.generation() == 8 && role.view().is_empty()
}

fn tried_role(alloc: Global, role: &mut Role<TwoClass>) -> Tried {
    if !begins_attaching(role) || !role_hears(alloc, role) {
        return Tried::NotMade;
    }
    Tried::with(first_wrong_in_role(alloc, role))
}

/// What comes of the table, and the policy that the role gives back.
fn try_role(alloc: Global) -> (Tried, Option<TwoClass>) {
    match Role::attach(alloc, TwoClass { slice: 7 }, 128, 8) {
        Ok(mut role) => {
            let tried = tried_role(alloc, &mut role);
            (tried, Some(role.retire()))
        }
        Err(_) => (Tried::NotMade, None),
    }
}

#[test]
fn takes_pages_in(rt: HostRuntime) {
    let view = try_view(rt.alloc());
    let mind = try_mind(rt.alloc());
    let role = try_role(rt.alloc());
    let wanted = (Tried::Well, Some(TwoClass { slice: 7 }));
    assert_eq!(rt; (view, mind, role), (Tried::Well, Tried::Well, wanted));
}
