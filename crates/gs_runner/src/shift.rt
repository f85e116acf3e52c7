//! A shift: what an agent's thread does with what it holds.

ghost use Rattle.std.specs.Prelude.{◌≤◌, length};

use crate::alone::step_alone;
use crate::begin::begin_by;
use crate::call::Receipt;
use crate::desk::Desk;
use crate::enclave::Enclave;
use crate::gate::Gate;
use crate::held::Held;
use crate::page::page;
use crate::pass::Pass;
use crate::receipts::Receipts;
use crate::share::Share;
use crate::sheet::Sheet;
use crate::site::Site;
use crate::station::Station;
use crate::step::Step;
use crate::telling::{activate, commit, crash, hand_off, leave};
use gs_agent::Role;
use gs_board::Board;
use gs_policy::Counted;
use gs_slots::Region;
use std::alloc::Global;
use std::sync::Wait;

/// Takes a step that is a call of the enclave.
fn step_locked<L: Site, P: Counted + Copy + Drop>(
    enclave: &mut Enclave<L>,
    board: &Board<L>,
    share: &mut Share<L>,
    alloc: Global,
    role: &mut Option<Role<P>>,
    policy: &mut P,
    region: &mut Region,
    step: &Step<P>,
) -> Option<Receipt> {
    match step {
        Step::Commit { mask } => commit(enclave, board, share, role, region, *mask),
        Step::HandOff { cpu } => hand_off(enclave, board, share, role, *cpu),
        Step::Crash => Some(crash(enclave, board, share, role)),
        Step::Leave => leave(enclave, board, share, role, region),
        Step::Begin { policy: other } => {
            begin_by(enclave, board, share, alloc, role, region, policy, *other)
        }
        Step::Page { max } => page(enclave, board, share, role, *max),
        Step::Activate { cpu } => activate(enclave, board, share, role, *cpu),
        _ => None,
    }
}

/// Takes a step, and returns the receipt if it was a call. The lock is held for a call alone.
fn take_step<L: Site, P: Counted + Copy + Drop, R: Wait>(
    rt: &R,
    alloc: Global,
    station: &Station<L>,
    pass: &mut Pass<L>,
    held: &mut Held<L, P>,
    step: &Step<P>,
) -> Option<Receipt> {
    let Pass { share, seat } = pass;
    let Held {
        role,
        policy,
        taker,
        region,
        ..
    } = held;
    let board = station.board();
    if step.is_alone() {
        step_alone(alloc, board, seat, role, taker, region, step);
        return None;
    }
    let mut enclave = station.enclave().lock(rt);
    step_locked(
        &mut *enclave,
        board,
        share,
        alloc,
        role,
        policy,
        region,
        step,
    )
}

/// Takes steps, and notes the receipt of each that was a call. The gate is told before and after each.
fn take_steps<L: Site, P: Counted + Copy + Drop, G: Gate, R: Wait>(
    rt: &R,
    alloc: Global,
    station: &Station<L>,
    gate: &G,
    worker: usize,
    pass: &mut Pass<L>,
    held: &mut Held<L, P>,
    steps: &[Step<P>],
    receipts: &mut Receipts,
)
    requires { length steps.now ≤ receipts.old.room }
{
    let mut call: usize = 0;
    for step in steps {
        gate.before(worker, call);
        let receipt = take_step(rt, alloc, station, pass, held, step);
        if let Some(receipt) = receipt {
            receipts.push(receipt);
        }
        gate.after(worker, call);
        call = call.wrapping_add(1);
    }
}

/// Waits for its turn at the desk, takes all steps, and puts what it holds there for the next turn. If out of memory
/// for its receipts it takes no step.
pub(crate) fn serve_shift<L: Site, P: Counted + Copy + Drop, G: Gate, R: Wait>(
    rt: &R,
    alloc: Global,
    station: &Station<L>,
    desk: &Desk<L, P>,
    gate: &G,
    worker: usize,
    turn: u32,
    pass: &mut Pass<L>,
    steps: &[Step<P>],
    sheet: &mut Sheet,
) {
    let Sheet { receipts, done } = sheet;
    let mut held = desk.take(rt, turn);
    *done = receipts.reserve(steps.len()).is_ok();
    if *done {
        take_steps(
            rt, alloc, station, gate, worker, pass, &mut held, steps, receipts,
        );
    }
    desk.put(rt, turn.wrapping_add(1), held);
}

/// Takes a turn for a shift whose thread could not be started, and puts the next.
pub(crate) fn skip_turn<L: Site, P: Drop, R: Wait>(rt: &R, desk: &Desk<L, P>, turn: u32) {
    let held = desk.take(rt, turn);
    desk.put(rt, turn.wrapping_add(1), held);
}
