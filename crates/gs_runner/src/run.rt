//! Lists of commands and shifts of an agent, each in a thread of its own.

use crate::command::Command;
use crate::desk::Desk;
use crate::gate::Gate;
use crate::held::Held;
use crate::lists::serve_list;
use crate::pass::Pass;
use crate::sheet::Sheet;
use crate::shift::{serve_shift, skip_turn};
use crate::site::Site;
use crate::station::Station;
use crate::step::Shift;
use gs_policy::Counted;
use std::alloc::Global;
use std::sync::Wait;
use std::thread;
use std::thread::Threads;

/// Runs each list and each shift in a thread. If a thread cannot be started, its list or shift is not run, and a
/// shift's turn is passed on. Returns how many turns there were, once all threads came to their end.
fn run_all<
    L: Site + Send + Sync,
    P: Counted + Copy + Drop + Send + Sync,
    G: Gate + Sync,
    R: Threads + Wait + Sync,
>(
    rt: &R,
    alloc: Global,
    station: &Station<L>,
    desk: &Desk<L, P>,
    lists: &[Vec<Command>],
    shifts: &[Shift<P>],
    gate: &G,
    passes: &mut [Pass<L>],
    sheets: &mut [Sheet],
) -> u32 {
    thread::scope(thread::scope_env(), rt, |scope| {
        let mut worker: usize = 0;
        let mut given = passes.iter_mut().zip(sheets.iter_mut());
        for list in lists {
            let commands = list.as_slice();
            let number = worker;
            if let Some((pass, sheet)) = given.next() {
                let _ = scope.spawn(move || serve_list(
                    rt, station, gate, number, commands, pass, sheet,
                ));
            }
            worker = worker.wrapping_add(1);
        }
        let mut turn: u32 = 0;
        for (shift, (pass, sheet)) in shifts.iter().zip(given) {
            let steps = shift.steps.as_slice();
            let number = worker;
            let mine = turn;
            let begun = scope.spawn(move || {
                serve_shift(
                    rt, alloc, station, desk, gate, number, mine, pass, steps, sheet,
                )
            });
            if begun.is_err() {
                skip_turn(rt, desk, turn);
            }
            worker = worker.wrapping_add(1);
            turn = turn.wrapping_add(1);
        }
        turn
    })
}

/// Runs each list and each shift in a thread, and returns what the last shift left at the desk.
pub(crate) fn run_at_desk<
    L: Site + Send + Sync,
    P: Counted + Copy + Drop + Send + Sync,
    G: Gate + Sync,
    R: Threads + Wait + Sync,
>(
    rt: &R,
    alloc: Global,
    station: &Station<L>,
    held: Held<L, P>,
    lists: &[Vec<Command>],
    shifts: &[Shift<P>],
    gate: &G,
    passes: &mut [Pass<L>],
    sheets: &mut [Sheet],
) -> Held<L, P> {
    let desk = Desk::new();
    desk.put(rt, 0, held);
    let turns = run_all(
        rt, alloc, station, &desk, lists, shifts, gate, passes, sheets,
    );
    desk.take(rt, turns)
}
