//! A list of commands, which a thread serves.

ghost use Rattle.std.specs.Prelude.{◌≡◌, ◌≤◌, length, true};
ghost use Rattle.gs_runner.specs.Receipts.{AddsReceipts};

use crate::command::Command;
use crate::gate::Gate;
use crate::pass::Pass;
use crate::receipts::Receipts;
use crate::sheet::Sheet;
use crate::site::Site;
use crate::station::Station;
use std::sync::Wait;

/// Serves commands, with a receipt for each, for which there is room.
fn serve_all<L: Site, G: Gate, R: Wait>(
    rt: &R,
    station: &Station<L>,
    gate: &G,
    worker: usize,
    commands: &[Command],
    pass: &mut Pass<L>,
    receipts: &mut Receipts,
)
    requires { length commands.now ≤ receipts.old.room }
    ensures { AddsReceipts L.parcels commands.now receipts.old receipts.new }
{
    let mut call: usize = 0;
    for command in commands {
        gate.before(worker, call);
        let receipt = station
            .enclave()
            .lock(rt)
            .serve(station.board(), pass.share(), command);
        receipts.push(receipt);
        gate.after(worker, call);
        call = call.wrapping_add(1);
    }
}

/// Serves a list, unless out of memory for its receipts: then it serves nothing of it.
pub(crate) fn serve_list<L: Site, G: Gate, R: Wait>(
    rt: &R,
    station: &Station<L>,
    gate: &G,
    worker: usize,
    commands: &[Command],
    pass: &mut Pass<L>,
    sheet: &mut Sheet,
)
    ensures { sheet.new.done ≡ true → AddsReceipts L.parcels commands.now sheet.old.receipts sheet.new.receipts }
{
    let Sheet { receipts, done } = sheet;
    *done = false;
    if receipts.reserve(commands.len()).is_ok() {
        serve_all(rt, station, gate, worker, commands, pass, receipts);
        *done = true;
    }
}
