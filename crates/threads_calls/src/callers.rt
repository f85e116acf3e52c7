//! Four callers with eight calls each.

use crate::running::{Course, Ended, run};
use gs_kernel::Command as Told;
use gs_layout::{Class, Facts, Name};
use gs_replies::Reply;
use gs_runner::{Closed, Command, Pass, Receipt, Site, Station};
use gs_slots::{Flags, SlotMut};
use gs_status::Mask;
use std::sync::Wait;
use std::test::Fail;
use std::thread;
use std::thread::Threads;

/// What a caller gets: a receipt for each of its calls, in order.
#[derive(Drop)]
pub(crate) struct Sheet {
    receipts: Vec<Receipt>,
}

/// A transaction of generation 1 that places thread 1 at number 1 on CPU 1. It has the flag of a group.
fn transaction() -> [u8; 32] {
    let mut bytes = [0; 32];
    let flags = Flags {
        group: true,
        ..Flags::NONE
    };
    let _ = SlotMut::over(1, &mut bytes).stamp(1, 1, 1, flags);
    bytes
}

/// What each caller calls. The third, the seventh and the eighth are refused whatever the others do: there is no CPU 9,
/// the bytes are those of an idle slot, and no agent attaches.
fn commands() -> [Command; 8] {
    let facts = Facts {
        mask: Mask::new(3),
        runnable: true,
        class: Class::Zero,
        name: Name::new(b"web").unwrap(),
    };
    [
        Command::Kernel {
            command: Told::Create { facts },
        },
        Command::Kernel {
            command: Told::Tick { cpu: 1 },
        },
        Command::Kernel {
            command: Told::Tick { cpu: 9 },
        },
        Command::Land {
            bytes: transaction(),
        },
        Command::Kernel {
            command: Told::Take { cpu: 1 },
        },
        Command::Kernel {
            command: Told::Give { cpu: 1 },
        },
        Command::Land { bytes: [0; 32] },
        Command::Page { from: 1, max: 10 },
    ]
}

/// Serves all commands, with a receipt for each.
fn call<L: Site, R: Wait>(rt: &R, station: &Station<L>, pass: &mut Pass<L>, sheet: &mut Sheet) {
    for command in &commands() {
        let receipt = station
            .enclave()
            .lock(rt)
            .serve(station.board(), pass.share(), command);
        let _ = sheet.receipts.push(receipt);
    }
}

/// Lets as many callers call as there are sheets, each in a thread of its own. Returns whether all threads began.
pub(crate) fn call_all<L: Site + Send + Sync, R: Threads + Wait + Sync>(
    rt: &R,
    station: &Station<L>,
    passes: &mut [Pass<L>],
    sheets: &mut [Sheet],
) -> bool {
    thread::scope(thread::scope_env(), rt, |scope| {
        let mut all = true;
        for (pass, sheet) in passes.iter_mut().zip(sheets.iter_mut()) {
            let begun = scope.spawn(move || call(rt, station, pass, sheet)).is_ok();
            all = all && begun;
        }
        all
    })
}

fn is_refused(receipt: &Receipt) -> bool {
    matches!(receipt.reply, Reply::Refused(_))
}

/// Returns whether just the receipts that were not refused are found, each with its own command and with no other, and
/// those that are refused by all are.
fn is_found(closed: &Closed, sheet: &Sheet) -> bool {
    let commands = commands();
    let mut found = sheet.receipts.len() == commands.len();
    for (receipt, command) in sheet.receipts.iter().zip(&commands) {
        let refused = is_refused(receipt);
        found = found
            && closed.holds(command, receipt) != refused
            && !closed.holds(&Command::Crash, receipt);
    }
    found
}

/// Returns how many receipts of a sheet were not refused.
fn accepted(sheet: &Sheet) -> usize {
    sheet.receipts.iter().filter(|r| !is_refused(r)).count()
}

/// Returns whether the calls are just those of the callers.
fn are_found(ended: &Option<Ended>, sheets: &[Sheet]) -> bool {
    let Some(
        Ended {
            seen: true,
            closed: Some(closed),
        },
    ) = ended
    else {
        return false;
    };
    let mut found = true;
    let mut count: usize = 0;
    for sheet in sheets {
        found = found && is_found(closed, sheet);
        count = count.saturating_add(accepted(sheet));
    }
    found && count >= 12 && closed.calls().len() == count
}

#[test]
fn finds_the_accepted_calls(rt: HostRuntime) -> Result<(), Fail> {
    let alloc = rt.alloc();
    let mut sheets = Vec::new(alloc);
    for _ in 0..4 {
        sheets.push(Sheet {
            receipts: Vec::new(alloc),
        })?;
    }
    let ended = run(&rt, alloc, 100, Course::Callers, sheets.as_mut_slice());
    assert!(rt; are_found(&ended, sheets.as_slice()));
    Ok(())
}
