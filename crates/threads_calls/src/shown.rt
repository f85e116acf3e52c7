//! The calls of an enclave, as they are shown.

use crate::in_order::InOrder;
use gs_kernel::{Command as Told, ThreadEvent};
use gs_layout::{Class, Facts, Name};
use gs_policy::FirstCome;
use gs_replies::{Config, Reply};
use gs_runner::{CallRef, Called, Calls, Command, Finished, ReceiptRef, Receipts, run_threads};
use gs_slots::{Flags, SlotMut};
use gs_status::Mask;
use std::alloc::{AllocError, Global};
use std::sync::Wait;
use std::test::Fail;
use std::thread::Threads;

/// A transaction of generation 1 that places thread 1 on CPU 1, and was stamped at this number.
fn landing(seen: u32) -> Command {
    let mut bytes = [0; 32];
    let _ = SlotMut::over(1, &mut bytes).stamp(1, 1, seen, Flags::NONE);
    Command::Land { bytes }
}

fn created() -> Told {
    Told::Create {
        facts: Facts {
            mask: Mask::new(3),
            runnable: true,
            class: Class::One,
            name: Name::new(b"web").unwrap(),
        },
    }
}

/// Something happens to thread 1.
fn thread(event: ThreadEvent) -> Command {
    told(Told::Thread { tid: 1, event })
}

fn told(command: Told) -> Command {
    Command::Kernel { command }
}

/// Each kind of command. The sixth and the sixteenth are refused: the other class holds no CPU 1 then, and no agent is
/// active.
fn commands() -> [Command; 20] {
    [
        told(created()),
        told(created()),
        told(Told::Tick { cpu: 1 }),
        landing(1),
        thread(ThreadEvent::Affinity { mask: Mask::new(2) }),
        told(Told::Give { cpu: 1 }),
        thread(ThreadEvent::Block),
        thread(ThreadEvent::Wake),
        landing(4),
        thread(ThreadEvent::Yield),
        told(Told::Take { cpu: 1 }),
        told(Told::Give { cpu: 1 }),
        thread(ThreadEvent::Die),
        told(Told::HandOff { cpu: 1 }),
        told(Told::Leave),
        told(Told::HandOff { cpu: 0 }),
        told(Told::Begin),
        Command::Page { from: 1, max: 10 },
        told(Told::Activate { cpu: 0 }),
        Command::Crash,
    ]
}

/// Returns whether the call at a place is shown with this command, and as its receipt has it.
fn is_shown(calls: &Calls<'_>, index: usize, given: &Command, receipt: &ReceiptRef<'_>) -> bool {
    match (calls.get(index), given, receipt) {
        (
            Some(
                CallRef::Told {
                    command: told,
                    at,
                    entries,
                    last,
                },
            ),
            Command::Kernel { command },
            ReceiptRef::Done {
                at: its,
                entries: count,
                last: entry,
            },
        ) => told == *command && at == *its && entries == *count && last == *entry,
        (
            Some(CallRef::Other { call }),
            given,
            ReceiptRef::Done {
                at: its,
                entries: count,
                last: entry,
            },
        ) => {
            call.called == Called::Served(*given)
                && call.at == *its
                && call.entries == *count
                && call.reply == Reply::Done(*entry)
        }
        (Some(CallRef::Other { call }), given, ReceiptRef::Other { receipt }) => {
            call.called == Called::Served(*given)
                && call.at == receipt.at
                && call.entries == receipt.entries
                && call.reply == receipt.reply
        }
        _ => false,
    }
}

fn is_refused(receipt: &ReceiptRef<'_>) -> bool {
    match receipt {
        ReceiptRef::Done { .. } => false,
        ReceiptRef::Other { receipt } => matches!(receipt.reply, Reply::Refused(_)),
    }
}

/// Returns whether just the calls that were not refused are shown, in order, and how many those are.
fn are_shown(finished: &Finished, given: &[Command], receipts: &Receipts) -> Option<usize> {
    let journal = finished.closed.journal();
    let calls = finished.closed.calls();
    let mut index: usize = 0;
    let mut shown = true;
    for (place, command) in given.iter().enumerate() {
        if let Some(receipt) = receipts.get(journal, place) {
            if !is_refused(&receipt) {
                shown = shown && is_shown(&calls, index, command, &receipt);
                index = index.wrapping_add(1);
            }
        }
    }
    (shown && calls.get(index).is_none() && calls.len() == index).then_some(index)
}

/// Returns how many calls of a list are shown as they were. `None` if one is not, or has no receipt.
fn shown_of(finished: &Finished, given: &[Command]) -> Option<usize> {
    let receipts = finished.receipts.first()?;
    if receipts.len() != given.len() {
        return None;
    }
    are_shown(finished, given, receipts)
}

/// Runs one list of all commands. Returns how many calls are shown as they were.
fn run<R: Threads + Wait + Sync>(rt: &R, alloc: Global) -> Result<Option<usize>, AllocError> {
    let config = Config {
        cpus: 2,
        ring: 128,
        first_tseq: 0,
        first_generation: 1,
        history: 1000,
        policy: FirstCome,
    };
    let mut list = Vec::new(alloc);
    list.extend_from_slice(&commands())?;
    let mut lists = Vec::new(alloc);
    lists.push(list)?;
    let gate = InOrder::new(Vec::new(alloc));
    let finish = run_threads(rt, alloc, config, 100, lists.as_slice(), &[], &gate);
    Ok(match (finish, lists.first()) {
        (Ok(finished), Some(list)) => shown_of(&finished, list.as_slice()),
        _ => None,
    })
}

#[test]
fn shows_each_call(rt: HostRuntime) -> Result<(), Fail> {
    let shown = run(&rt, rt.alloc())?;
    assert!(rt; shown == Some(18));
    Ok(())
}
