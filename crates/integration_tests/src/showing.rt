//! The lines of replies, and a report of them, of those replies that no script comes to.

use gs_core::{Items, Reply};
use gs_kernel::Landing;
use gs_layout::{Change, Message, Outcome, Refusal};
use gs_lines::text_of;
use gs_policy::Choice;
use gs_report::Report;
use gs_status::Mask;
use std::alloc::{AllocError, Global};
use std::test::Fail;

/// Changes, of which thread and with which number, and what is written if a message about them waits.
fn changes() -> [(u32, u32, Change, &'static str); 7] {
    [
        (
            7,
            3,
            Change::Blocked { cpu: 2 },
            "unread blocked 7 seq 3 cpu 2\n",
        ),
        (7, 4, Change::Wakeup, "unread wakeup 7 seq 4 cpu -\n"),
        (
            65_536,
            u32::MAX,
            Change::Preempted { cpu: 0 },
            "unread preempted 65536 seq 4294967295 cpu 0\n",
        ),
        (
            1,
            2,
            Change::Yield { cpu: 127 },
            "unread yield 1 seq 2 cpu 127\n",
        ),
        (
            1,
            3,
            Change::Dead { cpu: None },
            "unread dead 1 seq 3 cpu -\n",
        ),
        (
            2,
            9,
            Change::Dead { cpu: Some(1) },
            "unread dead 2 seq 9 cpu 1\n",
        ),
        (
            3,
            5,
            Change::Affinity {
                cpu: Some(4),
                off: true,
                mask: Mask::new(1),
            },
            "unread affinity 3 seq 5 cpu 4\n",
        ),
    ]
}

/// Whether a look at messages about all of `changes` has their lines.
fn shows_changes(alloc: Global) -> Result<bool, AllocError> {
    let mut messages = Vec::new(alloc);
    let mut wanted = String::new(alloc);
    for (tid, tseq, change, line) in changes() {
        messages.push(Message::Thread { tid, tseq, change })?;
        wanted.push_str(line)?;
    }
    let replies = [Reply::Unread(Items::new(messages))];
    Ok(text_of(alloc, &replies)?.as_str() == wanted.as_str())
}

/// Decisions: the first number, the choices, their lines, and the report with the last two of these.
const DECISIONS: [(u32, &[Choice], &str, &str); 3] = [
    (
        9,
        &[
            Choice {
                cpu: 1,
                tid: 1,
                preempt: false,
            },
            Choice {
                cpu: 127,
                tid: 65_536,
                preempt: true,
            },
        ],
        "decided 2\nstamped 9 cpu 1 thread 1\nstamped 10 cpu 127 thread 65536 preempt\n",
        "{\"events\":1,\"last\":[\"stamped 9 cpu 1 thread 1\",\"stamped 10 cpu 127 thread 65536 preempt\"],\"placed\":0,\"refused\":0,\"torn\":false,\"unplaced\":0}\n",
    ),
    (
        11,
        &[],
        "decided 0\n",
        "{\"events\":1,\"last\":[\"decided 0\"],\"placed\":0,\"refused\":0,\"torn\":false,\"unplaced\":0}\n",
    ),
    (
        7,
        &[Choice {
            cpu: 1,
            tid: 1,
            preempt: true,
        }],
        "decided 1\nstamped 7 cpu 1 thread 1 preempt\n",
        "{\"events\":1,\"last\":[\"decided 1\",\"stamped 7 cpu 1 thread 1 preempt\"],\"placed\":0,\"refused\":0,\"torn\":false,\"unplaced\":0}\n",
    ),
];

/// A decision, the first of whose transactions has this number.
fn decided(alloc: Global, first: u32, choices: &[Choice]) -> Result<Reply, AllocError> {
    let mut all = Vec::new(alloc);
    all.extend_from_slice(choices)?;
    Ok(Reply::Decided {
        first,
        choices: Items::new(all),
    })
}

/// The first decision that is written otherwise.
fn first_wrong_decision(alloc: Global) -> Result<Option<usize>, AllocError> {
    for (i, (first, choices, lines, report)) in DECISIONS.iter().enumerate() {
        let replies = [decided(alloc, *first, choices)?];
        if !is_shown(alloc, &replies, 2, lines, report)? {
            return Ok(Some(i));
        }
    }
    Ok(None)
}

/// The report of replies, with so many of the last lines.
fn reported(alloc: Global, replies: &[Reply], last: usize) -> Result<String, AllocError> {
    let mut report = Report::new(alloc);
    for reply in replies {
        report.add(reply)?;
    }
    report.to_line(alloc, last)
}

/// Whether replies have these lines, and this report with the last of them, so many.
fn is_shown(
    alloc: Global,
    replies: &[Reply],
    last: usize,
    lines: &str,
    report: &str,
) -> Result<bool, AllocError> {
    let text = text_of(alloc, replies)?;
    let reported = reported(alloc, replies, last)?;
    Ok(text.as_str() == lines && reported.as_str() == report)
}

/// What became of slots, whether that is told of one that landed late, whether it tore the enclave down, the lines,
/// and the report without any of them.
const LANDINGS: [(&[Outcome], bool, bool, &str, &str); 3] = [
    (
        &[
            Outcome::Placed,
            Outcome::Stale,
            Outcome::Gone,
            Outcome::Placed,
            Outcome::Malformed,
            Outcome::GroupFailed,
        ],
        false,
        true,
        "cpu 1 placed 1 seq 1\ncpu 1 stale 1 seq 1\ncpu 1 gone 1 seq 1\ncpu 1 placed 1 seq 1\ncpu 1 malformed 1 seq 1\ncpu 1 groupfailed 1 seq 1\ntorn\n",
        "{\"events\":1,\"last\":[],\"placed\":2,\"refused\":0,\"torn\":true,\"unplaced\":4}\n",
    ),
    (
        &[Outcome::Placed],
        true,
        false,
        "late 1 placed 1 seq 1\n",
        "{\"events\":1,\"last\":[],\"placed\":1,\"refused\":0,\"torn\":false,\"unplaced\":0}\n",
    ),
    (
        &[Outcome::Gone],
        true,
        true,
        "late 1 gone 1 seq 1\ntorn\n",
        "{\"events\":1,\"last\":[],\"placed\":0,\"refused\":0,\"torn\":true,\"unplaced\":1}\n",
    ),
];

/// What became of the slot of CPU 1, with thread 1 in it.
fn landing(outcome: Outcome) -> Landing {
    Landing {
        cpu: 1,
        tid: 1,
        outcome,
        seen: 1,
        at: None,
    }
}

/// Slots with these outcomes landed, or a transaction late with the only one.
fn landed(
    alloc: Global,
    outcomes: &[Outcome],
    is_late: bool,
    torn: bool,
) -> Result<Reply, AllocError> {
    if let ([only], true) = (outcomes, is_late) {
        return Ok(Reply::Late {
            number: 1,
            landing: landing(*only),
            torn,
        });
    }
    let mut landings = Vec::new(alloc);
    for outcome in outcomes {
        landings.push(landing(*outcome))?;
    }
    Ok(Reply::Landed {
        landings: Items::new(landings),
        torn,
    })
}

/// The first landing that is written otherwise.
fn first_wrong_landing(alloc: Global) -> Result<Option<usize>, AllocError> {
    for (i, (outcomes, is_late, torn, lines, report)) in LANDINGS.iter().enumerate() {
        let replies = [landed(alloc, outcomes, *is_late, *torn)?];
        if !is_shown(alloc, &replies, 0, lines, report)? {
            return Ok(Some(i));
        }
    }
    Ok(None)
}

/// How many of the last lines a report is to show, and how it shows them if the replies are a refusal, a
/// tear-down, and a refusal for that.
const LAST: [(usize, &str); 6] = [
    (0, ""),
    (1, "\"refused 18 Gone\""),
    (2, "\"torn\",\"refused 18 Gone\""),
    (3, "\"refused 1 NoThread\",\"torn\",\"refused 18 Gone\""),
    (4, "\"refused 1 NoThread\",\"torn\",\"refused 18 Gone\""),
    (
        usize::MAX,
        "\"refused 1 NoThread\",\"torn\",\"refused 18 Gone\"",
    ),
];

/// The first row of `LAST` that is reported otherwise.
fn first_wrong_last(alloc: Global) -> Result<Option<usize>, AllocError> {
    let replies = [
        Reply::Refused(Refusal::NoThread),
        Reply::Torn,
        Reply::Refused(Refusal::Gone),
    ];
    let lines = "refused 1 NoThread\ntorn\nrefused 18 Gone\n";
    for (i, (last, shown)) in LAST.iter().enumerate() {
        let report = format!(in alloc;
            "{{\"events\":3,\"last\":[{shown}],\"placed\":0,\"refused\":2,\"torn\":true,\"unplaced\":0}}\n"
        )?;
        if !is_shown(alloc, &replies, *last, lines, report.as_str())? {
            return Ok(Some(i));
        }
    }
    Ok(None)
}

/// Whether no reply has no line, and a report that says so.
fn shows_nothing(alloc: Global) -> Result<bool, AllocError> {
    let report =
        "{\"events\":0,\"last\":[],\"placed\":0,\"refused\":0,\"torn\":false,\"unplaced\":0}\n";
    is_shown(alloc, &[], 5, "", report)
}

#[test]
fn shows_replies(rt: HostRuntime) -> Result<(), Fail> {
    assert!(rt; shows_changes(rt.alloc())?);
    assert_eq!(rt; first_wrong_decision(rt.alloc())?, None);
    assert_eq!(rt; first_wrong_landing(rt.alloc())?, None);
    assert_eq!(rt; first_wrong_last(rt.alloc())?, None);
    assert!(rt; shows_nothing(rt.alloc())?);
    Ok(())
}
