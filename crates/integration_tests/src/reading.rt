//! Scripts as they are read: what an enclave is opened with, its events, and a fault.

use gs_core::{Config, Event};
use gs_policy::{AnyPolicy, FirstCome, TwoClass};
use gs_script::{Reason, ScriptError, ScriptFault, read_script};
use std::alloc::Global;

/// A header with no more than it has to have.
const LEAST: Config<AnyPolicy> = Config {
    cpus: 2,
    ring: 128,
    first_tseq: 0,
    first_generation: 1,
    history: 16_777_216,
    policy: AnyPolicy::FirstCome(FirstCome),
};

/// Scripts, the configurations that they are read as, how many events they have, and whether the first is a decision.
const ROWS: [(&str, Config<AnyPolicy>, usize, bool); 6] = [
    (
        "cpus 2 ring 128\ncreate 3 0 r web\ndrain 1\nstamp 1 1\ncommit 2\n",
        LEAST,
        4,
        false,
    ),
    ("cpus 2 ring 128\ndecide\n", LEAST, 1, true),
    (
        "cpus 2 ring 128\ncrash\nbegin\nleave\nbegin two 1\npage 9\nactivate 0\n",
        LEAST,
        6,
        false,
    ),
    (
        "cpus 2 ring 128 history 5 policy first\ndecide\n",
        Config {
            history: 5,
            ..LEAST
        },
        1,
        true,
    ),
    (
        "cpus 2 ring 128 policy two 65535\ndecide\n",
        Config {
            policy: AnyPolicy::TwoClass(TwoClass { slice: 65_535 }),
            ..LEAST
        },
        1,
        true,
    ),
    // Each number and the policy are given, and each is another than the default.
    (
        "cpus 128 ring 136 first-tseq 7 first-gen 8 history 9 policy two 10\n",
        Config {
            cpus: 128,
            ring: 136,
            first_tseq: 7,
            first_generation: 8,
            history: 9,
            policy: AnyPolicy::TwoClass(TwoClass { slice: 10 }),
        },
        0,
        false,
    ),
];

/// What a script is read as.
fn read(alloc: Global, text: &str) -> Option<(Config<AnyPolicy>, usize, bool)> {
    let script = read_script::<AnyPolicy>(alloc, text.as_bytes()).ok()?;
    let decides = matches!(script.events.first(), Some(Event::Decide));
    Some((script.config, script.events.len(), decides))
}

/// The first row that is read otherwise.
fn first_wrong(alloc: Global) -> Option<usize> {
    for (i, (text, config, events, decides)) in ROWS.iter().enumerate() {
        if read(alloc, text) != Some((*config, *events, *decides)) {
            return Some(i);
        }
    }
    None
}

/// Why a script is not read.
fn error_of(alloc: Global, text: &str) -> Option<ScriptError> {
    read_script::<AnyPolicy>(alloc, text.as_bytes()).err()
}

#[test]
fn reads_scripts(rt: HostRuntime) {
    assert_eq!(rt; first_wrong(rt.alloc()), None);
    let fault = ScriptFault {
        line: 3,
        reason: Reason::BadNumber,
    };
    let error = error_of(rt.alloc(), "#\ncpus 2 ring 128\ndrain 4294967296\n");
    assert_eq!(rt; error, Some(ScriptError::Fault(fault)));
}
