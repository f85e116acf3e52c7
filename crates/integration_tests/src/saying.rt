//! What is said of a refusal and of a slot that no script can show.

use gs_core::Event;
use gs_kernel::Landing;
use gs_layout::{Outcome, Refusal};
use gs_sentences::{Landed, Numbers, Refused, Sentence, Stamped, put_landed, put_refused};

/// Returns whether it is said of a slot that it is malformed, and of which CPU it is.
fn says_malformed() -> bool {
    let landing = Landing {
        cpu: 3,
        tid: 0,
        outcome: Outcome::Malformed,
        seen: 0,
        at: None,
    };
    let landed = Landed {
        landing: &landing,
        stamped: Stamped {
            generation: 0,
            tseq: 0,
            line: 0,
        },
        cause: None,
        overflow: None,
        fault: &None,
        entries: 1,
        limit: 9,
    };
    let mut sentence = Sentence::new();
    put_landed(&mut sentence, &landed);
    sentence.as_bytes() == "the slot of CPU 3 is malformed".as_bytes()
}

/// Returns whether it is said of an event that memory ran out.
fn says_out_of_memory() -> bool {
    let event: Event<()> = Event::Drain { max: 1 };
    let refused = Refused {
        refusal: Refusal::OutOfMemory,
        event: &event,
        cause: None,
        numbers: Numbers {
            cpus: 4,
            entries: 1,
            transactions: 0,
            limit: 9,
            page: None,
            waiting: None,
        },
    };
    let mut sentence = Sentence::new();
    put_refused(&mut sentence, &refused);
    sentence.as_bytes() == "out of memory".as_bytes()
}

#[test]
fn says_what_no_script_shows(rt: HostRuntime) {
    assert!(rt; says_malformed());
    assert!(rt; says_out_of_memory());
}
