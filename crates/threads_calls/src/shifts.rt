//! Lists and shifts in threads: that a run comes to its end, and what becomes of it.

use crate::planned::{Answer, Plan, Wanted, run};
use gs_layout::Refusal;
use gs_replies::ConfigFault;
use gs_runner::{RunFault, Settled, StartFault, Step, Unsettled};
use gs_status::Mask;
use std::test::Fail;

/// Two lists that create a thread each, over a ring of two parcels.
const TWO: Plan<'static> = Plan {
    generation: 1,
    parcels: 2,
    lists: 2,
    each: 1,
    order: &[],
};

/// No list.
const NONE: Plan<'static> = Plan {
    generation: 1,
    parcels: 2,
    lists: 0,
    each: 0,
    order: &[],
};

#[test]
fn four_lists_and_three_shifts_settle(rt: HostRuntime) -> Result<(), Fail> {
    let plan = Plan {
        generation: 1,
        parcels: 96,
        lists: 4,
        each: 8,
        order: &[(0, 0), (4, 0)],
    };
    let first = [
        Step::Drain { max: 16 },
        Step::Decide,
        Step::Commit { mask: Mask::new(3) },
        Step::HandOff { cpu: 1 },
    ];
    let second = [
        Step::Drain { max: 16 },
        Step::Crash,
        Step::Begin { policy: None },
        Step::Page { max: 100 },
        Step::Activate { cpu: 0 },
    ];
    let third = [Step::Drain { max: u32::MAX }];
    let eight = [Answer::Taken; 8];
    let four = [Answer::Taken; 4];
    let two = [Answer::Landed(1), Answer::Taken];
    let wanted = Wanted::End(
        Ok(Settled),
        32,
        &[&eight, &eight, &eight, &eight, &two, &four, &[]],
    );
    assert!(rt; run(&rt, rt.alloc(), &plan, &[&first, &second, &third], &wanted)?);
    Ok(())
}

/// Holds the first call of one list until that of the other is answered, in either order. If one thread served both
/// lists, a call would come late in one of the runs.
#[test]
fn each_list_has_a_thread(rt: HostRuntime) -> Result<(), Fail> {
    let wanted = Wanted::End(Ok(Settled), 2, &[&[Answer::Taken], &[Answer::Taken]]);
    for order in &[[(1, 0), (0, 0)], [(0, 0), (1, 0)]] {
        let plan = Plan { order, ..TWO };
        assert!(rt; run(&rt, rt.alloc(), &plan, &[], &wanted)?);
    }
    Ok(())
}

/// Takes a step of the agent between two creations, over a ring of one parcel.
#[test]
fn one_parcel_takes_one_message_at_a_time(rt: HostRuntime) -> Result<(), Fail> {
    let plan = Plan {
        parcels: 1,
        order: &[(0, 0), (2, 0), (1, 0)],
        ..TWO
    };
    let rows = [
        (Step::Decide, Err(Unsettled::Torn), 0, Answer::Torn),
        (Step::Drain { max: 1 }, Ok(Settled), 2, Answer::Taken),
    ];
    for (step, end, threads, second) in &rows {
        let wanted = Wanted::End(*end, *threads, &[&[Answer::Taken], &[*second], &[]]);
        assert!(rt; run(&rt, rt.alloc(), &plan, &[&[*step]], &wanted)?);
    }
    Ok(())
}

/// The enclave is torn down by the first message for which there is no parcel, and by none before.
#[test]
fn the_ring_holds_a_message_in_each_parcel(rt: HostRuntime) -> Result<(), Fail> {
    let plan = Plan {
        parcels: 4,
        lists: 1,
        each: 4,
        ..TWO
    };
    let four = [Answer::Taken; 4];
    let settled = Wanted::End(Ok(Settled), 4, &[&four]);
    assert!(rt; run(&rt, rt.alloc(), &plan, &[], &settled)?);
    let longer = Plan { each: 6, ..plan };
    let taken = Answer::Taken;
    let gone = Answer::Refused(Refusal::Gone);
    let six = [taken, taken, taken, taken, Answer::Torn, gone];
    let torn = Wanted::End(Err(Unsettled::Torn), 0, &[&six]);
    assert!(rt; run(&rt, rt.alloc(), &longer, &[], &torn)?);
    Ok(())
}

/// An agent that attaches is not active before it was told of all. Once it was, it asks for no page.
#[test]
fn the_next_agent_is_told_of_all(rt: HostRuntime) -> Result<(), Fail> {
    let plan = Plan {
        generation: 1,
        parcels: 3,
        lists: 1,
        each: 3,
        order: &[(0, 2), (1, 0)],
    };
    let steps = [
        Step::Drain { max: 1 },
        Step::Crash,
        Step::Begin { policy: None },
        Step::Page { max: 2 },
        Step::Activate { cpu: 1 },
        Step::Page { max: 2 },
        Step::Page { max: 2 },
        Step::Activate { cpu: 1 },
    ];
    let three = [Answer::Taken; 3];
    let five = [Answer::Taken; 5];
    let wanted = Wanted::End(Ok(Settled), 3, &[&three, &five]);
    assert!(rt; run(&rt, rt.alloc(), &plan, &[&steps], &wanted)?);
    Ok(())
}

#[test]
fn no_agent_begins_behind_the_last_generation(rt: HostRuntime) -> Result<(), Fail> {
    let plan = Plan {
        generation: u32::MAX,
        ..NONE
    };
    let steps = [Step::Crash, Step::Begin { policy: None }];
    let answers = [Answer::Taken, Answer::Refused(Refusal::GenSpent)];
    let wanted = Wanted::End(Err(Unsettled::NoAgent), 0, &[&answers]);
    assert!(rt; run(&rt, rt.alloc(), &plan, &[&steps], &wanted)?);
    Ok(())
}

#[test]
fn there_are_32_lists_and_shifts_at_most(rt: HostRuntime) -> Result<(), Fail> {
    let empty: &[Answer] = &[];
    let all = [empty; 32];
    let settled = Wanted::End(Ok(Settled), 0, &all);
    let too_many = Wanted::Fault(RunFault::TooMany);
    for (lists, wanted) in &[(31, settled), (32, too_many), (33, too_many)] {
        let plan = Plan {
            lists: *lists,
            ..NONE
        };
        assert!(rt; run(&rt, rt.alloc(), &plan, &[&[]], wanted)?);
    }
    Ok(())
}

/// A fault of the start comes before that of too many lists.
#[test]
fn a_station_that_cannot_start_is_named(rt: HostRuntime) -> Result<(), Fail> {
    let rows = [
        (0, 0, StartFault::BadConfig(ConfigFault::BadFirst)),
        (1, 0, StartFault::BadParcels),
        (1, 1_048_577, StartFault::BadParcels),
    ];
    for (generation, parcels, fault) in &rows {
        let plan = Plan {
            generation: *generation,
            parcels: *parcels,
            lists: 33,
            ..NONE
        };
        let wanted = Wanted::Fault(RunFault::Start(*fault));
        assert!(rt; run(&rt, rt.alloc(), &plan, &[], &wanted)?);
    }
    Ok(())
}
