//! The program `shortest_mask_cli`: the commands of gs_commands, by the policy of shortest_mask beside those that there are.
#![tactic(auto)]

use gs_commands::run;
use shortest_mask::Policies;
use std::env::args;
use std::process::ExitCode;

fn main(rt: HostRuntime) -> ExitCode {
    let status = run::<Policies, _, _, _>(
        &rt,
        rt.alloc(),
        args(&rt),
        &mut rt.stdin(),
        &mut rt.stdout(),
    );
    ExitCode::from(status)
}
