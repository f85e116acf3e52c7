//! The program `ghost`: the commands of gs_commands, by the two policies that there are.
#![tactic(auto)]

use gs_commands::run;
use gs_policy::AnyPolicy;
use std::env::args;
use std::process::ExitCode;

fn main(rt: HostRuntime) -> ExitCode {
    let status = run::<AnyPolicy, _, _, _>(
        &rt,
        rt.alloc(),
        args(&rt),
        &mut rt.stdin(),
        &mut rt.stdout(),
    );
    ExitCode::from(status)
}
