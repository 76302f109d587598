//! The program trex, run on a profile that is refused.
#![tactic(auto)]

use std::process::ExitCode;
use trex_top::run_program;

fn main(rt: HostRuntime) -> ExitCode {
    run_program(&rt, rt.stdin(), rt.stdout(), rt.stderr())
}
