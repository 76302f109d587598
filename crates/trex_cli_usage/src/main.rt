//! The program trex, run on words that have no meaning.
#![tactic(auto)]

use std::process::ExitCode;
use trex_top::run_program;

fn main(rt: HostRuntime) -> ExitCode {
    run_program(&rt, rt.stdin(), rt.stdout(), rt.stderr())
}
