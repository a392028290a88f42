//! The program over standard input and output.
#![tactic(auto)]

use std::env;
use std::process::ExitCode;
use transyt::run_args;

fn main(rt: HostRuntime) -> ExitCode {
    let (number, _) = run_args(&rt, env::args(&rt), rt.stdin(), rt.stdout());
    ExitCode::from(number)
}
