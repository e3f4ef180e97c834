//! The program: the words after its name are a command.
#![tactic(auto)]

use accmut_host::run_program;
use std::process::ExitCode;

fn main(rt: HostRuntime) -> ExitCode {
    run_program(&rt)
}
