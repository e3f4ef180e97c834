//! The program once more, with a stored run over a C program.
#![tactic(auto)]

use accmut_host::run_program;
use std::process::ExitCode;

fn main(rt: HostRuntime) -> ExitCode {
    run_program(&rt)
}
