//! The program that shows things: the words after its name ask for a list of the instructions of a
//! module, or for a page.
#![tactic(auto)]

use accmut_host::run_view;
use std::process::ExitCode;

fn main(rt: HostRuntime) -> ExitCode {
    run_view(&rt)
}
