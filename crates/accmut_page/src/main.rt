//! The program that shows things once more, with a stored run over names and texts that look like
//! markup.
#![tactic(auto)]

use accmut_host::run_view;
use std::process::ExitCode;

fn main(rt: HostRuntime) -> ExitCode {
    run_view(&rt)
}
