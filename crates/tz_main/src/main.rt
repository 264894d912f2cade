//! The program tzrun: the top call of `tz_cli` over the system's files and standard streams.
#![tactic(auto)]

use std::process::ExitCode;
use tz_cli::run_process;

fn main(rt: HostRuntime) -> ExitCode {
    run_process(&rt, rt.stdout(), rt.stderr())
}
