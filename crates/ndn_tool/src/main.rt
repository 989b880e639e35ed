//! A Named Data Networking client. The client writes, sends and explains packets, and computes
//! HMACs.
#![tactic(auto)]

use ndn_client::run;
use std::process::ExitCode;

fn main(rt: HostRuntime) -> ExitCode {
    let Err(fault) = run(&rt) else {
        return ExitCode::SUCCESS;
    };
    let status = fault.exit_status();
    // If standard error cannot be written, the exit status alone reports the fault.
    let _printed = rt.eprint(fault);
    ExitCode::from(status)
}
