// Reads a register from standard input and prints its cheapest plan.

#![tactic(auto)]

use std::process::ExitCode;

fn main(rt: HostRuntime) -> ExitCode {
    console::cheapest(&rt)
}
