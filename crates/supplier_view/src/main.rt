// Reads a job from standard input and prints the lines that its supplier may read.

#![tactic(auto)]

use std::process::ExitCode;

fn main(rt: HostRuntime) -> ExitCode {
    console::supplier_view(&rt)
}
