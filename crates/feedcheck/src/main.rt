// Reads a job from standard input and prints its listing.

#![tactic(auto)]

use std::process::ExitCode;

fn main(rt: HostRuntime) -> ExitCode {
    console::feedcheck(&rt)
}
