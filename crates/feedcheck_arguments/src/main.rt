// The same program with an argument: it says how it is called, prints no line, and its exit status is 2.

#![tactic(auto)]

use std::process::ExitCode;

fn main(rt: HostRuntime) -> ExitCode {
    console::feedcheck(&rt)
}
