// Reads a register from standard input and writes the scheme that the builder makes for it.

#![tactic(auto)]

use std::process::ExitCode;

fn main(rt: HostRuntime) -> ExitCode {
    console::build_scheme(&rt)
}
