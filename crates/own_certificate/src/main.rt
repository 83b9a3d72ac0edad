// Reads a register, the scheme that follows it and, where the register has a range, the plan behind these from standard input, and writes the
// certificate of our own for them.

#![tactic(auto)]

use std::process::ExitCode;

fn main(rt: HostRuntime) -> ExitCode {
    console::own_certificate(&rt)
}
