// The same program on the first 47 bytes of a register of 48: it writes no scheme, and its exit status is 1.

#![tactic(auto)]

use std::process::ExitCode;

fn main(rt: HostRuntime) -> ExitCode {
    console::build_scheme(&rt)
}
