// The same program on an input that is longer than what it reads: the example and 70,000 more bytes, refused 12.

#![tactic(auto)]

use std::process::ExitCode;

fn main(rt: HostRuntime) -> ExitCode {
    console::feedcheck(&rt)
}
