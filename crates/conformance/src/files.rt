// A vector file, line by line.
use std::io::Write;
use std::rt::Files;
use std::{fs, io};
use vectors::{Differs, Fields};

// The cases so far, and how many of them differ.
#[derive(Clone, Copy, Debug, Default, PartialEq, Eq)]
struct Tally {
    cases: u64,
    differences: u64,
}

// Prints the file's and the case's name.
fn print_difference(rt: &impl Print, name: &str, line: &[u8]) -> io::Result<()> {
    print!(rt; "{name}: ")?;
    io::writer(rt).write_all(Fields::of(line).next().unwrap_or(line))?;
    println!(rt; " differs")
}

// Tries each case of a file, and prints which differ and how many there are.
pub fn run<R: Files + AllocGlobal + Print, F: Fn(&[u8]) -> io::Result<bool>>(
    rt: &R,
    name: &str,
    path: &str,
    agrees: F,
) -> io::Result<()>
    requires { F.IsAlwaysCallable agrees }
{
    let text = fs::read(rt, path)?;
    let mut tally = Tally::default();
    for line in text.as_slice().split(|b| *b == b'\n') {
        if vectors::is_case(line) {
            tally.cases = tally.cases.wrapping_add(1);
            if !agrees(line)? {
                print_difference(rt, name, line)?;
                tally.differences = tally.differences.wrapping_add(1);
            }
        }
    }
    let Tally { cases, differences } = tally;
    println!(rt; "{name}: {cases} cases, {differences} differences")
}

// A call's cases stand in two files, one in the folder itself, which a request's landing replaces, and one in its folder `kept`, of
// lines that show what the first does not. For each: what stands before the file's name, and before the name that is printed.
const FOLDERS: [(&str, &str); 2] = [("", ""), ("kept/", "kept ")];

// Tries each case of a call's two files, whose lines hold, past the case's name, what the call is given and what it answers.
pub fn run_call<R: Files + AllocGlobal + Print, F: Fn(Fields) -> Result<(), Differs>>(
    rt: &R,
    name: &str,
    file: &str,
    agrees: F,
) -> io::Result<()>
    requires { F.IsAlwaysCallable agrees }
{
    for (folder, before) in &FOLDERS {
        let path = format!(in rt.alloc(); "{folder}{file}")?;
        let printed = format!(in rt.alloc(); "{before}{name}")?;
        run(
            rt,
            printed.as_str(),
            path.as_str(),
            |line| Ok(agrees(Fields::of(line).past_name()).is_ok()),
        )?;
    }
    Ok(())
}
