// Standard input, output and error of a program, and its exit status.
ghost use Rattle.std.specs.Prelude.{ℕ, ◌≡◌, ◌≤◌, List, IfOk, IfSome, length, take};
ghost use Rattle.std.specs.Io.KnownBytes.{Appends};
ghost use Rattle.wire.specs.Outcome.{Outcome};
ghost use Rattle.listing.specs.Answer.{listing_room};
ghost use Rattle.console.specs.Printing.{Prints, Says, DecidedBy};

use crate::parts::Made;
use listing::Listing;
use std::env::{Env, FillError};
use std::io;
use std::io::{Read, Write};
use std::process::ExitCode;

// How many bytes of its input a program reads, and how many bytes of text it has room for. The rest of the input decides nothing
// (`decided` in proofs/Prefix).
pub const INPUT: usize = 65_536;

pub const TEXT: usize = Listing::MAX_BYTES;

// The exit status of a program that refused to write a part, and of one that could not read or write or was given arguments.
pub const REFUSED: u8 = 1;

pub const FAILED: u8 = 2;

// Reads until the buffer is full or nothing is left. Returns the count of bytes read. A read gives as many as it likes, so no `for`
// goes over the reads.
fn read_full<R: Read>(input: &mut R, buffer: &mut [u8]) -> io::Result<usize>
    ensures within { IfOk result (λ n. n ≤ length buffer.new) }
    ensures bytes { IfOk result (λ n. IfSome (R.remaining input.old) (λ xs. take n buffer.new ≡ take (length buffer.old) xs)) }
{
    let mut done: usize = 0;
    while done < buffer.len() {
        let n = input.read(&mut buffer[done..])?;
        if n == 0 {
            return Ok(done);
        }
        done += n;
    }
    Ok(done)
}

// Reads a program's input, and prints what is made of it. Returns the exit status. Where a read fails nothing is made, so nothing is
// printed. What `make` says of an input is no ghost argument, since no generic caller can give one beside a closure (in this kit).
pub fn print_made<R: Read, W: Write, E: Write, F: FnOnce(&[u8], &mut [u8; TEXT]) -> Made>(
    input: &mut R,
    output: &mut W,
    errors: &mut E,
    make: F,
) -> io::Result<u8>
    requires callable { F.IsAlwaysCallable make }
    requires within { (bytes : _) (text : _) (m : _) (after : _) → F.post make bytes text m after → m.count ≤ listing_room }
    ensures { (says : List ℕ → Outcome (List ℕ)) → Says (F.post make) says → DecidedBy INPUT says
        → IfSome (R.remaining input.old) (λ s. Prints result
        (Appends (W.contents output.old) (W.contents output.new))
        (Appends (E.contents errors.old) (E.contents errors.new))
        (says s)) }
{
    let mut bytes = [0; INPUT];
    let n = read_full(input, &mut bytes)?;
    let mut text = [0; TEXT];
    let made = make(&bytes[..n], &mut text);
    if made.refused {
        errors.write_all(&text[..made.count])?;
        return Ok(REFUSED);
    }
    output.write_all(&text[..made.count])?;
    Ok(0)
}

// Whether a program is called with arguments: the first would be a value, though one that does not fit into no bytes.
fn has_arguments(rt: &HostRuntime) -> bool {
    !matches!(rt.arg(1, &mut []), Err(FillError::NotPresent))
}

// Runs a program. With arguments it says how it is called, and reads nothing. What can't be read or written is told on standard error.
pub fn run<F: FnOnce() -> io::Result<u8>>(rt: &HostRuntime, usage: &str, print: F) -> ExitCode
    requires { F.IsAlwaysCallable print }
{
    // Where standard error can't be written either, the status alone tells.
    if has_arguments(rt) {
        let _ = eprintln!(rt; "usage: {usage}");
        return ExitCode::from(FAILED);
    }
    match print() {
        Ok(status) => ExitCode::from(status),
        Err(error) => {
            let _ = eprintln!(rt; "{usage}: {error}");
            ExitCode::from(FAILED)
        }
    }
}
