// What the programs do: `feedcheck` reads a job and prints its lines, `supplier_view` reads a job and prints the lines that its
// supplier may read, and `cheapest` reads a register and prints its cheapest plan. `build_scheme` reads a register and writes a scheme,
// and `own_certificate` reads a register and a scheme, and a plan where the register has a range, and writes a certificate.

#![tactic(auto)]

pub mod parts;
pub mod streams;

ghost use Rattle.std.specs.Prelude.{◌≡◌, ◌++◌, ◌+◌, ◌^◌, ◌≤◌, ◌<◌, IfSome, length, drop};
ghost use Rattle.std.specs.Io.KnownBytes.{Appends};
ghost use Rattle.wire.specs.Outcome.{accepts};
ghost use Rattle.register.specs.Limits.{max_choices};
ghost use Rattle.job.specs.Outcome.{outcome};
ghost use Rattle.listing.specs.Listing.{listing, supplier_listing};
ghost use Rattle.listing.specs.Answer.{listing_room};
ghost use Rattle.console.specs.Feedcheck.{tally_after};
ghost use Rattle.console.specs.Cheapest.{search_lines, cheapest_lines, cheapest_room};
ghost use Rattle.console.specs.Parts.{built_scheme, certificate_after};
ghost use Rattle.console.specs.Printing.{Prints};

use forms::WorkingTable;
use job::{Tally, feedcheck_job};
use listing::{Listing, feedcheck_listing, feedcheck_supplier_listing};
use parts::{Made, certificate_of, scheme_of};
use register::{Register, feedcheck_register};
use search::{SearchAnswer, feedcheck_search};
use std::io;
use std::io::{Read, Write};
use std::process::ExitCode;
use streams::{print_made, run};

// The visit limit of `cheapest`: a search that would visit more partial plans is refused.
pub const MAX_VISITS: u32 = 100_000_000;

// The supplier of the job that `feedcheck` reads.
pub const SUPPLIER: u8 = 0;

// What `feedcheck` makes of a job: the count of the bytes of its lines, and the tally with it counted, which nothing shows.
#[derive(Clone, Copy, Debug, PartialEq, Eq)]
pub struct Checked {
    pub count: usize,
    pub tally: Tally,
}

// Counts a job in a fresh tally, and writes its lines at the front of the lent text.
pub fn lines_of(job: &[u8], text: &mut [u8]) -> Checked
    requires { listing_room ≤ length text.old }
    ensures value { result.count ≡ length (listing (outcome job.now)) }
    ensures tally_after { result.tally ≡ tally_after job.now }
    ensures text_after { text.new ≡ listing (outcome job.now) ++ drop result.count text.old }
    ensures within { result.count ≤ length text.new }
{
    let mut table = [0; WorkingTable::NUMBERS];
    let counted = feedcheck_job(job, &mut table, SUPPLIER, Tally::fresh());
    let answer = feedcheck_listing(job, &mut table, text);
    Checked {
        count: answer.count,
        tally: counted.tally,
    }
}

// Writes the lines of a job that its supplier may read at the front of the lent text. Returns their count of bytes.
pub fn supplier_lines(job: &[u8], text: &mut [u8]) -> usize
    requires { listing_room ≤ length text.old }
    ensures value { result ≡ length (supplier_listing (outcome job.now)) }
    ensures text_after { text.new ≡ supplier_listing (outcome job.now) ++ drop result text.old }
    ensures within { result ≤ length text.new }
{
    let mut table = [0; WorkingTable::NUMBERS];
    let answer = feedcheck_supplier_listing(job, &mut table, text);
    answer.count
}

// Puts the lines of what the search call answered for a register.
fn put_search(register: Register, answer: SearchAnswer, listing: &mut Listing)
    requires choices_le_max_choices { register.choices ≤ max_choices }
    requires position_bound { answer.position < 2 ^ 63 }
    requires room { length listing.old + length (search_lines register answer) ≤ listing_room }
    ensures { listing.new ≡ listing.old ++ search_lines register answer }
{
    if answer.number == 0 {
        listing.put_fed(register, answer.plan);
        listing.put_line(0x53, &[answer.cost, i64::from(answer.visits)]);
    } else {
        listing.put_refusal(answer.number, answer.position);
    }
}

// The lines of a register's cheapest plan, at the front of the lent text. Returns their count of bytes.
pub fn cheapest_lines(register: &[u8], limit: u32, text: &mut [u8]) -> usize
    requires { cheapest_room ≤ length text.old }
    ensures value { result ≡ length (cheapest_lines register.now limit) }
    ensures text_after { text.new ≡ cheapest_lines register.now limit ++ drop result text.old }
    ensures within { result ≤ length text.new }
{
    let answer = feedcheck_search(register, limit);
    let read = feedcheck_register(register);
    let mut listing = Listing::empty();
    put_search(read.register, answer, &mut listing);
    listing.write_to(text)
}

// The programs over any streams. What the input leads to stands in fewer bytes than are read, so what stands past these makes no
// difference (`decided` in proofs/Prefix).

// Reads a job and prints its lines.
pub fn print_listing<R: Read, W: Write, E: Write>(
    input: &mut R,
    output: &mut W,
    errors: &mut E,
) -> io::Result<u8>
    ensures { IfSome (R.remaining input.old) (λ job. Prints result
        (Appends (W.contents output.old) (W.contents output.new))
        (Appends (E.contents errors.old) (E.contents errors.new))
        (accepts (listing (outcome job)))) }
{
    print_made(
        input,
        output,
        errors,
        |job, text| Made::lines(lines_of(job, text).count),
    )
}

// Reads a job and prints the lines that its supplier may read.
pub fn print_supplier_listing<R: Read, W: Write, E: Write>(
    input: &mut R,
    output: &mut W,
    errors: &mut E,
) -> io::Result<u8>
    ensures { IfSome (R.remaining input.old) (λ job. Prints result
        (Appends (W.contents output.old) (W.contents output.new))
        (Appends (E.contents errors.old) (E.contents errors.new))
        (accepts (supplier_listing (outcome job)))) }
{
    print_made(
        input,
        output,
        errors,
        |job, text| Made::lines(supplier_lines(job, text)),
    )
}

// Reads a register and prints its cheapest plan.
pub fn print_cheapest<R: Read, W: Write, E: Write>(
    input: &mut R,
    output: &mut W,
    errors: &mut E,
    limit: u32,
) -> io::Result<u8>
    ensures { IfSome (R.remaining input.old) (λ register. Prints result
        (Appends (W.contents output.old) (W.contents output.new))
        (Appends (E.contents errors.old) (E.contents errors.new))
        (accepts (cheapest_lines register limit))) }
{
    print_made(
        input,
        output,
        errors,
        move |register, text| Made::lines(cheapest_lines(register, limit, text)),
    )
}

// Reads a register and writes the scheme that the builder makes for it.
pub fn print_scheme<R: Read, W: Write, E: Write>(
    input: &mut R,
    output: &mut W,
    errors: &mut E,
) -> io::Result<u8>
    ensures { IfSome (R.remaining input.old) (λ register. Prints result
        (Appends (W.contents output.old) (W.contents output.new))
        (Appends (E.contents errors.old) (E.contents errors.new))
        (built_scheme register)) }
{
    print_made(
        input,
        output,
        errors,
        |register, text| scheme_of(register, text),
    )
}

// Reads a register and the scheme that follows it, and writes the certificate of our own for them.
pub fn print_certificate<R: Read, W: Write, E: Write>(
    input: &mut R,
    output: &mut W,
    errors: &mut E,
) -> io::Result<u8>
    ensures { IfSome (R.remaining input.old) (λ parts. Prints result
        (Appends (W.contents output.old) (W.contents output.new))
        (Appends (E.contents errors.old) (E.contents errors.new))
        (certificate_after parts)) }
{
    print_made(
        input,
        output,
        errors,
        |parts, text| certificate_of(parts, text),
    )
}

// The programs, over the streams of the process, of whose bytes nothing is claimed.

pub fn feedcheck(rt: &HostRuntime) -> ExitCode {
    run(
        rt,
        "feedcheck < JOB",
        || print_listing(&mut rt.reader(), &mut rt.stdout(), &mut rt.stderr()),
    )
}

pub fn supplier_view(rt: &HostRuntime) -> ExitCode {
    run(
        rt,
        "supplier_view < JOB",
        || print_supplier_listing(&mut rt.reader(), &mut rt.stdout(), &mut rt.stderr()),
    )
}

pub fn cheapest(rt: &HostRuntime) -> ExitCode {
    run(
        rt,
        "cheapest < REGISTER",
        || print_cheapest(
            &mut rt.reader(),
            &mut rt.stdout(),
            &mut rt.stderr(),
            MAX_VISITS,
        ),
    )
}

pub fn build_scheme(rt: &HostRuntime) -> ExitCode {
    run(
        rt,
        "build_scheme < REGISTER > SCHEME",
        || print_scheme(&mut rt.reader(), &mut rt.stdout(), &mut rt.stderr()),
    )
}

pub fn own_certificate(rt: &HostRuntime) -> ExitCode {
    run(
        rt,
        "cat REGISTER SCHEME [PLAN] | own_certificate > CERTIFICATE",
        || print_certificate(&mut rt.reader(), &mut rt.stdout(), &mut rt.stderr()),
    )
}
