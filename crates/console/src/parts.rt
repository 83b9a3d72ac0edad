// What the programs make of their input that write a part of a job.
ghost use Rattle.std.specs.Prelude.{◌≡◌, ◌++◌, ◌+◌, ◌≤◌, ◌<◌, ◌^◌, true, false, cond, eqb, length, drop};
ghost use Rattle.listing.specs.Answer.{listing_room};
ghost use Rattle.console.specs.Parts.{made, printed, line_in, answer_from, register_end, scheme_end, built_scheme, certificate_after};

use builder::feedcheck_build;
use listing::Listing;
use plain::feedcheck_plain;
use register::{open_register, read_register};
use scheme::read_scheme;
use wire::WriterAnswer;

// What a program makes of its input, at the front of a text: so many bytes of what it was asked for or, in place of a part that is not
// to be had, of the line of a refusal.
#[derive(Clone, Copy, Debug, PartialEq, Eq)]
pub struct Made {
    pub count: usize,
    pub refused: bool,
}

impl Made {
    // Lines, which are what was asked for also where one tells of a refusal.
    pub fn lines(count: usize) -> Made
        ensures { result ≡ record { count = count; refused = false } }
    {
        Made {
            count,
            refused: false,
        }
    }
}

// Puts the line of a refusal that a writing call answered; of a part that it wrote the text has the bytes already.
fn made_of(answer: WriterAnswer, text: &mut [u8]) -> Made
    requires position_bound { answer.position < 2 ^ 63 }
    requires room { listing_room ≤ length text.old }
    requires written { answer.count ≤ listing_room }
    ensures value { result ≡ record { count = cond (eqb answer.number 0) answer.count (length (line_in answer)); refused = cond (eqb answer.number 0) false true } }
    ensures text_after { text.new ≡ line_in answer ++ drop (length (line_in answer)) text.old }
    ensures within { result.count ≤ length text.new }
{
    if answer.number == 0 {
        return Made {
            count: answer.count,
            refused: false,
        };
    }
    let mut listing = Listing::empty();
    listing.put_refusal(answer.number, answer.position);
    Made {
        count: listing.write_to(text),
        refused: true,
    }
}

// The scheme that the builder makes for a register, or the line of a refusal, at the front of the lent text.
pub fn scheme_of(register: &[u8], text: &mut [u8]) -> Made
    requires { listing_room ≤ length text.old }
    ensures value { result ≡ made (built_scheme register.now) }
    ensures text_after { text.new ≡ printed (built_scheme register.now) ++ drop result.count text.old }
    ensures within { result.count ≤ length text.new }
{
    let answer = feedcheck_build(register, text);
    made_of(answer, text)
}

// An answer whose positions in parts 2 and 4 are counted from the start of part 1, by where these two parts start.
fn counted_from(two: usize, four: usize, answer: WriterAnswer) -> WriterAnswer
    requires { (two + answer.position < 2 ^ 64) × (four + answer.position < 2 ^ 64) }
    ensures { result ≡ answer_from two four answer }
{
    let from = match answer.part {
        2 => two,
        4 => four,
        _ => 0,
    };
    WriterAnswer {
        position: from + answer.position,
        ..answer
    }
}

// Where part 1 ends in its bytes and those of the parts behind it. One that is refused has all of them.
fn end_of_register(parts: &[u8]) -> usize
    ensures value { result ≡ register_end parts.now }
    ensures within { result ≤ length parts.now }
{
    match read_register(parts) {
        Ok(read) => read.end,
        Err(_) => parts.len(),
    }
}

// Where part 2 ends in its bytes and those of a plan, which stands behind it where the register has a range. One that is refused has all
// of them.
fn end_of_scheme(register: &[u8], rest: &[u8]) -> usize
    ensures value { result ≡ scheme_end register.now rest.now }
    ensures within { result ≤ length rest.now }
{
    match open_register(register) {
        Ok(register) if register.has_range() => match read_scheme(rest, &register) {
            Ok(read) => read.end,
            Err(_) => rest.len(),
        },
        _ => rest.len(),
    }
}

// The certificate of our own for a register and the scheme that stands straight after it, and for the plan behind these where the register
// has a range; or the line of a refusal: at the front of the lent text. Positions are counted from the start of all.
pub fn certificate_of(parts: &[u8], text: &mut [u8]) -> Made
    requires { listing_room ≤ length text.old }
    ensures value { result ≡ made (certificate_after parts.now) }
    ensures text_after { text.new ≡ printed (certificate_after parts.now) ++ drop result.count text.old }
    ensures within { result.count ≤ length text.new }
{
    let two = end_of_register(parts);
    let register = &parts[..two];
    let rest = &parts[two..];
    let end = end_of_scheme(register, rest);
    let answer = feedcheck_plain(register, &rest[..end], &rest[end..], text);
    made_of(counted_from(two, two + end, answer), text)
}
