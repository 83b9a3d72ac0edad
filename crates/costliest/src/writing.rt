// A costliest register written as bytes.
ghost use Rattle.std.specs.Prelude.{◌≡◌, ◌+◌, ◌*◌, ◌≤◌, length, pos};
ghost use Rattle.integers.specs.Lists.{join_below};
ghost use Rattle.wire.specs.Number.{written};
ghost use Rattle.wire.specs.Writer.{writer_answer, bytes_answer, with_front};
ghost use Rattle.register.specs.Encoding.{encode_base, encode_choice, encode_term};
ghost use Rattle.costliest.specs.Limits.{max_named};
ghost use Rattle.costliest.specs.Costliest.{costliest_bytes, term_mask};

use crate::shape::Shape;
use register::{BASE_SIZE, CHOICE_SIZE, TERM_SIZE};
use wire::{Fault, Refusal, ToBytes};

// Writes `10` with base cost 0.
fn put_base(out: &mut [u8])
    requires { 5 ≤ length out.old }
    ensures { out.new ≡ written out.old 0 (encode_base (pos 0)) }
{
    0x10u8.write(out, 0);
    0u32.write(out, 1);
}

// Writes `11` with tank 1.
fn put_choice(out: &mut [u8], at: usize, minute: u16)
    requires { at + 5 ≤ length out.old }
    ensures { out.new ≡ written out.old at (encode_choice 1 minute) }
{
    0x11u8.write(out, at);
    1u16.write(out, at + 1);
    minute.write(out, at + 3);
}

// Writes `12` with coefficient 1.
fn put_term(out: &mut [u8], at: usize, mask: u32)
    requires { at + 9 ≤ length out.old }
    ensures { out.new ≡ written out.old at (encode_term mask (pos 1)) }
{
    0x12u8.write(out, at);
    mask.write(out, at + 1);
    1u32.write(out, at + 5);
}

// Writes `11` for each choice, minutes from 0 up.
fn put_choices(out: &mut [u8], start: usize, count: usize)
    requires few { count ≤ max_named }
    requires room { start + 5 * count ≤ length out.old }
    ensures { out.new ≡ written out.old start (join_below count (encode_choice 1)) }
{
    for i in 0..count {
        put_choice(out, start + CHOICE_SIZE * i, i as u16);
    }
}

// Writes `12` for each term.
fn put_terms(out: &mut [u8], start: usize, shape: Shape)
    requires { start + 9 * shape.terms ≤ length out.old }
    ensures { out.new ≡ written out.old start (join_below shape.terms (λ t. encode_term (term_mask shape.terms shape.degree t) (pos 1))) }
{
    for t in 0..shape.terms {
        put_term(out, start + TERM_SIZE * t, shape.mask(t));
    }
}

// Writes the register at the front of a buffer, or nothing where it is short. How many bytes it wrote.
pub fn write_register(out: &mut [u8], shape: Shape) -> Result<usize, Fault>
    ensures answer { writer_answer result ≡ bytes_answer (costliest_bytes shape.terms shape.degree) out.old }
    ensures buffer { out.new ≡ with_front (costliest_bytes shape.terms shape.degree) out.old }
{
    let choices = shape.terms * shape.degree;
    let middle = BASE_SIZE + CHOICE_SIZE * choices;
    let end = middle + TERM_SIZE * shape.terms;
    let count = end + 1;
    if out.len() < count {
        return Err(Fault::nowhere(Refusal::TooShort));
    }
    put_base(out);
    put_choices(out, BASE_SIZE, choices);
    put_terms(out, middle, shape);
    0x1Fu8.write(out, end);
    Ok(count)
}
