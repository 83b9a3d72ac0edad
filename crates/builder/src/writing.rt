// A scheme written as bytes.
ghost use Rattle.std.specs.Prelude.{◌≡◌, ◌++◌, ℕ, ◌+◌, ◌*◌, ◌≤◌, length, drop};
ghost use Rattle.std.proofs.lemmas.List.Edits.{sets};
ghost use Rattle.register.specs.Limits.{max_terms};
ghost use Rattle.scheme.specs.Scheme.{max_products, Lengths};
ghost use Rattle.scheme.specs.Encoding.{encode_scheme};
ghost use Rattle.wire.specs.Writer.{writer_answer, bytes_answer, with_front};
ghost use Rattle.builder.specs.Encoding.{encode_pair, encode_pairs};

use scheme::Scheme;
use wire::{Fault, Refusal, ToBytes};

// Writes a command of two operands, with its byte as the format has it. Each place is known beforehand, so no position is kept
// from one to the next.
fn put_pair(out: &mut [u8], at: usize, byte: u8, l: u8, r: u8)
    requires { at + 3 ≤ length out.old }
    ensures { out.new ≡ sets out.old at (encode_pair byte l r) }
{
    out[at] = byte;
    l.write(out, at + 1);
    r.write(out, at + 2);
}

// Writes commands of two operands, one for each of the first entries of two arrays, which stand apart as C has the scheme.
fn put_pairs<'a>(
    out: &mut [u8],
    at: usize,
    byte: u8,
    count: usize,
    lefts: &'a [u8],
    rights: &'a [u8],
)
    requires count_in_bounds { count ≤ length lefts.now }
    requires count_in_bounds_2 { count ≤ length rights.now }
    requires count_in_bounds_3 { at + 3 * count ≤ length out.old }
    ensures { out.new ≡ sets out.old at (encode_pairs byte count lefts.now rights.now) }
{
    for k in 0..count {
        put_pair(out, at + 3 * k, byte, lefts[k], rights[k]);
    }
}

// Writes a scheme at the front of a buffer.
fn put_scheme(out: &mut [u8], scheme: &Scheme)
    requires lengths { Lengths scheme.now }
    requires products_le_max_products { scheme.now.products ≤ max_products }
    requires splits_le_max_terms { scheme.now.splits ≤ max_terms }
    requires splits_in_bounds { 3 * scheme.now.products + 3 * scheme.now.splits + 1 ≤ length out.old }
    ensures { (n : ℕ) → out.new ≡ encode_scheme n scheme.now ++ drop (length (encode_scheme n scheme.now)) out.old }
{
    let middle = 3 * scheme.products;
    let end = middle + 3 * scheme.splits;
    put_pairs(out, 0, 0x21, scheme.products, &scheme.lefts, &scheme.rights);
    put_pairs(
        out,
        middle,
        0x22,
        scheme.splits,
        &scheme.split_lefts,
        &scheme.split_rights,
    );
    out[end] = 0x2f;
}

// Writes a scheme at the front of a buffer, or nothing where it is short. How many bytes it wrote.
pub fn write_scheme(out: &mut [u8], scheme: &Scheme) -> Result<usize, Fault>
    requires lengths { Lengths scheme.now }
    requires products_le_max_products { scheme.now.products ≤ max_products }
    requires splits_le_max_terms { scheme.now.splits ≤ max_terms }
    ensures answer { (n : ℕ) → writer_answer result ≡ bytes_answer (encode_scheme n scheme.now) out.old }
    ensures buffer { (n : ℕ) → out.new ≡ with_front (encode_scheme n scheme.now) out.old }
{
    let count = 3 * scheme.products + 3 * scheme.splits + 1;
    if out.len() < count {
        return Err(Fault::nowhere(Refusal::TooShort));
    }
    put_scheme(out, scheme);
    Ok(count)
}
