// The checks of the scheme's commands, which are told apart by their bytes, as the format writes them.
ghost use Rattle.std.specs.Prelude.{◌≡◌, [], ◌∷◌, ◌+◌, ◌<◌, ◌≤◌, length};
ghost use Rattle.wire.specs.Checks.{refusal};
ghost use Rattle.wire.specs.Part.{checks_at, size};
ghost use Rattle.wire.specs.Results.{number_in};
ghost use Rattle.wire.specs.Rows.{Progress, is_among, row_of};
ghost use Rattle.register.specs.declared.Register.{Register};
ghost use Rattle.scheme.specs.Scheme.{variables};
ghost use Rattle.scheme.specs.Format.{factor_checks, product_checks, split_checks, end_checks, scheme_rows, scheme_part};
ghost use Rattle.scheme.specs.Sets.{SetsBelow, none_is, union_in};
ghost use Rattle.scheme.specs.Answer.{seen_of};

use super::{Scheme, Seen, union_of};
use crate::lookup::first_with;
use wire::{FromBytes, Refusal, check_command, refuse_if};

// The refusal of a factor.
#[tactic(auto, unfolding(crate::specs::Format::factor_checks, wire::specs::Checks::refusal))]
fn factor_refusal(factor: u16) -> Result<(), Refusal>
    ensures { number_in result ≡ refusal (factor_checks factor) }
{
    let outside = (factor == 0) | (Scheme::MAX_FACTOR < factor);
    refuse_if(outside, Refusal::OutOfRange)
}

// No variable below the count has this set.
fn is_new(sets: &[u64], count: usize, union: u64) -> bool
    requires { count ≤ length sets.now }
    ensures { result ≡ none_is sets.now count union }
{
    first_with(sets, count, union).is_none()
}

// The refusal of the product of variables l and r after k others, where there are n choices.
#[tactic(auto, unfolding(crate::specs::Format::product_checks, wire::specs::Checks::refusal))]
fn product_refusal(sets: &[u64], n: usize, k: usize, l: u8, r: u8) -> Result<(), Refusal>
    requires { n + k ≤ length sets.now }
    ensures { number_in result ≡ refusal (product_checks k (n + k) l r (none_is sets.now (n + k) (union_in sets.now l r))) }
{
    let count = n + k;
    let unnamed = (count <= usize::from(l)) | (count <= usize::from(r));
    let full = (Scheme::MAX_PRODUCTS <= k) | (Scheme::MAX_VARIABLES <= count);
    refuse_if(full, Refusal::TooMany)?;
    refuse_if(unnamed, Refusal::NotThere)?;
    refuse_if(r <= l, Refusal::Misordered)?;
    refuse_if(
        !is_new(sets, count, union_of(sets, l, r)),
        Refusal::SetsUnfit,
    )
}

// The refusal of the split l, r after others, for a term with this mask, where there are so many terms and variables.
#[tactic(auto, unfolding(crate::specs::Format::split_checks, wire::specs::Checks::refusal))]
fn split_refusal(
    sets: &[u64],
    terms: usize,
    splits: usize,
    count: usize,
    l: u8,
    r: u8,
    mask: u64,
) -> Result<(), Refusal>
    ensures { number_in result ≡ refusal (split_checks terms splits count l r (union_in sets.now l r) mask) }
{
    let unnamed = (count <= usize::from(l)) | (count <= usize::from(r));
    refuse_if(terms <= splits, Refusal::TooMany)?;
    refuse_if(unnamed, Refusal::NotThere)?;
    refuse_if(r < l, Refusal::Misordered)?;
    refuse_if(union_of(sets, l, r) != mask, Refusal::SetsUnfit)
}

// The refusal of an end after so many splits, where there are so many terms.
#[tactic(auto, unfolding(crate::specs::Format::end_checks, wire::specs::Checks::refusal))]
fn end_refusal(terms: usize, splits: usize) -> Result<(), Refusal>
    ensures { number_in result ≡ refusal (end_checks terms splits) }
{
    refuse_if(splits < terms, Refusal::TooMany)
}

// A product may stand directly after a command, or first where that is 0.
fn before_splits(previous: u8) -> bool
    ensures { result ≡ is_among previous (0 ∷ 0x21 ∷ 0x23 ∷ []) }
{
    (previous == 0) | ((previous == 0x21) | (previous == 0x23))
}

// A split or the end may stand directly after a command, or first where that is 0.
fn after_products(previous: u8) -> bool
    ensures { result ≡ is_among previous (0 ∷ 0x21 ∷ 0x22 ∷ 0x23 ∷ []) }
{
    (previous == 0) | ((previous == 0x21) | ((previous == 0x22) | (previous == 0x23)))
}

// A command may stand directly after another, or first where that is 0.
fn stands_after(previous: u8, command: u8) -> bool
    ensures { (reg : Register) → result ≡ is_among previous (row_of (scheme_rows reg) command).follows }
{
    match command {
        0x21 => before_splits(previous),
        0x22 => after_products(previous),
        0x23 => previous == 0,
        0x2f => after_products(previous),
        _ => false,
    }
}

// How many bytes a factor has, a product and a split: its command byte and its operands.

pub const FACTOR_SIZE: usize = 1 + 2;

pub const PRODUCT_SIZE: usize = 1 + 1 + 1;

pub const SPLIT_SIZE: usize = 1 + 1 + 1;

// The bytes of a command.
fn command_size(command: u8) -> usize
    ensures { (reg : Register) → result ≡ size (scheme_part reg) command }
{
    match command {
        0x21 => PRODUCT_SIZE,
        0x22 => SPLIT_SIZE,
        0x23 => FACTOR_SIZE,
        _ => 1,
    }
}

// The refusal of the command at a position, by what has been seen and the sets of the variables. Place and size first, then
// its operands.
pub fn refusal_at(bytes: &[u8], at: usize, seen: Seen, sets: &[u64]) -> Result<(), Refusal>
    requires at_in_bounds { at < length bytes.now }
    requires products_in_bounds { seen.choices + seen.products ≤ length sets.now }
    ensures { (reg : Register) (p : Progress Scheme) → seen_of reg p ≡ seen →
        SetsBelow reg.choices p.parsed (variables reg.choices p.parsed) sets.now →
        number_in result ≡ refusal (checks_at (scheme_part reg) bytes.now p at) }
{
    let command = bytes[at];
    check_command(
        stands_after(seen.previous, command),
        bytes.len() - at,
        command_size(command),
    )?;
    let n = seen.choices;
    let k = seen.products;
    match command {
        0x21 => {
            let l = u8::read(bytes, at + 1);
            let r = u8::read(bytes, at + 1 + 1);
            product_refusal(sets, n, k, l, r)
        }
        0x22 => {
            let l = u8::read(bytes, at + 1);
            let r = u8::read(bytes, at + 1 + 1);
            split_refusal(sets, seen.terms, seen.splits, n + k, l, r, seen.mask)
        }
        0x23 => factor_refusal(u16::read(bytes, at + 1)),
        _ => end_refusal(seen.terms, seen.splits),
    }
}
