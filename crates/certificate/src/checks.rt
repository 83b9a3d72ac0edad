// The checks of the certificate's commands: refusals 1 to 8.
ghost use Rattle.std.specs.Prelude.{◌≡◌, ◌<◌, ◌||◌, length, get_or, pos, nat_abs, leb, eqb};
ghost use Rattle.integers.specs.Lists.{all_below};
ghost use Rattle.sets.specs.Sets.{is_proper_subset};
ghost use Rattle.wire.specs.Checks.{refusal};
ghost use Rattle.wire.specs.Results.{number_in};
ghost use Rattle.wire.specs.Part.{checks_at};
ghost use Rattle.wire.specs.Rows.{Progress, is_among, row_of};
ghost use Rattle.register.specs.declared.Register.{Register};
ghost use Rattle.scheme.specs.Scheme.{variables};
ghost use Rattle.scheme.specs.Sets.{SetsBelow};
ghost use Rattle.certificate.specs.Limits.{max_entry};
ghost use Rattle.certificate.specs.Certificate.{Certificate as Whole};
ghost use Rattle.certificate.specs.Rules.{Rule as Ruled};
ghost use Rattle.certificate.specs.Format.{scale_checks, multiplier_checks, square_checks, any_before, certificate_rows, certificate_part};
ghost use Rattle.certificate.specs.Answer.{square_in, Known, seen_of, rule_asked, TestsOf};

use super::{Certificate, Multiplier, Rule, Seen, Square};
use scheme::Scheme;
use wire::{FromBytes, Refusal, check_command, refuse_if};

// The refusal of a scale and a target.
#[tactic(auto, unfolding(crate::specs::Format::scale_checks, wire::specs::Checks::refusal))]
fn scale_refusal(scale: u32, target: i64) -> Result<(), Refusal>
    ensures { number_in result ≡ refusal (scale_checks scale target) }
{
    let far = Certificate::MAX_TARGET < target.unsigned_abs();
    refuse_if(
        (scale == 0) | (Certificate::MAX_SCALE < scale) | far,
        Refusal::OutOfRange,
    )
}

// The set of a variable, 0 past the last, as the definitions read it.
fn set_of(sets: &[u64], v: u8) -> u64
    ensures { result ≡ get_or sets.now v 0 }
{
    sets.get(v as usize).copied().unwrap_or(0)
}

// Of masks; no type of std's is a set of bits.
#[tactic(auto, unfolding(sets::specs::Sets::is_proper_subset, sets::specs::Sets::is_subset))]
fn is_proper_subset(a: u64, b: u64) -> bool
    ensures { result ≡ is_proper_subset a b }
{
    ((b & a) == a) & (a != b)
}

// What a multiplier command's kind asks, by the sets of the variables, where there are n choices, count variables and so many rows.
// The kind is the command's byte, in ranges.
fn rule_of(sets: &[u64], n: usize, count: usize, rows: usize, t: Multiplier) -> Rule
    ensures { (reg : Register) (sch : Scheme) → Known reg sch n count rows sets.now → TestsOf (rule_asked reg sch t) result }
{
    let Multiplier {
        kind,
        i,
        j,
        k,
        l,
        ..
    } = t;
    let a = set_of(sets, i);
    let b = set_of(sets, j);
    let c = set_of(sets, k);
    let d = set_of(sets, l);
    let one = (i as usize) < count;
    let two = one & ((j as usize) < count);
    let three = two & ((k as usize) < count);
    let four = three & ((l as usize) < count);
    match kind {
        0x31 => Rule::null_form(one, true, true),
        0x32 => Rule::null_form(two, true, is_proper_subset(b, a)),
        0x33 => Rule::null_form(three, j < k, a == (b | c)),
        0x34 => Rule::null_form(four, (i < j) & (k < l), (a | b) == (c | d)),
        0x35..=0x37 => Rule::subtracted((n <= i as usize) & one),
        0x38..=0x39 => Rule::subtracted(one),
        0x3b => Rule::row_form(((i as usize) < rows) & ((j as usize) < count)),
        _ => Rule::null_form(false, false, false),
    }
}

// The refusal of a multiplier command after others.
#[tactic(auto, unfolding(crate::specs::Format::multiplier_checks, wire::specs::Checks::refusal))]
fn multiplier_refusal(multipliers: usize, rule: Rule, m: i64) -> Result<(), Refusal>
    ensures { (whole : Ruled) → TestsOf whole rule → number_in result ≡ refusal (multiplier_checks multipliers whole m) }
{
    refuse_if(
        Certificate::MAX_MULTIPLIERS <= multipliers,
        Refusal::TooMany,
    )?;
    refuse_if((m < rule.least) | (rule.most < m), Refusal::OutOfRange)?;
    refuse_if(!rule.there, Refusal::NotThere)?;
    refuse_if(!rule.ordered, Refusal::Misordered)?;
    refuse_if(!rule.fits, Refusal::SetsUnfit)
}

// The entries of a square are within their range.
fn are_within(entries: &[i16]) -> bool
    ensures { result ≡ all_below (length entries.now) (λ i. leb (nat_abs (get_or entries.now i (pos 0))) max_entry) }
{
    entries
        .iter()
        .all(|entry| entry.unsigned_abs() <= Square::MAX_ENTRY)
}

// The entries of a square past a place are zero.
fn are_zero_past(entries: &[i16], place: usize) -> bool
    ensures { result ≡ all_below (length entries.now) (λ i. leb i place || eqb (nat_abs (get_or entries.now i (pos 0))) 0) }
{
    entries
        .iter()
        .enumerate()
        .all(|(i, entry)| (i <= place) | (*entry == 0))
}

// The refusal of a square after others, where there are count variables.
#[tactic(auto, unfolding(crate::specs::Format::square_checks, wire::specs::Checks::refusal))]
fn square_refusal(squares: usize, count: usize, square: Square) -> Result<(), Refusal>
    ensures { number_in result ≡ refusal (square_checks squares count (square_in square)) }
{
    refuse_if(Certificate::MAX_SQUARES <= squares, Refusal::TooMany)?;
    let Square { weight, entries } = square;
    let out = (weight == 0) | (Square::MAX_WEIGHT < weight) | !are_within(&entries);
    refuse_if(out, Refusal::OutOfRange)?;
    refuse_if(!are_zero_past(&entries, count), Refusal::NotThere)
}

// A multiplier, a square or the end may stand here.
fn after_scale(previous: u8) -> bool
    ensures { result ≡ is_among previous any_before }
{
    matches!(previous, 0x30..=0x3b)
}

// A command may stand directly after another, or first where that is 0.
#[tactic(auto, using(crate::proofs::Rows::row_other, crate::proofs::Rows::stands_between), unfolding(wire::specs::Rows::row_of))]
fn stands_after(previous: u8, command: u8) -> bool
    ensures { (reg : Register) (sch : Scheme) → result ≡ is_among previous (row_of (certificate_rows reg sch) command).follows }
{
    match command {
        0x30 => previous == 0,
        0x31..=0x3b | 0x3f => after_scale(previous),
        _ => false,
    }
}

// The refusal of the command at a position, by what has been seen and the sets of the variables. Place and size first, then its
// operands.
pub fn refusal_at(bytes: &[u8], at: usize, seen: Seen, sets: &[u64]) -> Result<(), Refusal>
    requires { at < length bytes.now }
    ensures { (reg : Register) (sch : Scheme) (p : Progress Whole) → seen_of reg sch p ≡ seen → SetsBelow reg.choices sch (variables reg.choices sch) sets.now →
        number_in result ≡ refusal (checks_at (certificate_part reg sch) bytes.now p at) }
{
    let command = bytes[at];
    check_command(
        stands_after(seen.previous, command),
        bytes.len() - at,
        super::command_size(command),
    )?;
    match command {
        0x30 => {
            let scale = u32::read(bytes, at + 1);
            let target = i64::read(bytes, at + 1 + 4);
            scale_refusal(scale, target)
        }
        0x3a => square_refusal(seen.squares, seen.variables, super::square_at(bytes, at)),
        0x3f => Ok(()),
        _ => {
            let t = super::multiplier_at(bytes, at);
            let rule = rule_of(sets, seen.choices, seen.variables, seen.rows, t);
            multiplier_refusal(seen.multipliers, rule, t.m)
        }
    }
}
