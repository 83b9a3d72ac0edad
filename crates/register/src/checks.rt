// The refusal of each of the register's commands, by what has been read before it. They are told apart by a `match` on their byte, as the
// format names them.
ghost use Rattle.std.specs.Prelude.{◌≡◌, [], ◌∷◌, not, ◌||◌, ltb, leb, eqb, ◌<◌, ◌≤◌, ◌-◌, ◌^◌, length, get_or};
ghost use Rattle.integers.specs.Lists.{comes_before};
ghost use Rattle.wire.specs.Checks.{refusal};
ghost use Rattle.wire.specs.Part.{checks_at, size};
ghost use Rattle.wire.specs.Results.{number_in};
ghost use Rattle.wire.specs.Rows.{is_among, row_of};
ghost use Rattle.register.specs.Limits.{max_choices, max_terms, max_windows};
ghost use Rattle.register.specs.Register.{window_tank, window_from};
ghost use Rattle.register.specs.Format.{base_checks, choice_checks, term_checks, window_checks, row_checks, range_checks, length_checks, end_checks, register_rows, register_part};
ghost use Rattle.register.specs.Answer.{Given};

use super::Register;
use super::rows::past_zero;
use super::windows::may_feed;
use wire::{FromBytes, Refusal, check_command, refuse_if};

// A base cost.
#[tactic(auto, unfolding(wire::specs::Checks::refusal, crate::specs::Format::base_checks))]
fn base_refusal(base: i32) -> Result<(), Refusal>
    ensures { number_in result ≡ refusal (base_checks base) }
{
    refuse_if(
        Register::MAX_BASE < base.unsigned_abs(),
        Refusal::OutOfRange,
    )
}

// A tank with a second number does not come after the last of n others: by tank, then by the second number.
#[tactic(auto, unfolding(integers::specs::Lists::comes_before))]
fn pair_falls(n: usize, tank0: u16, second0: u16, tank: u16, second: u16) -> bool
    ensures { result ≡ not (eqb n 0 || comes_before (tank0 ∷ second0 ∷ []) (tank ∷ second ∷ [])) }
{
    !((n == 0) | ((tank0, second0) < (tank, second)))
}

// A choice after those of the register; `may` where its tank may be fed then.
#[tactic(auto, unfolding(wire::specs::Checks::refusal, crate::specs::Format::choice_checks))]
fn choice_refusal(register: &Register, tank: u16, minute: u16, may: bool) -> Result<(), Refusal>
    requires { register.now.choices ≤ max_choices }
    ensures { let r = register.now in let i = r.choices - 1 in number_in result ≡ refusal (choice_checks r.day_length r.choices (get_or r.tanks i 0) (get_or r.minutes i 0) tank minute may) }
{
    let n = register.choices;
    let i = n.saturating_sub(1);
    let out = (tank == 0) | (Register::MAX_TANK < tank) | (register.day_length <= minute);
    let falls = pair_falls(n, register.tanks[i], register.minutes[i], tank, minute);
    refuse_if(Register::MAX_CHOICES <= n, Refusal::TooMany)?;
    refuse_if(out, Refusal::OutOfRange)?;
    refuse_if(falls, Refusal::NotRising)?;
    refuse_if(!may, Refusal::OutsideWindows)
}

// A mask names no choice, or one that is not there.
#[tactic(auto)]
fn names_none(register: &Register, mask: u64) -> bool
    requires { register.now.choices ≤ max_choices }
    ensures { result ≡ (eqb mask 0 || leb (2 ^ register.now.choices) mask) }
{
    (mask == 0) | (1u64 << register.choices <= mask)
}

// A mask does not come after that of the last term.
#[tactic(auto)]
fn mask_falls(register: &Register, mask: u64) -> bool
    requires { register.now.terms ≤ max_terms }
    ensures { let r = register.now in result ≡ not (eqb r.terms 0 || ltb (get_or r.masks (r.terms - 1) 0) mask) }
{
    let m = register.terms;
    !((m == 0) | (register.masks[m.saturating_sub(1)] < mask))
}

// A term after those of the register.
#[tactic(auto, unfolding(wire::specs::Checks::refusal, crate::specs::Format::term_checks))]
fn term_refusal(register: &Register, mask: u64, coefficient: i32) -> Result<(), Refusal>
    requires { (register.now.choices ≤ max_choices) × (register.now.terms ≤ max_terms) }
    ensures { let r = register.now in number_in result ≡ refusal (term_checks r.choices r.terms (get_or r.masks (r.terms - 1) 0) mask coefficient) }
{
    let size = coefficient.unsigned_abs();
    let outside = (size == 0) | (Register::MAX_COEFFICIENT < size);
    refuse_if(Register::MAX_TERMS <= register.terms, Refusal::TooMany)?;
    refuse_if(outside, Refusal::OutOfRange)?;
    refuse_if(names_none(register, mask), Refusal::NotThere)?;
    refuse_if(mask_falls(register, mask), Refusal::NotRising)
}

// A term with a range, after those of the register.
#[tactic(auto, unfolding(wire::specs::Checks::refusal, crate::specs::Format::range_checks))]
fn range_refusal(register: &Register, mask: u64, low: i32, high: i32) -> Result<(), Refusal>
    requires { (register.now.choices ≤ max_choices) × (register.now.terms ≤ max_terms) }
    ensures { let r = register.now in number_in result ≡ refusal (range_checks r.choices r.terms (get_or r.masks (r.terms - 1) 0) mask low high) }
{
    let outside = (Register::MAX_COEFFICIENT < low.unsigned_abs())
        | (Register::MAX_COEFFICIENT < high.unsigned_abs());
    refuse_if(Register::MAX_TERMS <= register.terms, Refusal::TooMany)?;
    refuse_if(outside, Refusal::OutOfRange)?;
    refuse_if(names_none(register, mask), Refusal::NotThere)?;
    refuse_if(high < low, Refusal::Misordered)?;
    refuse_if(mask_falls(register, mask), Refusal::NotRising)
}

// A window after those of the register.
#[tactic(auto, unfolding(wire::specs::Checks::refusal, crate::specs::Format::window_checks))]
fn window_refusal(register: &Register, tank: u16, from: u16, to: u16) -> Result<(), Refusal>
    requires { register.now.windows ≤ max_windows }
    ensures { let r = register.now in let j = r.windows - 1 in number_in result ≡ refusal (window_checks r.day_length r.windows (window_tank r j) (window_from r j) tank from to) }
{
    let k = register.windows;
    let j = k.saturating_sub(1);
    let length = register.day_length;
    let out = (tank == 0)
        | (Register::MAX_TANK < tank)
        | (length <= from)
        | (to == 0)
        | (length < to);
    let tank0 = register.window_tanks[j];
    let from0 = register.window_froms[j];
    let falls = pair_falls(k, tank0, from0, tank, from);
    refuse_if(Register::MAX_WINDOWS <= k, Refusal::TooMany)?;
    refuse_if(out, Refusal::OutOfRange)?;
    refuse_if(to <= from, Refusal::Misordered)?;
    refuse_if(falls, Refusal::NotRising)
}

// A row after k others; `zeros` where its entries past the choices are 0.
#[tactic(auto, unfolding(wire::specs::Checks::refusal, crate::specs::Format::row_checks))]
fn row_refusal(k: usize, total: i16, zeros: bool) -> Result<(), Refusal>
    ensures { number_in result ≡ refusal (row_checks k total zeros) }
{
    let out = Register::MAX_ROW_TOTAL < total.unsigned_abs();
    refuse_if(Register::MAX_ROWS <= k, Refusal::TooMany)?;
    refuse_if(out, Refusal::OutOfRange)?;
    refuse_if(!zeros, Refusal::NotThere)
}

// A day length: one of three, each of which is a limit with a name.
#[tactic(auto, unfolding(wire::specs::Checks::refusal, crate::specs::Format::length_checks))]
fn length_refusal(length: u16) -> Result<(), Refusal>
    ensures { number_in result ≡ refusal (length_checks length) }
{
    let known = (length == Register::SHORT_DAY)
        | (length == Register::USUAL_DAY)
        | (length == Register::LONG_DAY);
    refuse_if(!known, Refusal::OutOfRange)
}

// The end after n choices.
#[tactic(auto, unfolding(wire::specs::Checks::refusal, crate::specs::Format::end_checks))]
fn end_refusal(n: usize) -> Result<(), Refusal>
    ensures { number_in result ≡ refusal (end_checks n) }
{
    refuse_if(n == 0, Refusal::TooMany)
}

// A command may stand directly after another, or first where that is 0.
#[tactic(auto, unfolding(wire::specs::Rows::row_of))]
fn stands_after(previous: u8, command: u8) -> bool
    ensures { result ≡ is_among previous (row_of register_rows command).follows }
{
    match command {
        0x10 => previous == 0,
        0x11 => [0x10, 0x11, 0x13, 0x18].contains(&previous),
        0x12 | 0x15 | 0x16 | 0x1f => {
            [0x10, 0x11, 0x12, 0x13, 0x14, 0x15, 0x16, 0x18].contains(&previous)
        }
        0x13 => [0x10, 0x13, 0x18].contains(&previous),
        0x14 => [0x10, 0x11, 0x13, 0x14, 0x18].contains(&previous),
        0x18 => previous == 0x10,
        _ => false,
    }
}

// How many bytes each command has: its own byte and its operands.

pub const BASE_SIZE: usize = 1 + 4;

pub const CHOICE_SIZE: usize = 1 + 2 + 2;

pub const TERM_SIZE: usize = 1 + 4 + 4;

pub const WINDOW_SIZE: usize = 1 + 2 + 2 + 2;

pub const ROW_SIZE: usize = 1 + 2 + Register::ROW_ENTRIES;

pub const WIDE_TERM_SIZE: usize = 1 + 8 + 4;

pub const RANGE_SIZE: usize = 1 + 4 + 4 + 4;

pub const LENGTH_SIZE: usize = 1 + 2;

// The bytes of a command.
#[tactic(auto, unfolding(wire::specs::Rows::row_of, wire::specs::Part::total))]
pub fn command_size(command: u8) -> usize
    ensures { result ≡ size register_part command }
{
    match command {
        0x10 => BASE_SIZE,
        0x11 => CHOICE_SIZE,
        0x12 => TERM_SIZE,
        0x13 => WINDOW_SIZE,
        0x14 => ROW_SIZE,
        0x15 => WIDE_TERM_SIZE,
        0x16 => RANGE_SIZE,
        0x18 => LENGTH_SIZE,
        _ => 1,
    }
}

// The command at a position, by the register so far and the byte of the last command; the first `passed` windows are of tanks below the
// last choice's. Place and size first, then its operands.
pub fn refusal_at(
    bytes: &[u8],
    at: usize,
    register: &Register,
    previous: u8,
    passed: usize,
) -> Result<(), Refusal>
    requires at_in_bounds { at < length bytes.now }
    requires given { Given register.now passed }
    ensures { number_in result ≡ refusal (checks_at register_part bytes.now (record { previous = previous; parsed = register.now }) at) }
{
    let command = bytes[at];
    check_command(
        stands_after(previous, command),
        bytes.len() - at,
        command_size(command),
    )?;
    match command {
        0x10 => base_refusal(i32::read(bytes, at + 1)),
        0x11 => {
            let tank = u16::read(bytes, at + 1);
            let minute = u16::read(bytes, at + 1 + 2);
            let may = may_feed(register, passed, tank, minute);
            choice_refusal(register, tank, minute, may)
        }
        0x12 => {
            let mask = u64::from(u32::read(bytes, at + 1));
            let coefficient = i32::read(bytes, at + 1 + 4);
            term_refusal(register, mask, coefficient)
        }
        0x13 => {
            let tank = u16::read(bytes, at + 1);
            let from = u16::read(bytes, at + 1 + 2);
            let to = u16::read(bytes, at + 1 + 2 + 2);
            window_refusal(register, tank, from, to)
        }
        0x14 => {
            let total = i16::read(bytes, at + 1);
            let zeros = past_zero(bytes, at + 1 + 2, register.choices);
            row_refusal(register.rows, total, zeros)
        }
        0x15 => {
            let mask = u64::read(bytes, at + 1);
            let coefficient = i32::read(bytes, at + 1 + 8);
            term_refusal(register, mask, coefficient)
        }
        0x16 => {
            let mask = u64::from(u32::read(bytes, at + 1));
            let low = i32::read(bytes, at + 1 + 4);
            let high = i32::read(bytes, at + 1 + 4 + 4);
            range_refusal(register, mask, low, high)
        }
        0x18 => length_refusal(u16::read(bytes, at + 1)),
        _ => end_refusal(register.choices),
    }
}
