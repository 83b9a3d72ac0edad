// Part 1 of the job file, the register: the day's length, the choices of a plan, the terms of its cost, some with ranges, the windows of
// its tanks and the rows, which fix totals.

#![tactic(auto)]

mod checks;
mod rows;
pub mod walk;
mod windows;

ghost use Rattle.std.specs.Prelude.{◌≡◌, ◌≤◌};
ghost use Rattle.wire.specs.Outcome.{added_by};
ghost use Rattle.wire.specs.Results.{number_of, reading_of, outcome_of};
ghost use Rattle.register.specs.Limits.{max_terms};
ghost use Rattle.register.specs.Register.{fresh, has_range};
ghost use Rattle.register.specs.Format.{register_in_job, register_by_itself};
ghost use Rattle.register.specs.Opening.{open_register};
ghost use Rattle.register.specs.Answer.{filled_of, register_answer};

pub use checks::{BASE_SIZE, CHOICE_SIZE, TERM_SIZE};
use checks::{LENGTH_SIZE, RANGE_SIZE, ROW_SIZE, WIDE_TERM_SIZE, WINDOW_SIZE, refusal_at};
use rows::put_entries;
use windows::pass_windows;
use wire::{Fault, FromBytes, Read, Refusal, Refused, by_itself};

// The record that the register's bytes give, laid out for C: arrays, each with its count. Entries past the counts are 0. The entries
// of all rows stand one after the other, those of each row by choice.
#[repr(C)]
#[derive(Clone, Copy, Debug, PartialEq, Eq)]
pub struct Register {
    pub base: i32,
    pub day_length: u16,
    pub choices: usize,
    pub terms: usize,
    pub tanks: [u16; Register::MAX_CHOICES],
    pub minutes: [u16; Register::MAX_CHOICES],
    pub masks: [u64; Register::MAX_TERMS],
    // Of a range the low coefficient.
    pub coefficients: [i32; Register::MAX_TERMS],
    // Of a term without a range the coefficient once more.
    pub highs: [i32; Register::MAX_TERMS],
    // The term has a range, be its two coefficients equal.
    pub ranged: [bool; Register::MAX_TERMS],
    pub windows: usize,
    pub window_tanks: [u16; Register::MAX_WINDOWS],
    pub window_froms: [u16; Register::MAX_WINDOWS],
    pub window_tos: [u16; Register::MAX_WINDOWS],
    pub rows: usize,
    pub row_totals: [i16; Register::MAX_ROWS],
    pub row_entries: [i8; Register::MAX_ROWS * Register::ROW_ENTRIES],
}

// The answer of the call: a refusal's number, part and position, or zeros and the register. C reads it, so the number stands beside
// the register.
#[repr(C)]
#[derive(Clone, Copy, Debug, PartialEq, Eq)]
pub struct RegisterAnswer {
    pub number: u8,
    pub part: u8,
    pub position: usize,
    pub register: Register,
}

impl Register {
    pub const MAX_CHOICES: usize = 48;

    pub const MAX_TERMS: usize = 256;

    pub const MAX_WINDOWS: usize = 64;

    pub const MAX_ROWS: usize = 8;

    // The entries of a row, one for each of the choices 0 to 31.
    pub const ROW_ENTRIES: usize = 32;

    // The largest magnitude of the base cost.
    pub const MAX_BASE: u32 = 1_000_000_000;

    pub const MAX_TANK: u16 = 9_999;

    // The largest magnitude of a coefficient.
    pub const MAX_COEFFICIENT: u32 = 1_000_000;

    // The largest magnitude of a row's total.
    pub const MAX_ROW_TOTAL: u16 = 4_064;

    // The minutes of a day: when the clocks go forward, on a usual day, which is meant where no length is said, and when they go
    // back.
    pub const SHORT_DAY: u16 = 1_380;

    pub const USUAL_DAY: u16 = 1_440;

    pub const LONG_DAY: u16 = 1_500;

    // Each record has a function that makes a fresh one, since each has fields of its own.
    pub fn fresh() -> Register
        ensures { result ≡ fresh }
    {
        Register {
            base: 0,
            day_length: 0,
            choices: 0,
            terms: 0,
            tanks: [0; Register::MAX_CHOICES],
            minutes: [0; Register::MAX_CHOICES],
            masks: [0; Register::MAX_TERMS],
            coefficients: [0; Register::MAX_TERMS],
            highs: [0; Register::MAX_TERMS],
            ranged: [false; Register::MAX_TERMS],
            windows: 0,
            window_tanks: [0; Register::MAX_WINDOWS],
            window_froms: [0; Register::MAX_WINDOWS],
            window_tos: [0; Register::MAX_WINDOWS],
            rows: 0,
            row_totals: [0; Register::MAX_ROWS],
            row_entries: [0; Register::MAX_ROWS * Register::ROW_ENTRIES],
        }
    }

    // A term has a range.
    pub fn has_range(&self) -> bool
        requires { self.now.terms ≤ max_terms }
        ensures { result ≡ has_range self.now }
    {
        for t in 0..self.terms {
            if self.ranged[t] {
                return true;
            }
        }
        false
    }
}

impl RegisterAnswer {
    fn from_fault(fault: Fault) -> RegisterAnswer
        ensures { result ≡ record { number = number_of fault.refusal; part = fault.part; position = fault.position; register = fresh } }
    {
        RegisterAnswer {
            number: fault.refusal.number(),
            part: fault.part,
            position: fault.position,
            register: Register::fresh(),
        }
    }
}

// The register at the front of a run of bytes.
pub fn read_register(bytes: &[u8]) -> Result<Read<Register>, Refused>
    ensures { reading_of result ≡ added_by (λ r. r) (register_in_job bytes.now) }
{
    let mut register = Register::fresh();
    let end = fill_register(bytes, &mut register)?;
    Ok(Read {
        value: register,
        end,
    })
}

// The register at the front of a run of bytes, put into a fresh record that is lent, so that no result carries it. Returns where it
// ends. The reader of each part has a loop of its own: one over a trait takes a hundred lines more for the three, and 8 per cent more
// time for a register without windows. The laws of such a loop stand once, in `wire`.
fn fill_register(bytes: &[u8], register: &mut Register) -> Result<usize, Refused>
    requires starts { register.old ≡ fresh }
    ensures { filled_of result register.new ≡ added_by (λ r. r) (register_in_job bytes.now) }
{
    // The byte of the last command, or 0 before the first, as in the definition of what follows what.
    let mut previous: u8 = 0;
    let mut at: usize = 0;
    // How many windows are of tanks below the last choice's.
    let mut passed: usize = 0;
    // No range steps over commands, which differ in size.
    while at < bytes.len() {
        refusal_at(bytes, at, register, previous, passed).map_err(|refusal| Refused {
            refusal,
            position: at,
        })?;
        let command = bytes[at];
        match command {
            0x10 => {
                register.base = i32::read(bytes, at + 1);
                register.day_length = Register::USUAL_DAY;
                previous = 0x10;
                at += BASE_SIZE;
            }
            0x11 => {
                let n = register.choices;
                let tank = u16::read(bytes, at + 1);
                register.tanks[n] = tank;
                register.minutes[n] = u16::read(bytes, at + 1 + 2);
                register.choices = n + 1;
                passed = pass_windows(register, passed, tank);
                previous = 0x11;
                at += CHOICE_SIZE;
            }
            0x12 => {
                let m = register.terms;
                let coefficient = i32::read(bytes, at + 1 + 4);
                register.masks[m] = u64::from(u32::read(bytes, at + 1));
                register.coefficients[m] = coefficient;
                register.highs[m] = coefficient;
                register.terms = m + 1;
                previous = 0x12;
                at += TERM_SIZE;
            }
            0x13 => {
                let k = register.windows;
                register.window_tanks[k] = u16::read(bytes, at + 1);
                register.window_froms[k] = u16::read(bytes, at + 1 + 2);
                register.window_tos[k] = u16::read(bytes, at + 1 + 2 + 2);
                register.windows = k + 1;
                previous = 0x13;
                at += WINDOW_SIZE;
            }
            0x14 => {
                let row = register.rows;
                register.row_totals[row] = i16::read(bytes, at + 1);
                put_entries(
                    &mut register.row_entries,
                    row * Register::ROW_ENTRIES,
                    bytes,
                    at + 1 + 2,
                );
                register.rows = row + 1;
                previous = 0x14;
                at += ROW_SIZE;
            }
            0x15 => {
                let m = register.terms;
                let coefficient = i32::read(bytes, at + 1 + 8);
                register.masks[m] = u64::read(bytes, at + 1);
                register.coefficients[m] = coefficient;
                register.highs[m] = coefficient;
                register.terms = m + 1;
                previous = 0x15;
                at += WIDE_TERM_SIZE;
            }
            0x16 => {
                let m = register.terms;
                register.masks[m] = u64::from(u32::read(bytes, at + 1));
                register.coefficients[m] = i32::read(bytes, at + 1 + 4);
                register.highs[m] = i32::read(bytes, at + 1 + 4 + 4);
                register.ranged[m] = true;
                register.terms = m + 1;
                previous = 0x16;
                at += RANGE_SIZE;
            }
            0x18 => {
                register.day_length = u16::read(bytes, at + 1);
                previous = 0x18;
                at += LENGTH_SIZE;
            }
            _ => {
                return Ok(at + 1);
            }
        }
    }
    Err(Refused {
        refusal: Refusal::CutShort,
        position: at,
    })
}

// The register as a run of bytes by itself, for calls that open it as part 1.
pub fn open_register(bytes: &[u8]) -> Result<Register, Fault>
    ensures { outcome_of result ≡ open_register bytes.now }
{
    by_itself(bytes, 1, read_register(bytes))
}

// The register as a run of bytes by itself. It is read where the answer is made of it: by way of `open_register` the record is cleared
// and copied more often, which takes a small register three times as long.
#[unsafe(no_mangle)]
pub extern "C" fn feedcheck_register(bytes: &[u8]) -> RegisterAnswer
    ensures { result ≡ register_answer (register_by_itself bytes.now) }
{
    let mut register = Register::fresh();
    let end = match fill_register(bytes, &mut register) {
        Ok(end) => end,
        Err(refused) => return RegisterAnswer::from_fault(refused.in_part(1)),
    };
    if end < bytes.len() {
        return RegisterAnswer::from_fault(Fault {
            refusal: Refusal::PastEnd,
            part: 1,
            position: end,
        });
    }
    RegisterAnswer {
        number: 0,
        part: 0,
        position: 0,
        register,
    }
}
