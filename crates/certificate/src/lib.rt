// Part 3 of the job file, the certificate, as far as its commands go: multipliers and squares that carry a bound.

#![tactic(auto)]

use scheme::{Quadratization, Scheme};
use wire::{FromBytes, Read, Refusal, Refused};

mod checks;
mod layout;

ghost use Rattle.std.specs.Prelude.{◌≡◌, true, pos, neg_ℤ};
ghost use Rattle.wire.specs.Outcome.{added_by};
ghost use Rattle.wire.specs.Results.{reading_of};
ghost use Rattle.scheme.specs.Sets.{SetsBelow};
ghost use Rattle.scheme.specs.Scheme.{variables};
ghost use Rattle.certificate.specs.Limits.{max_multiplier, max_row_multiplier};
ghost use Rattle.certificate.specs.Format.{commands_in_job};
ghost use Rattle.certificate.specs.Answer.{fresh_counts, fresh_square, counts_of};

use checks::refusal_at;
pub use layout::{command_size, multiplier_at, square_at};

// A certificate by its counts: scale s, target T, how many multipliers and how many squares.
#[repr(C)]
#[derive(Clone, Copy, Debug, PartialEq, Eq)]
pub struct Certificate {
    pub scale: u32,
    pub target: i64,
    pub multipliers: usize,
    pub squares: usize,
}

// A multiplier command: its byte, by which a `match` tells the kinds apart, the numbers that it names, and the multiplier m. They are
// variables; of `3B` i is a row and j a variable. Numbers that a kind does not name are 0, so that all kinds are one record.
#[derive(Clone, Copy, Debug, PartialEq, Eq)]
pub struct Multiplier {
    pub kind: u8,
    pub i: u8,
    pub j: u8,
    pub k: u8,
    pub l: u8,
    pub m: i64,
}

// A square: its weight w, and its entries v.
#[derive(Clone, Copy, Debug, PartialEq, Eq)]
pub struct Square {
    pub weight: u32,
    pub entries: [i16; Square::ENTRIES],
}

// What a multiplier command's kind asks: m is from the least to the most; what it names is there; the pairs are in order;
// the sets fit.
#[derive(Clone, Copy, Debug, PartialEq, Eq)]
pub struct Rule {
    pub least: i64,
    pub most: i64,
    pub there: bool,
    pub ordered: bool,
    pub fits: bool,
}

// What the checks of a command look at: the byte of the last command, the counts, and how many choices, variables and rows there are.
// Before the first command the byte is 0, which is no command's and stands in the rows as what may stand before the first.
#[derive(Clone, Copy, Debug, PartialEq, Eq)]
pub struct Seen {
    pub previous: u8,
    pub multipliers: usize,
    pub squares: usize,
    pub choices: usize,
    pub variables: usize,
    pub rows: usize,
}

impl Certificate {
    pub const MAX_SCALE: u32 = 1_000_000;

    // The largest magnitude of the target.
    pub const MAX_TARGET: u64 = 4_000_000_000_000_000;

    pub const MAX_MULTIPLIERS: usize = 1_024;

    pub const MAX_SQUARES: usize = 64;

    // Each record has a function that makes a fresh one, since each has fields of its own.
    pub fn fresh() -> Certificate
        ensures { result ≡ fresh_counts }
    {
        Certificate {
            scale: 0,
            target: 0,
            multipliers: 0,
            squares: 0,
        }
    }
}

impl Multiplier {
    // The largest magnitude of m.
    pub const MAX_MAGNITUDE: i64 = 1_000_000_000_000;

    // The largest magnitude of the m of a row form.
    pub const MAX_ROW_MAGNITUDE: i64 = 1_000_000_000;
}

impl Square {
    // One for each variable, and one for the constant.
    pub const ENTRIES: usize = Scheme::MAX_VARIABLES + 1;

    pub const MAX_WEIGHT: u32 = 1_000_000;

    // The largest magnitude of an entry.
    pub const MAX_ENTRY: u16 = 10_000;

    #[tactic(auto, unfolding(crate::specs::Answer::fresh_square))]
    // Each record has a function that makes a fresh one, since each has fields of its own.
    pub fn fresh() -> Square
        ensures { result ≡ fresh_square }
    {
        Square {
            weight: 0,
            entries: [0; Square::ENTRIES],
        }
    }
}

// Three rows of a table: one function of their five fields would be the record itself.
impl Rule {
    fn null_form(there: bool, ordered: bool, fits: bool) -> Rule
        ensures { result ≡ record { least = neg_ℤ (pos max_multiplier); most = pos max_multiplier; there = there; ordered = ordered; fits = fits } }
    {
        Rule {
            least: -Multiplier::MAX_MAGNITUDE,
            most: Multiplier::MAX_MAGNITUDE,
            there,
            ordered,
            fits,
        }
    }

    fn row_form(there: bool) -> Rule
        ensures { result ≡ record { least = neg_ℤ (pos max_row_multiplier); most = pos max_row_multiplier; there = there; ordered = true; fits = true } }
    {
        Rule {
            least: -Multiplier::MAX_ROW_MAGNITUDE,
            most: Multiplier::MAX_ROW_MAGNITUDE,
            there,
            ordered: true,
            fits: true,
        }
    }

    fn subtracted(there: bool) -> Rule
        ensures { result ≡ record { least = pos 0; most = pos max_multiplier; there = there; ordered = true; fits = true } }
    {
        Rule {
            least: 0,
            most: Multiplier::MAX_MAGNITUDE,
            there,
            ordered: true,
            fits: true,
        }
    }
}

// The commands at the front of a run of bytes, checked by refusals 1 to 8, with the sets of the variables.
// The reader of each part has a loop of its own: one over a trait takes a hundred lines more for the three, and 8 per cent more time
// for a register without windows. The laws of such a loop stand once, in `wire`.
fn read_with_sets(
    bytes: &[u8],
    sets: &[u64],
    quadratization: &Quadratization,
) -> Result<Read<Certificate>, Refused>
    requires { SetsBelow quadratization.now.register.choices quadratization.now.scheme (variables quadratization.now.register.choices quadratization.now.scheme) sets.now }
    ensures { reading_of result ≡ added_by counts_of (commands_in_job quadratization.now.register quadratization.now.scheme bytes.now) }
{
    let register = &quadratization.register;
    let variables = register.choices + quadratization.scheme.products;
    let mut certificate = Certificate::fresh();
    let mut previous: u8 = 0;
    let mut at: usize = 0;
    // Commands take different numbers of bytes, so each says where the next one begins.
    while at < bytes.len() {
        let seen = Seen {
            previous,
            multipliers: certificate.multipliers,
            squares: certificate.squares,
            choices: register.choices,
            variables,
            rows: register.rows,
        };
        refusal_at(bytes, at, seen, sets).map_err(|refusal| Refused {
            refusal,
            position: at,
        })?;
        let command = bytes[at];
        previous = command;
        let end = at + command_size(command);
        match command {
            0x30 => {
                certificate.scale = u32::read(bytes, at + 1);
                certificate.target = i64::read(bytes, at + 1 + 4);
            }
            0x31..=0x39 | 0x3b => {
                certificate.multipliers += 1;
            }
            0x3a => {
                certificate.squares += 1;
            }
            _ => {
                return Ok(Read {
                    value: certificate,
                    end,
                });
            }
        }
        at = end;
    }
    Err(Refused {
        refusal: Refusal::CutShort,
        position: at,
    })
}

// The commands at the front of a run of bytes, checked by refusals 1 to 8, with a register and a scheme.
pub fn read_commands(
    bytes: &[u8],
    quadratization: &Quadratization,
) -> Result<Read<Certificate>, Refused>
    ensures { reading_of result ≡ added_by counts_of (commands_in_job quadratization.now.register quadratization.now.scheme bytes.now) }
{
    let sets = scheme::sets_of(quadratization.register.choices, quadratization.scheme);
    read_with_sets(bytes, &sets, quadratization)
}
