// The scheme, a quadratization of the cost: products of two variables, and a split for each term.

#![tactic(auto)]

mod checks;
pub mod lookup;
mod parts;
mod variable_sets;

ghost use Rattle.std.specs.Prelude.{◌≡◌};
ghost use Rattle.register.specs.Valid.{Valid};
ghost use Rattle.scheme.specs.Scheme.{fresh, initial};
ghost use Rattle.scheme.specs.Format.{scheme_in_job};
ghost use Rattle.scheme.specs.Answer.{parts_of, open_parts, refused_answer, scheme_answer};
ghost use Rattle.wire.specs.Results.{number_of, reading_of};
ghost use Rattle.wire.specs.Outcome.{added_by};

use checks::{FACTOR_SIZE, PRODUCT_SIZE, SPLIT_SIZE, refusal_at};
pub use parts::Quadratization;
use register::{Register, open_register};
use variable_sets::entry;
pub use variable_sets::{choice_sets, sets_of, union_of};
use wire::{Fault, FromBytes, Read, Refusal, Refused};

// The record that the scheme's bytes give, laid out for C: arrays, each pair with its count. Entries past the counts are 0. Products
// name their operands by number, as the format does.
#[repr(C)]
#[derive(Clone, Copy, Debug, PartialEq, Eq)]
pub struct Scheme {
    pub products: usize,
    pub splits: usize,
    pub lefts: [u8; Scheme::MAX_PRODUCTS],
    pub rights: [u8; Scheme::MAX_PRODUCTS],
    pub split_lefts: [u8; Register::MAX_TERMS],
    pub split_rights: [u8; Register::MAX_TERMS],
    pub factor: u16,
}

// What the checks of a command look at, beside the sets of the variables: the byte of the last command, or 0 before the first,
// as the format's lists of what a command may follow have it, the counts, and the mask of the term to be split.
#[derive(Clone, Copy, Debug, PartialEq, Eq)]
pub struct Seen {
    pub previous: u8,
    pub choices: usize,
    pub terms: usize,
    pub products: usize,
    pub splits: usize,
    pub mask: u64,
}

// The answer of the call, a record of C: a refusal's number, part and position, or zeros and the scheme.
#[repr(C)]
#[derive(Clone, Copy, Debug, PartialEq, Eq)]
pub struct SchemeAnswer {
    pub number: u8,
    pub part: u8,
    pub position: usize,
    pub scheme: Scheme,
}

impl Scheme {
    pub const MAX_PRODUCTS: usize = 32;

    // Choices and products together.
    pub const MAX_VARIABLES: usize = 64;

    // Of the weights.
    pub const MAX_FACTOR: u16 = 1_000;

    // Each record has a function that makes a fresh one, since each has fields of its own.
    pub fn fresh() -> Scheme
        ensures { result ≡ fresh }
    {
        Scheme {
            products: 0,
            splits: 0,
            lefts: [0; Scheme::MAX_PRODUCTS],
            rights: [0; Scheme::MAX_PRODUCTS],
            split_lefts: [0; Register::MAX_TERMS],
            split_rights: [0; Register::MAX_TERMS],
            factor: 0,
        }
    }

    // What reading begins with, and the builder: the factor is 1 where no command says another.
    pub fn initial() -> Scheme
        ensures { result ≡ initial }
    {
        let mut scheme = Scheme::fresh();
        scheme.factor = 1;
        scheme
    }
}

impl SchemeAnswer {
    fn from_fault(fault: Fault) -> SchemeAnswer
        ensures { result ≡ refused_answer (number_of fault.refusal) fault.part fault.position }
    {
        SchemeAnswer {
            number: fault.refusal.number(),
            part: fault.part,
            position: fault.position,
            scheme: Scheme::fresh(),
        }
    }
}

// The scheme at the front of a run of bytes, with a register.
// The reader of each part has a loop of its own: one over a trait takes a hundred lines more for the three, and 8 per cent more time
// for a register without windows. The laws of such a loop stand once, in `wire`.
pub fn read_scheme(bytes: &[u8], register: &Register) -> Result<Read<Scheme>, Refused>
    requires { Valid register.now }
    ensures { reading_of result ≡ added_by (λ scheme. scheme) (scheme_in_job register.now bytes.now) }
{
    let n = register.choices;
    let mut scheme = Scheme::initial();
    let mut sets = choice_sets(n);
    let mut previous: u8 = 0;
    let mut at: usize = 0;
    // Commands differ in size, so the walk goes by position.
    while at < bytes.len() {
        let k = scheme.products;
        let t = scheme.splits;
        let seen = Seen {
            previous,
            choices: n,
            terms: register.terms,
            products: k,
            splits: t,
            mask: entry(&register.masks, t),
        };
        refusal_at(bytes, at, seen, &sets).map_err(|refusal| Refused {
            refusal,
            position: at,
        })?;
        let command = bytes[at];
        match command {
            0x21 => {
                let l = u8::read(bytes, at + 1);
                let r = u8::read(bytes, at + 1 + 1);
                sets[n + k] = union_of(&sets, l, r);
                scheme.lefts[k] = l;
                scheme.rights[k] = r;
                scheme.products = k + 1;
                previous = 0x21;
                at += PRODUCT_SIZE;
            }
            0x22 => {
                scheme.split_lefts[t] = u8::read(bytes, at + 1);
                scheme.split_rights[t] = u8::read(bytes, at + 1 + 1);
                scheme.splits = t + 1;
                previous = 0x22;
                at += SPLIT_SIZE;
            }
            0x23 => {
                scheme.factor = u16::read(bytes, at + 1);
                previous = 0x23;
                at += FACTOR_SIZE;
            }
            _ => {
                return Ok(Read {
                    value: scheme,
                    end: at + 1,
                });
            }
        }
    }
    Err(Refused {
        refusal: Refusal::CutShort,
        position: at,
    })
}

// Parts 1 and 2, each a run of bytes by itself.
pub fn open_parts(register: &[u8], scheme: &[u8]) -> Result<Quadratization, Fault>
    ensures { parts_of result ≡ open_parts register.now scheme.now }
{
    let register = open_register(register)?;
    let scheme = wire::by_itself(scheme, 2, read_scheme(scheme, &register))?;
    Ok(Quadratization { register, scheme })
}

// The scheme of a register, each as a run of bytes by itself.
#[unsafe(no_mangle)]
pub extern "C" fn feedcheck_scheme(register: &[u8], scheme: &[u8]) -> SchemeAnswer
    ensures { result ≡ scheme_answer register.now scheme.now }
{
    match open_parts(register, scheme) {
        Ok(quadratization) => SchemeAnswer {
            number: 0,
            part: 0,
            position: 0,
            scheme: quadratization.scheme,
        },
        Err(fault) => SchemeAnswer::from_fault(fault),
    }
}
