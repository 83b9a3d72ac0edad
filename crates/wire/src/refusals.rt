// Why bytes are refused and where, and what reading them gives.
ghost use Rattle.std.specs.Prelude.{◌≡◌, ◌+◌, ◌<◌, ◌^◌, cond, []};
ghost use Rattle.wire.specs.Checks.{command_checks, refusal};
ghost use Rattle.wire.specs.Part.{by_itself};
ghost use Rattle.wire.specs.Results.{number_of, number_in, reading_of, whole_of, outcome_of};

// What is wrong. Answers name each by its number.
#[derive(Clone, Copy, Debug, PartialEq, Eq)]
pub enum Refusal {
    NoCommand = 1,
    CutShort,
    // Also too few: no choice, or a term without a split, at the end of its part.
    TooMany,
    OutOfRange,
    NotThere,
    Misordered,
    NotRising,
    SetsUnfit,
    FallsShort,
    NoProductLeft,
    TooShort,
    PastEnd,
    OutsideWindows,
    PastLimit,
    Misfit,
    NoneFits,
    UnknownSupplier,
    ShapeOutOfRange,
}

// A refusal, and the position in its part of the command that is at fault.
#[derive(Clone, Copy, Debug, PartialEq, Eq)]
pub struct Refused {
    pub refusal: Refusal,
    pub position: usize,
}

// A refusal, and where: the part by its number, as the answers of C have it, and the position in it or in the job, or zeros where no
// command is at fault.
#[derive(Clone, Copy, Debug, PartialEq, Eq)]
pub struct Fault {
    pub refusal: Refusal,
    pub part: u8,
    pub position: usize,
}

// What a part at the front of a run of bytes gives, and the position past it.
#[derive(Clone, Copy, Debug, PartialEq, Eq)]
pub struct Read<T> {
    pub value: T,
    pub end: usize,
}

impl Refusal {
    pub fn number(self) -> u8
        ensures { result ≡ number_of self }
    {
        self as u8
    }
}

impl Refused {
    // In a part that starts at a position of a longer run of bytes, counted from the start of that run.
    pub fn behind(self, from: usize) -> Refused
        requires { from + self.position < 2 ^ 64 }
        ensures { result ≡ record { refusal = self.refusal; position = from + self.position } }
    {
        Refused {
            refusal: self.refusal,
            position: from + self.position,
        }
    }

    pub fn in_part(self, part: u8) -> Fault
        ensures { result ≡ record { refusal = self.refusal; part = part; position = self.position } }
    {
        Fault {
            refusal: self.refusal,
            part,
            position: self.position,
        }
    }
}

impl Fault {
    // No command is at fault.
    pub fn nowhere(refusal: Refusal) -> Fault
        ensures { result ≡ record { refusal = refusal; part = 0; position = 0 } }
    {
        Fault {
            refusal,
            part: 0,
            position: 0,
        }
    }
}

// The refusal of a check that fails.
pub fn refuse_if(fails: bool, refusal: Refusal) -> Result<(), Refusal>
    ensures { number_in result ≡ cond fails (number_of refusal) 0 }
{
    if fails { Err(refusal) } else { Ok(()) }
}

// The checks of every command: that it may stand here, and that its bytes are there.
#[tactic(auto, unfolding(crate::specs::Checks::refusal, crate::specs::Checks::command_checks))]
pub fn check_command(here: bool, left: usize, size: usize) -> Result<(), Refusal>
    ensures { number_in result ≡ refusal (command_checks here left size []) }
{
    refuse_if(!here, Refusal::NoCommand)?;
    refuse_if(left < size, Refusal::CutShort)
}

// A part as a run of bytes by itself, by its number: nothing may stand behind what was read.
#[tactic(auto, unfolding(crate::specs::Part::by_itself))]
pub fn by_itself<T: Copy>(
    bytes: &[u8],
    part: u8,
    read: Result<Read<T>, Refused>,
) -> Result<T, Fault>
    ensures { outcome_of result ≡ whole_of part (by_itself bytes.now (reading_of read)) }
{
    let read = read.map_err(|refused| refused.in_part(part))?;
    if read.end < bytes.len() {
        return Err(Fault {
            refusal: Refusal::PastEnd,
            part,
            position: read.end,
        });
    }
    Ok(read.value)
}
