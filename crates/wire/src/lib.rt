// What every part of a job has: numbers in bytes, what is wrong and where, what reading gives, and what a call answers that writes bytes.

#![tactic(auto)]

mod endian;
mod refusals;

ghost use Rattle.std.specs.Prelude.{◌≡◌};
ghost use Rattle.wire.specs.Writer.{refused_answer, written_answer};
ghost use Rattle.wire.specs.Results.{number_of};

pub use endian::{FromBytes, ToBytes};
pub use refusals::{Fault, Read, Refusal, Refused, by_itself, check_command, refuse_if};

// The answer, a record of C, of a call that writes bytes into a lent buffer: a refusal's number, part and position, or zeros and
// the count of bytes written.
#[repr(C)]
#[derive(Clone, Copy, Debug, PartialEq, Eq)]
pub struct WriterAnswer {
    pub number: u8,
    pub part: u8,
    pub position: usize,
    pub count: usize,
}

impl WriterAnswer {
    pub fn from_fault(fault: Fault) -> WriterAnswer
        ensures { result ≡ refused_answer (number_of fault.refusal) fault.part fault.position }
    {
        WriterAnswer {
            number: fault.refusal.number(),
            part: fault.part,
            position: fault.position,
            count: 0,
        }
    }

    pub fn written(count: usize) -> WriterAnswer
        ensures { result ≡ written_answer count }
    {
        WriterAnswer {
            number: 0,
            part: 0,
            position: 0,
            count,
        }
    }
}
