// The costliest register, which makes the builder form as many products as a register of so many terms can, written as bytes.

#![tactic(auto)]

mod shape;
mod writing;

ghost use Rattle.std.specs.Prelude.{◌≡◌};
ghost use Rattle.wire.specs.Writer.{writer_answer};
ghost use Rattle.costliest.specs.Work.{admitted, shape_outcome};
ghost use Rattle.costliest.specs.Answer.{costliest_answer, costliest_buffer};

use shape::Shape;
use wire::{Fault, Refusal, WriterAnswer};
use writing::write_register;

// m terms of d choices each. The product of two numbers of 32 bits fits 64. Where m is not 0, d above 32 is refused by the product too.
fn shape_of(m: u32, d: u32) -> Result<Shape, Fault>
    ensures { shape_outcome result ≡ admitted m d }
{
    let named = u64::from(m) * u64::from(d);
    let refused = (m == 0)
        | (d < Shape::MIN_DEGREE)
        | (Shape::MAX_NAMED < d)
        | (u64::from(Shape::MAX_NAMED) < named);
    if refused {
        return Err(Fault::nowhere(Refusal::ShapeOutOfRange));
    }
    Ok(Shape {
        terms: m as usize,
        degree: d as usize,
    })
}

// Writes the costliest register of m terms and d choices in each to the front of the buffer. How many bytes there are.
fn write_costliest(m: u32, d: u32, out: &mut [u8]) -> Result<usize, Fault>
    ensures answer { writer_answer result ≡ costliest_answer m d out.old }
    ensures buffer { out.new ≡ costliest_buffer m d out.old }
{
    let shape = shape_of(m, d)?;
    write_register(out, shape)
}

// Writes the costliest register of m terms and d choices in each to the front of the buffer, and answers how many bytes there are. Refused 18
// where there is none, and then 11 where the buffer is short.
#[unsafe(no_mangle)]
pub extern "C" fn feedcheck_costliest(m: u32, d: u32, out: &mut [u8]) -> WriterAnswer
    ensures answer { result ≡ costliest_answer m d out.old }
    ensures buffer { out.new ≡ costliest_buffer m d out.old }
{
    match write_costliest(m, d, out) {
        Ok(count) => WriterAnswer::written(count),
        Err(fault) => WriterAnswer::from_fault(fault),
    }
}
