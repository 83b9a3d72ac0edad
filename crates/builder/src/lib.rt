// The builder of a scheme: products made pair by pair, a split for each term.

#![tactic(auto)]

mod list;
mod pairs;
mod splits;
mod state;
mod writing;

ghost use Rattle.std.specs.Prelude.{◌≡◌};
ghost use Rattle.register.specs.Valid.{Valid};
ghost use Rattle.builder.specs.Builder.{build};
ghost use Rattle.wire.specs.Writer.{writer_answer};
ghost use Rattle.builder.specs.Work.{built_of};
ghost use Rattle.builder.specs.Answer.{build_answer, build_buffer};

use register::walk::term_position;
use register::{Register, open_register};
use scheme::Scheme;
pub use state::Work;
use wire::{Fault, Refusal, WriterAnswer};
use writing::write_scheme;

// The scheme of a register, by its terms in order, or the term that needs a product past a limit.
pub fn built(register: &Register) -> Result<Scheme, usize>
    requires { Valid register.now }
    ensures { built_of result ≡ build register.now }
{
    let mut work = Work::fresh(register.choices);
    for t in 0..register.terms {
        work.add_term(register.masks[t]).map_err(|_| t)?;
    }
    Ok(work.scheme)
}

// Builds the scheme of a register and writes its bytes to the front of the buffer. How many there are.
fn build_into(register: &[u8], out: &mut [u8]) -> Result<usize, Fault>
    ensures answer { writer_answer result ≡ build_answer register.now out.old }
    ensures buffer { out.new ≡ build_buffer register.now out.old }
{
    let given = open_register(register)?;
    let scheme = built(&given).map_err(|term| Fault {
        refusal: Refusal::NoProductLeft,
        part: 1,
        position: term_position(register, term),
    })?;
    write_scheme(out, &scheme)
}

// Builds the scheme of a register (part 1 alone) and writes its bytes to the front of the buffer.
#[unsafe(no_mangle)]
pub extern "C" fn feedcheck_build(register: &[u8], out: &mut [u8]) -> WriterAnswer
    ensures answer { result ≡ build_answer register.now out.old }
    ensures buffer { out.new ≡ build_buffer register.now out.old }
{
    match build_into(register, out) {
        Ok(count) => WriterAnswer::written(count),
        Err(fault) => WriterAnswer::from_fault(fault),
    }
}
