// Parts 1 and 2, and of a register with a range part 4, for the calls that read or write a certificate.
ghost use Rattle.std.specs.Prelude.{◌≡◌};
ghost use Rattle.plan.specs.Chosen.{under};
ghost use Rattle.scheme.specs.Answer.{parts_of};
ghost use Rattle.bound.specs.Opening.{opened_under};

use plan::chosen::under;
use plan::read_plan;
use scheme::{Quadratization, open_parts};
use wire::{Fault, by_itself};

// The same quadratization with the coefficients that a plan chooses.
pub fn quadratization_under(quadratization: &Quadratization, plan: u64) -> Quadratization
    ensures register { result.register ≡ under quadratization.now.register plan }
    ensures scheme { result.scheme ≡ quadratization.now.scheme }
{
    let register = under(quadratization.register, plan);
    let scheme = quadratization.scheme;
    Quadratization { register, scheme }
}

// Each part is a run of bytes by itself. The register has the coefficients that the plan chooses; where no term has a range, the plan's
// bytes are not looked at.
pub fn open_chosen(register: &[u8], scheme: &[u8], plan: &[u8]) -> Result<Quadratization, Fault>
    ensures { parts_of result ≡ opened_under register.now scheme.now plan.now }
{
    let quadratization = open_parts(register, scheme)?;
    if !quadratization.register.has_range() {
        return Ok(quadratization);
    }
    let plan = by_itself(plan, 4, read_plan(plan, quadratization.register))?;
    Ok(quadratization_under(&quadratization, plan))
}
