// A register with the coefficients that a plan chooses.
ghost use Rattle.std.specs.Prelude.{◌≡◌, ◌<◌};
ghost use Rattle.register.specs.Limits.{max_terms};
ghost use Rattle.register.specs.Valid.{Within};
ghost use Rattle.plan.specs.Chosen.{chosen, under};

use super::choice_sets::within;
use register::Register;

// The coefficient of a term that a plan chooses: high where it feeds all choices of the term, else low.
fn chosen_of(register: &Register, plan: u64, term: usize) -> i32
    requires { term < max_terms }
    ensures { result ≡ chosen register.now plan term }
{
    if within(register.masks[term], plan) {
        register.highs[term]
    } else {
        register.coefficients[term]
    }
}

// The same register with these coefficients as its low ones.
pub fn under(mut register: Register, plan: u64) -> Register
    requires { Within register }
    ensures { result ≡ under register plan }
{
    if register.has_range() {
        for t in 0..register.terms {
            register.coefficients[t] = chosen_of(&register, plan, t);
        }
    }
    register
}
