// The sum at a partial plan.
ghost use Rattle.std.specs.Prelude.{◌≡◌};
ghost use Rattle.register.specs.Valid.{Within};
ghost use Rattle.search.specs.Sum.{term_sum};
ghost use Rattle.search.specs.Lent.{terms_in, sum_to, term_lost};

use plan::choice_sets::where_within;
use register::Register;

// What a term loses when one of its choices is decided unfed: its coefficient, if negative, where none was decided unfed before.
pub fn lost_by(mask: u64, coefficient: i32, possible: u64) -> i32
    ensures { result ≡ term_lost coefficient mask possible }
{
    where_within(mask, possible, coefficient.min(0))
}

// What a term adds to the sum, by the choices that are fed and those that are not decided unfed.
#[tactic(auto, unfolding(sets::specs::Sets::is_subset))]
fn term_sum(mask: u64, coefficient: i32, fed: u64, possible: u64) -> i32
    ensures { result ≡ term_sum coefficient mask fed possible }
{
    if fed & mask == mask {
        coefficient
    } else {
        lost_by(mask, coefficient, possible)
    }
}

// The base cost and what each term adds.
pub fn sum_at(register: &Register, fed: u64, possible: u64) -> i64
    requires { Within register.now }
    ensures { result ≡ sum_to register.now.base (terms_in register.now) register.now.terms fed possible }
{
    let mut total = i64::from(register.base);
    for t in 0..register.terms {
        total += i64::from(term_sum(register.masks[t], register.coefficients[t], fed, possible));
    }
    total
}
