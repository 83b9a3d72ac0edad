// How many terms a costliest register has, and how many choices each of them names.
ghost use Rattle.std.specs.Prelude.{◌≡◌, ◌<◌};
ghost use Rattle.costliest.specs.Costliest.{Admitted, term_mask};

// Terms of so many choices each, no two of which share one.
#[derive(Clone, Copy, Debug, PartialEq, Eq)]
pub struct Shape {
    pub terms: usize,
    pub degree: usize,
    ghost admitted: { Admitted terms degree },
}

impl Shape {
    // The fewest choices of a term.
    pub const MIN_DEGREE: u32 = 3;

    // The most choices of a term, and of all terms together: those that a mask of 32 bits names.
    pub const MAX_NAMED: u32 = 32;

    // The mask of term t. In 64 bits, since the choices of a term may be all 32.
    pub fn mask(self, t: usize) -> u32
        requires { t < self.terms }
        ensures { result ≡ term_mask self.terms self.degree t }
    {
        let ones = (1u64 << self.degree) - 1;
        (ones << (t * self.degree)) as u32
    }
}
