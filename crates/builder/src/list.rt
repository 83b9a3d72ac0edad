// A list of variables.
ghost use Rattle.std.specs.Prelude.{◌≤◌, ◌≡◌, length};
ghost use Rattle.register.specs.Limits.{max_choices};

use register::Register;

// As many variables as a term has choices, or fewer, each a byte, at the front of an array: the library allocates nothing.
// Nothing compares or prints one.
#[derive(Clone, Copy)]
pub struct Members {
    pub count: usize,
    pub entries: [u8; Register::MAX_CHOICES],
    ghost within: { count ≤ max_choices },
    ghost long: { length entries ≡ max_choices },
}

impl Members {
    ghost use Rattle.std.specs.Prelude.{suc, ◌∷◌, [], ◌++◌, ◌<◌};
    ghost use Rattle.builder.specs.Builder.{choices_of};
    ghost use Rattle.builder.specs.Work.{listed};

    fn push(&mut self, variable: u8)
        requires { self.old.count < max_choices }
        ensures members { listed self.new ≡ listed self.old ++ (variable ∷ []) }
        ensures count { self.new.count ≡ suc self.old.count }
    {
        self.entries[self.count] = variable;
        self.count += 1;
    }

    // The choices of a term, rising, where there are n. The crate that tells whether a plan has a choice stands on plans.
    pub fn choices_of(n: usize, mask: u64) -> Members
        requires { n ≤ max_choices }
        ensures { listed result ≡ choices_of n mask }
    {
        let mut members = Members {
            count: 0,
            entries: [0; Register::MAX_CHOICES],
        };
        for i in 0..n {
            if (mask >> i) % 2 == 1 {
                members.push(i as u8);
            }
        }
        members
    }
}
