#![tactic(auto)]

ghost use Rattle.std.specs.Prelude.{◌≡◌, ◌*◌, ◌≤◌, ◌<◌, pos, nat_abs, ◌*ℤ◌, length, get_or, [], ◌∷◌};
ghost use Rattle.forms.specs.Form.{mono};
ghost use Rattle.forms.specs.Store.{add_at, cleared, Room, Becomes, Adds, max_added, max_before_number, max_before_monomial};

// The lent run of numbers that a call works in.
#[derive(Clone, Copy)]
pub struct WorkingTable;

impl WorkingTable {
    pub const NUMBERS: usize = 4_225;
}

// A table of side `side`, row by row at the front of a lent run of numbers. How large its numbers may be is a clause of each function:
// no ghost field stands beside a `&mut`, and the bound grows from call to call.
#[derive(Drop)]
pub struct SquareTable<'a> {
    pub numbers: &'a mut [i64],
    pub side: usize,
}

// Makes the first `n` numbers 0.
pub fn clear(t: &mut [i64], n: usize)
    requires { n ≤ length t.old }
    ensures { t.new ≡ cleared n t.old }
{
    t[..n].fill(0);
}

// Adds `c` to the number at `at`.
fn add_at(t: &mut [i64], at: usize, c: i64)
    requires at_in_bounds { at < length t.old }
    requires pos_bound { nat_abs (get_or t.old at (pos 0)) ≤ max_before_number }
    requires c_bound { nat_abs c ≤ max_added }
    ensures { t.new ≡ add_at at c t.old }
{
    t[at] += c;
}

impl<'a> SquareTable<'a> {
    // Makes the numbers of the table 0.
    pub fn clear(&mut self)
        requires { self.old.side * self.old.side ≤ length self.old.numbers.now }
        ensures { Becomes (cleared (self.old.side * self.old.side) self.old.numbers.now) self.old self.new }
    {
        clear(self.numbers, self.side * self.side);
    }

    // Adds the monomial `c` times place `p` times place `q`: `c` at (p, q) and `c` at (q, p).
    #[tactic(auto, unfolding(crate::specs::Store::add_form))]
    pub fn add_monomial(&mut self, p: usize, q: usize, c: i64)
        requires room { Room max_before_monomial self.old }
        requires p_lt_side { (p < self.old.side) × (q < self.old.side) }
        requires c_bound { nat_abs c ≤ max_added }
        ensures { Adds (mono p q c ∷ []) self.old self.new }
    {
        add_at(self.numbers, p * self.side + q, c);
        add_at(self.numbers, q * self.side + p, c);
    }

    // Adds the monomial `k` times `c` times place `p` times place `q`.
    pub fn add_multiple(&mut self, p: usize, q: usize, k: i64, c: i64)
        requires room { Room max_before_monomial self.old }
        requires p_lt_side { (p < self.old.side) × (q < self.old.side) }
        requires c_bound { nat_abs (k *ℤ c) ≤ max_added }
        ensures { Adds (mono p q (k *ℤ c) ∷ []) self.old self.new }
    {
        self.add_monomial(p, q, k * c);
    }
}
