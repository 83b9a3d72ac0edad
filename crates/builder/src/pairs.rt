// Two variables joined to one, and a list of variables joined pair by pair.
ghost use Rattle.std.specs.Prelude.{◌≡◌, ◌<◌, ◌≤◌, length};
ghost use Rattle.register.specs.Limits.{max_choices};
ghost use Rattle.scheme.specs.Scheme.{initial, max_products, variables, with_product};
ghost use Rattle.builder.specs.Builder.{join_pair, pair_up, reduce};
ghost use Rattle.builder.specs.Work.{Inside, listed, joined_step, list_step};

use crate::list::Members;
use crate::state::{Full, Work};
use scheme::Scheme;

// One product more.
fn with_product(mut scheme: Scheme, l: u8, r: u8) -> Scheme
    requires { scheme.products < max_products }
    ensures { result ≡ with_product scheme l r }
{
    let k = scheme.products;
    scheme.lefts[k] = l;
    scheme.rights[k] = r;
    scheme.products = k + 1;
    scheme
}

impl Work {
    // No product and no split, for n choices.
    pub fn fresh(n: usize) -> Work
        requires { n ≤ max_choices }
        ensures choices { result.choices ≡ n }
        ensures scheme { result.scheme ≡ initial }
    {
        Work {
            choices: n,
            scheme: Scheme::initial(),
            sets: scheme::choice_sets(n),
        }
    }

    // Joins two variables to the one whose set is their union, made as the next product if none has it. There are at most 64
    // variables, so each has its number in a byte.
    fn join(&mut self, a: u8, b: u8) -> Result<u8, Full>
        requires a_bound { a < variables self.old.choices self.old.scheme }
        requires b_bound { b < variables self.old.choices self.old.scheme }
        ensures same { joined_step self.new result ≡ join_pair self.old.choices self.old.scheme a b }
        ensures choices { self.new.choices ≡ self.old.choices }
    {
        let products = self.scheme.products;
        let count = self.choices + products;
        let union = scheme::union_of(&self.sets, a, b);
        if let Some(v) = scheme::lookup::first_with(&self.sets, count, union) {
            return Ok(v as u8);
        }
        let full = (Scheme::MAX_PRODUCTS <= products) | (Scheme::MAX_VARIABLES <= count);
        if full {
            return Err(Full);
        }
        self.scheme = with_product(self.scheme, a.min(b), a.max(b));
        self.sets[count] = union;
        Ok(count as u8)
    }

    // One pass over a list: consecutive pairs from the front are joined, and an odd last member stays last.
    fn pair_up(&mut self, members: &mut Members) -> Result<(), Full>
        requires { Inside self.old.choices self.old.scheme (listed members.old) }
        ensures same { list_step self.new members.new result ≡ pair_up self.old.choices self.old.scheme (listed members.old) }
        ensures choices { self.new.choices ≡ self.old.choices }
    {
        let count = members.count;
        let pairs = count / 2;
        for i in 0..pairs {
            let a = members.entries[2 * i];
            let b = members.entries[2 * i + 1];
            members.entries[i] = self.join(a, b)?;
        }
        if 2 * pairs < count {
            members.entries[pairs] = members.entries[2 * pairs];
        }
        members.count = count - pairs;
        Ok(())
    }

    // Passes while the list has more than two members.
    pub fn reduce(&mut self, members: &mut Members) -> Result<(), Full>
        requires { Inside self.old.choices self.old.scheme (listed members.old) }
        ensures same { list_step self.new members.new result ≡ reduce (length (listed members.old)) self.old.choices self.old.scheme (listed members.old) }
        ensures choices { self.new.choices ≡ self.old.choices }
    {
        // How many passes it takes is not known beforehand.
        while 2 < members.count {
            self.pair_up(members)?;
        }
        Ok(())
    }
}
