// The split of a term: its choices, joined until two are left.
ghost use Rattle.std.specs.Prelude.{◌≡◌, suc, ◌^◌, ◌<◌, ◌≤◌, length, IfOk};
ghost use Rattle.register.specs.Limits.{max_terms};
ghost use Rattle.scheme.specs.Scheme.{with_split};
ghost use Rattle.builder.specs.Builder.{split_of, build_term};
ghost use Rattle.builder.specs.Work.{listed, scheme_step};

use crate::list::Members;
use crate::state::{Full, Work};
use scheme::Scheme;

// One split more. Its arrays are longer than those of the products, so the two are filled by a function each.
fn with_split(mut scheme: Scheme, l: u8, r: u8) -> Scheme
    requires { scheme.splits < max_terms }
    ensures { result ≡ with_split scheme l r }
{
    let t = scheme.splits;
    scheme.split_lefts[t] = l;
    scheme.split_rights[t] = r;
    scheme.splits = t + 1;
    scheme
}

impl Work {
    // A term's split after the others: (min, max) of two members, or (a, a) for one.
    fn split(&mut self, members: &Members)
        requires splits_lt_max_terms { self.old.scheme.splits < max_terms }
        requires le_count { 1 ≤ members.now.count }
        requires count_bound { members.now.count ≤ 2 }
        ensures scheme { self.new.scheme ≡ split_of self.old.scheme (listed members.now) }
        ensures choices { self.new.choices ≡ self.old.choices }
    {
        let a = members.entries[0];
        let b = members.entries[members.count - 1];
        self.scheme = with_split(self.scheme, a.min(b), a.max(b));
    }

    // One term, by its mask.
    pub fn add_term(&mut self, mask: u64) -> Result<(), Full>
        requires splits_lt_max_terms { self.old.scheme.splits < max_terms }
        requires le_mask { 1 ≤ mask }
        requires mask_bound { mask < 2 ^ self.old.choices }
        ensures same { scheme_step self.new result ≡ build_term self.old.choices self.old.scheme mask }
        ensures choices { self.new.choices ≡ self.old.choices }
        ensures splits { IfOk result (λ u. self.new.scheme.splits ≡ suc self.old.scheme.splits) }
    {
        let mut members = Members::choices_of(self.choices, mask);
        self.reduce(&mut members)?;
        self.split(&members);
        Ok(())
    }
}
