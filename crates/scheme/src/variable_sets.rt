// The sets of the variables, as an array of masks.
ghost use Rattle.std.specs.Prelude.{◌≡◌, ◌+◌, ◌≤◌, get_or};
ghost use Rattle.register.specs.Limits.{max_choices};
ghost use Rattle.scheme.specs.Scheme.{max_variables, variables};
ghost use Rattle.scheme.specs.Valid.{Products};
ghost use Rattle.scheme.specs.Sets.{SetsBelow, union_in};

use super::Scheme;

// The entry at a place, 0 past the end, as the definitions read it.
pub fn entry(entries: &[u64], i: usize) -> u64
    ensures { result ≡ get_or entries.now i 0 }
{
    entries.get(i).copied().unwrap_or(0)
}

// The union of the sets of two variables.
pub fn union_of(sets: &[u64], l: u8, r: u8) -> u64
    ensures { result ≡ union_in sets.now l r }
{
    entry(sets, usize::from(l)) | entry(sets, usize::from(r))
}

// The sets of n choices.
pub fn choice_sets(n: usize) -> [u64; Scheme::MAX_VARIABLES]
    requires { n ≤ max_choices }
    ensures { (s : Scheme) → SetsBelow n s n result }
{
    let mut sets = [0; Scheme::MAX_VARIABLES];
    for i in 0..n {
        sets[i] = 1u64 << i;
    }
    sets
}

// The sets of all variables, where there are n choices.
pub fn sets_of(n: usize, scheme: Scheme) -> [u64; Scheme::MAX_VARIABLES]
    requires n_le_max_choices { n ≤ max_choices }
    requires variables_within { variables n scheme ≤ max_variables }
    requires products { Products n scheme }
    ensures { SetsBelow n scheme (n + scheme.products) result }
{
    let mut sets = choice_sets(n);
    for k in 0..scheme.products {
        sets[n + k] = union_of(&sets, scheme.lefts[k], scheme.rights[k]);
    }
    sets
}
