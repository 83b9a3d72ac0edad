// A set looked for among those of the variables.
ghost use Rattle.std.specs.Prelude.{◌≡◌, ◌<◌, ◌≤◌, length, MatchOption};
ghost use Rattle.scheme.specs.Sets.{first_in};

// The first entry below the count that is this set, if any is.
pub fn first_with(sets: &[u64], count: usize, union: u64) -> Option<usize>
    requires { count ≤ length sets.now }
    ensures { MatchOption result (first_in sets.now count union ≡ count) (λ v. (v < count) × (v ≡ first_in sets.now count union)) }
{
    sets[..count].iter().position(|&set| set == union)
}
