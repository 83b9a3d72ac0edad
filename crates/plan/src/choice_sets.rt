// Sets of choices, a bit each.
ghost use Rattle.std.specs.Prelude.{◌≡◌, ◌<◌, cond, pos};
ghost use Rattle.register.specs.Limits.{max_choices};
ghost use Rattle.sets.specs.Sets.{is_member, is_subset};

// A set has choice i.
#[tactic(auto, unfolding(sets::specs::Sets::is_member))]
pub fn has(set: u64, i: usize) -> bool
    requires { i < max_choices }
    ensures { result ≡ is_member i set }
{
    (set >> i) % 2 == 1
}

// A set has every choice of a mask.
#[tactic(auto, unfolding(sets::specs::Sets::is_subset))]
pub fn within(mask: u64, set: u64) -> bool
    ensures { result ≡ is_subset mask set }
{
    set & mask == mask
}

// An amount where a set has every choice of a mask, and else 0.
pub fn where_within(mask: u64, set: u64, amount: i32) -> i32
    ensures { result ≡ cond (is_subset mask set) amount (pos 0) }
{
    if within(mask, set) { amount } else { 0 }
}
