// The windows of a register: whether a tank may be fed at a minute. They rise by tank, and so do the choices.
ghost use Rattle.std.specs.Prelude.{◌≡◌, ◌⊎◌, ℕ, ◌<◌, ◌≤◌};
ghost use Rattle.register.specs.Limits.{max_windows};
ghost use Rattle.register.specs.Register.{window_tank};
ghost use Rattle.register.specs.Format.{may_feed};
ghost use Rattle.register.specs.Answer.{NoFall};

use super::Register;

// A tank may be fed at a minute, by the windows, whose tanks do not fall. The first `passed` of them need not be looked at where
// they are of lower tanks. It answers of several windows together, so it is a loop and no method of slices.
pub fn may_feed(register: &Register, passed: usize, tank: u16, minute: u16) -> bool
    requires { (passed ≤ register.now.windows) × (register.now.windows ≤ max_windows) }
    ensures { NoFall register.now.windows register.now.window_tanks → ((j : ℕ) → j < passed → window_tank register.now j < tank) → result ≡ may_feed register.now.windows register.now.window_tanks register.now.window_froms register.now.window_tos tank minute }
{
    let mut none = true;
    for j in passed..register.windows {
        let of = register.window_tanks[j];
        if tank < of {
            return none;
        }
        let own = of == tank;
        if own & (register.window_froms[j] <= minute) & (minute < register.window_tos[j]) {
            return true;
        }
        none &= !own;
    }
    none
}

// The number of windows that a choice of this tank and later ones need not look at: `passed`, and those after them of lower tanks.
pub fn pass_windows(register: &Register, passed: usize, tank: u16) -> usize
    requires { (passed ≤ register.now.windows) × (register.now.windows ≤ max_windows) }
    ensures within { (passed ≤ result) × (result ≤ register.now.windows) }
    ensures lower { (j : ℕ) → j < result → (j < passed) ⊎ (window_tank register.now j < tank) }
    ensures ends { (result ≡ register.now.windows) ⊎ (tank ≤ window_tank register.now result) }
{
    for j in passed..register.windows {
        if tank <= register.window_tanks[j] {
            return j;
        }
    }
    register.windows
}
