// Whether a plan fits rows: the sums of its fed entries.
ghost use Rattle.std.specs.Prelude.{◌≡◌, ◌≤◌, ◌<◌, cond, pos, ◌≤ℤ◌};
ghost use Rattle.register.specs.Limits.{max_choices, max_rows, lowest_entry, highest_entry};
ghost use Rattle.register.specs.Register.{row_entry};
ghost use Rattle.plan.specs.Fits.{fed_sum, fits};

use super::choice_sets::has;
use register::Register;

// An entry that counts, or 0. It is a function of its own for the bounds of its result, by which the sum fits.
fn entry_where(fed: bool, entry: i8) -> i32
    ensures value { result ≡ cond fed entry (pos 0) }
    ensures above { lowest_entry ≤ℤ result }
    ensures below { result ≤ℤ highest_entry }
{
    if fed { i32::from(entry) } else { 0 }
}

// The sum of a row's entries at the choices that a plan feeds. A row has none for choices from 32 on.
fn fed_sum(register: &Register, row: usize, plan: u64) -> i32
    requires row_lt_max_rows { row < max_rows }
    requires choices_within { register.now.choices ≤ max_choices }
    ensures { result ≡ fed_sum register.now.choices (row_entry register.now row) plan }
{
    let start = row * Register::ROW_ENTRIES;
    let mut sum = 0;
    for j in 0..register.choices.min(Register::ROW_ENTRIES) {
        sum += entry_where(has(plan, j), register.row_entries[start + j]);
    }
    sum
}

// A plan fits the rows of a register: in each the fed entries come to the row's total.
pub fn fits_rows(register: &Register, plan: u64) -> bool
    requires choices_within { register.now.choices ≤ max_choices }
    requires rows_within { register.now.rows ≤ max_rows }
    ensures { result ≡ fits register.now plan }
{
    (0..register.rows).all(|row| fed_sum(register, row, plan)
        == i32::from(register.row_totals[row]))
}
