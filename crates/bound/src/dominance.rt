// The rows of a table, tried for diagonal dominance, and the bound.
ghost use Rattle.std.specs.Prelude.{◌≡◌, ◌≤◌, ◌<◌, nat_abs, IfSome};
ghost use Rattle.std.specs.Option.{unwrap_or};
ghost use Rattle.integers.specs.CeilDiv.{ceil_div};
ghost use Rattle.integers.specs.Integer.{abs};
ghost use Rattle.integers.specs.Sum.{except};
ghost use Rattle.forms.specs.Store.{Bounded};
ghost use Rattle.certificate.specs.Limits.{max_scale, max_target, square_entries};
ghost use Rattle.residual.specs.Limits.{max_r};
ghost use Rattle.residual.specs.Built.{cells};
ghost use Rattle.bound.specs.Dominance.{FirstShort};

// What the entry at a column adds to the sum of the absolute values beside the diagonal of a row. It is signed, to be taken from
// the diagonal entry; `plain` adds up magnitudes of entries a row and a column further, so it has a function of its own.
fn off_diagonal_term(table: &[i64], side: usize, row: usize, column: usize) -> i64
    requires bounded { Bounded side max_r table.now }
    requires row_lt_side { (row < side) × (column < side) }
    ensures { result ≡ except row (λ j. abs (cells side table.now row j)) column }
{
    if column == row {
        0
    } else {
        table[row * side + column].abs()
    }
}

// The first row whose diagonal entry is below the sum of the absolute values beside it.
pub fn first_short(table: &[i64], side: usize) -> Option<usize>
    requires side_le_square_entries { side ≤ square_entries }
    requires bounded { Bounded side max_r table.now }
    ensures first { FirstShort side (cells side table.now) (unwrap_or result side) }
    ensures row_lt_side { IfSome result (λ row. row < side) }
{
    // The row that is found leaves both loops, by its label.
    let mut short = None;
    'rows: for row in 0..side {
        // The diagonal entry less the absolute values passed.
        let mut left = table[row * side + row];
        for column in 0..side {
            left -= off_diagonal_term(table, side, row, column);
            if left < 0 {
                short = Some(row);
                break 'rows;
            }
        }
    }
    short
}

// t divided by s, rounded up to a whole number.
pub fn ceil_div(t: i64, s: u32) -> i64
    requires t_bound { nat_abs t ≤ max_target }
    requires le_s { (1 ≤ s) × (s ≤ max_scale) }
    ensures { result ≡ ceil_div t s }
{
    -(-t).div_euclid(i64::from(s))
}
