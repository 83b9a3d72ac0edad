// The table of R: what a certificate's commands add and subtract.

#![tactic(auto)]

ghost use Rattle.std.specs.Prelude.{◌≡◌, true, ℕ, ◌+◌, ◌≤◌, ◌<◌, eqb, pos, nat_abs, ◌*ℤ◌, [], ◌∷◌, length};
ghost use Rattle.forms.specs.Form.{mono, times};
ghost use Rattle.forms.specs.Store.{Bounded, Room, Becomes, Adds, max_before_monomial, max_before_form};
ghost use Rattle.forms.specs.Table.{table_numbers, with_table};
ghost use Rattle.scheme.specs.Scheme.{max_products, side as side_of};
ghost use Rattle.scheme.specs.Valid.{Products};
ghost use Rattle.wire.specs.Part.{accepted};
ghost use Rattle.wire.specs.Rows.{Progress};
ghost use Rattle.register.specs.Limits.{max_choices, max_rows};
ghost use Rattle.register.specs.Register.{coefficient};
ghost use Rattle.certificate.specs.Certificate.{Certificate};
ghost use Rattle.certificate.specs.Format.{commands_in_job};
ghost use Rattle.certificate.specs.Limits.{max_multiplier, max_row_multiplier, max_weight, square_entries, max_entry};
ghost use Rattle.certificate.specs.RowForm.{row_form_of};
ghost use Rattle.certificate.specs.Rules.{minus1};
ghost use Rattle.certificate.specs.Answer.{square_in};
ghost use Rattle.residual.specs.Limits.{max_row_factor};
ghost use Rattle.residual.specs.Residual.{R, square_at};
ghost use Rattle.residual.specs.Built.{with_scale_in, Reads, Addable, added, EntriesWithin, SquareRange, row_factor, times_entries, less_where};

use certificate::{Multiplier, Square, command_size, multiplier_at, square_at};
use forms::SquareTable;
use penalty::add_function;
use register::Register;
use scheme::{Quadratization, Scheme};
use wire::FromBytes;

// Adds k times the product of places p and q, less k times that of places p2 and q2.
fn add_difference(table: &mut SquareTable, p: usize, q: usize, p2: usize, q2: usize, k: i64)
    requires room { Room max_before_form table.old }
    requires places { (p < table.old.side) × (q < table.old.side) × (p2 < table.old.side) × (q2 < table.old.side) }
    requires k_bound { nat_abs k ≤ max_multiplier }
    ensures { Adds (times k (mono p q (pos 1) ∷ mono p2 q2 minus1 ∷ [])) table.old table.new }
{
    table.add_multiple(p, q, k, 1);
    table.add_multiple(p2, q2, k, -1);
}

// Adds k times z_k − z_l − z_r + 1, by the places of the variables.
fn add_product_bound(table: &mut SquareTable, z: usize, l: usize, r: usize, k: i64)
    requires room { Room max_before_form table.old }
    requires places { (z < table.old.side) × (l < table.old.side) × (r < table.old.side) }
    requires k_bound { nat_abs k ≤ max_multiplier }
    ensures { Adds (times k (mono 0 z (pos 1) ∷ mono 0 l minus1 ∷ mono 0 r minus1 ∷ mono 0 0 (pos 1) ∷ [])) table.old table.new }
{
    table.add_multiple(0, z, k, 1);
    table.add_multiple(0, l, k, -1);
    table.add_multiple(0, r, k, -1);
    table.add_multiple(0, 0, k, 1);
}

// Subtracts the form of a product, m times, where there are n choices: of any scheme whose products are in order.
fn subtract_product_form(table: &mut SquareTable, scheme: &Scheme, n: usize, t: Multiplier)
    requires products { Products n scheme.now }
    requires products_le_max_products { scheme.now.products ≤ max_products }
    requires side_value { table.old.side ≡ side_of n scheme.now }
    requires addable { Addable n scheme.now t }
    requires le_kind { (0x35 ≤ t.kind) × (t.kind ≤ 0x37) }
    requires room { Room max_before_form table.old }
    ensures { (reg : Register) → reg.choices ≡ n → Adds (added reg scheme.now t) table.old table.new }
{
    let k = -t.m;
    let i = t.i as usize;
    let at = i - n;
    // The places of the product and of its operands.
    let z = i + 1;
    let l = scheme.lefts[at] as usize + 1;
    let r = scheme.rights[at] as usize + 1;
    match t.kind {
        0x35 => add_difference(table, 0, l, 0, z, k),
        0x36 => add_difference(table, 0, r, 0, z, k),
        _ => add_product_bound(table, z, l, r, k),
    }
}

// Adds the form of a row m times, with a variable: for each choice the product of the two, times the row's entry for the choice, and
// the variable times the row's total, which is subtracted. A row has no entry for choices from 32 on.
fn add_row_form(table: &mut SquareTable, register: &Register, row: usize, variable: usize, m: i64)
    requires row_within { row < max_rows }
    requires places { (register.now.choices < table.old.side) × (variable + 1 < table.old.side) }
    requires few { register.now.choices ≤ max_choices }
    requires m_bound { nat_abs m ≤ max_row_multiplier }
    requires room { Room max_before_form table.old }
    ensures { Adds (times m (row_form_of register.now row variable)) table.old table.new }
{
    let start = row * Register::ROW_ENTRIES;
    let z = variable + 1;
    for j in 0..register.choices.min(Register::ROW_ENTRIES) {
        table.add_multiple(z, j + 1, m, register.row_entries[start + j] as i64);
    }
    table.add_multiple(0, z, m, -(register.row_totals[row] as i64));
}

// Adds the form of a multiplier command, `31` to `39`, m times, or subtracts it m times, where there are n choices: of any scheme
// whose products are in order.
pub fn add_multiplier(table: &mut SquareTable, scheme: &Scheme, n: usize, t: Multiplier)
    requires products { Products n scheme.now }
    requires products_le_max_products { scheme.now.products ≤ max_products }
    requires side_value { table.old.side ≡ side_of n scheme.now }
    requires addable { Addable n scheme.now t }
    requires room { Room max_before_form table.old }
    ensures { (reg : Register) → reg.choices ≡ n → Adds (added reg scheme.now t) table.old table.new }
{
    let Multiplier { kind, m, .. } = t;
    let less = -m;
    // The places of the variables named.
    let i = t.i as usize + 1;
    let j = t.j as usize + 1;
    let k = t.k as usize + 1;
    let l = t.l as usize + 1;
    match kind {
        0x31 => add_difference(table, i, i, 0, i, m),
        0x32 => add_difference(table, 0, i, i, j, m),
        0x33 => add_difference(table, 0, i, j, k, m),
        0x34 => add_difference(table, i, j, k, l, m),
        0x35..=0x37 => subtract_product_form(table, scheme, n, t),
        0x38 => table.add_multiple(0, i, less, 1),
        _ => add_difference(table, 0, 0, 0, i, less),
    }
}

// A number times an entry of a square: the weight, or the factor of a row.
fn times_entry(factor: i64, entry: i16) -> i64
    requires factor_bound { nat_abs factor ≤ max_row_factor }
    requires bound { nat_abs entry ≤ max_entry }
    ensures { result ≡ factor *ℤ entry }
{
    factor * (entry as i64)
}

// w·v_i, the factor of a row, by the weight and the entries of a square.
fn row_factor(square: &Square, row: usize) -> i64
    requires range { SquareRange (square_in square.now) }
    requires row_lt_square_entries { row < square_entries }
    ensures { result ≡ row_factor (square_in square.now) row }
{
    times_entry(square.weight as i64, square.entries[row])
}

// Along a row, subtracts a factor times the entry of each column.
fn subtract_row(
    numbers: &mut [i64],
    side: usize,
    row: usize,
    factor: i64,
    entries: &[i16; Square::ENTRIES],
)
    requires row_lt_side { (row < side) × (side ≤ square_entries) }
    requires factor_bound { nat_abs factor ≤ max_row_factor }
    requires entries_within { EntriesWithin entries.now }
    requires bounded { Bounded side max_before_monomial numbers.old }
    ensures { numbers.new ≡
        less_where side (times_entries factor entries.now) (λ i j. eqb i row) numbers.old }
{
    let row_start = row * side;
    for j in 0..side {
        numbers[row_start + j] -= times_entry(factor, entries[j]);
    }
}

// Subtracts a square at each row and column. The factor w·v_i is the same along row i and is formed once for it.
pub fn subtract_square(table: &mut SquareTable, square: &Square)
    requires square_range { SquareRange (square_in square.now) }
    requires side_le_square_entries { table.old.side ≤ square_entries }
    requires room { Room max_before_form table.old }
    ensures { Becomes (less_where table.old.side (square_at (square_in square.now)) (λ i j. true) table.old.numbers.now) table.old table.new }
{
    let side = table.side;
    for row in 0..side {
        let factor = row_factor(square, row);
        subtract_row(table.numbers, side, row, factor, &square.entries);
    }
}

// Makes the table hold the scaled function less the target, by the first command.
fn put_scaled_function(bytes: &[u8], quadratization: &Quadratization, table: &mut SquareTable)
    requires side_value { table.old.side ≡ side_of quadratization.now.register.choices quadratization.now.scheme }
    requires table_numbers_in_bounds { table_numbers ≤ length table.old.numbers.now }
    requires reads { Reads quadratization.now.register quadratization.now.scheme bytes.now }
    ensures { Becomes (with_table table.old.side (R (coefficient quadratization.now.register) quadratization.now.register quadratization.now.scheme (with_scale_in bytes.now)) table.old.numbers.now)
        table.old table.new }
{
    let scale = u32::read(bytes, 1);
    let target = i64::read(bytes, 5);
    table.clear();
    add_function(quadratization, table, scale as i64);
    table.add_monomial(0, 0, -target);
}

// Adds and subtracts what each command after the first says, by its byte, where the table holds what the first says.
fn put_commands(bytes: &[u8], quadratization: &Quadratization, table: &mut SquareTable)
    requires side_value { table.old.side ≡ side_of quadratization.now.register.choices quadratization.now.scheme }
    requires table_numbers_in_bounds { table_numbers ≤ length table.old.numbers.now }
    requires reads { Reads quadratization.now.register quadratization.now.scheme bytes.now }
    requires starts { table.old.numbers.now ≡
        with_table table.old.side (R (coefficient quadratization.now.register) quadratization.now.register quadratization.now.scheme (with_scale_in bytes.now)) table.old.numbers.now }
    ensures { (p : Progress Certificate) (e : ℕ) → commands_in_job quadratization.now.register quadratization.now.scheme bytes.now ≡ accepted p e →
        Becomes (with_table table.old.side (R (coefficient quadratization.now.register) quadratization.now.register quadratization.now.scheme p.parsed) table.old.numbers.now) table.old table.new }
{
    let register = &quadratization.register;
    let scheme = &quadratization.scheme;
    let mut at = command_size(0x30);
    // Commands take different numbers of bytes, so each says where the next one begins.
    while at < bytes.len() {
        let command = bytes[at];
        let end = at + command_size(command);
        match command {
            0x31..=0x39 => {
                let t = multiplier_at(bytes, at);
                add_multiplier(table, scheme, register.choices, t);
            }
            0x3a => {
                let square = square_at(bytes, at);
                subtract_square(table, &square);
            }
            0x3b => {
                let named = multiplier_at(bytes, at);
                add_row_form(table, register, named.i as usize, named.j as usize, named.m);
            }
            _ => {
                return;
            }
        }
        at = end;
    }
}

// Makes the table hold R, by commands that are accepted. The rest of the table is kept.
pub fn put_residual(bytes: &[u8], quadratization: &Quadratization, table: &mut [i64])
    requires table_numbers_in_bounds { table_numbers ≤ length table.old }
    requires reads { Reads quadratization.now.register quadratization.now.scheme bytes.now }
    ensures { (p : Progress Certificate) (e : ℕ) → commands_in_job quadratization.now.register quadratization.now.scheme bytes.now ≡ accepted p e →
        table.new ≡ with_table (side_of quadratization.now.register.choices quadratization.now.scheme)
        (R (coefficient quadratization.now.register) quadratization.now.register quadratization.now.scheme p.parsed) table.old }
{
    let mut table = SquareTable {
        numbers: table,
        side: quadratization.side(),
    };
    put_scaled_function(bytes, quadratization, &mut table);
    put_commands(bytes, quadratization, &mut table);
}
