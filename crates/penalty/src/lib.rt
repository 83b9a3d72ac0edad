// The penalty form of a register and a scheme.

#![tactic(auto)]

ghost use Rattle.std.specs.Prelude.{◌≡◌, ◌+◌, ◌≤◌, ◌<◌, pos, nat_abs, ◌*ℤ◌, length};
ghost use Rattle.integers.specs.Lists.{join_below};
ghost use Rattle.forms.specs.Form.{times, entry};
ghost use Rattle.forms.specs.Table.{table_numbers, with_table};
ghost use Rattle.forms.specs.Store.{Room, Adds, max_added, max_before_monomial, max_before_form, max_before_forms};
ghost use Rattle.register.specs.Register.{coefficient};
ghost use Rattle.scheme.specs.Scheme.{variables, side as side_of};
ghost use Rattle.scheme.specs.Function.{term, term_of, g};
ghost use Rattle.penalty.specs.Weights.{reaches, contribution, usage, weight, max_product_weight};
ghost use Rattle.penalty.specs.Multiple.{max_multiple};
ghost use Rattle.penalty.specs.Penalty.{bracket, penalty_of, h};
ghost use Rattle.penalty.specs.Answer.{answer, answer_of, penalty_answer, penalty_table};
ghost use Rattle.wire.specs.Results.{number_of};

use forms::{SquareTable, WorkingTable};
use scheme::{Quadratization, open_parts};
use wire::{Fault, Refusal};

// The answer of the call, a record of C: a refusal's number, part and position, or zeros.
#[repr(C)]
#[derive(Clone, Copy, Debug, PartialEq, Eq)]
pub struct PenaltyAnswer {
    pub number: u8,
    pub part: u8,
    pub position: usize,
}

impl PenaltyAnswer {
    fn from_fault(fault: Fault) -> PenaltyAnswer
        ensures { result ≡ answer (number_of fault.refusal) fault.part fault.position }
    {
        PenaltyAnswer {
            number: fault.refusal.number(),
            part: fault.part,
            position: fault.position,
        }
    }
}

// Whether variable v is product k, or k is an operand of v, or of an operand of v, and so on down: variables are numbers, as the
// format has them, and each operand is followed by a call of its own.
fn reaches(quadratization: &Quadratization, k: usize, v: usize) -> bool
    requires { v < variables quadratization.now.register.choices quadratization.now.scheme }
    ensures { result ≡ reaches quadratization.now.register.choices quadratization.now.scheme k v }
{
    let n = quadratization.register.choices;
    // Operands are smaller than their product.
    if v < n || v < k {
        return false;
    }
    if v == k {
        return true;
    }
    let left = quadratization.scheme.lefts[v - n];
    let right = quadratization.scheme.rights[v - n];
    reaches(quadratization, k, usize::from(left)) || reaches(quadratization, k, usize::from(right))
}

// What term t adds to the usage of product k: the magnitude of its coefficient, once, where the left or the right variable of its
// split reaches the product.
fn contribution(quadratization: &Quadratization, k: usize, t: usize) -> u64
    requires { t < quadratization.now.register.terms }
    ensures { pos result ≡
        contribution (coefficient quadratization.now.register) quadratization.now.register.choices quadratization.now.scheme k t }
{
    let left = quadratization.scheme.split_lefts[t];
    let right = quadratization.scheme.split_rights[t];
    let used = reaches(quadratization, k, usize::from(left))
        || reaches(quadratization, k, usize::from(right));
    if used {
        u64::from(quadratization.register.coefficients[t].unsigned_abs())
    } else {
        0
    }
}

// The usage of product k: each term that uses it adds its |coefficient| one time.
fn usage(quadratization: &Quadratization, k: usize) -> u64
    ensures { pos result ≡ usage (coefficient quadratization.now.register) quadratization.now.register quadratization.now.scheme k }
{
    let mut total = 0;
    for t in 0..quadratization.register.terms {
        total += contribution(quadratization, k, t);
    }
    total
}

// The weight of product k: the scheme's factor times its usage.
fn weight(quadratization: &Quadratization, k: usize) -> u64
    ensures { pos result ≡ weight (coefficient quadratization.now.register) quadratization.now.register quadratization.now.scheme k }
{
    u64::from(quadratization.scheme.factor) * usage(quadratization, k)
}

// Adds c times variable l times variable r, variable l once when they are one.
pub fn add_term(table: &mut SquareTable, l: usize, r: usize, c: i64)
    requires room { Room max_before_monomial table.old }
    requires l_bound { (l + 1 < table.old.side) × (r + 1 < table.old.side) }
    requires c_bound { nat_abs c ≤ max_added }
    ensures { Adds (term l r c) table.old table.new }
{
    if l == r {
        table.add_monomial(0, l + 1, c);
    } else {
        table.add_monomial(l + 1, r + 1, c);
    }
}

// Adds each term, its coefficient times a scale.
pub fn add_terms(quadratization: &Quadratization, table: &mut SquareTable, scale: i64)
    requires side_value { table.old.side ≡ side_of quadratization.now.register.choices quadratization.now.scheme }
    requires room { Room max_before_form table.old }
    requires scale_bound { nat_abs scale ≤ max_multiple }
    ensures { Adds (join_below quadratization.now.register.terms (term_of (λ t. scale *ℤ coefficient quadratization.now.register t) quadratization.now.scheme)) table.old table.new }
{
    for t in 0..quadratization.register.terms {
        let left = quadratization.scheme.split_lefts[t];
        let right = quadratization.scheme.split_rights[t];
        let coefficient = quadratization.register.coefficients[t];
        add_term(
            table,
            usize::from(left),
            usize::from(right),
            scale * i64::from(coefficient),
        );
    }
}

// Adds a scale times g.
pub fn add_function(quadratization: &Quadratization, table: &mut SquareTable, scale: i64)
    requires side_value { table.old.side ≡ side_of quadratization.now.register.choices quadratization.now.scheme }
    requires room { Room max_before_forms table.old }
    requires scale_bound { nat_abs scale ≤ max_multiple }
    ensures { Adds (times scale (g (coefficient quadratization.now.register) quadratization.now.register quadratization.now.scheme)) table.old table.new }
{
    table.add_monomial(0, 0, scale * i64::from(quadratization.register.base));
    add_terms(quadratization, table, scale);
}

// Adds w times the bracket of product k, whose operands are l and r.
fn add_bracket(table: &mut SquareTable, k: usize, l: usize, r: usize, w: i64)
    requires room { Room max_before_form table.old }
    requires k_bound { (k + 1 < table.old.side) × (l < k) × (r < k) }
    requires w_bound { nat_abs w ≤ max_product_weight }
    ensures { Adds (times w (bracket k l r)) table.old table.new }
{
    table.add_multiple(0, k + 1, w, 3);
    table.add_multiple(k + 1, l + 1, w, -2);
    table.add_multiple(k + 1, r + 1, w, -2);
    table.add_multiple(l + 1, r + 1, w, 1);
}

// Adds each product's weight times its bracket.
fn add_penalties(quadratization: &Quadratization, table: &mut SquareTable)
    requires side_value { table.old.side ≡ side_of quadratization.now.register.choices quadratization.now.scheme }
    requires room { Room max_before_forms table.old }
    ensures { Adds (join_below quadratization.now.scheme.products (penalty_of (coefficient quadratization.now.register) quadratization.now.register quadratization.now.scheme)) table.old table.new }
{
    let n = quadratization.register.choices;
    for i in 0..quadratization.scheme.products {
        let left = quadratization.scheme.lefts[i];
        let right = quadratization.scheme.rights[i];
        let weight = weight(quadratization, n + i);
        add_bracket(
            table,
            n + i,
            usize::from(left),
            usize::from(right),
            weight as i64,
        );
    }
}

// Makes the table hold the penalty form h. The rest of the table is kept.
pub fn penalty_form(quadratization: &Quadratization, table: &mut [i64])
    requires { table_numbers ≤ length table.old }
    ensures { table.new ≡
        with_table (side_of quadratization.now.register.choices quadratization.now.scheme) (entry (h (coefficient quadratization.now.register) quadratization.now.register quadratization.now.scheme)) table.old }
{
    let mut square = SquareTable {
        numbers: table,
        side: quadratization.side(),
    };
    square.clear();
    add_function(quadratization, &mut square, 1);
    add_penalties(quadratization, &mut square);
}

// Makes the table hold the penalty form of two parts, each by itself.
fn put_penalty(register: &[u8], scheme: &[u8], table: &mut [i64]) -> Result<(), Fault>
    ensures value { answer_of result ≡ penalty_answer register.now scheme.now table.old }
    ensures table_after { table.new ≡ penalty_table register.now scheme.now table.old }
{
    if table.len() < WorkingTable::NUMBERS {
        return Err(Fault::nowhere(Refusal::TooShort));
    }
    let quadratization = open_parts(register, scheme)?;
    penalty_form(&quadratization, table);
    Ok(())
}

// The penalty form of a register and a scheme, each as a run of bytes by itself.
#[unsafe(no_mangle)]
pub extern "C" fn feedcheck_penalty(
    register: &[u8],
    scheme: &[u8],
    table: &mut [i64],
) -> PenaltyAnswer
    ensures value { result ≡ penalty_answer register.now scheme.now table.old }
    ensures table_after { table.new ≡ penalty_table register.now scheme.now table.old }
{
    match put_penalty(register, scheme, table) {
        Ok(()) => PenaltyAnswer {
            number: 0,
            part: 0,
            position: 0,
        },
        Err(fault) => PenaltyAnswer::from_fault(fault),
    }
}
