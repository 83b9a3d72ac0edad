// The certificate of our own, written from the table of g.

#![tactic(auto)]

ghost use Rattle.std.specs.Prelude.{◌≡◌, ℕ, List, ℤ, ◌^◌, ◌+◌, ◌≤◌, ◌<◌, pos, nat_abs, length, replicate};
ghost use Rattle.integers.specs.Integer.{neg_part, abs};
ghost use Rattle.integers.specs.Sum.{except, sum_below};
ghost use Rattle.forms.specs.Form.{entry};
ghost use Rattle.forms.specs.Table.{table_numbers, with_table};
ghost use Rattle.register.specs.Register.{coefficient};
ghost use Rattle.register.specs.Limits.{max_base};
ghost use Rattle.scheme.specs.Scheme.{side};
ghost use Rattle.scheme.specs.Function.{g};
ghost use Rattle.wire.specs.Number.{written};
ghost use Rattle.wire.specs.Writer.{writer_answer, bytes_answer, with_front};
ghost use Rattle.integers.specs.Lists.{join_below};
ghost use Rattle.certificate.specs.Certificate.{Multiplier};
ghost use Rattle.certificate.specs.Encoding.{encode_scale};
ghost use Rattle.plain.specs.Plain.{unless_zero};
ghost use Rattle.plain.specs.Encoding.{encode_multipliers, encode_plain};
ghost use Rattle.plain.specs.InTable.{Small, entry_in, products_in, half_in, left_in, subtracted_in, diagonal_in, linear_in, commands_in, encode_in};
ghost use Rattle.plain.specs.Answer.{plain_answer, plain_buffer};

use bound::chosen::open_chosen;
use forms::{SquareTable, WorkingTable};
use scheme::Quadratization;
use wire::{Fault, Refusal, ToBytes, WriterAnswer};

// The sum of the first n terms.
fn sum_of<F: Fn(usize) -> u64>(n: usize, term: F) -> u64
    ghost terms: { ℕ → ℤ }
    requires callable { (i : ℕ) → i < n → F.pre term i }
    requires gives { (i x : ℕ) → i < n → F.post term i x → pos x ≡ terms i }
    requires fits { (k : ℕ) → k ≤ n → nat_abs (sum_below k terms) < 2 ^ 64 }
    ensures { pos result ≡ sum_below n terms }
{
    let mut total = 0;
    for i in 0..n {
        total += term(i);
    }
    total
}

// A multiplier command that names one variable, by its byte. There is none where the multiplier is 0.
#[derive(Clone, Copy, Debug, PartialEq, Eq)]
struct Command {
    kind: u8,
    name: u8,
    m: u64,
}

impl Command {
    // 1, or 0 where there is none.
    fn count(self) -> usize
        ensures { result ≡ length (unless_zero self.kind self.name self.m) }
    {
        (self.m != 0) as usize
    }

    // Writes the command. Returns the position after it: only two functions write so, and a writer would be one more struct for them.
    fn put(self, out: &mut [u8], at: usize) -> usize
        requires { at + length (encode_multipliers (unless_zero self.kind self.name self.m)) ≤ length out.old }
        ensures value { result ≡ at + length (encode_multipliers (unless_zero self.kind self.name self.m)) }
        ensures out_after { out.new ≡ written out.old at (encode_multipliers (unless_zero self.kind self.name self.m)) }
    {
        if self.m == 0 {
            return at;
        }
        self.kind.write(out, at);
        self.name.write(out, at + 1);
        self.m.write(out, at + 2);
        at + 10
    }
}

// A table for n variables, of side n + 1, whose numbers are as small as those of the table of g.
#[derive(Clone, Copy)]
struct FunctionTable<'a> {
    numbers: &'a [i64],
    n: usize,
    ghost small: { Small n numbers.now },
}

impl FunctionTable<'_> {
    // The number in row i and column j.
    fn entry(&self, i: usize, j: usize) -> i64
        requires { (i ≤ self.now.n) × (j ≤ self.now.n) }
        ensures { result ≡ entry_in self.now.n self.now.numbers.now i j }
    {
        self.numbers[i * (self.n + 1) + j]
    }

    // |coefficient of variable i times variable j|, 0 where they are one: unsigned, to be summed, where the check of a row subtracts.
    fn off_diagonal_term(&self, i: usize, j: usize) -> u64
        requires { (i < self.now.n) × (j < self.now.n) }
        ensures { pos result ≡ except i (λ k. abs (products_in self.now.n self.now.numbers.now i k)) j }
    {
        if j == i {
            return 0;
        }
        self.entry(i + 1, j + 1).unsigned_abs()
    }

    // The multiplier of `31` for variable i.
    fn half_row_sum(&self, i: usize) -> u64
        requires { i < self.now.n }
        ensures { result ≡ half_in self.now.n self.now.numbers.now i }
    {
        sum_of(self.n, |j| self.off_diagonal_term(i, j)).div_ceil(2)
    }

    // What is left of the linear coefficient of variable i.
    fn linear_left(&self, i: usize) -> i64
        requires { i < self.now.n }
        ensures { result ≡ left_in self.now.n self.now.numbers.now i }
    {
        self.entry(0, i + 1) - self.half_row_sum(i) as i64
    }

    // The multiplier of `39` for variable i, or 0 where what is left is not below 0.
    fn taken(&self, i: usize) -> u64
        requires { i < self.now.n }
        ensures { result ≡ neg_part (left_in self.now.n self.now.numbers.now i) }
    {
        self.linear_left(i).min(0).unsigned_abs()
    }

    // The sum of the multipliers of `39`.
    fn subtracted(&self) -> u64
        ensures { pos result ≡ subtracted_in self.now.n self.now.numbers.now }
    {
        sum_of(self.n, |i| self.taken(i))
    }

    // `31` for variable i.
    fn diagonal(&self, i: usize) -> Command
        requires { i < self.now.n }
        ensures { unless_zero result.kind result.name result.m ≡ diagonal_in self.now.n self.now.numbers.now i }
    {
        Command {
            kind: 0x31,
            name: i as u8,
            m: self.half_row_sum(i),
        }
    }

    // `38` or `39` for variable i, which cancels what is left.
    fn linear(&self, i: usize) -> Command
        requires { i < self.now.n }
        ensures { unless_zero result.kind result.name result.m ≡ linear_in self.now.n self.now.numbers.now i }
    {
        let left = self.linear_left(i);
        let kind = if left < 0 { 0x39 } else { 0x38 };
        Command {
            kind,
            name: i as u8,
            m: left.unsigned_abs(),
        }
    }

    // How many multiplier commands there are.
    fn command_count(&self) -> usize
        ensures { result ≡ length (commands_in self.now.n self.now.numbers.now) }
    {
        let mut count: usize = 0;
        for i in 0..self.n {
            count += self.diagonal(i).count() + self.linear(i).count();
        }
        count
    }
}

// Writes the first command, `30`, with scale 1.
fn put_scale(out: &mut [u8], target: i64)
    requires { 13 ≤ length out.old }
    ensures { out.new ≡ written out.old 0 (encode_scale 1 target) }
{
    0x30u8.write(out, 0);
    1u32.write(out, 1);
    target.write(out, 5);
}

// Writes the commands of the first n variables, rising. Returns the position after them.
fn put_commands<F: Fn(usize) -> Command>(
    n: usize,
    command: F,
    out: &mut [u8],
    start: usize,
) -> usize
    ghost multipliers: { ℕ → List Multiplier }
    requires callable { (i : ℕ) → i < n → F.pre command i }
    requires gives { (i : ℕ) (c : _) → i < n → F.post command i c → unless_zero c.kind c.name c.m ≡ multipliers i }
    requires room { start + length (encode_multipliers (join_below n multipliers)) ≤ length out.old }
    ensures value { result ≡ start + length (encode_multipliers (join_below n multipliers)) }
    ensures out_after { out.new ≡ written out.old start (encode_multipliers (join_below n multipliers)) }
{
    let mut at = start;
    for i in 0..n {
        at = command(i).put(out, at);
    }
    at
}

// Writes the whole certificate.
fn put_certificate(table: &FunctionTable, base: i64, out: &mut [u8])
    requires base_bound { nat_abs base ≤ max_base }
    requires out_in_bounds { length (encode_in table.now.n base table.now.numbers.now) ≤ length out.old }
    ensures { out.new ≡ written out.old 0 (encode_in table.now.n base table.now.numbers.now) }
{
    put_scale(out, base - table.subtracted() as i64);
    let middle = put_commands(table.n, |i| table.diagonal(i), out, 13);
    let end = put_commands(table.n, |i| table.linear(i), out, middle);
    0x3Fu8.write(out, end);
}

// The table of g.
fn function_table(quadratization: &Quadratization) -> [i64; WorkingTable::NUMBERS]
    ensures { result ≡ with_table (side quadratization.now.register.choices quadratization.now.scheme) (entry (g (coefficient quadratization.now.register) quadratization.now.register quadratization.now.scheme)) (replicate table_numbers (pos 0)) }
{
    let mut numbers = [0; WorkingTable::NUMBERS];
    let mut square = SquareTable {
        numbers: &mut numbers,
        side: quadratization.side(),
    };
    penalty::add_function(quadratization, &mut square, 1);
    numbers
}

// Writes our own certificate of a quadratization, if the buffer is long enough. Returns how many bytes it has.
fn plain_certificate(quadratization: &Quadratization, out: &mut [u8]) -> Result<usize, Fault>
    ensures value { writer_answer result ≡ bytes_answer (encode_plain (coefficient quadratization.now.register) quadratization.now.register quadratization.now.scheme) out.old }
    ensures out_after { out.new ≡ with_front (encode_plain (coefficient quadratization.now.register) quadratization.now.register quadratization.now.scheme) out.old }
{
    let numbers = function_table(quadratization);
    let table = FunctionTable {
        numbers: &numbers,
        n: quadratization.register.choices + quadratization.scheme.products,
    };
    let count = 14 + 10 * table.command_count();
    if out.len() < count {
        return Err(Fault::nowhere(Refusal::TooShort));
    }
    put_certificate(&table, i64::from(quadratization.register.base), out);
    Ok(count)
}

// Writes our own certificate of two parts, and of a plan where a term has a range, each by itself.
fn put_plain(register: &[u8], scheme: &[u8], plan: &[u8], out: &mut [u8]) -> Result<usize, Fault>
    ensures value { writer_answer result ≡ plain_answer register.now scheme.now plan.now out.old }
    ensures out_after { out.new ≡ plain_buffer register.now scheme.now plan.now out.old }
{
    let quadratization = open_chosen(register, scheme, plan)?;
    plain_certificate(&quadratization, out)
}

// The certificate of our own for a register and a scheme, and for a plan where a term has a range, each as a run of bytes by itself.
#[unsafe(no_mangle)]
pub extern "C" fn feedcheck_plain(
    register: &[u8],
    scheme: &[u8],
    plan: &[u8],
    out: &mut [u8],
) -> WriterAnswer
    ensures value { result ≡ plain_answer register.now scheme.now plan.now out.old }
    ensures out_after { out.new ≡ plain_buffer register.now scheme.now plan.now out.old }
{
    match put_plain(register, scheme, plan, out) {
        Ok(count) => WriterAnswer::written(count),
        Err(fault) => WriterAnswer::from_fault(fault),
    }
}
