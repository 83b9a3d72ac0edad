// The whole job: its four parts after each other, each handed on to that part's reader, and the tally.

#![tactic(auto)]

ghost use Rattle.std.specs.Prelude.{◌≡◌, false, cond, ◌+◌, ◌≤◌, ◌<◌, ◌^◌, ltb, nat_abs, length, drop};
ghost use Rattle.wire.specs.Outcome.{refuses, accepts, next, starting_at};
ghost use Rattle.wire.specs.Results.{number_of, reading_of, outcome_of};
ghost use Rattle.forms.specs.Table.{table_numbers};
ghost use Rattle.register.specs.Register.{coefficient, has_range};
ghost use Rattle.register.specs.Valid.{Within};
ghost use Rattle.certificate.specs.Format.{commands_in_job};
ghost use Rattle.bound.specs.Check.{with_residual};
ghost use Rattle.certificate.specs.Limits.{max_target};
ghost use Rattle.job.specs.Tally.{suppliers, raised as one_more, with_accepted, with_refused, fresh as fresh_tally, with_pair};
ghost use Rattle.job.specs.Outcome.{outcome, table_after};
ghost use Rattle.job.specs.Rest.{rest, table_of_rest, first_two, plan_last, plan_first, certificate_at, plan_at, end_of};
ghost use Rattle.job.specs.Answer.{accepted_read, job_read, outcome_with, table_with, refused_answer, job_answer, job_table};

use bound::check::check_certificate;
use bound::chosen::quadratization_under;
use forms::WorkingTable;
use plan::{cost_of, read_plan};
use register::{Register, read_register};
use scheme::{Quadratization, read_scheme};
use wire::{Fault, Read, Refusal, Refused};

// How many jobs of one supplier were accepted and refused so far.
#[repr(C)]
#[derive(Clone, Copy, Debug, PartialEq, Eq)]
pub struct Counters {
    pub accepted: u32,
    pub refused: u32,
}

// A pair of counters for each supplier.
#[repr(C)]
#[derive(Clone, Copy, Debug, PartialEq, Eq)]
pub struct Tally {
    pub pairs: [Counters; Tally::SUPPLIERS],
}

// What an accepted job gives: the register, the plan, the bound, the plan's cost and the gap between them.
#[derive(Clone, Copy, Debug, PartialEq, Eq)]
pub struct JobRead {
    pub register: Register,
    pub plan: u64,
    pub bound: i64,
    pub cost: i64,
    pub gap: i64,
}

// The answer of the call, a C record: a refusal's number, part and position, or zeros, the bound, the plan's cost and the gap; and
// the tally.
#[repr(C)]
#[derive(Clone, Copy, Debug, PartialEq, Eq)]
pub struct JobAnswer {
    pub number: u8,
    pub part: u8,
    pub position: usize,
    pub bound: i64,
    pub cost: i64,
    pub gap: i64,
    pub tally: Tally,
}

impl Counters {
    // Where a count stays.
    pub const MAX_COUNT: u32 = u32::MAX;

    #[tactic(auto, unfolding(crate::specs::Tally::raised))]
    fn raised(count: u32) -> u32
        ensures { result ≡ one_more count }
    {
        count.saturating_add(1).min(Counters::MAX_COUNT)
    }

    // One more accepted job. Each count is a field, so each has a function of its own.
    fn with_accepted(self) -> Counters
        ensures { result ≡ with_accepted self }
    {
        Counters {
            accepted: Counters::raised(self.accepted),
            ..self
        }
    }

    fn with_refused(self) -> Counters
        ensures { result ≡ with_refused self }
    {
        Counters {
            refused: Counters::raised(self.refused),
            ..self
        }
    }
}

impl Tally {
    // How many suppliers there are. Their numbers are 0 to 15.
    pub const SUPPLIERS: usize = 16;

    // Each record has a function that makes a fresh one, since each has fields of its own.
    pub fn fresh() -> Tally
        ensures { result ≡ fresh_tally }
    {
        let none = Counters {
            accepted: 0,
            refused: 0,
        };
        Tally {
            pairs: [none; Tally::SUPPLIERS],
        }
    }

    // The same tally with another pair for a supplier.
    fn with_pair(mut self, supplier: usize, pair: Counters) -> Tally
        requires { supplier < suppliers }
        ensures { result ≡ with_pair supplier pair self }
    {
        self.pairs[supplier] = pair;
        self
    }
}

impl JobRead {
    fn accepted(register: Register, plan: u64, bound: i64) -> JobRead
        requires within { Within register }
        requires bound_bound { nat_abs bound ≤ max_target }
        ensures { result ≡ accepted_read register plan bound }
    {
        let cost = cost_of(register, plan);
        JobRead {
            register,
            plan,
            bound,
            cost,
            gap: cost - bound,
        }
    }
}

impl JobAnswer {
    fn refused(fault: Fault, tally: Tally) -> JobAnswer
        ensures { result ≡ refused_answer (number_of fault.refusal) fault.part fault.position tally }
    {
        JobAnswer {
            number: fault.refusal.number(),
            part: fault.part,
            position: fault.position,
            bound: 0,
            cost: 0,
            gap: 0,
            tally,
        }
    }
}

// A part that starts at a position of the job, by its number: its positions are counted from the job's start.
fn in_job<T: Copy>(part: u8, from: usize, read: Result<Read<T>, Refused>) -> Result<Read<T>, Fault>
    requires { from + end_of read < 2 ^ 64 }
    ensures { outcome_of result ≡ next part (starting_at from (reading_of read)) λ value end. accepts (record { value = value; end = end }) }
{
    match read {
        Ok(read) => Ok(Read {
            value: read.value,
            end: from + read.end,
        }),
        Err(refused) => Err(refused.behind(from).in_part(part)),
    }
}

// Part 3 at a position of the job: its bound, and where it ends. The table holds R where `3F` is reached.
fn certificate_at(
    job: &[u8],
    from: usize,
    quadratization: &Quadratization,
    table: &mut [i64],
) -> Result<Read<i64>, Fault>
    requires numbers { table_numbers ≤ length table.old }
    requires inside { from ≤ length job.now }
    ensures value { let q = quadratization.now in outcome_of result ≡ certificate_at job.now q.register q.scheme (coefficient q.register) from }
    ensures table_after { let q = quadratization.now in table.new ≡ with_residual (coefficient q.register) q.register q.scheme (commands_in_job q.register q.scheme (drop from job.now)) table.old }
{
    in_job(
        3,
        from,
        check_certificate(&job[from..], quadratization, table),
    )
}

// Part 4 at a position of the job: the plan, and where it ends.
fn plan_at(job: &[u8], from: usize, register: Register) -> Result<Read<u64>, Fault>
    requires within { Within register }
    requires inside { from ≤ length job.now }
    ensures { outcome_of result ≡ plan_at job.now register from }
{
    in_job(4, from, read_plan(&job[from..], register))
}

// Nothing stands behind the part that ends a job; `by_itself` is for a part that also starts it.
fn ends_job(job: &[u8], part: u8, end: usize) -> Result<usize, Fault>
    ensures { outcome_of result ≡ cond (ltb end (length job.now)) (refuses 12 part end) (accepts end) }
{
    if end < job.len() {
        return Err(Fault {
            refusal: Refusal::PastEnd,
            part,
            position: end,
        });
    }
    Ok(end)
}

// Parts 3 and 4 of a job whose register has no range, from a position on.
fn read_plan_last(
    job: &[u8],
    from: usize,
    quadratization: &Quadratization,
    table: &mut [i64],
) -> Result<JobRead, Fault>
    requires numbers { table_numbers ≤ length table.old }
    requires inside { from ≤ length job.now }
    requires no_range { has_range quadratization.now.register ≡ false }
    ensures value { outcome_of result ≡ job_read (rest job.now plan_last (first_two quadratization.now.register quadratization.now.scheme) from) }
    ensures table_after { table.new ≡ table_of_rest job.now plan_last (first_two quadratization.now.register quadratization.now.scheme) from table.old }
{
    let register = quadratization.register;
    let Read { value: bound, end } = certificate_at(job, from, quadratization, table)?;
    let Read { value: plan, end } = plan_at(job, end, register)?;
    ends_job(job, 4, end)?;
    Ok(JobRead::accepted(register, plan, bound))
}

// Parts 4 and 3 of a job whose register has a range, from a position on: the plan chooses the coefficients.
fn read_plan_first(
    job: &[u8],
    from: usize,
    quadratization: &Quadratization,
    table: &mut [i64],
) -> Result<JobRead, Fault>
    requires numbers { table_numbers ≤ length table.old }
    requires inside { from ≤ length job.now }
    ensures value { outcome_of result ≡ job_read (rest job.now plan_first (first_two quadratization.now.register quadratization.now.scheme) from) }
    ensures table_after { table.new ≡ table_of_rest job.now plan_first (first_two quadratization.now.register quadratization.now.scheme) from table.old }
{
    let register = quadratization.register;
    let Read { value: plan, end } = plan_at(job, from, register)?;
    let chosen = quadratization_under(quadratization, plan);
    let Read { value: bound, end } = certificate_at(job, end, &chosen, table)?;
    ends_job(job, 3, end)?;
    Ok(JobRead::accepted(register, plan, bound))
}

// The four parts after each other. The table holds R where `3F` is reached.
pub fn read_job(job: &[u8], table: &mut [i64]) -> Result<JobRead, Fault>
    requires { table_numbers ≤ length table.old }
    ensures value { outcome_of result ≡ job_read (outcome job.now) }
    ensures table_after { table.new ≡ table_after job.now table.old }
{
    let Read {
        value: register,
        end,
    } = in_job(1, 0, read_register(job))?;
    let Read { value: scheme, end } = in_job(2, end, read_scheme(&job[end..], &register))?;
    let quadratization = Quadratization { register, scheme };
    if register.has_range() {
        read_plan_first(job, end, &quadratization, table)
    } else {
        read_plan_last(job, end, &quadratization, table)
    }
}

// The same with a table that may be too short, which is found before the job is read.
fn read_with_table(job: &[u8], table: &mut [i64]) -> Result<JobRead, Fault>
    ensures value { outcome_of result ≡ job_read (outcome_with job.now table.old) }
    ensures table_after { table.new ≡ table_with job.now table.old }
{
    if table.len() < WorkingTable::NUMBERS {
        return Err(Fault::nowhere(Refusal::TooShort));
    }
    read_job(job, table)
}

// A whole job, and the tally with it counted for its supplier.
#[unsafe(no_mangle)]
pub extern "C" fn feedcheck_job(
    job: &[u8],
    table: &mut [i64],
    supplier: u8,
    tally: Tally,
) -> JobAnswer
    ensures value { result ≡ job_answer job.now table.old supplier tally }
    ensures table_after { table.new ≡ job_table job.now table.old supplier }
{
    let index = supplier as usize;
    if index >= Tally::SUPPLIERS {
        return JobAnswer::refused(Fault::nowhere(Refusal::UnknownSupplier), tally);
    }
    let pair = tally.pairs[index];
    match read_with_table(job, table) {
        Ok(read) => JobAnswer {
            number: 0,
            part: 0,
            position: 0,
            bound: read.bound,
            cost: read.cost,
            gap: read.gap,
            tally: tally.with_pair(index, pair.with_accepted()),
        },
        Err(fault) => JobAnswer::refused(fault, tally.with_pair(index, pair.with_refused())),
    }
}
