// Part 4 of the job file, the plan, and its cost.

#![tactic(auto)]

ghost use Rattle.std.specs.Prelude.{◌≡◌, ◌<◌, ◌≤◌, true, length, get_or};
ghost use Rattle.wire.specs.Checks.{refusal};
ghost use Rattle.wire.specs.Part.{size, checks_at};
ghost use Rattle.wire.specs.Outcome.{added_by};
ghost use Rattle.wire.specs.Results.{number_of, number_in, reading_of, outcome_of};
ghost use Rattle.wire.specs.Rows.{is_among};
ghost use Rattle.register.specs.declared.Register.{Register};
ghost use Rattle.register.specs.Limits.{max_choices, max_rows};
ghost use Rattle.register.specs.Valid.{Within};
ghost use Rattle.plan.specs.Plan.{cost};
ghost use Rattle.plan.specs.Chosen.{chosen};
ghost use Rattle.plan.specs.Fits.{fits};
ghost use Rattle.plan.specs.Format.{plan_part, plan_in_job};
ghost use Rattle.plan.specs.Answer.{plan_bytes, plan_said, refused_cost, cost_outcome, cost_answer};

pub mod choice_sets;
pub mod chosen;
mod rows;

use choice_sets::where_within;
use register::{Register, open_register};
pub use rows::fits_rows;
use wire::{Fault, FromBytes, Read, Refusal, Refused, by_itself, check_command, refuse_if};

// The answer of the cost call: a refusal's number, part and position, or zeros and the cost. C reads it, so the number stands beside
// the cost.
#[repr(C)]
#[derive(Clone, Copy, Debug, PartialEq, Eq)]
pub struct CostAnswer {
    pub number: u8,
    pub part: u8,
    pub position: usize,
    pub cost: i64,
}

impl CostAnswer {
    fn from_fault(fault: Fault) -> CostAnswer
        ensures { result ≡ refused_cost (number_of fault.refusal) fault.part fault.position }
    {
        CostAnswer {
            number: fault.refusal.number(),
            part: fault.part,
            position: fault.position,
            cost: 0,
        }
    }
}

// How many bytes a command has: its own byte and the plan.

const PLAN_SIZE: usize = 1 + 4;

const WIDE_PLAN_SIZE: usize = 1 + 8;

// A command is a plan.
fn is_plan(command: u8) -> bool
    ensures { result ≡ is_among command plan_bytes }
{
    (command == 0x40) | (command == 0x41)
}

// The bytes of a command.
fn command_size(command: u8) -> usize
    ensures { (reg : Register) → result ≡ size (plan_part reg) command }
{
    match command {
        0x40 => PLAN_SIZE,
        0x41 => WIDE_PLAN_SIZE,
        _ => 1,
    }
}

// The plan that the command at the front of a run of bytes says.
fn plan_said(bytes: &[u8]) -> u64
    requires room { (reg : Register) → size (plan_part reg) (get_or bytes.now 0 0) ≤ length bytes.now }
    requires plan { is_among (get_or bytes.now 0 0) plan_bytes ≡ true }
    ensures { result ≡ plan_said bytes.now }
{
    if bytes[0] == 0x41 {
        u64::read(bytes, 1)
    } else {
        u64::from(u32::read(bytes, 1))
    }
}

// The checks of the plan at the front of a run of bytes.
fn plan_refusal(bytes: &[u8], register: &Register) -> Result<(), Refusal>
    requires bytes_nonzero { 0 < length bytes.now }
    requires choices_within { register.now.choices ≤ max_choices }
    requires rows_within { register.now.rows ≤ max_rows }
    ensures { number_in result ≡ refusal (checks_at (plan_part register.now) bytes.now (plan_part register.now).start 0) }
{
    check_command(is_plan(bytes[0]), bytes.len(), command_size(bytes[0]))?;
    let plan = plan_said(bytes);
    refuse_if(1u64 << register.choices <= plan, Refusal::NotThere)?;
    refuse_if(!fits_rows(register, plan), Refusal::Misfit)
}

// The plan at the front of a run of bytes.
pub fn read_plan(bytes: &[u8], register: Register) -> Result<Read<u64>, Refused>
    requires choices_within { register.choices ≤ max_choices }
    requires rows_within { register.rows ≤ max_rows }
    ensures { reading_of result ≡ added_by (λ plan. plan) (plan_in_job register bytes.now) }
{
    if bytes.is_empty() {
        return Err(Refused {
            refusal: Refusal::CutShort,
            position: 0,
        });
    }
    match plan_refusal(bytes, &register) {
        Ok(()) => Ok(Read {
            value: plan_said(bytes),
            end: command_size(bytes[0]),
        }),
        Err(refusal) => Err(Refused {
            refusal,
            position: 0,
        }),
    }
}

// The cost of a plan: the base cost and what each term adds, which is high where the term has a range.
pub fn cost_of(register: Register, plan: u64) -> i64
    requires { Within register }
    ensures { result ≡ cost (chosen register plan) register plan }
{
    let mut total = i64::from(register.base);
    for t in 0..register.terms {
        total += i64::from(where_within(register.masks[t], plan, register.highs[t]));
    }
    total
}

// The cost of a plan, from the bytes of parts 1 and 4.
fn open_cost(register: &[u8], plan: &[u8]) -> Result<i64, Fault>
    ensures { outcome_of result ≡ cost_outcome register.now plan.now }
{
    let register = open_register(register)?;
    let plan = by_itself(plan, 4, read_plan(plan, register))?;
    Ok(cost_of(register, plan))
}

// The cost of a plan, from the bytes of parts 1 and 4, as C reads it.
#[tactic(auto, unfolding(crate::specs::Answer::cost_answer))]
#[unsafe(no_mangle)]
pub extern "C" fn feedcheck_cost(register: &[u8], plan: &[u8]) -> CostAnswer
    ensures { result ≡ cost_answer register.now plan.now }
{
    match open_cost(register, plan) {
        Ok(cost) => CostAnswer {
            number: 0,
            part: 0,
            position: 0,
            cost,
        },
        Err(fault) => CostAnswer::from_fault(fault),
    }
}
