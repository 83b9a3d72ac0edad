// The check of a certificate: its commands, R in the lent table, the rows, and the bound.
ghost use Rattle.std.specs.Prelude.{◌≡◌, ◌≤◌, length};
ghost use Rattle.wire.specs.Outcome.{added_by};
ghost use Rattle.wire.specs.Results.{reading_of, outcome_of};
ghost use Rattle.forms.specs.Table.{table_numbers};
ghost use Rattle.register.specs.Register.{coefficient};
ghost use Rattle.certificate.specs.Format.{commands_in_job};
ghost use Rattle.bound.specs.Bound.{bound};
ghost use Rattle.bound.specs.Format.{certificate_in_job};
ghost use Rattle.bound.specs.Check.{with_residual, check_outcome, check_answer, check_table};

use crate::CheckAnswer;
use crate::chosen::open_chosen;
use crate::dominance::{ceil_div, first_short};
use certificate::read_commands;
use forms::WorkingTable;
use residual::put_residual;
use scheme::Quadratization;
use wire::{Fault, Read, Refusal, Refused, by_itself};

// The certificate at the front of a run of bytes: its bound. The table holds R where `3F` is reached.
pub fn check_certificate(
    bytes: &[u8],
    quadratization: &Quadratization,
    table: &mut [i64],
) -> Result<Read<i64>, Refused>
    requires table_numbers_in_bounds { table_numbers ≤ length table.old }
    ensures value { reading_of result ≡ added_by bound (certificate_in_job (coefficient quadratization.now.register) quadratization.now.register quadratization.now.scheme bytes.now) }
    ensures table_after { table.new ≡ with_residual (coefficient quadratization.now.register) quadratization.now.register quadratization.now.scheme (commands_in_job quadratization.now.register quadratization.now.scheme bytes.now) table.old }
{
    let commands = read_commands(bytes, quadratization)?;
    put_residual(bytes, quadratization, table);
    if first_short(table, quadratization.side()).is_some() {
        return Err(Refused {
            refusal: Refusal::FallsShort,
            position: commands.end - 1,
        });
    }
    Ok(Read {
        value: ceil_div(commands.value.target, commands.value.scale),
        end: commands.end,
    })
}

// Parts 1 to 3, and of a register with a range part 4, each a run of bytes by itself: the bound.
fn check_parts(
    register: &[u8],
    scheme: &[u8],
    certificate: &[u8],
    plan: &[u8],
    table: &mut [i64],
) -> Result<i64, Fault>
    ensures value { outcome_of result ≡ check_outcome register.now scheme.now certificate.now plan.now table.old }
    ensures table_after { table.new ≡ check_table register.now scheme.now certificate.now plan.now table.old }
{
    if table.len() < WorkingTable::NUMBERS {
        return Err(Fault::nowhere(Refusal::TooShort));
    }
    let quadratization = open_chosen(register, scheme, plan)?;
    by_itself(
        certificate,
        3,
        check_certificate(certificate, &quadratization, table),
    )
}

// Checks a certificate against a register, a scheme and, where the register has a range, a plan, each as a run of bytes by itself.
#[unsafe(no_mangle)]
pub extern "C" fn feedcheck_check(
    register: &[u8],
    scheme: &[u8],
    certificate: &[u8],
    plan: &[u8],
    table: &mut [i64],
) -> CheckAnswer
    ensures value { result ≡ check_answer register.now scheme.now certificate.now plan.now table.old }
    ensures table_after { table.new ≡ check_table register.now scheme.now certificate.now plan.now table.old }
{
    match check_parts(register, scheme, certificate, plan, table) {
        Ok(bound) => CheckAnswer {
            number: 0,
            part: 0,
            position: 0,
            bound,
        },
        Err(fault) => CheckAnswer {
            number: fault.refusal.number(),
            part: fault.part,
            position: fault.position,
            bound: 0,
        },
    }
}
