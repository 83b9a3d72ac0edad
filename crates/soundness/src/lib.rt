// `specs/` has statements of any calls, `proofs/` shows them of ours. The functions here tie those calls to the exported functions;
// nothing calls them.

#![tactic(auto)]

ghost use Rattle.std.specs.Prelude.{◌≡◌};
ghost use Rattle.wire.specs.Number.{Bytes};
ghost use Rattle.job.specs.Counting.{Whole};
ghost use Rattle.soundness.specs.Calls.{register_call, scheme_call, cost_call, penalty_call, check_call, plain_call, build_call, costliest_call, job_call, listing_call, supplier_listing_call, search_call};

use bound::CheckAnswer;
use bound::check::feedcheck_check;
use builder::feedcheck_build;
use costliest::feedcheck_costliest;
use job::{JobAnswer, Tally, feedcheck_job};
use listing::{feedcheck_listing, feedcheck_supplier_listing};
use penalty::{PenaltyAnswer, feedcheck_penalty};
use plain::feedcheck_plain;
use plan::{CostAnswer, feedcheck_cost};
use register::{RegisterAnswer, feedcheck_register};
use scheme::{SchemeAnswer, feedcheck_scheme};
use search::{SearchAnswer, feedcheck_search};
use wire::WriterAnswer;

// The statements ask that a run of numbers is `Bytes`, each below 256. Every slice that a call can be lent is.
pub fn lent_bytes(bytes: &[u8])
    ensures { Bytes bytes.now }
{
    entered();
}

// Some statements ask that a tally has a pair for each supplier, which every `Tally` of the code has.
pub fn lent_tally(tally: Tally)
    ensures { Whole tally }
{
    entered();
}

// A call, so that what an argument's type says of its elements is at hand.
fn entered() {}

// One function for each of our calls in `specs/Calls`: it runs the exported function, and its contract says that the answer, and
// what is handed back of a lent table or buffer, are those of the call. So the statements speak of the code that is exported.

pub fn register_call(register: &[u8]) -> RegisterAnswer
    ensures { result ≡ register_call register.now }
{
    feedcheck_register(register)
}

pub fn scheme_call(register: &[u8], scheme: &[u8]) -> SchemeAnswer
    ensures { result ≡ scheme_call register.now scheme.now }
{
    feedcheck_scheme(register, scheme)
}

pub fn cost_call(register: &[u8], plan: &[u8]) -> CostAnswer
    ensures { result ≡ cost_call register.now plan.now }
{
    feedcheck_cost(register, plan)
}

pub fn penalty_call(register: &[u8], scheme: &[u8], table: &mut [i64]) -> PenaltyAnswer
    ensures value { result ≡ (penalty_call register.now scheme.now table.old).0 }
    ensures table_after { table.new ≡ (penalty_call register.now scheme.now table.old).1 }
{
    feedcheck_penalty(register, scheme, table)
}

pub fn check_call(
    register: &[u8],
    scheme: &[u8],
    certificate: &[u8],
    plan: &[u8],
    table: &mut [i64],
) -> CheckAnswer
    ensures value { result ≡ (check_call register.now scheme.now certificate.now plan.now table.old).0 }
    ensures table_after { table.new ≡ (check_call register.now scheme.now certificate.now plan.now table.old).1 }
{
    feedcheck_check(register, scheme, certificate, plan, table)
}

pub fn plain_call(register: &[u8], scheme: &[u8], plan: &[u8], buffer: &mut [u8]) -> WriterAnswer
    ensures value { result ≡ (plain_call register.now scheme.now plan.now buffer.old).0 }
    ensures buffer_after { buffer.new ≡ (plain_call register.now scheme.now plan.now buffer.old).1 }
{
    feedcheck_plain(register, scheme, plan, buffer)
}

pub fn build_call(register: &[u8], buffer: &mut [u8]) -> WriterAnswer
    ensures value { result ≡ (build_call register.now buffer.old).0 }
    ensures buffer_after { buffer.new ≡ (build_call register.now buffer.old).1 }
{
    feedcheck_build(register, buffer)
}

pub fn costliest_call(m: u32, d: u32, buffer: &mut [u8]) -> WriterAnswer
    ensures value { result ≡ (costliest_call m d buffer.old).0 }
    ensures buffer_after { buffer.new ≡ (costliest_call m d buffer.old).1 }
{
    feedcheck_costliest(m, d, buffer)
}

pub fn job_call(job: &[u8], table: &mut [i64], supplier: u8, tally: Tally) -> JobAnswer
    ensures value { result ≡ (job_call job.now table.old supplier tally).0 }
    ensures table_after { table.new ≡ (job_call job.now table.old supplier tally).1 }
{
    feedcheck_job(job, table, supplier, tally)
}

pub fn listing_call(job: &[u8], table: &mut [i64], buffer: &mut [u8]) -> WriterAnswer
    ensures value { result ≡ (listing_call job.now table.old buffer.old).0 }
    ensures table_after { table.new ≡ (listing_call job.now table.old buffer.old).1.0 }
    ensures buffer_after { buffer.new ≡ (listing_call job.now table.old buffer.old).1.1 }
{
    feedcheck_listing(job, table, buffer)
}

pub fn supplier_listing_call(job: &[u8], table: &mut [i64], buffer: &mut [u8]) -> WriterAnswer
    ensures value { result ≡ (supplier_listing_call job.now table.old buffer.old).0 }
    ensures table_after { table.new ≡ (supplier_listing_call job.now table.old buffer.old).1.0 }
    ensures buffer_after { buffer.new ≡ (supplier_listing_call job.now table.old buffer.old).1.1 }
{
    feedcheck_supplier_listing(job, table, buffer)
}

pub fn search_call(register: &[u8], limit: u32) -> SearchAnswer
    ensures { result ≡ search_call register.now limit }
{
    feedcheck_search(register, limit)
}
