// The cheapest plan of a register.

#![tactic(auto)]

mod lists;
mod terms;

ghost use Rattle.std.specs.Prelude.{◌≡◌, ◌^◌, ◌≤◌, ◌<◌, OnOk, is_ok};
ghost use Rattle.wire.specs.Outcome.{answer_by};
ghost use Rattle.wire.specs.Results.{number_of, outcome_of};
ghost use Rattle.wire.specs.declared.refusals.Refusal.TheVariants.{PastLimit};
ghost use Rattle.register.specs.Limits.{max_choices, max_rows};
ghost use Rattle.register.specs.Register.{coefficient};
ghost use Rattle.register.specs.Valid.{Within};
ghost use Rattle.plan.specs.Fits.{fits};
ghost use Rattle.search.specs.Walk.{Best, start, walk};
ghost use Rattle.search.specs.Answer.{search, within_limit, refused_search, accepted_search, found_search, told_search, search_answer};
ghost use Rattle.search.specs.Lent.{lent_sum, At, is_left_by, walked_of, UpTo};

pub use lists::{Change, TermLists};
use plan::fits_rows;
use register::{Register, open_register};
use terms::sum_at;
use wire::{Fault, Refusal};

// A full plan that fits, and its cost.
#[derive(Clone, Copy, Debug, PartialEq, Eq)]
pub struct Met {
    pub plan: u64,
    pub cost: i64,
}

// What a walk has come to: the best full plan met so far, and the number of partial plans visited.
#[derive(Clone, Copy, Debug, PartialEq, Eq)]
pub struct Walked {
    pub best: Option<Met>,
    pub visits: u64,
}

// What a search has found: the cheapest plan that fits, its cost, and the number of partial plans visited.
#[derive(Clone, Copy, Debug, PartialEq, Eq)]
pub struct Found {
    pub plan: u64,
    pub cost: i64,
    pub visits: u32,
}

// The answer of the call: a refusal's number, part and position, or zeros and the plan, its cost and the visits. C reads it, so the
// number stands beside the plan.
#[repr(C)]
#[derive(Clone, Copy, Debug, PartialEq, Eq)]
pub struct SearchAnswer {
    pub number: u8,
    pub part: u8,
    pub position: usize,
    pub plan: u64,
    pub cost: i64,
    pub visits: u32,
}

// More partial plans would be visited than the limit. It has no field, so that a walk answers one number and its last call is a jump.
#[derive(Clone, Copy, Debug, PartialEq, Eq)]
pub struct PastLimit;

impl From<PastLimit> for Refusal {
    ghost from_gives = { λ _ refusal. refusal ≡ PastLimit };

    fn from(_e: PastLimit) -> Refusal {
        Refusal::PastLimit
    }
}

impl SearchAnswer {
    fn from_fault(fault: Fault) -> SearchAnswer
        ensures { result ≡ refused_search (number_of fault.refusal) fault.part fault.position }
    {
        SearchAnswer {
            number: fault.refusal.number(),
            part: fault.part,
            position: fault.position,
            plan: 0,
            cost: 0,
            visits: 0,
        }
    }
}

impl Walked {
    // A partial plan with this sum is left: a full plan has been met that costs no more.
    fn is_left(&self, sum: i64) -> bool
        ensures { result ≡ is_left_by self.now.best sum }
    {
        self.best.is_some_and(|best| best.cost <= sum)
    }
}

// The walk from a partial plan on, refused at the first visit that passes the limit. The sum is that at the partial plan. A full plan
// counts where it fits the rows. The promise is for every base cost and terms that have this sum and these lists, and for every walk
// so far that has come to this.
fn walk(
    lists: &TermLists,
    register: &Register,
    limit: u64,
    undecided: usize,
    fed: u64,
    sum: i64,
    walked: &mut Walked,
) -> Result<(), PastLimit>
    requires at { At lists.now.masks lists.now.coefficients lists.now.counts undecided fed sum }
    requires choices_within { register.now.choices ≤ max_choices }
    requires rows_within { register.now.rows ≤ max_rows }
    requires visits_le_limit { walked.old.visits ≤ limit }
    requires limit_bound { limit < 2 ^ 32 }
    ensures within { OnOk result (walked.new.visits ≤ limit) }
    ensures reached { (a : At lists.now.masks lists.now.coefficients lists.now.counts undecided fed sum) (w : Best) →
        walked.old ≡ walked_of w →
        UpTo limit (walk (lent_sum a.base a.terms) (fits register.now) undecided fed w) walked.new (is_ok result) }
{
    walked.visits += 1;
    if limit < walked.visits {
        return Err(PastLimit);
    }
    if walked.is_left(sum) {
        return Ok(());
    }
    if undecided == 0 {
        if fits_rows(register, fed) {
            walked.best = Some(Met {
                plan: fed,
                cost: sum,
            });
        }
        return Ok(());
    }
    let k = undecided - 1;
    let more = fed + (1u64 << k);
    let possible = more + ((1u64 << k) - 1);
    let change = lists.change_of(k, possible, more);
    let unfed_sum = sum - i64::from(change.lost);
    let fed_sum = sum + i64::from(change.gained);
    walk(lists, register, limit, k, fed, unfed_sum, walked)?;
    walk(lists, register, limit, k, more, fed_sum, walked)
}

// The walk from the empty partial plan of a register on, which stops at the first visit that passes the limit.
fn walk_from_empty(register: &Register, limit: u32, walked: &mut Walked) -> Result<(), PastLimit>
    requires within { Within register.now }
    requires fresh { walked.old ≡ walked_of start }
    ensures few { OnOk result (walked.new.visits ≤ limit) }
    ensures reached { UpTo limit (search (coefficient register.now) register.now) walked.new (is_ok result) }
{
    let mut lists = TermLists::fresh();
    lists.list_all(register);
    let n = register.choices;
    let possible = (1u64 << n) - 1;
    let sum = sum_at(register, 0, possible);
    walk(&lists, register, u64::from(limit), n, 0, sum, walked)
}

// The search of a register, from the empty partial plan on: the cheapest plan that fits.
fn search_from(register: &Register, limit: u32) -> Result<Found, Refusal>
    requires { Within register.now }
    ensures { told_search result ≡ answer_by refused_search accepted_search (within_limit limit (search (coefficient register.now) register.now)) }
{
    let mut walked = Walked {
        best: None,
        visits: 0,
    };
    walk_from_empty(register, limit, &mut walked)?;
    let best = walked.best.ok_or(Refusal::NoneFits)?;
    Ok(Found {
        plan: best.plan,
        cost: best.cost,
        visits: walked.visits as u32,
    })
}

// The search of a register, from the bytes of part 1.
fn search_register(register: &[u8], limit: u32) -> Result<Found, Fault>
    ensures { answer_by refused_search found_search (outcome_of result) ≡ search_answer register.now limit }
{
    let register = open_register(register)?;
    search_from(&register, limit).map_err(Fault::nowhere)
}

// The cheapest plan of a register that fits, from the bytes of part 1, or refusal 14 where the visits would pass the limit, and then
// 16 where no plan fits.
#[unsafe(no_mangle)]
pub extern "C" fn feedcheck_search(register: &[u8], limit: u32) -> SearchAnswer
    ensures { result ≡ search_answer register.now limit }
{
    match search_register(register, limit) {
        Ok(found) => SearchAnswer {
            number: 0,
            part: 0,
            position: 0,
            plan: found.plan,
            cost: found.cost,
            visits: found.visits,
        },
        Err(fault) => SearchAnswer::from_fault(fault),
    }
}
