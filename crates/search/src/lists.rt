// For each choice the terms whose part of the sum may change when it is decided, and the change that they make.
ghost use Rattle.std.specs.Prelude.{◌≡◌, ℕ, ◌+◌, ◌*◌, ◌≤◌, ◌<◌, get_or, pos, nat_abs, replicate};
ghost use Rattle.register.specs.Limits.{max_choices, max_terms, max_coefficient};
ghost use Rattle.register.specs.Valid.{Within};
ghost use Rattle.search.specs.Lent.{terms_in, is_listed, ListedUnder, AllListed, Kept, term_gained, change_of};

use super::terms::lost_by;
use plan::choice_sets::{has, where_within};
use register::Register;

// How the sum changes when a choice is decided: what it loses unfed, a number of at most 0 that no longer counts, and what it
// gains fed.
#[derive(Clone, Copy, Debug, PartialEq, Eq)]
pub struct Change {
    pub lost: i32,
    pub gained: i32,
}

// The listed terms: masks and coefficients in as many places for each choice as there can be terms, and how many they are.
// Nothing compares or prints one.
#[derive(Clone, Copy)]
pub struct TermLists {
    pub masks: [u64; TermLists::PLACES],
    pub coefficients: [i32; TermLists::PLACES],
    pub counts: [usize; Register::MAX_CHOICES],
}

// A term is listed under choice k: it names k, and its coefficient is negative or it names no lower choice.
#[tactic(auto, unfolding(crate::specs::Lent::is_listed))]
fn is_listed(mask: u64, coefficient: i32, k: usize) -> bool
    requires { k < max_choices }
    ensures { result ≡ is_listed k mask coefficient }
{
    let lowest = mask % (1u64 << k) == 0;
    has(mask, k) & ((coefficient < 0) | lowest)
}

// What a term gains when its lowest choice, the last to be decided, is fed like the others: its coefficient, if positive.
fn gained_by(mask: u64, coefficient: i32, fed: u64) -> i32
    ensures { result ≡ term_gained coefficient mask fed }
{
    where_within(mask, fed, coefficient.max(0))
}

impl TermLists {
    // As many places for each choice as there can be terms.
    pub const PLACES: usize = Register::MAX_CHOICES * Register::MAX_TERMS;

    // No term is listed under any choice.
    pub fn fresh() -> TermLists
        ensures { result.counts ≡ replicate max_choices 0 }
    {
        TermLists {
            masks: [0; TermLists::PLACES],
            coefficients: [0; TermLists::PLACES],
            counts: [0; Register::MAX_CHOICES],
        }
    }

    // Lists the terms of a register under choice k. Returns how many they are.
    fn list_terms(&mut self, register: &Register, k: usize) -> usize
        requires within { Within register.now }
        requires k_lt_max_choices { k < max_choices }
        ensures listed_under { ListedUnder (terms_in register.now) register.now.terms k self.new.masks self.new.coefficients result }
        ensures masks_kept { Kept 0 (k * max_terms) self.old.masks self.new.masks }
        ensures coefficients_kept { Kept (pos 0) (k * max_terms) self.old.coefficients self.new.coefficients }
        ensures counts_kept { self.new.counts ≡ self.old.counts }
    {
        let mut count = 0;
        for t in 0..register.terms {
            let mask = register.masks[t];
            let coefficient = register.coefficients[t];
            // The place is taken by the next term where this one is not listed.
            self.masks[k * Register::MAX_TERMS + count] = mask;
            self.coefficients[k * Register::MAX_TERMS + count] = coefficient;
            count += usize::from(is_listed(mask, coefficient, k));
        }
        count
    }

    // Lists the terms of a register under each of its choices.
    pub fn list_all(&mut self, register: &Register)
        requires { Within register.now }
        ensures { AllListed (terms_in register.now) register.now.choices self.new.masks self.new.coefficients self.new.counts }
    {
        for k in 0..register.choices {
            self.counts[k] = self.list_terms(register, k);
        }
    }

    // What the sum loses where choice k is decided unfed and gains where it is decided fed, by the terms listed under it: by the
    // choices possible before, and those then fed.
    pub fn change_of(&self, k: usize, possible: u64, fed: u64) -> Change
        requires small { (j : ℕ) → j < get_or self.now.counts k 0 → nat_abs (get_or self.now.coefficients (k * max_terms + j) (pos 0)) ≤ max_coefficient }
        requires count_within { get_or self.now.counts k 0 ≤ max_terms }
        requires k_lt_max_choices { k < max_choices }
        ensures { result ≡ change_of self.now.masks self.now.coefficients (k * max_terms) (get_or self.now.counts k 0) possible fed }
    {
        let from = k * Register::MAX_TERMS;
        let mut lost = 0;
        let mut gained = 0;
        for j in 0..self.counts[k] {
            let mask = self.masks[from + j];
            let coefficient = self.coefficients[from + j];
            lost += lost_by(mask, coefficient, possible);
            gained += gained_by(mask, coefficient, fed);
        }
        Change { lost, gained }
    }
}
