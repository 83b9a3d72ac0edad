// The check of a certificate: R's rows, and the bound.

#![tactic(auto)]

pub mod check;
pub mod chosen;
mod dominance;

// The answer of the call, a C record: a refusal's number, part and position, or zeros and the bound.
#[repr(C)]
#[derive(Clone, Copy, Debug, PartialEq, Eq)]
pub struct CheckAnswer {
    pub number: u8,
    pub part: u8,
    pub position: usize,
    pub bound: i64,
}
