// scheme.txt: name REG SCH | number part position n p m, then p times: l r set, then m times: l r, then the
// factor.
use crate::answers::{listed, refusal};
use register::{Register, feedcheck_register};
use scheme::{Scheme, feedcheck_scheme};
use vectors::{Differs, Fields};

// The set of a variable, empty where there is no such variable.
fn set_of(sets: &[u64], v: u8) -> u64 {
    sets.get(usize::from(v)).copied().unwrap_or(0)
}

// The products, with their sets by what was answered, and past the count zeros.
fn products(fields: &mut Fields, choices: usize, scheme: &Scheme) -> Result<(), Differs> {
    let mut sets = [0u64; Scheme::MAX_VARIABLES];
    for (set, i) in sets.iter_mut().zip(0..u64::BITS).take(choices) {
        *set = 1u64.wrapping_shl(i);
    }
    for k in 0..Scheme::MAX_PRODUCTS {
        let l = scheme.lefts[k];
        let r = scheme.rights[k];
        let is_listed = k < scheme.products;
        listed(fields, is_listed, l, 0)?;
        listed(fields, is_listed, r, 0)?;
        if is_listed {
            let set = set_of(&sets, l) | set_of(&sets, r);
            fields.is(set)?;
            *sets.get_mut(choices.saturating_add(k)).ok_or(Differs)? = set;
        }
    }
    Ok(())
}

// The splits, and past the count zeros.
fn splits(fields: &mut Fields, scheme: &Scheme) -> Result<(), Differs> {
    for i in 0..Register::MAX_TERMS {
        let is_listed = i < scheme.splits;
        listed(fields, is_listed, scheme.split_lefts[i], 0)?;
        listed(fields, is_listed, scheme.split_rights[i], 0)?;
    }
    Ok(())
}

pub fn agrees(mut fields: Fields) -> Result<(), Differs> {
    let mut register = [0; console::streams::TEXT];
    let mut scheme = [0; console::streams::TEXT];
    let register = fields.bytes(&mut register)?;
    let scheme = fields.bytes(&mut scheme)?;
    let answer = feedcheck_scheme(register, scheme);
    let scheme = &answer.scheme;
    refusal(&mut fields, answer.number, answer.part, answer.position)?;
    let choices = if answer.number == 0 {
        feedcheck_register(register).register.choices
    } else {
        0
    };
    fields.is(choices)?;
    fields.is(scheme.products)?;
    fields.is(scheme.splits)?;
    products(&mut fields, choices, scheme)?;
    splits(&mut fields, scheme)?;
    fields.is(scheme.factor)?;
    fields.end()
}
