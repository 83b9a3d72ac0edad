// register.txt: name REG | number part position base n m, then n times: tank minute, then m times: mask coefficient,
// then w, then w times: tank from to, then the day length, then q, then q times: b and 32 entries,
// then 1 where a term has a range or else 0, then m times: high.
use crate::answers::{listed, refusal};
use register::{Register, feedcheck_register};
use vectors::{Differs, Fields};

// The choices, and past the count zeros.
fn choices(fields: &mut Fields, register: &Register) -> Result<(), Differs> {
    for i in 0..Register::MAX_CHOICES {
        let is_listed = i < register.choices;
        listed(fields, is_listed, register.tanks[i], 0)?;
        listed(fields, is_listed, register.minutes[i], 0)?;
    }
    Ok(())
}

// The terms, and past the count zeros.
fn terms(fields: &mut Fields, register: &Register) -> Result<(), Differs> {
    for i in 0..Register::MAX_TERMS {
        let is_listed = i < register.terms;
        listed(fields, is_listed, register.masks[i], 0)?;
        listed(fields, is_listed, register.coefficients[i], 0)?;
    }
    Ok(())
}

// The windows, and past the count zeros.
fn windows(fields: &mut Fields, register: &Register) -> Result<(), Differs> {
    for i in 0..Register::MAX_WINDOWS {
        let is_listed = i < register.windows;
        listed(fields, is_listed, register.window_tanks[i], 0)?;
        listed(fields, is_listed, register.window_froms[i], 0)?;
        listed(fields, is_listed, register.window_tos[i], 0)?;
    }
    Ok(())
}

// The rows, and past the count zeros.
fn rows(fields: &mut Fields, register: &Register) -> Result<(), Differs> {
    let entries = register.row_entries.chunks_exact(Register::ROW_ENTRIES);
    for (k, (total, row)) in register.row_totals.iter().zip(entries).enumerate() {
        let is_listed = k < register.rows;
        listed(fields, is_listed, *total, 0)?;
        for entry in row {
            listed(fields, is_listed, *entry, 0)?;
        }
    }
    Ok(())
}

// Whether a term has a range, then the high coefficients, and past the count zeros.
fn ranges(fields: &mut Fields, register: &Register) -> Result<(), Differs> {
    fields.is(u8::from(register.ranged.contains(&true)))?;
    for i in 0..Register::MAX_TERMS {
        let is_listed = i < register.terms;
        listed(fields, is_listed, register.highs[i], 0)?;
        if register.ranged[i] & !is_listed {
            return Err(Differs);
        }
    }
    Ok(())
}

pub fn agrees(mut fields: Fields) -> Result<(), Differs> {
    let mut register = [0; console::streams::TEXT];
    let register = fields.bytes(&mut register)?;
    let answer = feedcheck_register(register);
    let register = &answer.register;
    refusal(&mut fields, answer.number, answer.part, answer.position)?;
    fields.is(register.base)?;
    fields.is(register.choices)?;
    fields.is(register.terms)?;
    choices(&mut fields, register)?;
    terms(&mut fields, register)?;
    fields.is(register.windows)?;
    windows(&mut fields, register)?;
    fields.is(register.day_length)?;
    fields.is(register.rows)?;
    rows(&mut fields, register)?;
    ranges(&mut fields, register)?;
    fields.end()
}
