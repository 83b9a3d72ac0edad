// penalty.txt: name REG SCH TABLELEN | number part position TABLE.
use crate::{answers, tables};
use penalty::feedcheck_penalty;
use vectors::{Differs, Fields};

pub fn agrees(mut fields: Fields) -> Result<(), Differs> {
    let mut register = [0; console::streams::TEXT];
    let mut scheme = [0; console::streams::TEXT];
    let mut table = tables::lent();
    let register = fields.bytes(&mut register)?;
    let scheme = fields.bytes(&mut scheme)?;
    let table = fields.part(&mut table)?;
    let answer = feedcheck_penalty(register, scheme, table);
    answers::refusal(&mut fields, answer.number, answer.part, answer.position)?;
    tables::compared(&mut fields, table)?;
    fields.end()
}
