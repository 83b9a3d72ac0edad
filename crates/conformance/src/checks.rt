// check.txt: name REG SCH CERT PLAN TABLELEN | number part position bound TABLE.
use crate::{answers, tables};
use bound::check::feedcheck_check;
use vectors::{Differs, Fields};

pub fn agrees(mut fields: Fields) -> Result<(), Differs> {
    let mut register = [0; console::streams::TEXT];
    let mut scheme = [0; console::streams::TEXT];
    let mut certificate = [0; console::streams::INPUT];
    let mut plan = [0; console::streams::TEXT];
    let mut table = tables::lent();
    let register = fields.bytes(&mut register)?;
    let scheme = fields.bytes(&mut scheme)?;
    let certificate = fields.bytes(&mut certificate)?;
    let plan = fields.bytes(&mut plan)?;
    let table = fields.part(&mut table)?;
    let answer = feedcheck_check(register, scheme, certificate, plan, table);
    answers::refusal(&mut fields, answer.number, answer.part, answer.position)?;
    fields.is(answer.bound)?;
    tables::compared(&mut fields, table)?;
    fields.end()
}
