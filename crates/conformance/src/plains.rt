// plain.txt: name REG SCH PLAN BUFLEN | number part position count BUFFER.
use crate::{answers, buffers};
use plain::feedcheck_plain;
use vectors::{Differs, Fields};

pub fn agrees(mut fields: Fields) -> Result<(), Differs> {
    let mut register = [0; console::streams::TEXT];
    let mut scheme = [0; console::streams::TEXT];
    let mut plan = [0; console::streams::TEXT];
    let mut buffer = buffers::lent();
    let register = fields.bytes(&mut register)?;
    let scheme = fields.bytes(&mut scheme)?;
    let plan = fields.bytes(&mut plan)?;
    let buffer = fields.part(&mut buffer)?;
    let answer = feedcheck_plain(register, scheme, plan, buffer);
    answers::refusal(&mut fields, answer.number, answer.part, answer.position)?;
    fields.is(answer.count)?;
    buffers::compared(&mut fields, buffer)?;
    fields.end()
}
