// build.txt: name REG BUFLEN | number part position count BUFFER.
use crate::{answers, buffers};
use builder::feedcheck_build;
use vectors::{Differs, Fields};

pub fn agrees(mut fields: Fields) -> Result<(), Differs> {
    let mut register = [0; console::streams::TEXT];
    let mut buffer = buffers::lent();
    let register = fields.bytes(&mut register)?;
    let buffer = fields.part(&mut buffer)?;
    let answer = feedcheck_build(register, buffer);
    answers::refusal(&mut fields, answer.number, answer.part, answer.position)?;
    fields.is(answer.count)?;
    buffers::compared(&mut fields, buffer)?;
    fields.end()
}
