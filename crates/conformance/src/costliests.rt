// costliest.txt: name M D BUFLEN | number part position count BUFFER.
use crate::{answers, buffers};
use costliest::feedcheck_costliest;
use vectors::{Differs, Fields};

pub fn agrees(mut fields: Fields) -> Result<(), Differs> {
    let mut buffer = buffers::lent();
    let m = fields.number()?;
    let d = fields.number()?;
    let buffer = fields.part(&mut buffer)?;
    let answer = feedcheck_costliest(m, d, buffer);
    answers::refusal(&mut fields, answer.number, answer.part, answer.position)?;
    fields.is(answer.count)?;
    buffers::compared(&mut fields, buffer)?;
    fields.end()
}
