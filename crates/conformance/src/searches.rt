// search.txt: name REG LIMIT | number part position plan cost visits.
use crate::answers;
use search::feedcheck_search;
use vectors::{Differs, Fields};

pub fn agrees(mut fields: Fields) -> Result<(), Differs> {
    let mut register = [0; console::streams::TEXT];
    let register = fields.bytes(&mut register)?;
    let limit = fields.number()?;
    let answer = feedcheck_search(register, limit);
    answers::refusal(&mut fields, answer.number, answer.part, answer.position)?;
    fields.is(answer.plan)?;
    fields.is(answer.cost)?;
    fields.is(answer.visits)?;
    fields.end()
}
