// cost.txt: name REG PLAN | number part position cost.
use crate::answers;
use plan::feedcheck_cost;
use vectors::{Differs, Fields};

pub fn agrees(mut fields: Fields) -> Result<(), Differs> {
    let mut register = [0; console::streams::TEXT];
    let mut plan = [0; console::streams::TEXT];
    let register = fields.bytes(&mut register)?;
    let plan = fields.bytes(&mut plan)?;
    let answer = feedcheck_cost(register, plan);
    answers::refusal(&mut fields, answer.number, answer.part, answer.position)?;
    fields.is(answer.cost)?;
    fields.end()
}
