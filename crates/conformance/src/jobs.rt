// job.txt: name JOB TABLELEN SUPPLIER ACCEPTED REFUSED | number part position bound cost gap accepted refused moved TABLE.
use crate::{answers, tables};
use job::{Counters, Tally, feedcheck_job};
use vectors::{Differs, Fields};

// How many suppliers' pairs are not those of another tally.
fn moved(before: &Tally, after: &Tally) -> usize {
    before
        .pairs
        .iter()
        .zip(&after.pairs)
        .filter(|(old, new)| old != new)
        .count()
}

pub fn agrees(mut fields: Fields) -> Result<(), Differs> {
    let mut job = [0; console::streams::INPUT];
    let mut table = tables::lent();
    let job = fields.bytes(&mut job)?;
    let table = fields.part(&mut table)?;
    let supplier = fields.number::<u8>()?;
    let before = Tally {
        pairs: [Counters {
            accepted: fields.number()?,
            refused: fields.number()?,
        }; Tally::SUPPLIERS],
    };
    let answer = feedcheck_job(job, table, supplier, before);
    answers::refusal(&mut fields, answer.number, answer.part, answer.position)?;
    fields.is(answer.bound)?;
    fields.is(answer.cost)?;
    fields.is(answer.gap)?;
    // The supplier's pair, the first where there is no such supplier.
    let [first, ..] = &answer.tally.pairs;
    let pair = answer
        .tally
        .pairs
        .get(usize::from(supplier))
        .unwrap_or(first);
    fields.is(pair.accepted)?;
    fields.is(pair.refused)?;
    fields.is(moved(&before, &answer.tally))?;
    tables::compared(&mut fields, table)?;
    fields.end()
}
