// listing.txt and supplier.txt: name JOB TABLELEN BUFLEN | number part position count BUFFER TABLE.
use crate::{answers, buffers, tables};
use vectors::{Differs, Fields};
use wire::WriterAnswer;

// The call is that of the farm's listing or of the supplier's.
pub fn agrees<F: Fn(&[u8], &mut [i64], &mut [u8]) -> WriterAnswer>(
    mut fields: Fields,
    call: F,
) -> Result<(), Differs>
    requires { F.IsAlwaysCallable call }
{
    let mut job = [0; console::streams::INPUT];
    let mut table = tables::lent();
    let mut buffer = buffers::lent();
    let job = fields.bytes(&mut job)?;
    let table = fields.part(&mut table)?;
    let buffer = fields.part(&mut buffer)?;
    let answer = call(job, table, buffer);
    answers::refusal(&mut fields, answer.number, answer.part, answer.position)?;
    fields.is(answer.count)?;
    buffers::compared(&mut fields, buffer)?;
    tables::compared(&mut fields, table)?;
    fields.end()
}
