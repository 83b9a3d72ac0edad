// feedcheck.txt: name JOB | OUTPUT. What the program prints.
use crate::buffers;
use vectors::{Differs, Fields};

pub fn agrees(mut fields: Fields) -> Result<(), Differs> {
    let mut job = [0; console::streams::INPUT];
    let mut text = [0; console::streams::TEXT];
    let job = fields.bytes(&mut job)?;
    let count = console::lines_of(job, &mut text).count;
    buffers::compared(&mut fields, &text[..count])?;
    fields.end()
}
