// build_scheme.txt, own_certificate.txt: name INPUT | REFUSED OUTPUT. What a program that writes a part of a job makes of its input.
use crate::buffers;
use console::parts::Made;
use vectors::{Differs, Fields};

pub fn agrees<F: Fn(&[u8], &mut [u8; console::streams::TEXT]) -> Made>(
    mut fields: Fields,
    program: F,
) -> Result<(), Differs>
    requires { F.IsAlwaysCallable program }
{
    let mut input = [0; console::streams::INPUT];
    let mut text = [0; console::streams::TEXT];
    let input = fields.bytes(&mut input)?;
    let made = program(input, &mut text);
    fields.is(made.refused as usize)?;
    let written = text.get(..made.count).ok_or(Differs)?;
    buffers::compared(&mut fields, written)?;
    fields.end()
}
