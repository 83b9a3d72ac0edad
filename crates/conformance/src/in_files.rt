// examples.txt, suppliers.txt: JOB OUT; views.txt: JOB SUPPLIER; cheapest.txt: REGISTER OUT. The names of two files: the first holds
// what a program reads, the second what it prints for it. The first name ends at the first space, the second with the line.
use std::rt::Files;
use std::{fs, io, str};

// What a program prints for the bytes of a file is what another file holds. The program puts it at the front of the text, and
// gives its count of bytes.
pub fn agrees<R: Files + AllocGlobal, F: Fn(&[u8], &mut [u8; console::streams::TEXT]) -> usize>(
    rt: &R,
    line: &[u8],
    program: F,
) -> io::Result<bool>
    requires { F.IsAlwaysCallable program }
{
    let Some(space) = line.iter().position(|b| *b == b' ') else {
        return Ok(false);
    };
    let (Ok(input), Ok(output)) = (
        str::from_utf8(&line[..space]),
        str::from_utf8(&line[space + 1..]),
    ) else {
        return Ok(false);
    };
    let bytes = fs::read(rt, input)?;
    let expected = fs::read(rt, output)?;
    let mut text = [0; console::streams::TEXT];
    let count = program(bytes.as_slice(), &mut text);
    Ok(text.get(..count) == Some(expected.as_slice()))
}
