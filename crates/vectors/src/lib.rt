// A line of a vector file. Its fields stand between single spaces: the case's name, what the call is given, and what is
// expected. Headings begin with `#`.

#![tactic(auto)]

ghost use Rattle.std.specs.Prelude.{◌≡◌};
ghost use Rattle.vectors.specs.Line.{is_case};

mod bytes;
mod fields;
mod number;

pub use fields::{Differs, Fields};
pub use number::Number;

// The line is a case: no heading, and not empty.
pub fn is_case(line: &[u8]) -> bool
    ensures { result ≡ is_case line.now }
{
    !matches!(line, [] | [b'#', ..])
}
