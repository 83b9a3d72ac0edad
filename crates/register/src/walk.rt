// A walk over the register's commands: where the command of a term stands.
ghost use Rattle.std.specs.Prelude.{◌≡◌};
ghost use Rattle.wire.specs.Rows.{is_among};
ghost use Rattle.register.specs.Encoding.{term_kind};
ghost use Rattle.register.specs.Position.{term_position};

use super::checks::command_size;

// A command with this byte says a term.
fn is_term(command: u8) -> bool
    ensures { result ≡ is_among command term_kind.bytes }
{
    (command == 0x12) | ((command == 0x15) | (command == 0x16))
}

// The position of the command of a term, counted from 0, or 0 where there are fewer, which a refusal tells as it is: commands follow each
// other by their sizes.
pub fn term_position(bytes: &[u8], term: usize) -> usize
    ensures { result ≡ term_position bytes.now term }
{
    let mut left = term;
    let mut at: usize = 0;
    // No range steps over commands, which differ in size.
    while at < bytes.len() {
        let command = bytes[at];
        if is_term(command) {
            if left == 0 {
                return at;
            }
            left -= 1;
        }
        at += command_size(command);
    }
    0
}
