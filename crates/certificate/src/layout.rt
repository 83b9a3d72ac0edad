// The sizes of the commands, and the multiplier command or the square at a position.
ghost use Rattle.std.specs.Prelude.{◌≡◌, ◌+◌, ◌≤◌, length, get_or, replicate};
ghost use Rattle.wire.specs.Part.{operands_at};
ghost use Rattle.certificate.specs.Format.{command_size};
ghost use Rattle.certificate.specs.Answer.{IsMultiplier, named_of, filled_of, multiplier_at, square_read};

use super::{Multiplier, Square};
use wire::FromBytes;

// The bytes of a command: its byte, then a scale u32 and a target i64; or the numbers that it names, u8 each, and m i64; or a weight u32 and entries
// i16 each; or nothing. 1 where the byte is no command.
#[tactic(auto, unfolding(crate::specs::Format::command_size, crate::specs::Rules::by_key, crate::specs::Rules::arity, wire::specs::Part::total))]
pub fn command_size(command: u8) -> usize
    ensures { result ≡ command_size command }
{
    match command {
        0x30 => 13,
        0x31 | 0x35..=0x39 => 10,
        0x32 => 11,
        0x33 => 12,
        0x34 => 13,
        0x3a => 5 + 2 * Square::ENTRIES,
        0x3b => 11,
        0x3f => 1,
        0x00..=0x2f | 0x3c..=0x3e | 0x40..=0xff => 1,
    }
}

// The number at a place among those that a multiplier command names, 0 where it names fewer, as the definitions read it.
fn name_at(names: &[u8], place: usize) -> u8
    ensures { result ≡ get_or names.now place 0 }
{
    names.get(place).copied().unwrap_or(0)
}

// The multiplier command at a position.
pub fn multiplier_at(bytes: &[u8], at: usize) -> Multiplier
    requires kind { IsMultiplier (get_or bytes.now at 0) }
    requires at_in_bounds { at + command_size (get_or bytes.now at 0) ≤ length bytes.now }
    ensures { result ≡ named_of (multiplier_at bytes.now at) }
{
    let kind = bytes[at];
    // The numbers named stand between the command's byte and the 8 bytes of m.
    let count = command_size(kind) - 9;
    let names = &bytes[at + 1..at + 1 + count];
    Multiplier {
        kind,
        i: name_at(names, 0),
        j: name_at(names, 1),
        k: name_at(names, 2),
        l: name_at(names, 3),
        m: i64::read(bytes, at + 1 + count),
    }
}

// The square at a position.
pub fn square_at(bytes: &[u8], at: usize) -> Square
    requires { at + command_size 0x3A ≤ length bytes.now }
    ensures { result ≡ filled_of (square_read bytes.now at) }
{
    let mut square = Square::fresh();
    square.weight = u32::read(bytes, at + 1);
    for i in 0..Square::ENTRIES {
        square.entries[i] = i16::read(bytes, at + 5 + 2 * i);
    }
    square
}
