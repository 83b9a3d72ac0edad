// The entries of a row in its command, one byte each.
ghost use Rattle.std.specs.Prelude.{◌≡◌, ◌+◌, ◌*◌, ◌≤◌, length};
ghost use Rattle.std.specs.Int.{w8};
ghost use Rattle.std.proofs.lemmas.List.Edits.{sets};
ghost use Rattle.wire.specs.Number.{int_at};
ghost use Rattle.register.specs.Limits.{max_rows, row_entries};
ghost use Rattle.register.specs.Format.{zero_past};
ghost use Rattle.register.specs.Answer.{entries_at};

use super::Register;
use wire::FromBytes;

// The entries at a position are 0 for all but the first n choices.
pub fn past_zero(bytes: &[u8], at: usize, n: usize) -> bool
    requires { at + row_entries ≤ length bytes.now }
    ensures { result ≡ zero_past n (λ j. int_at w8 bytes.now (at + j)) }
{
    for j in n..Register::ROW_ENTRIES {
        if i8::read(bytes, at + j) != 0 {
            return false;
        }
    }
    true
}

// Puts the entries at a position into those of all rows, the first of them at a place.
pub fn put_entries(
    entries: &mut [i8; Register::MAX_ROWS * Register::ROW_ENTRIES],
    place: usize,
    bytes: &[u8],
    at: usize,
)
    requires place_within { place + row_entries ≤ max_rows * row_entries }
    requires bytes_there { at + row_entries ≤ length bytes.now }
    ensures { entries.new ≡ sets entries.old place (entries_at bytes.now at) }
{
    for j in 0..Register::ROW_ENTRIES {
        entries[place + j] = i8::read(bytes, at + j);
    }
}
