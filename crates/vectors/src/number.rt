// One field: a number in decimal.
ghost use Rattle.std.specs.Prelude.{◌≡◌, List, ℕ, Option};
ghost use Rattle.vectors.specs.Said.{and_digit, decimal, of_bits, integer, of_signed_bits};

// A number that a field may say. Fields without a sign and with one are read apart, so no one impl over `TryFrom` serves all
// types.
pub trait Number: Copy + PartialEq {
    // The number that a field says, where it says one of the type.
    ghost said: { List ℕ → Option Self };

    fn of(field: &[u8]) -> Option<Self>
        ensures { result ≡ said field.now };
}

#[tactic(auto, unfolding(crate::specs::Said::and_digit))]
// The number with one more decimal digit. Numbers of 20 digits are not read.
fn and_digit(value: u64, digit: u8) -> Option<u64>
    ensures { result ≡ and_digit value digit }
{
    match digit {
        b'0'..=b'9' if value < 1_000_000_000_000_000_000 => {
            Some(10 * value + u64::from(digit - b'0'))
        }
        _ => None,
    }
}

fn decimal(field: &[u8]) -> Option<u64>
    ensures { result ≡ decimal field.now }
{
    if field.is_empty() {
        return None;
    }
    let mut value = 0;
    for digit in field {
        value = and_digit(value, *digit)?;
    }
    Some(value)
}

impl Number for u8 {
    ghost said = { λ field. of_bits 8 (decimal field) };

    fn of(field: &[u8]) -> Option<u8> {
        u8::try_from(decimal(field)?).ok()
    }
}

impl Number for u16 {
    ghost said = { λ field. of_bits 16 (decimal field) };

    fn of(field: &[u8]) -> Option<u16> {
        u16::try_from(decimal(field)?).ok()
    }
}

impl Number for u32 {
    ghost said = { λ field. of_bits 32 (decimal field) };

    fn of(field: &[u8]) -> Option<u32> {
        u32::try_from(decimal(field)?).ok()
    }
}

impl Number for u64 {
    ghost said = { decimal };

    fn of(field: &[u8]) -> Option<u64> {
        decimal(field)
    }
}

impl Number for usize {
    ghost said = { decimal };

    fn of(field: &[u8]) -> Option<usize> {
        usize::try_from(decimal(field)?).ok()
    }
}

impl Number for i8 {
    ghost said = { λ field. of_signed_bits 7 (integer field) };

    fn of(field: &[u8]) -> Option<i8> {
        i8::try_from(i64::of(field)?).ok()
    }
}

impl Number for i16 {
    ghost said = { λ field. of_signed_bits 15 (integer field) };

    fn of(field: &[u8]) -> Option<i16> {
        i16::try_from(i64::of(field)?).ok()
    }
}

impl Number for i32 {
    ghost said = { λ field. of_signed_bits 31 (integer field) };

    fn of(field: &[u8]) -> Option<i32> {
        i32::try_from(i64::of(field)?).ok()
    }
}

impl Number for i64 {
    ghost said = { integer };

    #[tactic(auto, unfolding(crate::specs::Said::integer))]
    fn of(field: &[u8]) -> Option<i64> {
        match field.strip_prefix(b"-") {
            Some(size) => Some(-i64::try_from(decimal(size)?).ok()?),
            None => i64::try_from(decimal(field)?).ok(),
        }
    }
}
