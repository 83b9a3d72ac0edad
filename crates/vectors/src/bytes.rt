// One field: bytes in hexadecimal, or `-` for none.
ghost use Rattle.std.specs.Prelude.{◌≡◌, ◌<◌, ◌≤◌, length, take, IfSome, option_map};
ghost use Rattle.vectors.specs.Said.{digit, byte, bytes, at_most};

#[tactic(auto, unfolding(crate::specs::Said::digit))]
// The value of a hexadecimal digit.
fn digit(b: u8) -> Option<u8>
    ensures value { result ≡ digit b }
    ensures within { IfSome result (λ d. d < 16) }
{
    match b {
        b'0'..=b'9' => Some(b - b'0'),
        b'A'..=b'F' => Some(b - b'A' + 10),
        _ => None,
    }
}

#[tactic(auto, unfolding(crate::specs::Said::byte))]
// The byte of two digits.
fn byte(high: u8, low: u8) -> Option<u8>
    ensures { result ≡ byte high low }
{
    Some(16 * digit(high)? + digit(low)?)
}

// Puts the bytes that a field says at the front of a buffer, and gives how many they are.
pub(crate) fn decode(field: &[u8], buffer: &mut [u8]) -> Option<usize>
    ensures value { option_map (λ n. take n buffer.new) result ≡ at_most (length buffer.old) (bytes field.now) }
    ensures within { IfSome result (λ n. n ≤ length buffer.new) }
{
    if field == b"-".as_slice() {
        return Some(0);
    }
    let (pairs, []) = field.as_chunks::<2>() else {
        return None;
    };
    if pairs.is_empty() || buffer.len() < pairs.len() {
        return None;
    }
    for i in 0..pairs.len() {
        let [high, low] = pairs[i];
        buffer[i] = byte(high, low)?;
    }
    Some(pairs.len())
}
