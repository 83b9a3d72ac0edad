// BUFFER: all bytes of a lent buffer after a call.
use listing::Listing;
use vectors::{Differs, Fields};

// A buffer before a call, at least as long as any that a case lends.
pub fn lent() -> [u8; Listing::MAX_BYTES] {
    [0xaa; Listing::MAX_BYTES]
}

// The buffer is as the next field says.
pub fn compared(fields: &mut Fields, buffer: &[u8]) -> Result<(), Differs> {
    let mut expected = [0; console::streams::TEXT];
    Differs::unless(fields.bytes(&mut expected)? == buffer)
}
