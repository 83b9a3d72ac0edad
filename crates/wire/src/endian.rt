// Numbers in a run of bytes, the least byte first, below zero by two's complement. No trait of std's stands for all integers, so each
// type has an impl.
ghost use Rattle.std.specs.Prelude.{◌≡◌, ℕ, List, ◌+◌, ◌≤◌, length};
ghost use Rattle.std.specs.Int.{w8, w16, w32, w64};
ghost use mir.Val.{of_z};
ghost use Rattle.wire.specs.Number.{nat_at, int_at, put_at};

// A number that takes so many bytes, read at a position.
pub trait FromBytes: Copy {
    ghost size: { ℕ };

    // The number at a position.
    ghost said: { List ℕ → ℕ → Self };

    fn read(bytes: &[u8], at: usize) -> Self
        requires { at + size ≤ length bytes.now }
        ensures { result ≡ said bytes.now at };
}

// A number written over so many bytes at a position.
pub trait ToBytes: Copy {
    ghost size: { ℕ };

    // The bytes with the number at a position.
    ghost with: { List ℕ → ℕ → Self → List ℕ };

    fn write(self, bytes: &mut [u8], at: usize)
        requires { at + size ≤ length bytes.old }
        ensures { bytes.new ≡ with bytes.old at self };
}

impl FromBytes for u8 {
    ghost size = { 1 };

    ghost said = { nat_at 1 };

    fn read(bytes: &[u8], at: usize) -> u8 {
        bytes[at]
    }
}

impl FromBytes for u16 {
    ghost size = { 2 };

    ghost said = { nat_at 2 };

    fn read(bytes: &[u8], at: usize) -> u16 {
        u8::read(bytes, at) as u16 + 256 * (u8::read(bytes, at + 1) as u16)
    }
}

impl FromBytes for u32 {
    ghost size = { 4 };

    ghost said = { nat_at 4 };

    fn read(bytes: &[u8], at: usize) -> u32 {
        u16::read(bytes, at) as u32 + 65536 * (u16::read(bytes, at + 2) as u32)
    }
}

impl FromBytes for u64 {
    ghost size = { 8 };

    ghost said = { nat_at 8 };

    fn read(bytes: &[u8], at: usize) -> u64 {
        u32::read(bytes, at) as u64 + 4294967296 * (u32::read(bytes, at + 4) as u64)
    }
}

impl FromBytes for i8 {
    ghost size = { 1 };

    ghost said = { int_at w8 };

    fn read(bytes: &[u8], at: usize) -> i8 {
        u8::read(bytes, at).cast_signed()
    }
}

impl FromBytes for i16 {
    ghost size = { 2 };

    ghost said = { int_at w16 };

    fn read(bytes: &[u8], at: usize) -> i16 {
        u16::read(bytes, at).cast_signed()
    }
}

impl FromBytes for i32 {
    ghost size = { 4 };

    ghost said = { int_at w32 };

    fn read(bytes: &[u8], at: usize) -> i32 {
        u32::read(bytes, at).cast_signed()
    }
}

impl FromBytes for i64 {
    ghost size = { 8 };

    ghost said = { int_at w64 };

    fn read(bytes: &[u8], at: usize) -> i64 {
        u64::read(bytes, at).cast_signed()
    }
}

impl ToBytes for u8 {
    ghost size = { 1 };

    ghost with = { put_at 1 };

    fn write(self, bytes: &mut [u8], at: usize) {
        bytes[at] = self;
    }
}

impl ToBytes for u16 {
    ghost size = { 2 };

    ghost with = { put_at 2 };

    fn write(self, bytes: &mut [u8], at: usize) {
        ((self % 256) as u8).write(bytes, at);
        ((self / 256) as u8).write(bytes, at + 1);
    }
}

impl ToBytes for u32 {
    ghost size = { 4 };

    ghost with = { put_at 4 };

    fn write(self, bytes: &mut [u8], at: usize) {
        ((self % 65536) as u16).write(bytes, at);
        ((self / 65536) as u16).write(bytes, at + 2);
    }
}

impl ToBytes for u64 {
    ghost size = { 8 };

    ghost with = { put_at 8 };

    fn write(self, bytes: &mut [u8], at: usize) {
        ((self % 4294967296) as u32).write(bytes, at);
        ((self / 4294967296) as u32).write(bytes, at + 4);
    }
}

impl ToBytes for i64 {
    ghost size = { 8 };

    ghost with = { λ s at x. put_at 8 s at (of_z w64 x) };

    fn write(self, bytes: &mut [u8], at: usize) {
        self.cast_unsigned().write(bytes, at);
    }
}
