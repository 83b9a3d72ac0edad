// Lines of text written into a lent buffer: a letter and decimal numbers.

#![tactic(auto)]

ghost use Rattle.std.specs.Prelude.{◌≡◌, [], ◌∷◌, ◌+◌, ◌≤◌, length};
ghost use Rattle.text.specs.Text.{digits, line};
ghost use Rattle.text.specs.Fields.{field, sign};
ghost use Rattle.text.specs.Writing.{Writes};
ghost use Rattle.wire.specs.Number.{written};

// A lent buffer, and the position after what is written.
#[derive(Drop)]
struct Writer<'a> {
    out: &'a mut [u8],
    at: usize,
}

impl Writer<'_> {
    fn put_byte(&mut self, byte: u8)
        requires { self.old.at + 1 ≤ length self.old.out.now }
        ensures { Writes (byte ∷ []) self.old self.new }
    {
        self.out[self.at] = byte;
        self.at += 1;
    }

    // Writes the decimal digits of a number, by hand: std's printing goes to a `String`, on the heap, or through a `fmt::Write` that can fail.
    fn put_digits(&mut self, n: u64)
        requires { self.old.at + length (digits n) ≤ length self.old.out.now }
        ensures { Writes (digits n) self.old self.new }
    {
        if n < 10 {
            self.put_byte(48 + n as u8);
        } else {
            self.put_digits(n / 10);
            self.put_byte(48 + (n % 10) as u8);
        }
    }

    // Writes `-` before a number below 0, and else nothing.
    fn put_sign(&mut self, x: i64)
        requires { self.old.at + length (sign x) ≤ length self.old.out.now }
        ensures { Writes (sign x) self.old self.new }
    {
        if x < 0 {
            self.put_byte(0x2D);
        }
    }

    // Writes a space and a number.
    fn put_integer(&mut self, x: i64)
        requires { self.old.at + length (field x) ≤ length self.old.out.now }
        ensures { Writes (field x) self.old self.new }
    {
        self.put_byte(0x20);
        self.put_sign(x);
        self.put_digits(x.unsigned_abs());
    }
}

// Writes a line: a letter, which is the byte that is written, the numbers and byte 0A. Returns the position after it, since a caller keeps a buffer and a count.
pub fn put_line(out: &mut [u8], start: usize, letter: u8, numbers: &[i64]) -> usize
    requires { start + length (line letter numbers.now) ≤ length out.old }
    ensures value { result ≡ start + length (line letter numbers.now) }
    ensures out_after { out.new ≡ written out.old start (line letter numbers.now) }
{
    let mut writer = Writer { out, at: start };
    writer.put_byte(letter);
    for number in numbers {
        writer.put_integer(*number);
    }
    writer.put_byte(0x0A);
    writer.at
}
