// Bytes put at a place of a buffer and counted: past its end nothing is written, and the count goes on.
ghost use Rattle.std.specs.Prelude.{◌∷◌, [], ◌+◌, ◌≤◌, length};
ghost use Rattle.listing.specs.Json.{decimal};
ghost use Rattle.listing.specs.Steps.{far, Puts};
ghost use Rattle.spelled.specs.Spelling.{signed};

// listing has its twin for itself: it asks for room to count, and no public function asks for anything.
pub fn put_bytes(out: &mut [u8], at: usize, text: &[u8]) -> usize
    requires { at + length text.now ≤ far }
    ensures { Puts out.old out.new at result text.now }
{
    lent::store(out, at, text);
    at + text.len()
}

// A text behind a byte.
pub fn put_after(out: &mut [u8], at: usize, b: u8, text: &[u8]) -> usize
    requires { at + 1 + length text.now ≤ far }
    ensures { Puts out.old out.new at result (b ∷ text.now) }
{
    if at < out.len() {
        out[at] = b;
    }
    put_bytes(out, at + 1, text)
}

// A byte alone.
pub fn put_byte(out: &mut [u8], at: usize, b: u8) -> usize
    requires { at + 1 ≤ far }
    ensures { Puts out.old out.new at result (b ∷ []) }
{
    put_after(out, at, b, b"")
}

// A number in decimal behind a byte.
pub fn put_number(out: &mut [u8], at: usize, b: u8, n: u64) -> usize
    requires { at + 21 ≤ far }
    ensures { Puts out.old out.new at result (b ∷ decimal n) }
{
    let mut digits = [0u8; 20];
    let first = listing::digits_into(n, &mut digits);
    put_after(out, at, b, &digits[first..])
}

// A step: `=`, its sign, and the signed amount.
pub fn put_step(out: &mut [u8], at: usize, sign: u8, n: u64) -> usize
    requires { at + 23 ≤ far }
    ensures { Puts out.old out.new at result (61 ∷ sign ∷ signed n) }
{
    let next = put_byte(out, at, b'=');
    if n <= i64::MAX as u64 {
        return put_number(out, next, sign, n);
    }
    let signed = put_byte(out, next, sign);
    put_number(out, signed, b'-', u64::MAX - n + 1)
}
