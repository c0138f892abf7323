// The checks that come before any reading: numbers 1, 2 and 3, in that order.
ghost use Rattle.std.specs.Prelude.{◌≡◌};
ghost use Rattle.lent.specs.Gates.{first_high, highest, gate_of};

use crate::LIMIT;

// Why reading may not begin.
#[derive(Clone, Copy, Debug, PartialEq, Eq)]
pub enum GateError {
    // 1: the input is over the limit.
    TooLong,
    // 2: the place of the first byte that is 128 or more.
    NotAscii(usize),
    // 3: a lent buffer is shorter than asked.
    Short,
}

// The largest byte. No way out of the loop but its end, so that it runs many bytes at a time.
fn highest_byte(s: &[u8]) -> u8
    ensures { result ≡ highest s.now }
{
    let mut top = 0u8;
    for b in s {
        top = top.max(*b);
    }
    top
}

// The place of the first byte that is 128 or more; the length where there is none.
pub fn first_high(s: &[u8]) -> usize
    ensures { result ≡ first_high s.now }
{
    for (i, b) in s.iter().enumerate() {
        if !b.is_ascii() {
            return i;
        }
    }
    s.len()
}

// Whether reading may begin: `lent` is the length of the shortest buffer lent, `asked` what it must have.
pub fn admit(input: &[u8], lent: usize, asked: usize) -> Result<(), GateError>
    ensures { result ≡ gate_of input.now lent asked }
{
    if LIMIT < input.len() {
        return Err(GateError::TooLong);
    }
    if !highest_byte(input).is_ascii() {
        return Err(GateError::NotAscii(first_high(input)));
    }
    if lent < asked {
        return Err(GateError::Short);
    }
    Ok(())
}
