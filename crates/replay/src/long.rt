// Questions on texts up to the limit and past it: a front, a part so many times, and a tail.
ghost use Rattle.std.specs.Prelude.{◌≤◌, length};

use crate::hexes;

// The body is how often, the length of the front and of the part, 8 bytes each, the largest first, and then all three.
fn parts(body: &[u8]) -> Option<(u64, &[u8], &[u8], &[u8])> {
    let (times, rest) = hexes::first_word(body)?;
    let (front, rest) = hexes::first_word(rest)?;
    let (part, rest) = hexes::first_word(rest)?;
    let (front, rest) = rest.split_at_checked(front as usize)?;
    let (part, tail) = rest.split_at_checked(part as usize)?;
    Some((times, front, part, tail))
}

// Bytes at a place, where they fit, and the place past them.
fn put(out: &mut [u8], at: usize, bytes: &[u8]) -> usize
    ensures { result ≤ length out.new }
{
    let Some(room) = out.len().checked_sub(at) else {
        return 0;
    };
    if room < bytes.len() {
        return at;
    }
    lent::store(out, at, bytes);
    at + bytes.len()
}

// The text at the front of `out`, and its length.
pub fn spread(body: &[u8], out: &mut [u8]) -> usize
    ensures { result ≤ length out.new }
{
    let Some((times, front, part, tail)) = parts(body) else {
        return 0;
    };
    let mut at = put(out, 0, front);
    for _ in 0..times {
        at = put(out, at, part);
    }
    put(out, at, tail)
}
