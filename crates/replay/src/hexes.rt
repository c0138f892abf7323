// Bytes as pairs of hexadecimal digits, and numbers as bytes.
ghost use Rattle.std.specs.Prelude.{◌<◌, ◌≡◌, ◌/◌, length, min, vec_len, IfOk};
ghost use Rattle.listing.specs.Json.{hex};

use std::alloc::Global;
use std::io;

fn digit_of(v: u8) -> u8
    requires { v < 16 }
    ensures { result ≡ hex v }
{
    if v < 10 { b'0' + v } else { b'a' + (v - 10) }
}

fn digit_value(b: u8) -> u8
    ensures { result < 16 }
{
    match b {
        b'0'..=b'9' => b - b'0',
        b'a'..=b'f' => b - b'a' + 10,
        _ => 0,
    }
}

// The bytes that pairs of digits stand for.
pub fn decode(alloc: Global, digits: &[u8]) -> io::Result<Vec<u8>>
    ensures { IfOk result (λ bytes. vec_len bytes ≡ length digits.now / 2) }
{
    let (pairs, _) = digits.as_chunks::<2>();
    let bytes = pairs
        .iter()
        .map(|[high, low]| digit_value(*high) * 16 + digit_value(*low))
        .collect(alloc)?;
    Ok(bytes)
}

// The number of up to eight bytes, the largest first.
pub fn word(bytes: &[u8]) -> u64 {
    bytes.iter().fold(0u64, |v, b| v << 8 | u64::from(*b))
}

// The word at a body's front, and what stands behind it.
pub fn first_word(body: &[u8]) -> Option<(u64, &[u8])> {
    let (front, rest) = body.split_at_checked(8)?;
    Some((word(front), rest))
}

// The words of a body, 8 bytes each, up to so many.
pub fn words(alloc: Global, body: &[u8], most: usize) -> io::Result<Vec<u64>>
    ensures { IfOk result (λ words. vec_len words ≡ min most (length body.now / 8)) }
{
    let words = body.chunks_exact(8).take(most).map(word).collect(alloc)?;
    Ok(words)
}

// All bytes as one number: each before times 31, and the next.
pub fn sum(s: &[u8]) -> u64 {
    s.iter()
        .fold(0u64, |sum, b| sum % 4294967296 * 31 + u64::from(*b))
}

pub fn print(rt: &HostRuntime, s: &[u8]) -> io::Result<()> {
    for b in s {
        rt.write_all(&[digit_of(b >> 4), digit_of(b & 15)])?;
    }
    Ok(())
}
