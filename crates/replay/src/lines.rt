// Standard input, line by line.
ghost use Rattle.std.specs.Prelude.{◌≤◌, length, IfSome};

use std::io::{Read, Stdin};

// A read that fails is the end.
fn read_byte(from: &mut Stdin) -> Option<u8> {
    let mut one = [0u8; 1];
    match from.read(&mut one) {
        Ok(1) => Some(one[0]),
        _ => None,
    }
}

// A line at the front of `line`, cut where that is full: its length without the line feed, or none where the input ends first.
pub fn read_line(from: &mut Stdin, line: &mut [u8]) -> Option<usize>
    ensures { IfSome result (λ n. n ≤ length line.new) }
{
    for n in 0..line.len() {
        let b = read_byte(from)?;
        if b == b'\n' {
            return Some(n);
        }
        line[n] = b;
    }
    Some(line.len())
}
