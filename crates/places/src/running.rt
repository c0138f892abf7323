// Runs of bytes that a walk along a source passes at once.
ghost use Rattle.std.specs.Prelude.{◌≤◌, ◌<◌, length};
ghost use Rattle.places.specs.Steps.{Plain, Begins, Spaces, Continued, Blanks, Blank};

use crate::Rule;
use crate::acting::Mode;

// How many bytes stand before the next backslash, of the next `most`.
pub fn plain_run(s: &[u8], place: usize, most: usize) -> usize
    requires { place < length s.now }
    ensures { Plain s.now place most result }
{
    let past = place + most.min(s.len() - place);
    ascii::first_of(&s[place..past], b'\\')
}

// Whether this byte, and those up to the next backslash behind it, stand for themselves if it is none.
pub fn begins(mode: Mode, b: u8) -> bool
    ensures { Begins mode b result }
{
    match mode {
        Mode::Plain => true,
        Mode::Margin => !ascii::is_white(b),
        _ => false,
    }
}

// How many spaces stand at a place.
fn spaces(s: &[u8], place: usize) -> usize
    requires { place ≤ length s.now }
    ensures { Spaces s.now place result }
{
    for (n, b) in s[place..].iter().enumerate() {
        if *b != b' ' {
            return n;
        }
    }
    s.len() - place
}

// How many bytes an escaped line feed takes at a place, with the spaces behind it; 0 where there is none.
fn continued(s: &[u8], place: usize) -> usize
    requires { place < length s.now }
    ensures { Continued s.now place result }
{
    match &s[place..] {
        [b'\\', b'\n', ..] => 2 + spaces(s, place + 2),
        _ => 0,
    }
}

// How many bytes at a place give nothing, of an escaped line feed and the spaces behind it, or of such spaces.
fn margin_run(s: &[u8], mode: Mode, place: usize) -> usize
    requires { place < length s.now }
    ensures { Blanks s.now mode place result }
{
    match mode {
        Mode::Plain => continued(s, place),
        Mode::Margin => spaces(s, place),
        _ => 0,
    }
}

// The same by a rule: a word has no margin.
pub fn blank_run(s: &[u8], rule: Rule, mode: Mode, place: usize) -> usize
    requires { place < length s.now }
    ensures { Blank rule s.now mode place result }
{
    match rule {
        Rule::Joined | Rule::Quoted => margin_run(s, mode, place),
        Rule::Word => 0,
    }
}
