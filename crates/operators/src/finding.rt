// Where an operator's parts stand in the input, by numbers, so that a name and an argument are parts and no copies.
ghost use Rattle.std.specs.Prelude.{◌≡◌};
ghost use Rattle.ascii.specs.Classes.{operator_name_end};
ghost use Rattle.ascii.specs.Trim.{leading_white};
ghost use Rattle.operators.specs.Operators.{starts, name_length};
ghost use Rattle.operators.specs.Places.{sign_width, found_of};

use ascii::Part;

// The name and the argument. Where there is no `@`, no name is written, and the argument is all that is left.
#[derive(Clone, Copy)]
pub struct Found {
    pub negated: bool,
    pub name: Option<Part>,
    pub argument: Part,
}

fn starts_with(s: &[u8], b: u8) -> bool
    ensures { result ≡ starts b s.now }
{
    s.first() == Some(&b)
}

// How many bytes the `!` takes with the white ones after it: 0 where none stands first.
fn sign_width(s: &[u8]) -> usize
    ensures { result ≡ sign_width s.now }
{
    if !starts_with(s, b'!') {
        return 0;
    }
    1 + ascii::leading_white(&s[1..])
}

// How many white bytes stand between a name and its argument: what ended the name is one, and is not looked at again.
fn gap_width(s: &[u8]) -> usize
    requires { name_length s.now ≡ 0 }
    ensures { result ≡ leading_white s.now }
{
    if s.is_empty() {
        return 0;
    }
    let after = &s[1..];
    1 + ascii::leading_white(after)
}

// A class of its own, and not the whitespace of trimming: a vertical tab ends no name.
fn ends_name(b: u8) -> bool
    ensures { result ≡ operator_name_end b }
{
    ascii::ends_operator_name(b)
}

// The same: nearly every byte of a name is past the blank, and one test is enough for it.
fn stops_name(b: u8) -> bool
    ensures { result ≡ operator_name_end b }
{
    b <= 32 && ends_name(b)
}

// How many bytes stand before the first that ends a name.
fn name_length(s: &[u8]) -> usize
    ensures { result ≡ name_length s.now }
{
    for (i, b) in s.iter().enumerate() {
        if stops_name(*b) {
            return i;
        }
    }
    s.len()
}

pub fn find(s: &[u8]) -> Found
    ensures { result ≡ found_of s.now }
{
    let trimmed = ascii::trimmed(s);
    let begin = trimmed.first;
    let end = trimmed.past;
    let text = &s[begin..end];
    let negated = starts_with(text, b'!');
    let width = sign_width(text);
    let body = begin + width;
    if !starts_with(&s[body..end], b'@') {
        return Found {
            negated,
            name: None,
            argument: Part {
                first: body,
                past: end,
            },
        };
    }
    let first = body + 1;
    let past = first + name_length(&s[first..end]);
    let gap = gap_width(&s[past..end]);
    Found {
        negated,
        name: Some(Part { first, past }),
        argument: Part {
            first: past + gap,
            past: end,
        },
    }
}
