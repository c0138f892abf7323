// Quotation marks at a text's ends, by places.
ghost use Rattle.std.specs.Prelude.{◌≡◌, ◌≤◌, length};
ghost use Rattle.single_action.specs.Marks.{quotation, paired};
ghost use Rattle.single_action.specs.Plans.{Stripped};

use ascii::{ByteTest, Part};

pub fn is_quotation(b: u8) -> bool
    ensures { result ≡ quotation b }
{
    b == b'"' || b == b'\''
}

struct Mark;

impl ByteTest for Mark {
    ghost test = { quotation };

    fn passes(b: u8) -> bool {
        is_quotation(b)
    }
}

// Where the text from `from` on stands without all marks at both ends.
pub fn unmarked(s: &[u8], from: usize) -> Part
    requires { from ≤ length s.now }
    ensures { Stripped s.now from result }
{
    let first = from + ascii::leading::<Mark>(&s[from..]);
    let len = ascii::kept_len::<Mark>(&s[first..]);
    Part {
        first,
        past: first + len,
    }
}

// Whether it begins with a mark and ends with the same one.
pub fn is_paired(s: &[u8]) -> bool
    ensures { result ≡ paired s.now }
{
    let n = s.len();
    2 <= n && is_quotation(s[0]) && s[n - 1] == s[0]
}
