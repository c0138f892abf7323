// The cursor past a token, made once from what its run counted.
ghost use Rattle.std.specs.Prelude.{◌≡◌, ◌≤◌, ◌<◌, length};
ghost use Rattle.lexer.specs.Steps.{Within, Blank, Passes, past_bytes};

use crate::{Column, Cursor, Line};

// A run of bytes: the place past it, the length of its text, its line feeds, and where its last line starts.
#[derive(Clone, Copy)]
pub struct Run {
    pub past: usize,
    pub len: usize,
    pub feeds: usize,
    pub last: usize,
}

// Whether only whitespace stands from a place up to another.
fn blank_between(s: &[u8], from: usize, to: usize) -> bool
    requires { (from ≤ to) × (to ≤ length s.now) }
    ensures { Blank s.now from to result }
{
    for at in from..to {
        if !ascii::is_white(s[at]) {
            return false;
        }
    }
    true
}

// The cursor past a token that starts at `c` with a byte that is not white.
pub fn cursor_past(s: &[u8], c: Cursor, run: Run) -> Cursor
    requires within { Within s.now c }
    requires passes { Passes s.now c run }
    ensures { result ≡ past_bytes s.now c run.past }
{
    if run.feeds == 0 {
        return Cursor {
            place: run.past,
            line: c.line,
            column: Column(c.column.0 + (run.past - c.place)),
            mark: false,
        };
    }
    Cursor {
        place: run.past,
        line: Line(c.line.0 + run.feeds),
        column: Column(run.past - run.last + 1),
        mark: blank_between(s, run.last, run.past),
    }
}
