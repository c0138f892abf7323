// One token at a cursor.
ghost use Rattle.std.specs.Prelude.{◌≡◌, ◌+◌, ◌≤◌, length};
ghost use Rattle.lexer.specs.Steps.{Within, Stepped, lexeme_at};
ghost use Rattle.lexer.specs.Promises.{counted, cursor_refused, StepIn, NextToken};
ghost use Rattle.lexer.specs.declared.stepping.StepError.TheVariants.{Gate};

use crate::blanks::skip_blanks;
use crate::bytes::{Class, class_of};
use crate::comments::skip_comment;
use crate::moving::cursor_past;
use crate::quotes::read_quoted;
use crate::words::{read_word, word_kind};
use crate::{Column, Cursor, Kind, Line};
use lent::GateError;

// A token without its text: it runs from `first` up to the next cursor's place, and `len` bytes of text were written.
#[derive(Clone, Copy, Debug, PartialEq, Eq)]
pub struct Lexeme {
    pub kind: Kind,
    pub line: Line,
    pub column: Column,
    pub first: usize,
    pub len: usize,
    pub next: Cursor,
}

// What stands at a cursor inside the text.
#[derive(Clone, Copy, Debug, PartialEq, Eq)]
pub enum Found {
    Token(Lexeme),
    // No token: the text ends here, or reading stops.
    Nothing(Cursor),
}

// Why a step is refused.
#[derive(Clone, Copy, Debug, PartialEq, Eq)]
pub enum StepError {
    // 1, 2 and 3.
    Gate(GateError),
    // 9: the text has no such cursor.
    BadCursor,
}

impl From<GateError> for StepError {
    ghost from_gives = { λ g e. e ≡ Gate g };

    fn from(error: GateError) -> StepError {
        StepError::Gate(error)
    }
}

// A token that starts at `from` and ends at `next`.
fn made(kind: Kind, from: Cursor, len: usize, next: Cursor) -> Lexeme
    ensures { result ≡ lexeme_at kind from len next }
{
    let line = from.line;
    let column = from.column;
    Lexeme {
        kind,
        line,
        column,
        first: from.place,
        len,
        next,
    }
}

// The token at a cursor inside the text; its text goes to the front of `text`.
pub fn find(s: &[u8], c: Cursor, text: &mut [u8]) -> Found
    requires within { Within s.now c }
    requires s_len_bound { length s.now ≤ c.place + length text.old }
    ensures { Stepped s.now c text.old text.new result }
{
    let d = skip_blanks(s, c);
    let first = d.place;
    if s.len() <= first {
        return Found::Nothing(d);
    }
    let b = s[first];
    match class_of(b) {
        Class::Feed => {
            let next = Cursor {
                place: first + 1,
                line: Line(d.line.0 + 1),
                column: Column(1),
                mark: true,
            };
            Found::Token(made(Kind::Newline, d, 0, next))
        }
        Class::Hash => {
            let run = skip_comment(s, first + 1);
            let next = cursor_past(s, d, run);
            Found::Token(made(Kind::Comment, d, 0, next))
        }
        Class::Quote => {
            let run = read_quoted(s, first + 1, b, text);
            let len = run.len;
            let next = cursor_past(s, d, run);
            Found::Token(made(Kind::QuotedString, d, len, next))
        }
        Class::Other => {
            let run = read_word(s, first, text);
            let len = run.len;
            let kind = word_kind(d.mark, &text[..len]);
            let next = cursor_past(s, d, run);
            Found::Token(made(kind, d, len, next))
        }
        _ => Found::Nothing(d),
    }
}

// Whether a number is a cursor's line or column: 1 up to one more than the limit.
fn is_counted(n: usize) -> bool
    ensures { result ≡ counted n }
{
    (1..=lent::LIMIT + 1).contains(&n)
}

// Number 9: a place past the end, or a line or column that no text within the limit has.
fn refuses_cursor(s: &[u8], c: Cursor) -> bool
    ensures { result ≡ cursor_refused s.now c }
{
    s.len() < c.place || !is_counted(c.line.0) || !is_counted(c.column.0)
}

// The next token from a cursor on, in any bytes, after the checks 1, 9 and 3, which read none: a text that was admitted once
// is stepped through by it. As much text is asked as is left behind the cursor's place; what is written is as for `next_token`.
pub fn step_in(input: &[u8], from: Cursor, text: &mut [u8]) -> Result<Found, StepError>
    ensures { StepIn input.now from text.old text.new result }
{
    if lent::LIMIT < input.len() {
        return Err(StepError::Gate(GateError::TooLong));
    }
    if refuses_cursor(input, from) {
        return Err(StepError::BadCursor);
    }
    if text.len() < input.len() - from.place {
        return Err(StepError::Gate(GateError::Short));
    }
    Ok(find(input, from, text))
}

// The next token from a cursor on, after the checks 1, 2, 3 and 9. Its text stands at the front of `text`,
// and nothing beyond is touched; where there is no token, nothing is written.
pub fn next_token(input: &[u8], from: Cursor, text: &mut [u8]) -> Result<Found, StepError>
    ensures { NextToken input.now from text.old text.new result }
{
    lent::admit(input, text.len(), input.len())?;
    step_in(input, from, text)
}
