// A reader that holds its text, as the Rust's lexer does; the work is next_token's.
// Functions and no methods: docs/CONTRACTS.md promises them under these names.

#![tactic(auto)]

ghost use Rattle.std.specs.Prelude.{◌≡◌};
ghost use Rattle.lexer.specs.Cursors.{fresh};
ghost use Rattle.lexer.specs.Promises.{NextToken};

use lexer::{Cursor, Found, StepError, next_token, start};

// The Rust's Lexer<'a>: the text, and where reading stands in it.
#[derive(Clone, Copy)]
pub struct Reader<'a> {
    pub text: &'a [u8],
    pub cursor: Cursor,
}

// Lexer::new.
pub fn reader_of<'a>(text: &'a [u8]) -> Reader<'a>
    ensures { (result.text ≡ text.entry) × (result.cursor ≡ fresh) }
{
    Reader {
        text,
        cursor: start(),
    }
}

// The same text from another cursor, as a step hands it back.
pub fn reader_at<'a>(r: Reader<'a>, cursor: Cursor) -> Reader<'a>
    ensures { (result.text ≡ r.entry.text) × (result.cursor ≡ cursor) }
{
    Reader {
        text: r.text,
        cursor,
    }
}

// Lexer::next_token, on the reader's text and cursor.
pub fn next_of<'a>(r: Reader<'a>, out: &mut [u8]) -> Result<Found, StepError>
    ensures { NextToken r.entry.text.now r.entry.cursor out.old out.new result }
{
    next_token(r.text, r.cursor, out)
}

// A text's token from a cursor, for a caller who keeps no reader.
pub fn token_at(text: &[u8], cursor: Cursor, out: &mut [u8]) -> Result<Found, StepError>
    ensures { NextToken text.now cursor out.old out.new result }
{
    next_of(reader_at(reader_of(text), cursor), out)
}

// A text's first token.
pub fn first_token(text: &[u8], out: &mut [u8]) -> Result<Found, StepError>
    ensures { NextToken text.now fresh out.old out.new result }
{
    token_at(text, start(), out)
}
