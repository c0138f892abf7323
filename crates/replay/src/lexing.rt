// The lexer's answers: a whole text, and one step.
use crate::buffers::{Buffers, refill};
use crate::words::{TOKEN, print_gate, print_records, print_refusal, print_span, print_text};
use crate::{hexes, sizes};
use lexer::{Column, Cursor, Found, Lexeme, Line, Read, StepError, TokensError};
use std::io;

fn print_read(
    rt: &HostRuntime,
    answer: Result<Read, TokensError>,
    text: &[u8],
    records: &[u64],
) -> io::Result<()> {
    match answer {
        Ok(read) => {
            print!(rt; "0 {} {} {} ", read.count, read.place, read.line.0)?;
            print!(rt; "{} {} ", read.column.0, read.text)?;
            print_records(rt, records, read.count, &TOKEN)?;
            print_text(rt, text, read.text)
        }
        Err(TokensError::Gate(error)) => print_gate(rt, error),
        Err(TokensError::NoRoom(needed)) => print_refusal(rt, 4, needed),
    }
}

pub fn print_tokens(rt: &HostRuntime, input: &[u8], buffers: &mut Buffers) -> io::Result<()> {
    refill(&mut buffers.text, buffers.room.text, 0)?;
    refill(&mut buffers.records, sizes::RECORDS, 0)?;
    let answer = lexer::tokens(input, &mut buffers.text, &mut buffers.records);
    print_read(rt, answer, &buffers.text, &buffers.records)
}

pub fn print_plain_tokens(rt: &HostRuntime, input: &[u8], buffers: &mut Buffers) -> io::Result<()> {
    refill(&mut buffers.text, buffers.room.text, 0)?;
    refill(&mut buffers.records, sizes::RECORDS, 0)?;
    let answer = plain::plain_tokens(input, &mut buffers.text, &mut buffers.records);
    print_read(rt, answer, &buffers.text, &buffers.records)
}

fn print_cursor(rt: &HostRuntime, c: Cursor) -> io::Result<()> {
    print!(rt;
        "{} {} {} {} ",
        c.place,
        c.line.0,
        c.column.0,
        u8::from(c.mark)
    )
}

// A token's record, as the original's is laid out: its text starts at 0.
fn print_lexeme(rt: &HostRuntime, t: Lexeme) -> io::Result<()> {
    print!(rt; "{} {} {} ", u64::from(t.kind), t.line.0, t.column.0)?;
    if let Some(len) = t.next.place.checked_sub(t.first) {
        print_span(rt, t.first, len)?;
    }
    print_span(rt, 0, t.len)
}

// What a step gave, with the text that it wrote.
pub fn print_found(
    rt: &HostRuntime,
    step: Result<Found, StepError>,
    text: &[u8],
) -> io::Result<()> {
    match step {
        Ok(Found::Token(t)) => {
            rt.write_all(b"0 1 ")?;
            print_cursor(rt, t.next)?;
            print_lexeme(rt, t)?;
            print_text(rt, text, t.len)
        }
        Ok(Found::Nothing(c)) => {
            rt.write_all(b"0 0 ")?;
            print_cursor(rt, c)?;
            rt.write_all(b"-")
        }
        Err(StepError::Gate(error)) => print_gate(rt, error),
        Err(StepError::BadCursor) => print_refusal(rt, 9, 0),
    }
}

// The body is a cursor, three words and a byte, and then the text.
fn asked(body: &[u8]) -> Option<(Cursor, &[u8])> {
    let (place, rest) = hexes::first_word(body)?;
    let (line, rest) = hexes::first_word(rest)?;
    let (column, rest) = hexes::first_word(rest)?;
    let (mark, text) = rest.split_first()?;
    let cursor = Cursor {
        place: place as usize,
        line: Line(line as usize),
        column: Column(column as usize),
        mark: *mark == 1,
    };
    Some((cursor, text))
}

pub fn print_step(rt: &HostRuntime, body: &[u8], buffers: &mut Buffers) -> io::Result<()> {
    let Some((from, input)) = asked(body) else {
        return Ok(());
    };
    refill(&mut buffers.text, buffers.room.text, 0)?;
    let step = lexer::next_token(input, from, &mut buffers.text);
    print_found(rt, step, &buffers.text)
}
