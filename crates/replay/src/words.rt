// What the answers of the readers are made of: a text, records, a refusal.
use crate::{hexes, sizes};
use lent::GateError;
use std::io;

// What a word of a record is.
#[derive(Clone, Copy, PartialEq, Eq)]
pub enum Word {
    Number,
    Span,
}

pub const TOKEN: [Word; lent::TOKEN_WORDS] = [
    Word::Number,
    Word::Number,
    Word::Number,
    Word::Span,
    Word::Span,
];

pub const ACTION: [Word; lent::ACTION_WORDS] = [
    Word::Number,
    Word::Number,
    Word::Span,
    Word::Span,
    Word::Number,
    Word::Span,
    Word::Span,
];

pub const VARIABLE: [Word; lent::VARIABLE_WORDS] = [
    Word::Number,
    Word::Number,
    Word::Number,
    Word::Number,
    Word::Span,
    Word::Span,
];

pub const DIRECTIVE: [Word; lent::DIRECTIVE_WORDS] = [
    Word::Number,
    Word::Number,
    Word::Span,
    Word::Span,
    Word::Number,
    Word::Number,
    Word::Span,
    Word::Number,
    Word::Number,
    Word::Number,
    Word::Number,
];

// The first `len` bytes of a text: a long one by a sum.
pub fn print_text(rt: &HostRuntime, text: &[u8], len: usize) -> io::Result<()> {
    let shown = &text[..len.min(text.len())];
    if len == 0 {
        rt.write_all(b"-")
    } else if sizes::SHORT_SETVAR < len {
        print!(rt; "#{}", hexes::sum(shown))
    } else {
        hexes::print(rt, shown)
    }
}

// A span word as it was when most answers were stored; where it had no such form, as it is, behind a sign.
pub fn print_span_word(rt: &HostRuntime, word: u64) -> io::Result<()> {
    match spans::span_to_old(word) {
        Ok(old) => print!(rt; "{old} "),
        Err(_) => print!(rt; "+{word} "),
    }
}

// A part of a text as one word.
pub fn print_span(rt: &HostRuntime, offset: usize, len: usize) -> io::Result<()> {
    print_span_word(
        rt,
        offset as u64 % sizes::SPAN * sizes::SPAN + len as u64 % sizes::SPAN,
    )
}

// The words of the first `count` records. One that is not used is 0 as a number and as a span.
pub fn print_records(
    rt: &HostRuntime,
    records: &[u64],
    count: usize,
    shape: &[Word],
) -> io::Result<()> {
    let most = count.saturating_mul(shape.len());
    for (word, kind) in records.iter().zip(shape.iter().cycle()).take(most) {
        match kind {
            Word::Number => print!(rt; "{word} ")?,
            Word::Span => print_span_word(rt, *word)?,
        }
    }
    Ok(())
}

// A refusal's number, with the value beside it and no text.
pub fn print_refusal(rt: &HostRuntime, number: u64, value: usize) -> io::Result<()> {
    print!(rt; "{number} {value} -")
}

pub fn print_gate(rt: &HostRuntime, error: GateError) -> io::Result<()> {
    match error {
        GateError::TooLong => print_refusal(rt, 1, lent::LIMIT),
        GateError::NotAscii(place) => print_refusal(rt, 2, place),
        GateError::Short => print_refusal(rt, 3, 0),
    }
}

// A refusal of a piece: which, its name's length, its span, and the name out of the text.
pub fn print_refused(
    rt: &HostRuntime,
    number: u64,
    piece: usize,
    name: usize,
    span: u64,
    text: &[u8],
) -> io::Result<()> {
    print!(rt; "{number} {piece} {name} ")?;
    print_span_word(rt, span)?;
    print_text(rt, text, name)
}
