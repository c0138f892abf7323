// The acts of a cell, in their order.
ghost use Rattle.std.specs.Prelude.{◌≡◌, ◌+◌, ◌*◌, ◌≤◌, ◌<◌, length};
ghost use Rattle.ascii.specs.Choice.{bit};
ghost use Rattle.lent.specs.Sizes.{limit};
ghost use Rattle.lent.specs.Buffers.{stored};
ghost use Rattle.lexer.specs.Tokens.{word_kind};
ghost use Rattle.plain.specs.Coding.{kind_by, keeps_in, ends_in, feeds_in, begins_in, joins_in};
ghost use Rattle.plain.specs.Automaton.{controlled, opened};
ghost use Rattle.plain.specs.Steps.{Adds, Kept, Tells, Ended, Feeding, Joined, Acted, Stepped, CanEnd, Ready, Room, RoomFor, held, words};

use crate::table::{Ends, JOIN, Joins, K, KEEP, LINE, OPEN, STAND, ends_in, joins_in};
use lexer::{Cursor, Kind, Lexeme};

// The registers beside state and cursor: where the open token began, the offset of its text, and how many bytes and records are written.
#[derive(Clone, Copy)]
pub struct Held {
    pub from: Cursor,
    pub start: usize,
    pub used: usize,
    pub count: usize,
}

// What a word is: its text and the mark that it began with tell it. The lexer has its own: shared, its tokens were slower (12.7
// instructions a byte for 12.4), as it was no longer built into its one caller.
#[tactic(auto, unfolding(lexer::specs::Tokens::word_kind))]
fn word_kind(mark: bool, w: &[u8]) -> Kind
    ensures { result ≡ word_kind mark w.now }
{
    if mark && lexer::is_directive(w) {
        return Kind::Directive;
    }
    Kind::Word
}

// What the token is that is open in a state.
fn kind_of(state: usize, mark: bool, w: &[u8]) -> Kind
    ensures { result ≡ kind_by state mark w.now }
{
    if state < K {
        return word_kind(mark, w);
    }
    if state == K {
        return Kind::Comment;
    }
    Kind::QuotedString
}

// A record of a token that begins at `from` and ends before `past`, with `len` bytes of text from `offset` on.
fn put(
    records: &mut [u64],
    at: usize,
    kind: Kind,
    from: Cursor,
    past: usize,
    offset: usize,
    len: usize,
)
    requires { (from.place ≤ past) × (past ≤ limit) × (offset ≤ limit) × (len ≤ limit) }
    ensures { records.new ≡ stored records.old at (words kind from past offset len) }
{
    let token = Lexeme {
        kind,
        line: from.line,
        column: from.column,
        first: from.place,
        len,
        // of the next cursor the record has the place alone
        next: Cursor {
            place: past,
            ..from
        },
    };
    lexer::put_token(records, at, offset, token);
}

// The open token ends, and its record is stored.
fn tell(state: usize, past: usize, h: Held, text: &[u8], records: &mut [u64]) -> Held
    requires place_le_past { h.from.place ≤ past }
    requires past_le_limit { past ≤ limit }
    requires start_le_used { (h.start ≤ h.used) × (h.used ≤ length text.now) }
    requires used_le_limit { (h.used ≤ limit) × (h.count ≤ limit + limit + 1) }
    ensures { Tells state past text.now h records.old records.new result }
{
    let open = &text[h.start..h.used];
    put(
        records,
        h.count * lent::TOKEN_WORDS,
        kind_of(state, h.from.mark, open),
        h.from,
        past,
        h.start,
        open.len(),
    );
    Held {
        start: h.used,
        count: h.count + 1,
        ..h
    }
}

// The open token ends where the cell says, if it does.
fn end(x: usize, state: usize, c: Cursor, h: Held, text: &[u8], records: &mut [u64]) -> Held
    requires { CanEnd (ends_in x) c h text.now }
    ensures { Ended (ends_in x) state c.place text.now h records.old records.new result }
{
    match ends_in(x) {
        Ends::Stays => h,
        Ends::Here => tell(state, c.place, h, text, records),
        Ends::Earlier => tell(state, c.place - 1, h, text, records),
        Ends::WithIt => tell(state, c.place + 1, h, text, records),
    }
}

// A Newline of this byte.
fn feed(x: usize, c: Cursor, h: Held, records: &mut [u64]) -> Held
    requires { (c.place + bit (feeds_in x) ≤ limit) × (h.start ≤ limit) × (h.count ≤ limit + limit + 2) }
    ensures { Feeding x c h records.old records.new result }
{
    if x / LINE % 2 == 1 {
        put(
            records,
            h.count * lent::TOKEN_WORDS,
            Kind::Newline,
            c,
            c.place + 1,
            h.start,
            0,
        );
        return Held {
            count: h.count + 1,
            ..h
        };
    }
    h
}

// A token begins with this byte.
fn begin(x: usize, c: Cursor, h: Held) -> Held
    ensures { result ≡ held (opened (begins_in x) c h.from) h.start h.used h.count }
{
    if x / OPEN % 2 == 1 {
        return Held { from: c, ..h };
    }
    h
}

// The byte that n, t or r stands for.
fn control(b: u8) -> u8
    ensures { result ≡ controlled b }
{
    match b {
        b'n' => b'\n',
        b't' => b'\t',
        _ => b'\r',
    }
}

// This byte joins the text.
fn add(b: u8, h: Held, text: &mut [u8]) -> Held
    requires { h.used < length text.old }
    ensures { Adds b h text.old text.new result }
{
    text[h.used] = b;
    Held {
        used: h.used + 1,
        ..h
    }
}

// The backslash that was held back joins the text.
fn keep(x: usize, h: Held, text: &mut [u8]) -> Held
    requires { Room (keeps_in x) h text.old }
    ensures { Kept (keeps_in x) h text.old text.new result }
{
    if x / KEEP % 2 == 1 {
        return add(b'\\', h, text);
    }
    h
}

// This byte, or the one that it stands for, joins the text.
fn join(x: usize, b: u8, h: Held, text: &mut [u8]) -> Held
    requires { RoomFor (joins_in x) h text.old }
    ensures { Joined (joins_in x) b h text.old text.new result }
{
    match joins_in(x) {
        Joins::Nothing => h,
        Joins::Itself => add(b, h, text),
        Joins::Control => add(control(b), h, text),
    }
}

// The acts of a cell but the last, where the cursor is `c`. The buffers are lent apart and not as one struct: of the acts only `end`
// takes both.
pub fn act(x: usize, state: usize, c: Cursor, h: Held, text: &mut [u8], records: &mut [u64]) -> Held
    requires { Ready x c h text.old }
    ensures { Acted x state c h text.old text.new records.old records.new result }
{
    let kept = keep(x, h, text);
    let ended = end(x, state, c, kept, text, records);
    let fed = feed(x, c, ended, records);
    begin(x, c, fed)
}

// All acts of a cell at the byte `b`, and sooner for most bytes, which have no act or join the text and no more.
#[tactic(auto, using(crate::proofs::StepLaws::step_none, crate::proofs::StepLaws::step_add))]
pub fn step(
    x: usize,
    state: usize,
    b: u8,
    c: Cursor,
    h: Held,
    text: &mut [u8],
    records: &mut [u64],
) -> Held
    requires { Ready x c h text.old }
    ensures { Stepped x state b c h text.old text.new records.old records.new result }
{
    if x < JOIN {
        return h;
    }
    if x < STAND {
        return add(b, h, text);
    }
    let begun = act(x, state, c, h, text, records);
    join(x, b, begun, text)
}
