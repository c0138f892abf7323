// Records and texts in the lent buffers: variables as they are read, and the exclusions after the last of them.
ghost use Rattle.std.specs.Prelude.{◌≡◌, ◌+◌, ◌*◌, ◌≤◌, length};
ghost use Rattle.lent.specs.Sizes.{limit, variable_words};
ghost use Rattle.lent.specs.Buffers.{stored};
ghost use Rattle.variables.specs.Parts.{pieces};
ghost use Rattle.variables.specs.Steps.{Lies, entry_part, chosen_number, span_at, text_at, whole_words, Narrow, Scanned, excluded_of, kept_of, AllOrNone, Added};

use crate::finding::{Piece, next_piece};
use crate::singles::{Chosen, Entry, Exclusions, Target, UnknownName, read_piece};
use ascii::Part;

// Where an entry's text stands in its piece, if it has one.
fn text_of(e: Entry) -> Option<Part>
    ensures { result ≡ entry_part e }
{
    match e {
        Entry::Variable(Target { chosen: None, .. }) => None,
        Entry::Variable(
            Target {
                chosen: Some(Chosen::Key(text) | Chosen::Regex(text)),
                ..
            },
        ) => Some(text),
        Entry::Exclusion(text) => Some(text),
    }
}

// The number of what is chosen.
fn selection_number(chosen: Option<Chosen>) -> u64
    ensures { result ≡ chosen_number chosen }
{
    match chosen {
        None => 0,
        Some(Chosen::Key(_)) => 1,
        Some(Chosen::Regex(_)) => 2,
    }
}

// The span word of a text that is put at `offset`: 0 where there is none.
fn span_of(text: Option<Part>, offset: usize) -> u64
    requires { Narrow text offset }
    ensures { result ≡ span_at offset text }
{
    match text {
        None => 0,
        Some(part) => lent::span(offset as u32, (part.past - part.first) as u32),
    }
}

// The text of an entry of the piece `p`, which stands at `at` in the list, at the offset `used`, and its record in the
// place `count`, each where it fits; gives the offset past the text.
fn put(
    p: &[u8],
    at: usize,
    e: Entry,
    text: &mut [u8],
    used: usize,
    records: &mut [u64],
    count: usize,
) -> usize
    requires lies { Lies p.now (entry_part e) }
    requires used_bound { (used ≤ 4 * limit) × (count ≤ 4 * limit) }
    requires at_le_limit { (at ≤ limit) × (length p.now ≤ limit) }
    ensures text_after { text.new ≡ stored text.old used (text_at p.now (entry_part e)) }
    ensures records_after { records.new ≡ stored records.old (count * variable_words) (whole_words used e at (length p.now)) }
    ensures value { result ≡ used + length (text_at p.now (entry_part e)) }
{
    let part = text_of(e);
    let span = span_of(part, used);
    let source = lent::span(at as u32, p.len() as u32);
    let record = match e {
        Entry::Variable(v) => {
            let selection = selection_number(v.chosen);
            [1, v.code, u64::from(v.counts), selection, span, source]
        }
        Entry::Exclusion(_) => [2, 0, 0, 0, span, source],
    };
    lent::store(records, count * lent::VARIABLE_WORDS, &record);
    match part {
        None => used,
        Some(part) => {
            lent::store(text, used, &p[part.first..part.past]);
            used + (part.past - part.first)
        }
    }
}

// What a list was read to: how many variables and exclusions, and the offset past the selections' texts.
#[derive(Clone, Copy)]
pub struct Tally {
    pub variables: usize,
    pub excluded: usize,
    pub used: usize,
}

// The first name that is none, with its piece, its places, and the piece's.
#[derive(Clone, Copy)]
pub struct UnknownPiece {
    pub piece: usize,
    pub begin: usize,
    pub end: usize,
    pub first: usize,
    pub past: usize,
}

// Reads every piece, and writes the variables, texts from `offset` and records from `place` on.
pub fn scan(
    s: &[u8],
    exclusions: Exclusions,
    text: &mut [u8],
    offset: usize,
    records: &mut [u64],
    place: usize,
) -> Result<Tally, UnknownPiece>
    requires s_len_bound { length s.now ≤ limit }
    requires offset_le_limit { (offset ≤ limit) × (place ≤ limit) }
    ensures { Scanned exclusions s.now offset place text.old text.new records.old records.new result }
{
    let mut at = 0;
    let mut variables = 0;
    let mut excluded = 0;
    let mut used = offset;
    // piece after piece: what a piece is tells which of two counts goes on
    loop {
        let Some(Piece { first, past, next }) = next_piece(s, at) else {
            return Ok(Tally {
                variables,
                excluded,
                used,
            });
        };
        let p = &s[first..past];
        at = next;
        match read_piece(p, exclusions) {
            Err(UnknownName { begin, end }) => {
                return Err(UnknownPiece {
                    piece: variables + excluded,
                    begin: first + begin,
                    end: first + end,
                    first,
                    past,
                });
            }
            Ok(Entry::Exclusion(_)) => excluded += 1,
            Ok(Entry::Variable(v)) => {
                let e = Entry::Variable(v);
                used = put(p, first, e, text, used, records, place + variables);
                variables += 1;
            }
        }
    }
}

// Writes the exclusions that are kept, texts from `offset` and records from `place` on, and gives the offset past them.
// Reading ends with the last of them, and where none are kept does not begin.
pub fn add_exclusions(
    s: &[u8],
    kept: usize,
    text: &mut [u8],
    offset: usize,
    records: &mut [u64],
    place: usize,
) -> usize
    requires s_len_bound { length s.now ≤ limit }
    requires offset_bound { (offset ≤ limit + limit) × (place ≤ limit + limit) }
    requires all_or_none { AllOrNone kept (excluded_of (pieces s.now)) }
    ensures { Added (kept_of kept (excluded_of (pieces s.now))) offset place text.old text.new records.old records.new result }
{
    let mut at = 0;
    let mut used = offset;
    let mut count = place;
    // by pieces, of which only those that are marked count
    while count - place < kept {
        let Some(Piece { first, past, next }) = next_piece(s, at) else {
            return used;
        };
        at = next;
        if s[first] == b'!' {
            let e = Entry::Exclusion(Part {
                first: 1,
                past: past - first,
            });
            used = put(&s[first..past], first, e, text, used, records, count);
            count += 1;
        }
    }
    used
}
