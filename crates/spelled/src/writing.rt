// The public call: records and texts written back.
ghost use Rattle.std.specs.Prelude.{◌≡◌, ◌+◌, ◌≤◌, length, drop};
ghost use Rattle.lent.specs.Sizes.{limit, action_words};
ghost use Rattle.listing.specs.Steps.{Puts, comma};
ghost use Rattle.records.specs.Marks.{end_most};
ghost use Rattle.spelled.specs.Promises.{WriteActions};
ghost use Rattle.spelled.specs.Records.{record_in};
ghost use Rattle.spelled.specs.Steps.{Placed, entry_action, keeps, RowIs, PutEach};

use crate::entries::{Entry, first_offset, read_entry};
use crate::fitting::fits;
use crate::naming::rule_for;
use crate::passing::pass_all;
use crate::putting::put_byte;
use crate::spelling::{mark_for, put_entry};
use listing::ListingError;
use single_action::Rule;

// A record put: the offset past its texts, and the place past its spelling.
#[derive(Clone, Copy)]
pub struct Row {
    pub past: usize,
    pub next: usize,
}

// Whether a record's spelling reads back to it: with others behind it nothing may be left open.
fn is_kept(rule: Rule, e: Entry, text: &[u8], mark: u8, last: bool) -> bool
    requires { Placed text.now e }
    ensures { result ≡ keeps rule mark last (entry_action text.now e) }
{
    if !fits(rule, e, text) {
        return false;
    }
    let first = e.first;
    let second = e.second;
    let third = e.third;
    let past = e.past;
    match pass_all(
        mark,
        &text[first..second],
        &text[second..third],
        &text[third..past],
    ) {
        None => false,
        Some(open) => last || (open.mark == mark && open.depth == 0),
    }
}

// The comma before a record that is not the first.
fn put_comma(out: &mut [u8], at: usize, count: usize) -> usize
    requires { at ≤ limit }
    ensures { Puts out.old out.new at result (comma count) }
{
    if count == 0 {
        return at;
    }
    put_byte(out, at, b',')
}

// The record at a place, with so many before it: put where it is written and ends within the limit, else none.
fn put_record(
    words: &[u64],
    at: usize,
    offset: usize,
    text: &[u8],
    last: bool,
    count: usize,
    out: &mut [u8],
    to: usize,
) -> Option<Row>
    requires action_words_in_bounds { at + action_words ≤ length words.now }
    requires offset_in_bounds { (offset ≤ length text.now) × (offset ≤ end_most) }
    requires to_le_limit { to ≤ limit }
    ensures { RowIs (length text.now) offset (record_in text.now offset (drop at words.now)) last count to out.old out.new result }
{
    let e = read_entry(words, at, offset, text)?;
    let rule = rule_for(e.code);
    let first = e.first;
    let past = e.past;
    let mark = mark_for(rule, &text[first..past]);
    if !is_kept(rule, e, text, mark, last) {
        return None;
    }
    let next = put_comma(out, to, count);
    let end = put_entry(out, next, rule, e, text, mark);
    if lent::LIMIT < end {
        return None;
    }
    Some(Row { past, next: end })
}

// The records one after another, and the place past them; or the first that is not written.
fn put_records(words: &[u64], text: &[u8], out: &mut [u8]) -> Result<usize, usize>
    ensures { PutEach words.now text.now out.old out.new result }
{
    let most = lent::room(words.len(), lent::ACTION_WORDS);
    let mut offset = first_offset(words, text.len());
    let mut to = 0;
    for count in 0..most {
        let at = count * lent::ACTION_WORDS;
        match put_record(words, at, offset, text, most <= count + 1, count, out, to) {
            None => return Err(count),
            Some(row) => {
                offset = row.past;
                to = row.next;
            }
        }
    }
    Ok(to)
}

// The spelling of the list that records stand for, where it reads back to it; a refusal leaves the buffer all zero.
pub fn write_actions(words: &[u64], text: &[u8], out: &mut [u8]) -> Result<usize, ListingError>
    ensures { WriteActions words.now text.now out.old out.new result }
{
    match put_records(words, text, out) {
        Err(record) => {
            out.fill(0);
            Err(ListingError::NoToken(record))
        }
        Ok(end) => listing::finish(out, end),
    }
}
