// Whether a record alone is one that a reader makes, by its numbers and texts.
ghost use Rattle.std.specs.Prelude.{◌≡◌, false, eqb, leb};
ghost use Rattle.ascii.specs.Choice.{and};
ghost use Rattle.ascii.specs.Classes.{white};
ghost use Rattle.spelled.specs.Condition.{isnt, last_by, textual, name_fits};
ghost use Rattle.spelled.specs.Spelling.{has};
ghost use Rattle.spelled.specs.Steps.{Placed, entry_action, bare, marked_end, value_kept, setting_kept, kept};

use crate::entries::Entry;
use single_action::Rule;

// What a setvar starts with that deletes.
const DELETING: u8 = b'!';

pub fn has_byte(t: &[u8], b: u8) -> bool
    ensures { result ≡ has b t.now }
{
    ascii::first_of(t, b) < t.len()
}

fn ends_white(t: &[u8]) -> bool
    ensures { result ≡ last_by white false t.now }
{
    !t.is_empty() && ascii::is_white(t[t.len() - 1])
}

// Whether a quotation mark stands at either end.
fn marks_an_end(t: &[u8]) -> bool
    ensures { result ≡ marked_end t.now }
{
    !t.is_empty()
        && (single_action::is_quotation(t[0]) || single_action::is_quotation(t[t.len() - 1]))
}

// Neither a number nor a value kind.
fn is_bare(number: u64, kind: u64) -> bool
    ensures { result ≡ bare number kind }
{
    kind == 0 && number == 0
}

// Neither, and a text that has not the flaw.
fn is_flawless(number: u64, kind: u64, flaw: bool) -> bool
    ensures { result ≡ and (bare number kind) (isnt flaw) }
{
    is_bare(number, kind) && !flaw
}

// A number up to the largest, and no value kind.
fn is_number(number: u64, kind: u64, most: u64) -> bool
    ensures { result ≡ and (eqb kind 0) (leb number most) }
{
    kind == 0 && number <= most
}

// Two texts with `=` between: none in the first, and the second stands last.
fn is_equation(number: u64, kind: u64, a: &[u8], b: &[u8]) -> bool
    ensures { result ≡ and (isnt (has 61 a.now)) (and (bare number kind) (isnt (last_by white false b.now))) }
{
    !has_byte(a, b'=') && is_flawless(number, kind, ends_white(b))
}

// A text and seconds with `=` between.
fn is_expiry(kind: u64, a: &[u8]) -> bool
    ensures { result ≡ and (eqb kind 0) (isnt (has 61 a.now)) }
{
    kind == 0 && !has_byte(a, b'=')
}

// Whether a text behind `=` is read as a text: no macro, no sign first, and no number.
fn is_textual(t: &[u8]) -> bool
    ensures { result ≡ textual t.now }
{
    if single_action::has_macro(t) {
        return false;
    }
    if t.is_empty() {
        return true;
    }
    match t[0] {
        b'+' => return false,
        b'-' => return false,
        _ => {}
    }
    ascii::signed(t).is_err()
}

// A setvar's value, by its kind.
fn value_fits(kind: u64, number: u64, t: &[u8]) -> bool
    ensures { result ≡ value_kept kind number t.now }
{
    match kind {
        1 => number == 0 && (ascii::is_same(t, b"1") || is_textual(t)),
        2 => number <= i64::MAX as u64,
        5 => number == 0,
        6 => number == 0 && single_action::has_macro(t),
        _ => true,
    }
}

// A setvar's name that is not deleted: no `!` first, and no `=` in it.
fn name_fits(collection: &[u8], key: &[u8]) -> bool
    ensures { result ≡ name_fits collection.now key.now }
{
    if !collection.is_empty() && collection[0] == DELETING {
        return false;
    }
    !has_byte(collection, b'=') && !has_byte(key, b'=')
}

fn setvar_fits(e: Entry, text: &[u8]) -> bool
    requires { Placed text.now e }
    ensures { result ≡ setting_kept (entry_action text.now e) }
{
    let first = e.first;
    let second = e.second;
    let third = e.third;
    let past = e.past;
    let collection = &text[first..second];
    if has_byte(collection, b'.') {
        return false;
    }
    if !ascii::same_lowered(collection, collection) {
        return false;
    }
    if e.kind != records::DELETE_KIND && !name_fits(collection, &text[second..third]) {
        return false;
    }
    value_fits(e.kind, e.number, &text[third..past])
}

// By the rule of its code. Where a text stands last and bare it does not end in whitespace.
pub fn fits(rule: Rule, e: Entry, text: &[u8]) -> bool
    requires { Placed text.now e }
    ensures { result ≡ kept rule (entry_action text.now e) }
{
    let first = e.first;
    let second = e.second;
    let third = e.third;
    let a = &text[first..second];
    match rule {
        Rule::Plain => is_bare(e.number, e.kind),
        Rule::Wanted => is_flawless(e.number, e.kind, ends_white(a)),
        Rule::Unmarked => is_flawless(e.number, e.kind, marks_an_end(a)),
        Rule::UpTo(most) => is_number(e.number, e.kind, most),
        Rule::Severity => is_number(e.number, e.kind, u8::MAX as u64),
        Rule::Equation => is_equation(e.number, e.kind, a, &text[second..third]),
        Rule::Expiry => is_expiry(e.kind, a),
        Rule::Setting => setvar_fits(e, text),
    }
}
