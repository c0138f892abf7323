// The fixed spelling of one record.
ghost use Rattle.std.specs.Prelude.{◌≡◌, true, ◌+◌, ◌≤◌, length};
ghost use Rattle.lent.specs.Sizes.{limit};
ghost use Rattle.listing.specs.Steps.{far, Puts};
ghost use Rattle.records.specs.Codes.{is_kind};
ghost use Rattle.records.specs.Actions.{action_text};
ghost use Rattle.spelled.specs.Spelling.{tail, value_in, setvar_text, setvar_in, spell};
ghost use Rattle.spelled.specs.Steps.{Placed, entry_action, mark_for, behind_name, rule_for, broad};

use crate::entries::Entry;
use crate::fitting::has_byte;
use crate::naming::put_name;
use crate::putting::{put_after, put_byte, put_bytes, put_number, put_step};
use single_action::Rule;

// The mark around it: single, or double where a text holds a single one; 0 where it has none.
pub fn mark_for(rule: Rule, texts: &[u8]) -> u8
    ensures { result ≡ mark_for rule texts.now }
{
    match rule {
        Rule::Unmarked => { if has_byte(texts, 39) { 34 } else { 39 } }
        Rule::Setting => { if has_byte(texts, 39) { 34 } else { 39 } }
        _ => 0,
    }
}

// A setvar's value, with its `=`: nothing for Delete and the text 1.
fn put_value(out: &mut [u8], at: usize, kind: u64, number: u64, value: &[u8]) -> usize
    requires { at + 24 + length value.now ≤ far }
    ensures { Puts out.old out.new at result (tail (value_in kind number value.now)) }
{
    match kind {
        1 => {
            if ascii::is_same(value, b"1") {
                return at;
            }
            put_after(out, at, b'=', value)
        }
        2 => put_number(out, at, b'=', number),
        3 => put_step(out, at, b'+', number),
        4 => put_step(out, at, b'-', number),
        6 => put_after(out, at, b'=', value),
        _ => at,
    }
}

// A setvar between its marks.
fn put_setvar(out: &mut [u8], at: usize, e: Entry, text: &[u8]) -> usize
    requires placed { Placed text.now e }
    requires kind_value { is_kind e.kind ≡ true }
    requires broad_bound { at + broad ≤ far }
    ensures { Puts out.old out.new at result (setvar_text (setvar_in (entry_action text.now e))) }
{
    let first = e.first;
    let second = e.second;
    let third = e.third;
    let end = e.past;
    let mut inside = at;
    if e.kind == records::DELETE_KIND {
        inside = put_byte(out, at, b'!');
    }
    let dot = put_bytes(out, inside, &text[first..second]);
    let past = put_after(out, dot, b'.', &text[second..third]);
    put_value(out, past, e.kind, e.number, &text[third..end])
}

// What stands behind the name, the colon with it.
fn put_argument(out: &mut [u8], at: usize, rule: Rule, e: Entry, text: &[u8], mark: u8) -> usize
    requires placed { Placed text.now e }
    requires rule_value { rule ≡ rule_for e.code }
    requires broad_bound { at + broad + 3 ≤ far }
    ensures { Puts out.old out.new at result (behind_name rule mark (entry_action text.now e)) }
{
    let first = e.first;
    let second = e.second;
    let third = e.third;
    let a = &text[first..second];
    match rule {
        Rule::Plain => at,
        Rule::Wanted => put_after(out, at, b':', a),
        Rule::Unmarked => {
            let open = put_byte(out, at, b':');
            let past = put_after(out, open, mark, a);
            put_byte(out, past, mark)
        }
        Rule::UpTo(_) => put_number(out, at, b':', e.number),
        Rule::Severity => put_number(out, at, b':', e.number),
        Rule::Equation => {
            let past = put_after(out, at, b':', a);
            put_after(out, past, b'=', &text[second..third])
        }
        Rule::Expiry => {
            let past = put_after(out, at, b':', a);
            put_number(out, past, b'=', e.number)
        }
        Rule::Setting => {
            let open = put_byte(out, at, b':');
            let inside = put_byte(out, open, mark);
            let past = put_setvar(out, inside, e, text);
            put_byte(out, past, mark)
        }
    }
}

// The whole of it.
pub fn put_entry(out: &mut [u8], at: usize, rule: Rule, e: Entry, text: &[u8], mark: u8) -> usize
    requires placed { Placed text.now e }
    requires code_bound { (e.code ≤ 32) × (rule ≡ rule_for e.code) }
    requires mark_value { mark ≡ mark_for rule (action_text (entry_action text.now e)) }
    requires at_bound { at ≤ limit + 1 }
    ensures { Puts out.old out.new at result (spell (entry_action text.now e)) }
{
    let named = put_name(out, at, e.code);
    put_argument(out, named, rule, e, text, mark)
}
