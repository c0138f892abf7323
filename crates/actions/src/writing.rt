// An action's texts and record, written into lent memory.
ghost use Rattle.std.specs.Prelude.{◌≡◌, ◌+◌, ◌≤◌, ◌<◌, length};
ghost use Rattle.ascii.specs.Fold.{lowered};
ghost use Rattle.lent.specs.Sizes.{span_base};
ghost use Rattle.lent.specs.Buffers.{stored};
ghost use Rattle.lent.specs.Sources.{part, part_word};
ghost use Rattle.single_action.specs.Plans.{origin_text, Lies, plan_action, Inside};
ghost use Rattle.single_action.specs.Actions.{action_text};
ghost use Rattle.actions.specs.Steps.{origin_word, Put};

use single_action::{Origin, Plan};

// A text in small letters at a place, where it fits whole; else nothing.
pub fn store_lowered(out: &mut [u8], at: usize, text: &[u8])
    ensures { out.new ≡ stored out.old at (lowered text.now) }
{
    if out.len() < at || out.len() - at < text.len() {
        return;
    }
    for (i, b) in text.iter().enumerate() {
        out[at + i] = ascii::to_lower(*b);
    }
}

// The text of an origin in `s`, written at a place; gives the place behind it.
fn put_text(s: &[u8], origin: Origin, text: &mut [u8], at: usize) -> usize
    requires lies { Lies s.now origin }
    requires origin_in_bounds { at + length (origin_text s.now origin) ≤ length text.old }
    ensures text_after { text.new ≡ stored text.old at (origin_text s.now origin) }
    ensures value { result ≡ at + length (origin_text s.now origin) }
{
    match origin {
        Origin::Absent => at,
        Origin::Copied { first, past } => {
            lent::store(text, at, &s[first..past]);
            at + (past - first)
        }
        Origin::Lowered { first, past } => {
            store_lowered(text, at, &s[first..past]);
            at + (past - first)
        }
        Origin::Tx => {
            lent::store(text, at, b"tx");
            at + 2
        }
        Origin::One => {
            lent::store(text, at, b"1");
            at + 1
        }
    }
}

// The span word of a text that runs from `at` up to `end` in the text buffer: 0 where there is none.
fn word_of(origin: Origin, at: usize, end: usize) -> u64
    requires at_le_end { at ≤ end }
    requires end_lt_span_base { end < span_base }
    ensures { result ≡ origin_word origin at end }
{
    let span = lent::span(at as u32, (end - at) as u32);
    match origin {
        Origin::Absent => 0,
        _ => span,
    }
}

// The span word of a part that runs from `first` up to `past`.
pub fn span_of(first: usize, past: usize) -> u64
    requires { (first ≤ past) × (past < span_base) }
    ensures { result ≡ part_word (part first past) }
{
    lent::span(first as u32, (past - first) as u32)
}

// An action's texts at `used` and its record at `at`, where that fits; gives the place behind the texts. The piece `s` has the span `source`.
pub fn put_plan(
    s: &[u8],
    plan: Plan,
    source: u64,
    text: &mut [u8],
    used: usize,
    records: &mut [u64],
    at: usize,
) -> usize
    requires inside { Inside s.now plan }
    requires plan_in_bounds { used + length (action_text (plan_action s.now plan)) ≤ length text.old }
    requires plan_bound { used + length (action_text (plan_action s.now plan)) < span_base }
    ensures { Put (plan_action s.now plan) source used at text.old text.new records.old records.new result }
{
    let b = put_text(s, plan.a, text, used);
    let c = put_text(s, plan.b, text, b);
    let end = put_text(s, plan.c, text, c);
    let record = [
        plan.code,
        plan.number,
        word_of(plan.a, used, b),
        word_of(plan.b, b, c),
        plan.kind,
        word_of(plan.c, c, end),
        source,
    ];
    lent::store(records, at, &record);
    end
}
