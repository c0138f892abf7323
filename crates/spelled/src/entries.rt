// One record of lent words: its code, its numbers, and where its texts stand.
ghost use Rattle.std.specs.Prelude.{◌≡◌, ◌+◌, ◌≤◌, min, length, drop};
ghost use Rattle.lent.specs.Sizes.{action_words};
ghost use Rattle.records.specs.Marks.{end_most};
ghost use Rattle.spelled.specs.Records.{whole, start};
ghost use Rattle.spelled.specs.Steps.{text_end, ReadEntry};

// The texts a, b and c stand one after another: from `first`, `second` and `third` on, and up to `past`. One that is absent is empty.
#[derive(Clone, Copy)]
pub struct Entry {
    pub code: u64,
    pub number: u64,
    pub kind: u64,
    pub first: usize,
    pub second: usize,
    pub third: usize,
    pub past: usize,
}

// The offset of the first text; one past all n bytes of the buffer, where none can stand, is taken for its end.
pub fn first_offset(words: &[u64], n: usize) -> usize
    ensures { result ≡ min (start (whole words.now) words.now) n }
{
    for count in 0..lent::room(words.len(), lent::ACTION_WORDS) {
        let at = count * lent::ACTION_WORDS;
        if records::is_text(words[at], words[at + 4], 2) {
            return n.min(lent::span_offset(words[at + 2]) as usize);
        }
    }
    0
}

// Where a text ends that starts at `at`: past all n bytes of the buffer where its word is another.
fn text_end(text: bool, word: u64, at: usize, n: usize) -> usize
    requires { n ≤ 9223372036854775807 }
    ensures { result ≡ text_end text word at n }
{
    if !text {
        return if word == 0 { at } else { n + 1 };
    }
    let end = lent::span_offset(word) + lent::span_length(word);
    if lent::span_offset(word) != at as u64 {
        return n + 1;
    }
    if (u32::MAX as u64) < end {
        return n + 1;
    }
    if (n as u64) < end {
        return n + 1;
    }
    end as usize
}

// The record at a place, the offset `first` being reached; none where its words are none that a reader writes.
pub fn read_entry(words: &[u64], at: usize, first: usize, text: &[u8]) -> Option<Entry>
    requires action_words_in_bounds { at + action_words ≤ length words.now }
    requires first_in_bounds { (first ≤ length text.now) × (first ≤ end_most) }
    ensures { ReadEntry text.now first (drop at words.now) result }
{
    let code = words[at];
    let kind = words[at + 4];
    if !records::is_known(code, kind) {
        return None;
    }
    let n = text.len();
    let second = text_end(records::is_text(code, kind, 2), words[at + 2], first, n);
    let third = text_end(records::is_text(code, kind, 3), words[at + 3], second, n);
    let past = text_end(records::is_text(code, kind, 5), words[at + 5], third, n);
    if n < past {
        return None;
    }
    Some(Entry {
        code,
        number: words[at + 1],
        kind,
        first,
        second,
        third,
        past,
    })
}
