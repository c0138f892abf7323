// Records whose last words are spans of a text, put where that text was read from.
ghost use Rattle.std.specs.Prelude.{◌≤◌, length};
ghost use Rattle.lent.specs.Sizes.{limit};
ghost use Rattle.places.specs.Moves.{SiteWord, Resite};
ghost use Rattle.places.specs.Steps.{Stands, Paid, WordSites, WordsSited};

use crate::Rule;
use crate::walking::{Stand, site_from, start};

// A span word put in its place, by a walk that stands anywhere.
fn word_site(s: &[u8], k: usize, rule: Rule, w: &mut Stand, word: u64) -> u64
    requires { (length s.now ≤ limit) × (k ≤ length s.now) × Stands rule s.now k w.old × Paid w.old }
    ensures { WordSites s.now k rule word w.new result }
{
    let first = lent::span_offset(word) as usize;
    let past = first + lent::span_length(word) as usize;
    let part = site_from(s, k, rule, w, first, past);
    lent::span(part.first as u32, (part.past - part.first) as u32)
}

// The last words of `count` records from a place on, up to the first record that is not there whole. By places: chunks of the records
// behind `at` would need both bounds tested first, and are no plainer.
fn words_sited(
    s: &[u8],
    k: usize,
    rule: Rule,
    records: &mut [u64],
    at: usize,
    count: usize,
    width: usize,
)
    requires { (length s.now ≤ limit) × (k ≤ length s.now) × (1 ≤ width) }
    ensures { WordsSited s.now k rule count width at records.old records.new }
{
    let mut w = start(k);
    let mut i = at;
    for _ in 0..count {
        if records.len() < i || records.len() - i < width {
            return;
        }
        let last = i + (width - 1);
        records[last] = word_site(s, k, rule, &mut w, records[last]);
        i += width;
    }
}

// One span of the text that was read by a rule from the place k on, put where it came from: a record of one word.
pub fn site_word(s: &[u8], k: usize, rule: Rule, word: u64) -> u64
    ensures { SiteWord s.now k rule word result }
{
    if lent::LIMIT < s.len() || s.len() < k {
        return word;
    }
    let mut only = [word];
    words_sited(s, k, rule, &mut only, 0, 1, 1);
    only[0]
}

// The last word of each record there, a span of the text that was read by a rule from the place k on, put where it came from.
pub fn resite(
    s: &[u8],
    k: usize,
    rule: Rule,
    records: &mut [u64],
    at: usize,
    count: usize,
    width: usize,
)
    ensures { Resite s.now k rule count width at records.old records.new }
{
    if lent::LIMIT < s.len() || s.len() < k || width < 1 {
        return;
    }
    words_sited(s, k, rule, records, at, count, width);
}
