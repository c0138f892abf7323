// Whether a selector matches an id.
use crate::hexes;
use rules::RuleIdSelector;
use std::io;

// A selector at a body's front, and what stands behind it: a byte, 0 for a single id and 1 for a range, and then start and end.
pub fn selector(body: &[u8]) -> Option<(RuleIdSelector, &[u8])> {
    let (ranged, rest) = body.split_first()?;
    let (start, rest) = hexes::first_word(rest)?;
    let (end, rest) = hexes::first_word(rest)?;
    if *ranged == 0 {
        Some((RuleIdSelector::Single(start), rest))
    } else {
        Some((RuleIdSelector::Range(start, end), rest))
    }
}

fn asked(body: &[u8]) -> Option<(RuleIdSelector, u64)> {
    let (selector, rest) = selector(body)?;
    let (id, _) = hexes::first_word(rest)?;
    Some((selector, id))
}

// The body is a selector and an id.
pub fn print_match(rt: &HostRuntime, body: &[u8]) -> io::Result<()> {
    let Some((selector, id)) = asked(body) else {
        return Ok(());
    };
    print!(rt; "{}", u8::from(selector.matches(id)))
}
