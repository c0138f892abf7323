// A word, and whether it is a directive.
ghost use Rattle.std.specs.Prelude.{◌≡◌, ◌+◌, ◌≤◌, length};
ghost use Rattle.lexer.specs.Steps.{Ran, Wrote};
ghost use Rattle.lexer.specs.Rules.{word};
ghost use Rattle.lexer.specs.Tokens.{directive, word_kind};

use crate::Kind;
use crate::bytes::{Class, class_of, line_end};
use crate::moving::Run;

// Reads a word from a place in it, and writes its text at the front of `text`.
pub fn read_word(s: &[u8], from: usize, text: &mut [u8]) -> Run
    requires from_in_bounds { from ≤ length s.now }
    requires s_len_bound { length s.now ≤ from + length text.old }
    ensures ran { Ran word 0 s.now from result }
    ensures wrote { Wrote word 0 s.now from text.old text.new result }
{
    let mut at = from;
    let mut n = 0;
    let mut feeds = 0;
    let mut last = from;
    // a `while`, since a backslash with its line end is passed at once
    while at < s.len() {
        let b = s[at];
        match class_of(b) {
            Class::Other => {
                text[n] = b;
                n += 1;
                at += 1;
            }
            Class::Slash => {
                let owed = line_end(s, at + 1);
                if owed == 0 {
                    text[n] = b;
                    n += 1;
                    at += 1;
                } else {
                    at += 1 + owed;
                    feeds += 1;
                    last = at;
                }
            }
            _ => break,
        }
    }
    Run {
        past: at,
        len: n,
        feeds,
        last,
    }
}

// Whether a word names a directive, where one may stand.
pub fn is_directive(w: &[u8]) -> bool
    ensures { result ≡ directive w.now }
{
    3 <= w.len() && ascii::same_lowered(&w[..3], b"sec") || ascii::same_lowered(w, b"include")
}

// What a word is, by whether it stands at a line's start.
#[tactic(auto, unfolding(crate::specs::Tokens::word_kind))]
pub fn word_kind(mark: bool, w: &[u8]) -> Kind
    ensures { result ≡ word_kind mark w.now }
{
    if mark && is_directive(w) {
        Kind::Directive
    } else {
        Kind::Word
    }
}
