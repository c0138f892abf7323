// What a byte is to the lexer, and the line ends behind a backslash.
ghost use Rattle.std.specs.Prelude.{◌≡◌, ◌≤◌, length, drop};
ghost use Rattle.lexer.specs.Bytes.{class};
ghost use Rattle.lexer.specs.Rules.{line_end};

// The bytes that rules treat apart, told once: LF; CR; tab and space; VT and FF; #; both quotation marks; backslash.
#[derive(Clone, Copy)]
pub enum Class {
    Feed,
    Return,
    Gap,
    Upright,
    Hash,
    Quote,
    Slash,
    Other,
}

#[tactic(auto, unfolding(crate::specs::Bytes::class))]
pub fn class_of(b: u8) -> Class
    ensures { result ≡ class b }
{
    match b {
        b'\t' | b' ' => Class::Gap,
        b'\n' => Class::Feed,
        b'\x0b'..=b'\x0c' => Class::Upright,
        b'\r' => Class::Return,
        b'"' | b'\'' => Class::Quote,
        b'#' => Class::Hash,
        b'\\' => Class::Slash,
        _ => Class::Other,
    }
}

// How many bytes of a line end stand at a place: LF, or CR LF.
#[tactic(auto, using(crate::proofs::LineEndLaws::none_past, crate::proofs::LineEndLaws::feed_one, crate::proofs::LineEndLaws::none_other, crate::proofs::LineEndLaws::none_end, crate::proofs::LineEndLaws::none_behind, crate::proofs::LineEndLaws::pair_two))]
pub fn line_end(s: &[u8], at: usize) -> usize
    requires { at ≤ length s.now }
    ensures { result ≡ line_end (drop at s.now) }
{
    if at < s.len() && s[at] == b'\n' {
        return 1;
    }
    if at + 1 < s.len() && s[at] == b'\r' && s[at + 1] == b'\n' {
        return 2;
    }
    0
}
