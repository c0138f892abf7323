// What a byte does to the text that is read, by rule and mode: the tables of specs/Tables, without the byte that it gives.
ghost use Rattle.std.specs.Prelude.{◌≡◌, false, []};
ghost use Rattle.lexer.specs.Rules.{line_end};
ghost use Rattle.places.specs.Tables.{line_next, plain_join, margin_join, joining, plain_word, wording, stays, stays_next, plain_quote, margin_quote, quoting_by, act};
ghost use Rattle.places.specs.Steps.{step_of};

use crate::Rule;

// Plainly; behind a backslash that gives nothing by itself; behind one that stays; behind an escaped CR; in the blanks behind an
// escaped line end.
#[derive(Clone, Copy)]
pub enum Mode {
    Plain,
    Escaped,
    Stayed,
    AfterCr,
    Margin,
}

// A byte gives nothing, one byte from its own place, or one from the place before and its own.
#[derive(Clone, Copy)]
pub enum Step {
    Pass(Mode),
    Keep(Mode),
    Turn(Mode),
}

// Whether LF or CR comes next.
#[tactic(auto, unfolding(crate::specs::Tables::line_next))]
fn line_next(rest: &[u8]) -> bool
    ensures { result ≡ line_next rest.now }
{
    matches!(rest, [b'\n' | b'\r', ..])
}

fn plain_join(b: u8, rest: &[u8]) -> Step
    ensures { result ≡ step_of (plain_join b rest.now) }
{
    if b == b'\\' && line_next(rest) {
        return Step::Pass(Mode::Escaped);
    }
    Step::Keep(Mode::Plain)
}

#[tactic(auto, unfolding(ascii::specs::Classes::white))]
fn margin_join(b: u8, rest: &[u8]) -> Step
    ensures { result ≡ step_of (margin_join b rest.now) }
{
    match b {
        b'\t' | 11..=13 | b' ' => Step::Pass(Mode::Margin),
        _ => plain_join(b, rest),
    }
}

// Line continuations taken out.
#[tactic(auto, unfolding(crate::specs::Tables::joining))]
fn join_act(mode: Mode, b: u8, rest: &[u8]) -> Step
    ensures { result ≡ step_of (joining mode b rest.now) }
{
    match mode {
        Mode::Plain | Mode::Stayed => plain_join(b, rest),
        Mode::Escaped | Mode::AfterCr if b == b'\n' => Step::Pass(Mode::Margin),
        Mode::Escaped => Step::Pass(Mode::AfterCr),
        Mode::AfterCr | Mode::Margin => margin_join(b, rest),
    }
}

// How many bytes of a line end come next: LF, or CR LF.
#[tactic(auto, unfolding(lexer::specs::Rules::line_end, lexer::specs::Rules::feed_next))]
fn line_end(rest: &[u8]) -> usize
    ensures { result ≡ line_end rest.now }
{
    match rest {
        [b'\n', ..] => 1,
        [b'\r', b'\n', ..] => 2,
        _ => 0,
    }
}

fn plain_word(b: u8, rest: &[u8]) -> Step
    ensures { result ≡ step_of (plain_word b rest.now) }
{
    if b != b'\\' {
        return Step::Keep(Mode::Plain);
    }
    match line_end(rest) {
        0 => Step::Keep(Mode::Plain),
        1 => Step::Pass(Mode::AfterCr),
        _ => Step::Pass(Mode::Escaped),
    }
}

// A word.
#[tactic(auto, unfolding(crate::specs::Tables::wording))]
fn word_act(mode: Mode, b: u8, rest: &[u8]) -> Step
    ensures { result ≡ step_of (wording mode b rest.now) }
{
    match mode {
        Mode::Plain | Mode::Stayed | Mode::Margin => plain_word(b, rest),
        Mode::Escaped => Step::Pass(Mode::AfterCr),
        Mode::AfterCr => Step::Pass(Mode::Plain),
    }
}

// Whether an escape of this byte keeps its backslash.
#[tactic(auto, unfolding(crate::specs::Tables::stays, lexer::specs::Rules::unescaped))]
fn stays_before(b: u8) -> bool
    ensures { result ≡ stays b }
{
    !matches!(b, b'\n' | b'\r' | b'"' | b'\'' | b'\\' | b'n' | b'r' | b't')
}

#[tactic(auto, unfolding(crate::specs::Tables::stays_next))]
fn stays_next(rest: &[u8]) -> bool
    ensures { result ≡ stays_next false rest.now }
{
    match rest {
        [b, ..] => stays_before(*b),
        [] => false,
    }
}

fn plain_quote(b: u8, rest: &[u8]) -> Step
    ensures { result ≡ step_of (plain_quote false b rest.now) }
{
    if b != b'\\' {
        return Step::Keep(Mode::Plain);
    }
    if stays_next(rest) {
        return Step::Keep(Mode::Stayed);
    }
    Step::Pass(Mode::Escaped)
}

fn margin_quote(b: u8, rest: &[u8]) -> Step
    ensures { result ≡ step_of (margin_quote false b rest.now) }
{
    match b {
        b'\t' | b' ' => Step::Pass(Mode::Margin),
        _ => plain_quote(b, rest),
    }
}

#[tactic(auto, unfolding(crate::specs::Tables::quoting_by))]
fn escaped_quote(b: u8) -> Step
    ensures { result ≡ step_of (quoting_by false Mode.Escaped b []) }
{
    match b {
        b'\n' => Step::Pass(Mode::Margin),
        b'\r' => Step::Pass(Mode::AfterCr),
        _ => Step::Turn(Mode::Plain),
    }
}

// A quoted text.
#[tactic(auto, unfolding(crate::specs::Tables::quoting_by))]
fn quote_act(mode: Mode, b: u8, rest: &[u8]) -> Step
    ensures { result ≡ step_of (quoting_by false mode b rest.now) }
{
    match mode {
        Mode::Plain => plain_quote(b, rest),
        Mode::Escaped => escaped_quote(b),
        Mode::Stayed => Step::Keep(Mode::Plain),
        Mode::AfterCr if b == b'\n' => Step::Pass(Mode::Margin),
        Mode::AfterCr | Mode::Margin => margin_quote(b, rest),
    }
}

// What a byte does, by what follows it.
pub fn act_of(rule: Rule, mode: Mode, b: u8, rest: &[u8]) -> Step
    ensures { result ≡ step_of (act rule mode b rest.now) }
{
    match rule {
        Rule::Joined => join_act(mode, b, rest),
        Rule::Word => word_act(mode, b, rest),
        Rule::Quoted => quote_act(mode, b, rest),
    }
}
