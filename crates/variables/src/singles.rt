// One piece: a variable with its selection, an exclusion, or a name that is none.
ghost use Rattle.std.specs.Prelude.{◌≡◌, ◌≤◌, ◌<◌, length, drop, get_or};
ghost use Rattle.variables.specs.Variables.{is_regex, split_single, at_colon};
ghost use Rattle.variables.specs.Steps.{selection_after, excluding_of, Chose, Singles, Pieced};

use ascii::Part;

// What a parser does with the names of exclusions: parse_variables keeps them as written, parse_update_targets looks them up.
#[derive(Clone, Copy)]
pub enum Exclusions {
    AsWritten,
    LookedUp,
}

// What is chosen of a variable, by its place in the piece.
#[derive(Clone, Copy)]
pub enum Chosen {
    Key(Part),
    Regex(Part),
}

// A variable as its piece names it.
#[derive(Clone, Copy)]
pub struct Target {
    pub code: u64,
    pub counts: bool,
    pub chosen: Option<Chosen>,
}

// What a record is made of: a variable, or an exclusion by the place of its text in the piece.
#[derive(Clone, Copy)]
pub enum Entry {
    Variable(Target),
    Exclusion(Part),
}

// A name that no variable has, by its places in the piece.
#[derive(Clone, Copy)]
pub struct UnknownName {
    pub begin: usize,
    pub end: usize,
}

// Starts and ends with a slash, and is longer than two bytes.
fn is_regex(t: &[u8]) -> bool
    ensures { result ≡ is_regex t.now }
{
    if t.len() <= 2 {
        return false;
    }
    t[0] == b'/' && t[t.len() - 1] == b'/'
}

// What is chosen behind a name that ends at `colon`.
fn selection_at(p: &[u8], colon: usize) -> Option<Chosen>
    requires p_nonzero { 0 < length p.now }
    requires colon_in_bounds { colon ≤ length p.now }
    ensures { Chose p.now (selection_after (drop colon p.now)) result }
{
    let past = p.len();
    if past <= colon {
        return None;
    }
    let first = colon + 1;
    if is_regex(&p[first..]) {
        return Some(Chosen::Regex(Part {
            first: first + 1,
            past: past - 1,
        }));
    }
    Some(Chosen::Key(Part { first, past }))
}

// A variable whose name starts at `first`.
fn named(p: &[u8], first: usize, counts: bool) -> Result<Entry, UnknownName>
    requires p_nonzero { 0 < length p.now }
    requires first_in_bounds { first ≤ length p.now }
    ensures { Singles p.now (split_single (at_colon (drop first p.now)) counts) result }
{
    let colon = first + ascii::first_of(&p[first..], b':');
    match names::variable_code(&p[first..colon]) {
        None => Err(UnknownName {
            begin: first,
            end: colon,
        }),
        Some(code) => {
            let chosen = selection_at(p, colon);
            Ok(Entry::Variable(Target {
                code,
                counts,
                chosen,
            }))
        }
    }
}

// A piece that `!` marks.
fn marked(p: &[u8], exclusions: Exclusions) -> Result<Entry, UnknownName>
    requires p_nonzero { 0 < length p.now }
    requires p_value { get_or p.now 0 0 ≡ 33 }
    ensures { Pieced (excluding_of exclusions) p.now result }
{
    let text = Part {
        first: 1,
        past: p.len(),
    };
    match exclusions {
        Exclusions::AsWritten => Ok(Entry::Exclusion(text)),
        Exclusions::LookedUp => {
            let end = 1 + ascii::first_of(&p[1..], b':');
            match names::variable_code(&p[1..end]) {
                Some(_) => Ok(Entry::Exclusion(text)),
                None => Err(UnknownName { begin: 1, end }),
            }
        }
    }
}

// What a piece is, by its first byte.
pub fn read_piece(p: &[u8], exclusions: Exclusions) -> Result<Entry, UnknownName>
    requires { 0 < length p.now }
    ensures { Pieced (excluding_of exclusions) p.now result }
{
    let b = p[0];
    if b == b'!' {
        return marked(p, exclusions);
    }
    if b == b'&' {
        return named(p, 1, true);
    }
    named(p, 0, false)
}
