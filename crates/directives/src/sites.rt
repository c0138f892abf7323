// Spans in an argument's text put where they stand in the input.
ghost use Rattle.std.specs.Prelude.{◌≡◌, ◌≤◌};
ghost use Rattle.places.specs.Moves.{last_changed};
ghost use Rattle.directives.specs.Settling.{Stands, token_word};

use ascii::Part;
use places::Rule;
use single_action::is_quotation;

// The last words of records, spans of the text of the token there, put into the input.
pub fn site_records(
    s: &[u8],
    token: Part,
    records: &mut [u64],
    at: usize,
    count: usize,
    width: usize,
)
    requires { Stands s.now token × (1 ≤ width) }
    ensures { records.new ≡ last_changed (token_word s.now token) width count at records.old }
{
    let first = token.first;
    let past = token.past;
    if is_quotation(s[first]) {
        places::resite(
            &s[..past],
            first + 1,
            Rule::Quoted,
            records,
            at,
            count,
            width,
        );
        return;
    }
    places::resite(&s[..past], first, Rule::Word, records, at, count, width);
}

// One such span.
pub fn site_span(s: &[u8], token: Part, span: u64) -> u64
    requires { Stands s.now token }
    ensures { result ≡ token_word s.now token span }
{
    let first = token.first;
    let past = token.past;
    if is_quotation(s[first]) {
        return places::site_word(&s[..past], first + 1, Rule::Quoted, span);
    }
    places::site_word(&s[..past], first, Rule::Word, span)
}
