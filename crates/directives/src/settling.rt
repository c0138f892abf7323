// What was read of a directive, put where it stands in the input: its records, or its fault.
ghost use Rattle.std.specs.Prelude.{◌≡◌, ◌*◌, ◌≤◌};
ghost use Rattle.lent.specs.Sizes.{limit, action_words};
ghost use Rattle.directives.specs.Steps.{arguments_as, taken_from};
ghost use Rattle.directives.specs.Settling.{Stand, list_found, Heard, Listing, list_moved, list_word, Settled, span_moved, fault_moved};

use crate::arguments::{Arguments, take_arguments};
use crate::parts::{Entry, Tally};
use crate::sites::{site_records, site_span};
use crate::{ArgumentFault, Fault};
use ascii::Part;
use lexer::Cursor;
use places::Rule;

// Where a list of actions stands: its token in the input, and its text in scratch from `first` up to `past`.
#[derive(Clone, Copy)]
pub struct Listed {
    pub token: Part,
    pub first: usize,
    pub past: usize,
}

// The list of actions is the only argument, or the third.
fn list_of(a: Arguments, name: usize) -> Option<Listed>
    ensures { result ≡ list_found a name }
{
    if a.count == 1 {
        return Some(Listed {
            token: a.first,
            first: name,
            past: a.one,
        });
    }
    if 2 < a.count {
        return Some(Listed {
            token: a.third,
            first: a.two,
            past: a.three,
        });
    }
    None
}

// The records of a list of actions. Where it was shorter when it was normalised, its text is taken once more, into scratch.
fn settle_list(
    s: &[u8],
    from: Cursor,
    name: usize,
    list: Listed,
    shrunk: usize,
    scratch: &mut [u8],
    records: &mut [u64],
    place: usize,
    count: usize,
)
    requires { Heard s.now from name scratch.old × Listing s.now from name list × (place ≤ limit) }
    ensures { records.new ≡ list_moved s.now from list.token shrunk count (place * action_words) records.old }
{
    let at = place * lent::ACTION_WORDS;
    if 0 < shrunk {
        take_arguments(s, from, from.place, scratch, name);
        places::resite(
            &scratch[list.first..list.past],
            0,
            Rule::Joined,
            records,
            at,
            count,
            lent::ACTION_WORDS,
        );
    }
    site_records(s, list.token, records, at, count, lent::ACTION_WORDS);
}

// The span of a piece of such a list.
fn settle_span(
    s: &[u8],
    from: Cursor,
    name: usize,
    list: Listed,
    scratch: &mut [u8],
    span: u64,
) -> u64
    requires { Heard s.now from name scratch.old × Listing s.now from name list }
    ensures { result ≡ list_word s.now from list.token span }
{
    take_arguments(s, from, from.place, scratch, name);
    let text = &scratch[list.first..list.past];
    let inner = places::site_word(text, 0, Rule::Joined, span);
    site_span(s, list.token, inner)
}

// The records of what was read of a directive.
pub fn settle(
    s: &[u8],
    from: Cursor,
    name: usize,
    a: Arguments,
    scratch: &mut [u8],
    variables: &mut [u64],
    actions: &mut [u64],
    t: Tally,
    e: Entry,
)
    requires heard { Heard s.now from name scratch.old × (a ≡ arguments_as name from.place (taken_from s.now from)) × Stand s.now a }
    requires variables_le_limit { (t.variables ≤ limit) × (t.actions ≤ limit) }
    ensures { Settled s.now from a name t e variables.old variables.new actions.old actions.new }
{
    if 0 < a.count {
        let at = t.variables * lent::VARIABLE_WORDS;
        site_records(s, a.first, variables, at, e.variables, lent::VARIABLE_WORDS);
    }
    if let Some(list) = list_of(a, name) {
        settle_list(
            s, from, name, list, e.shrunk, scratch, actions, t.actions, e.actions,
        );
    }
}

// The span of a refused piece, or of an operator's name.
fn span_moved(
    s: &[u8],
    from: Cursor,
    name: usize,
    a: Arguments,
    scratch: &mut [u8],
    why: ArgumentFault,
    span: u64,
) -> u64
    requires { Heard s.now from name scratch.old × (a ≡ arguments_as name from.place (taken_from s.now from)) × Stand s.now a }
    ensures { result ≡ span_moved s.now from a name why span }
{
    match why {
        ArgumentFault::UnknownVariable if 0 < a.count => site_span(s, a.first, span),
        ArgumentFault::UnknownOperator if 1 < a.count => site_span(s, a.second, span),
        ArgumentFault::UnknownVariable | ArgumentFault::UnknownOperator => span,
        ArgumentFault::UnknownAction | ArgumentFault::BadArgument(_) => match list_of(a, name) {
            Some(list) => settle_span(s, from, name, list, scratch, span),
            None => span,
        },
    }
}

// A fault of what was read of a directive.
pub fn settle_fault(
    s: &[u8],
    from: Cursor,
    name: usize,
    a: Arguments,
    scratch: &mut [u8],
    f: Fault,
) -> Fault
    requires { Heard s.now from name scratch.old × (a ≡ arguments_as name from.place (taken_from s.now from)) × Stand s.now a }
    ensures { result ≡ fault_moved s.now from a name f }
{
    match f {
        Fault::Line { .. } => f,
        Fault::Argument {
            why,
            line,
            at,
            len,
            span,
        } => {
            let span = span_moved(s, from, name, a, scratch, why, span);
            Fault::Argument {
                why,
                line,
                at,
                len,
                span,
            }
        }
    }
}
