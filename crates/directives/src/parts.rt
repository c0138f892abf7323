// The parts of a directive, each read by its parser's core into lent memory, from what is reached there on.
ghost use Rattle.std.specs.Prelude.{◌≡◌, ◌+◌, ◌-◌, ◌≤◌, true, length};
ghost use Rattle.lent.specs.Sizes.{limit, span_word};
ghost use Rattle.lent.specs.Buffers.{stored};
ghost use Rattle.lexer.specs.Steps.{part};
ghost use Rattle.lent.specs.Endings.{starts};
ghost use Rattle.directives.specs.Directives.{variables_read, operator_read, actions_read};
ghost use Rattle.directives.specs.Steps.{empty_entry, with_name, shrunk_by, AddsVariables, AddsOperator, AddsActions, ListRead};

use crate::shapes::Shape;
use crate::{ArgumentFault, Fault};
use actions::{PieceError, Reached};
use variables::{Exclusions, TargetsError};

// How many directives, bytes of text and records of the other two kinds are reached in lent memory, and whether the next rule continues
// one.
#[derive(Clone, Copy)]
pub struct Tally {
    pub directives: usize,
    pub text: usize,
    pub variables: usize,
    pub actions: usize,
    pub chained: bool,
}

// What a directive's record has of its own, the offset past its texts, by how much its list of actions was shorter when it was
// normalised, and whether an id and `chain` are in that list.
#[derive(Clone, Copy)]
pub struct Entry {
    pub kind: Shape,
    pub name: u64,
    pub negated: u64,
    pub operator: u64,
    pub argument: u64,
    pub variables: usize,
    pub actions: usize,
    pub text: usize,
    pub shrunk: usize,
    pub id: bool,
    pub chain: bool,
}

// An entry of that kind with nothing read yet.
pub fn empty_entry(kind: Shape, text: usize) -> Entry
    ensures { result ≡ empty_entry kind text }
{
    Entry {
        kind,
        name: 0,
        negated: 0,
        operator: 0,
        argument: 0,
        variables: 0,
        actions: 0,
        text,
        shrunk: 0,
        id: false,
        chain: false,
    }
}

// A name behind what is reached.
pub fn add_name(e: Entry, name: &[u8], text: &mut [u8]) -> Entry
    requires { (e.text ≤ limit) × (length name.now ≤ limit) }
    ensures { (result ≡ with_name e (span_word e.text (length name.now)) (e.text + length name.now)) × (text.new ≡ stored text.old e.text name.now) }
{
    let at = e.text;
    let len = name.len();
    lent::store(text, at, name);
    Entry {
        name: lent::span(at as u32, len as u32),
        text: at + len,
        ..e
    }
}

// The variables of an argument behind what is reached.
pub fn add_variables(
    e: Entry,
    line: usize,
    s: &[u8],
    text: &mut [u8],
    records: &mut [u64],
    place: usize,
) -> Result<Entry, Fault>
    requires { starts (length s.now) (length text.old) e.text place ≡ true }
    ensures { AddsVariables e line place text.old text.new records.old records.new (variables_read s.now) result }
{
    match variables::read_targets(s, Exclusions::AsWritten, text, e.text, records, place) {
        Ok(read) => Ok(Entry {
            variables: read.count,
            text: read.offset,
            ..e
        }),
        Err(
            TargetsError::Unknown {
                piece,
                name,
                first,
                past,
            },
        ) => {
            let span = lent::span(first as u32, (past - first) as u32);
            Err(Fault::Argument {
                why: ArgumentFault::UnknownVariable,
                line,
                at: piece,
                len: name,
                span,
            })
        }
        // it starts there
        Err(TargetsError::Unfit) => unreachable!(),
    }
}

// The operator of an argument, whose own argument goes behind what is reached.
pub fn add_operator(e: Entry, line: usize, s: &[u8], text: &mut [u8]) -> Result<Entry, Fault>
    requires { (e.text + length s.now ≤ length text.old) × (e.text + length s.now ≤ limit) }
    ensures { AddsOperator e line text.old text.new (operator_read s.now) result }
{
    match operators::operator_in(s) {
        Ok(operator) => {
            let at = e.text;
            let len = operator.len;
            let end = operator.place + len;
            lent::store(text, at, &s[operator.place..end]);
            Ok(Entry {
                negated: u64::from(operator.negated),
                operator: operator.name,
                argument: lent::span(at as u32, len as u32),
                text: at + len,
                ..e
            })
        }
        Err(unknown) => {
            let span = lent::span(unknown.place as u32, unknown.len as u32);
            Err(Fault::Argument {
                why: ArgumentFault::UnknownOperator,
                line,
                at: unknown.place,
                len: unknown.len,
                span,
            })
        }
    }
}

// What an action list comes to, and by how much it was shorter when it was normalised.
#[derive(Clone, Copy)]
struct List {
    reached: Reached,
    shrunk: usize,
}

// The action list in scratch from `first` up to `past`, its texts from `used` and its records from `place` on.
// It is set down behind the texts, where it fits, so that it can be normalised into scratch.
fn read_list(
    scratch: &mut [u8],
    first: usize,
    past: usize,
    text: &mut [u8],
    used: usize,
    records: &mut [u64],
    place: usize,
) -> Result<List, PieceError>
    requires first_le_past { (first ≤ past) × (past ≤ length scratch.old) }
    requires place_value { starts (past - first) (length text.old) used place ≡ true }
    ensures { ListRead (part scratch.old first past) used place text.old text.new records.old records.new result }
{
    lent::store(text, used, &scratch[first..past]);
    let end = used + (past - first);
    // scratch is as long as the list at least
    let n = actions::normalise(&text[used..end], scratch).unwrap();
    let reached = actions::read_actions(&scratch[..n], text, used, records, place)?;
    let shrunk = past - first - n;
    Ok(List { reached, shrunk })
}

// The actions of such a list behind what is reached.
pub fn add_actions(
    e: Entry,
    line: usize,
    scratch: &mut [u8],
    first: usize,
    past: usize,
    text: &mut [u8],
    records: &mut [u64],
    place: usize,
) -> Result<Entry, Fault>
    requires first_le_past { (first ≤ past) × (past ≤ length scratch.old) }
    requires place_value { starts (past - first) (length text.old) e.text place ≡ true }
    ensures { AddsActions e line place text.old text.new records.old records.new (actions_read (part scratch.old first past)) (shrunk_by (part scratch.old first past)) result }
{
    match read_list(scratch, first, past, text, e.text, records, place) {
        Ok(List { reached, shrunk }) => Ok(Entry {
            actions: reached.count,
            text: reached.offset,
            shrunk,
            id: reached.id,
            chain: reached.chain,
            ..e
        }),
        Err(PieceError::Unknown { piece, name, span }) => Err(Fault::Argument {
            why: ArgumentFault::UnknownAction,
            line,
            at: piece,
            len: name,
            span,
        }),
        Err(
            PieceError::Bad {
                flaw,
                piece,
                name,
                span,
            },
        ) => Err(Fault::Argument {
            why: ArgumentFault::BadArgument(flaw),
            line,
            at: piece,
            len: name,
            span,
        }),
        // it starts there
        Err(PieceError::Unfit) => unreachable!(),
    }
}
