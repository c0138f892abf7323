// A directive's record, and the two endings: a fault, and all read.
ghost use Rattle.std.specs.Prelude.{◌≡◌, ◌*◌, ◌≤◌};
ghost use Rattle.lent.specs.Sizes.{limit, directive_words};
ghost use Rattle.lent.specs.Buffers.{stored};
ghost use Rattle.directives.specs.Promises.{leaves_name, naming};
ghost use Rattle.directives.specs.Steps.{entry_record, lacks_for, cleared_from, Refuses, Finishes};

use crate::parts::{Entry, Tally};
use crate::{ArgumentFault, DirectivesError, Fault, Read};

// The record of a directive of that line, from `first` up to `past` in the input, where it fits.
pub fn put_directive(
    records: &mut [u64],
    line: usize,
    first: usize,
    past: usize,
    t: Tally,
    e: Entry,
)
    requires { (first ≤ past) × ((past ≤ limit) × (t.directives ≤ limit)) }
    ensures { records.new ≡ stored records.old (t.directives * directive_words) (entry_record line first past t e) }
{
    let record = [
        u64::from(e.kind),
        line as u64,
        lent::span(first as u32, (past - first) as u32),
        e.name,
        e.negated,
        e.operator,
        e.argument,
        t.variables as u64,
        e.variables as u64,
        t.actions as u64,
        e.actions as u64,
    ];
    lent::store(records, t.directives * lent::DIRECTIVE_WORDS, &record);
}

fn leaves_name(why: ArgumentFault) -> bool
    ensures { result ≡ leaves_name why }
{
    !matches!(why, ArgumentFault::UnknownOperator)
}

// Whether a fault leaves a name in the text buffer.
fn is_named(f: Fault) -> bool
    ensures { result ≡ naming f }
{
    match f {
        Fault::Line { .. } => false,
        Fault::Argument { why, .. } => leaves_name(why),
    }
}

// All that a fault leaves is zero, but for the name where it has one.
pub fn refuse(
    f: Fault,
    text: &mut [u8],
    records: &mut [u64],
    variables: &mut [u64],
    actions: &mut [u64],
)
    ensures { Refuses f text.old text.new records.old records.new variables.old variables.new actions.old actions.new }
{
    records.fill(0);
    variables.fill(0);
    actions.fill(0);
    if !is_named(f) {
        text.fill(0);
    }
}

// Whether one of the three record buffers, of so many words, has no room.
fn lacks_room(records: usize, variables: usize, actions: usize, t: Tally) -> bool
    ensures { result ≡ lacks_for records variables actions t }
{
    lent::room(records, lent::DIRECTIVE_WORDS) < t.directives
        || lent::room(variables, lent::VARIABLE_WORDS) < t.variables
        || lent::room(actions, lent::ACTION_WORDS) < t.actions
}

// Zeros beyond what was written.
fn clear_beyond(bytes: &mut [u8], used: usize)
    ensures { bytes.new ≡ cleared_from used bytes.old }
{
    if used < bytes.len() {
        bytes[used..].fill(0);
    }
}

// All is read: zeros beyond what was written, or where the records do not fit all zero.
pub fn finish(
    text: &mut [u8],
    records: &mut [u64],
    variables: &mut [u64],
    actions: &mut [u64],
    t: Tally,
) -> Result<Read, DirectivesError>
    ensures { Finishes t text.old text.new records.old records.new variables.old variables.new actions.old actions.new result }
{
    if lacks_room(records.len(), variables.len(), actions.len(), t) {
        text.fill(0);
        records.fill(0);
        variables.fill(0);
        actions.fill(0);
        return Err(DirectivesError::NoRoom {
            directives: t.directives,
            variables: t.variables,
            actions: t.actions,
        });
    }
    let words = t.directives * lent::DIRECTIVE_WORDS;
    records[words..].fill(0);
    let listed = t.variables * lent::VARIABLE_WORDS;
    variables[listed..].fill(0);
    let acted = t.actions * lent::ACTION_WORDS;
    actions[acted..].fill(0);
    clear_beyond(text, t.text);
    Ok(Read {
        directives: t.directives,
        variables: t.variables,
        actions: t.actions,
        text: t.text,
    })
}
