// Action lists: parse_actions, and parse_setvar alone.
ghost use Rattle.std.specs.Prelude.{◌≡◌, true, ◌≤◌, length};
ghost use Rattle.ascii.specs.Fold.{lowered};
ghost use Rattle.lent.specs.Buffers.{zeros, padded};
ghost use Rattle.lent.specs.Endings.{starts};
ghost use Rattle.single_action.specs.Table.{row_at};
ghost use Rattle.actions.specs.Normal.{normalised};
ghost use Rattle.actions.specs.Listing.{badly, strangely, Listed, Settles, Ended};
ghost use Rattle.actions.specs.Cores.{ReadActions};
ghost use Rattle.actions.specs.Promises.{ParseActions, SetvarAlone};

use crate::cutting::part_end;
use crate::normalising::put_normal;
use crate::writing::{put_plan, span_of, store_lowered};
use crate::{ActionsError, PieceError, Reached, Read};
use lent::{Flaw, GateError};
use places::Rule;
use single_action::{PlanError, put_name, read_setvar, read_single};

// A piece whose argument its action does not take: both buffers hold the action's name as the Rust spells it, and zeros.
fn refuse_row(
    flaw: Flaw,
    row: usize,
    piece: usize,
    span: u64,
    text: &mut [u8],
    records: &mut [u64],
) -> PieceError
    requires { length (row_at row).name ≤ length text.old }
    ensures text_after { text.new ≡ padded (length text.old) (row_at row).name }
    ensures records_after { records.new ≡ zeros (length records.old) }
    ensures value { result ≡ badly flaw piece (length (row_at row).name) span }
{
    records.fill(0);
    text.fill(0);
    let name = put_name(row, text);
    PieceError::Bad {
        flaw,
        piece,
        name,
        span,
    }
}

// And one whose name is no action's: the name in small letters, and zeros.
fn refuse_name(
    name: &[u8],
    piece: usize,
    span: u64,
    text: &mut [u8],
    records: &mut [u64],
) -> PieceError
    requires { length name.now ≤ length text.old }
    ensures text_after { text.new ≡ padded (length text.old) (lowered name.now) }
    ensures records_after { records.new ≡ zeros (length records.old) }
    ensures value { result ≡ strangely piece (length name.now) span }
{
    records.fill(0);
    text.fill(0);
    store_lowered(text, 0, name);
    PieceError::Unknown {
        piece,
        name: name.len(),
        span,
    }
}

// Writes every action's texts from `offset` on, and its record, the first behind `place` others, where that fits; stops at the first bad piece.
fn write_actions(
    s: &[u8],
    text: &mut [u8],
    offset: usize,
    records: &mut [u64],
    place: usize,
) -> Result<Reached, PieceError>
    requires { starts (length s.now) (length text.old) offset place ≡ true }
    ensures { Listed s.now offset place text.old text.new records.old records.new result }
{
    let mut from = 0;
    let mut used = offset;
    let mut count = 0;
    let mut id = false;
    let mut chain = false;
    let mut at = place * lent::ACTION_WORDS;
    // piece after piece: a list ends behind a part, and an empty part has no record
    loop {
        let end = part_end(s, from);
        let part = ascii::trimmed(&s[from..end]);
        let first = from + part.first;
        let past = from + part.past;
        if first < past {
            let piece = &s[first..past];
            let span = span_of(first, past);
            match read_single(piece) {
                Ok(plan) => {
                    used = put_plan(piece, plan, span, text, used, records, at);
                    at += lent::ACTION_WORDS;
                    count += 1;
                    id |= plan.code == records::ID;
                    chain |= plan.code == records::CHAIN;
                }
                Err(PlanError::Bad { flaw, row }) => {
                    return Err(refuse_row(flaw, row, count, span, text, records));
                }
                Err(PlanError::Unknown(name)) => {
                    return Err(refuse_name(&piece[..name], count, span, text, records));
                }
            }
        }
        if s.len() <= end {
            return Ok(Reached {
                count,
                offset: used,
                id,
                chain,
            });
        }
        from = end + 1;
    }
}

// A normalised text read into lent buffers from an offset and a count of records on, with no gate before it and nothing cleared behind it.
pub fn read_actions(
    s: &[u8],
    text: &mut [u8],
    offset: usize,
    records: &mut [u64],
    place: usize,
) -> Result<Reached, PieceError>
    ensures { ReadActions s.now offset place text.old text.new records.old records.new result }
{
    if lent::starts(s.len(), text.len(), offset, place) {
        return write_actions(s, text, offset, records, place);
    }
    Err(PieceError::Unfit)
}

// The ending that every reader has, as an answer.
fn finish(
    text: &mut [u8],
    used: usize,
    records: &mut [u64],
    count: usize,
) -> Result<Read, ActionsError>
    ensures { Ended used count text.old text.new records.old records.new result }
{
    if lent::finish(text, used, records, count, lent::ACTION_WORDS) {
        return Err(ActionsError::NoRoom(count));
    }
    Ok(Read { count, text: used })
}

// The normalised text at the front of the scratch buffer, zeros beyond it, and its length.
fn fill_scratch(input: &[u8], scratch: &mut [u8]) -> usize
    requires { length input.now ≤ length scratch.old }
    ensures scratch_after { scratch.new ≡ padded (length scratch.old) (normalised input.now) }
    ensures value { result ≡ length (normalised input.now) }
{
    let n = put_normal(input, scratch);
    scratch[n..].fill(0);
    n
}

// Spans in the normalised text, of n bytes, put into the input; where nothing was taken out nothing moves.
fn settle(input: &[u8], n: usize, records: &mut [u64], count: usize)
    ensures { Settles input.now n count records.old records.new }
{
    if input.len() <= n {
        return;
    }
    places::resite(
        input,
        0,
        Rule::Joined,
        records,
        0,
        count,
        lent::ACTION_WORDS,
    );
}

// A list of actions, after the checks 1, 2 and 3. The scratch buffer holds the normalised text.
pub fn parse_actions(
    input: &[u8],
    text: &mut [u8],
    scratch: &mut [u8],
    records: &mut [u64],
) -> Result<Read, ActionsError>
    ensures { ParseActions input.now text.old text.new scratch.old scratch.new records.old records.new result }
{
    let least = text.len().min(scratch.len());
    lent::admit(input, least, input.len())?;
    let n = fill_scratch(input, scratch);
    match write_actions(&scratch[..n], text, 0, records, 0) {
        Err(
            PieceError::Bad {
                flaw,
                piece,
                name,
                span,
            },
        ) => Err(ActionsError::BadArgument {
            flaw,
            piece,
            name,
            span: places::site_word(input, 0, Rule::Joined, span),
        }),
        Err(PieceError::Unknown { piece, name, span }) => Err(ActionsError::UnknownAction {
            piece,
            name,
            span: places::site_word(input, 0, Rule::Joined, span),
        }),
        Ok(Reached { count, offset, .. }) => {
            settle(input, n, records, count);
            finish(text, offset, records, count)
        }
        // not past the gate
        Err(PieceError::Unfit) => Err(ActionsError::Gate(GateError::Short)),
    }
}

// A setvar specification alone, which is not normalised: one record with the code of SetVar.
pub fn parse_setvar(
    input: &[u8],
    text: &mut [u8],
    records: &mut [u64],
) -> Result<Read, ActionsError>
    ensures { SetvarAlone input.now text.old text.new records.old records.new result }
{
    lent::admit(input, text.len(), input.len() + 3)?;
    let plan = read_setvar(input);
    let part = ascii::trimmed(input);
    let span = span_of(part.first, part.past);
    let used = put_plan(input, plan, span, text, 0, records, 0);
    finish(text, used, records, 1)
}
