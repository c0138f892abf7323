// The two parsers, over one function that is told what to do with the names of exclusions.
ghost use Rattle.std.specs.Prelude.{◌≡◌, length};
ghost use Rattle.variables.specs.Promises.{Meets, ParseVariables, ParseUpdateTargets};
ghost use Rattle.variables.specs.Cores.{ReadTargets};
ghost use Rattle.variables.specs.Steps.{kept_count, outcome_of};

use crate::singles::Exclusions;
use crate::writing::{add_exclusions, scan};
use crate::{Reached, Read, TargetsError, VariablesError};
use lent::GateError;

// How many exclusions are kept: parse_variables hangs them on its variables, so with none of these nothing is left.
fn kept(exclusions: Exclusions, variables: usize, excluded: usize) -> usize
    ensures { result ≡ kept_count exclusions variables excluded }
{
    match exclusions {
        Exclusions::AsWritten if variables == 0 => 0,
        _ => excluded,
    }
}

// Reads a list of any bytes without the gate and without clearing, its texts from `offset` and its records from `place` on:
// the variables, and behind them the exclusions that are kept. A name that is none leaves both buffers as row 7 states.
pub fn read_targets(
    s: &[u8],
    exclusions: Exclusions,
    text: &mut [u8],
    offset: usize,
    records: &mut [u64],
    place: usize,
) -> Result<Reached, TargetsError>
    ensures { ReadTargets exclusions s.now offset place text.old text.new records.old records.new result }
{
    if !lent::starts(s.len(), text.len(), offset, place) {
        return Err(TargetsError::Unfit);
    }
    match scan(s, exclusions, text, offset, records, place) {
        Err(unknown) => {
            let name = &s[unknown.begin..unknown.end];
            lent::refuse_piece(text, records, name);
            Err(TargetsError::Unknown {
                piece: unknown.piece,
                name: name.len(),
                first: unknown.first,
                past: unknown.past,
            })
        }
        Ok(tally) => {
            let variables = tally.variables;
            let kept = kept(exclusions, variables, tally.excluded);
            let past = add_exclusions(s, kept, text, tally.used, records, place + variables);
            Ok(Reached {
                count: variables + kept,
                offset: past,
            })
        }
    }
}

// A list after the checks 1, 2 and 3; past these it is read from 0 on, so `Unfit` does not come.
fn parse(
    input: &[u8],
    exclusions: Exclusions,
    text: &mut [u8],
    records: &mut [u64],
) -> Result<Read, VariablesError>
    ensures { Meets (outcome_of exclusions input.now (length text.old) (length records.old)) text.old text.new records.old records.new result }
{
    lent::admit(input, text.len(), input.len())?;
    match read_targets(input, exclusions, text, 0, records, 0) {
        Err(TargetsError::Unfit) => Err(VariablesError::Gate(GateError::Short)),
        Err(
            TargetsError::Unknown {
                piece,
                name,
                first,
                past,
            },
        ) => Err(VariablesError::Unknown {
            piece,
            name,
            span: lent::span(first as u32, (past - first) as u32),
        }),
        Ok(
            Reached {
                count,
                offset: used,
            },
        ) => {
            if lent::finish(text, used, records, count, lent::VARIABLE_WORDS) {
                return Err(VariablesError::NoRoom(count));
            }
            Ok(Read { count, text: used })
        }
    }
}

// The Rust's parse_variables: exclusions as written, on the variables of the list.
pub fn parse_variables(
    input: &[u8],
    text: &mut [u8],
    records: &mut [u64],
) -> Result<Read, VariablesError>
    ensures { ParseVariables input.now text.old text.new records.old records.new result }
{
    parse(input, Exclusions::AsWritten, text, records)
}

// The Rust's parse_update_targets: the names of exclusions looked up, and kept with no variable too.
pub fn parse_update_targets(
    input: &[u8],
    text: &mut [u8],
    records: &mut [u64],
) -> Result<Read, VariablesError>
    ensures { ParseUpdateTargets input.now text.old text.new records.old records.new result }
{
    parse(input, Exclusions::LookedUp, text, records)
}
