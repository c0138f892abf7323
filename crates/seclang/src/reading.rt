// The readers.
ghost use Rattle.std.specs.Prelude.{◌≡◌, length};
ghost use Rattle.lexer.specs.Cursors.{cursor};
ghost use Rattle.actions.specs.Promises.{setvar_outcome};
ghost use Rattle.variables.specs.Promises.{variables_outcome, update_outcome};
ghost use Rattle.operators.specs.Promises as Operating;
ghost use Rattle.directives.specs.Promises.{lent_of};
ghost use Rattle.seclang.specs.Codes.{version_of};
ghost use Rattle.seclang.specs.Told.{Told};
ghost use Rattle.seclang.specs.Readers.{Steps, Fills, Lexes, FillsActions, FillsDirectives};

use crate::telling::{
    tell_acted, tell_directed, tell_operated, tell_reading, tell_step, tell_targeted,
};
use directives::Version;
use lexer::{Column, Cursor, Line};

pub fn seclang_next_token(
    input: &[u8],
    place: usize,
    line: usize,
    column: usize,
    mark: bool,
    text: &mut [u8],
    values: &mut [u64],
) -> u64
    ensures { Steps input.now (cursor place line column mark) text.old text.new values.old values.new result }
{
    let from = Cursor {
        place,
        line: Line(line),
        column: Column(column),
        mark,
    };
    tell_step(lexer::next_token(input, from, text), values)
}

pub fn seclang_tokens(input: &[u8], text: &mut [u8], records: &mut [u64], values: &mut [u64]) -> u64
    ensures { Lexes input.now text.old text.new records.old records.new values.old values.new result }
{
    tell_reading(lexer::tokens(input, text, records), values)
}

pub fn seclang_plain_tokens(
    input: &[u8],
    text: &mut [u8],
    records: &mut [u64],
    values: &mut [u64],
) -> u64
    ensures { Lexes input.now text.old text.new records.old records.new values.old values.new result }
{
    tell_reading(plain::plain_tokens(input, text, records), values)
}

pub fn seclang_parse_actions(
    input: &[u8],
    text: &mut [u8],
    scratch: &mut [u8],
    records: &mut [u64],
    values: &mut [u64],
) -> u64
    ensures { FillsActions input.now text.old text.new scratch.old scratch.new records.old records.new values.old values.new result }
{
    tell_acted(
        actions::parse_actions(input, text, scratch, records),
        values,
    )
}

pub fn seclang_parse_setvar(
    input: &[u8],
    text: &mut [u8],
    records: &mut [u64],
    values: &mut [u64],
) -> u64
    ensures { Fills (setvar_outcome input.now (length text.old) (length records.old)) text.old text.new records.old records.new values.old values.new result }
{
    tell_acted(actions::parse_setvar(input, text, records), values)
}

pub fn seclang_parse_variables(
    input: &[u8],
    text: &mut [u8],
    records: &mut [u64],
    values: &mut [u64],
) -> u64
    ensures { Fills (variables_outcome input.now (length text.old) (length records.old)) text.old text.new records.old records.new values.old values.new result }
{
    tell_targeted(variables::parse_variables(input, text, records), values)
}

pub fn seclang_parse_update_targets(
    input: &[u8],
    text: &mut [u8],
    records: &mut [u64],
    values: &mut [u64],
) -> u64
    ensures { Fills (update_outcome input.now (length text.old) (length records.old)) text.old text.new records.old records.new values.old values.new result }
{
    tell_targeted(
        variables::parse_update_targets(input, text, records),
        values,
    )
}

#[tactic(auto, using(crate::proofs::ToldLaws::near_name))]
pub fn seclang_parse_operator(input: &[u8], values: &mut [u64]) -> u64
    ensures { Told (Operating.given_by input.now (Operating.operator_outcome input.now)) values.old values.new result }
{
    tell_operated(operators::parse_operator(input), values)
}

fn version_of(from_2_7: bool) -> Version
    ensures { result ≡ version_of from_2_7 }
{
    if from_2_7 {
        Version::TwoSeven
    } else {
        Version::TwoSix
    }
}

pub fn seclang_directives(
    input: &[u8],
    from_2_7: bool,
    text: &mut [u8],
    scratch: &mut [u8],
    directives: &mut [u64],
    variables: &mut [u64],
    actions: &mut [u64],
    values: &mut [u64],
) -> u64
    ensures { FillsDirectives (version_of from_2_7) input.now (lent_of text.old scratch.old directives.old variables.old actions.old) (lent_of text.new scratch.new directives.new variables.new actions.new) values.old values.new result }
{
    let version = version_of(from_2_7);
    tell_directed(
        directives::directives(
            input, version, text, scratch, directives, variables, actions,
        ),
        values,
    )
}
