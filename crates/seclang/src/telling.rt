// The paper's number and values for each answer: the number is returned, the values are stored.
ghost use Rattle.lent.specs.Table.{given, refused};
ghost use Rattle.lexer.specs.Promises as Lexing;
ghost use Rattle.actions.specs.Promises as Acting;
ghost use Rattle.variables.specs.Promises as Targeting;
ghost use Rattle.operators.specs.Promises as Operating;
ghost use Rattle.listing.specs.Promises as Listing;
ghost use Rattle.directives.specs.Promises as Directing;
ghost use Rattle.spans.specs.Promises as Converting;
ghost use Rattle.index.specs.Promises as Indexing;
ghost use Rattle.std.specs.Prelude.{◌≡◌, ◌∷◌};
ghost use Rattle.seclang.specs.Told.{Told, NearName};

use actions::ActionsError;
use directives::{DirectivesError, Fault};
use index::{AddError, Added, Broken, Removed};
use lent::GateError;
use lexer::{Cursor, Found, Lexeme, StepError, TokensError};
use listing::ListingError;
use operators::{Operator, OperatorError};
use spans::TooFar;
use variables::VariablesError;

// A number, and its values where they fit.
pub fn tell(number: u64, words: &[u64], values: &mut [u64]) -> u64
    ensures { Told (given number words.now) values.old values.new result }
{
    lent::store(values, 0, words);
    number
}

// The numbers 1 to 3, which most readers have.
fn tell_gate(error: GateError, values: &mut [u64]) -> u64
    ensures { Told (refused (Lexing.gate_refusal error)) values.old values.new result }
{
    match error {
        GateError::TooLong => tell(1, &[lent::LIMIT as u64], values),
        GateError::NotAscii(place) => tell(2, &[place as u64], values),
        GateError::Short => tell(3, &[0], values),
    }
}

fn tell_token(t: Lexeme, values: &mut [u64]) -> u64
    ensures { Told (given 0 (1 ∷ Lexing.lexeme_values t)) values.old values.new result }
{
    let words = [
        1,
        u64::from(t.kind),
        t.line.0 as u64,
        t.column.0 as u64,
        t.first as u64,
        t.len as u64,
        t.next.place as u64,
        t.next.line.0 as u64,
        t.next.column.0 as u64,
        u64::from(t.next.mark),
    ];
    tell(0, &words, values)
}

fn tell_nothing(c: Cursor, values: &mut [u64]) -> u64
    ensures { Told (given 0 (0 ∷ Lexing.cursor_values c)) values.old values.new result }
{
    let words = [
        0,
        c.place as u64,
        c.line.0 as u64,
        c.column.0 as u64,
        u64::from(c.mark),
    ];
    tell(0, &words, values)
}

pub fn tell_step(answer: Result<Found, StepError>, values: &mut [u64]) -> u64
    ensures { Told (Lexing.step_given answer) values.old values.new result }
{
    match answer {
        Ok(Found::Token(t)) => tell_token(t, values),
        Ok(Found::Nothing(c)) => tell_nothing(c, values),
        Err(StepError::Gate(error)) => tell_gate(error, values),
        Err(StepError::BadCursor) => tell(9, &[0], values),
    }
}

pub fn tell_reading(answer: Result<lexer::Read, TokensError>, values: &mut [u64]) -> u64
    ensures { Told (Lexing.answer_given answer) values.old values.new result }
{
    match answer {
        Ok(read) => {
            let words = [
                read.count as u64,
                read.text as u64,
                read.place as u64,
                read.line.0 as u64,
                read.column.0 as u64,
            ];
            tell(0, &words, values)
        }
        Err(TokensError::Gate(error)) => tell_gate(error, values),
        Err(TokensError::NoRoom(needed)) => tell(4, &[needed as u64], values),
    }
}

pub fn tell_acted(answer: Result<actions::Read, ActionsError>, values: &mut [u64]) -> u64
    ensures { Told (Acting.answer_given answer) values.old values.new result }
{
    match answer {
        Ok(read) => tell(0, &[read.count as u64, read.text as u64], values),
        Err(ActionsError::Gate(error)) => tell_gate(error, values),
        Err(ActionsError::UnknownAction { piece, name, span }) => {
            tell(5, &[piece as u64, name as u64, span], values)
        }
        Err(
            ActionsError::BadArgument {
                flaw,
                piece,
                name,
                span,
            },
        ) => tell(u64::from(flaw), &[piece as u64, name as u64, span], values),
        Err(ActionsError::NoRoom(needed)) => tell(4, &[needed as u64], values),
    }
}

pub fn tell_targeted(answer: Result<variables::Read, VariablesError>, values: &mut [u64]) -> u64
    ensures { Told (Targeting.answer_given answer) values.old values.new result }
{
    match answer {
        Ok(read) => tell(0, &[read.count as u64, read.text as u64], values),
        Err(VariablesError::Gate(error)) => tell_gate(error, values),
        Err(VariablesError::Unknown { piece, name, span }) => {
            tell(7, &[piece as u64, name as u64, span], values)
        }
        Err(VariablesError::NoRoom(needed)) => tell(4, &[needed as u64], values),
    }
}

pub fn tell_operated(answer: Result<Operator, OperatorError>, values: &mut [u64]) -> u64
    requires { NearName answer }
    ensures { Told (Operating.answer_given answer) values.old values.new result }
{
    match answer {
        Ok(operator) => {
            let words = [
                u64::from(operator.negated),
                operator.name,
                operator.place as u64,
                operator.len as u64,
            ];
            tell(0, &words, values)
        }
        Err(OperatorError::Gate(error)) => tell_gate(error, values),
        Err(OperatorError::Unknown(name)) => {
            let span = lent::span(name.place as u32, name.len as u32);
            tell(8, &[name.place as u64, name.len as u64, span], values)
        }
    }
}

pub fn tell_listed(answer: Result<usize, ListingError>, values: &mut [u64]) -> u64
    ensures { Told (Listing.answer_given answer) values.old values.new result }
{
    match answer {
        Ok(n) => tell(0, &[n as u64], values),
        Err(ListingError::NoRoom(needed)) => tell(4, &[needed as u64], values),
        Err(ListingError::NoToken(place)) => tell(19, &[place as u64], values),
    }
}

pub fn tell_converted(answer: Result<u64, TooFar>, values: &mut [u64]) -> u64
    ensures { Told (Converting.answer_given answer) values.old values.new result }
{
    match answer {
        Ok(word) => tell(0, &[word], values),
        Err(TooFar) => tell(21, &[0], values),
    }
}

pub fn tell_added(answer: Result<Added, AddError>, values: &mut [u64]) -> u64
    ensures { Told (Indexing.added_given answer) values.old values.new result }
{
    match answer {
        Ok(Added::Entered(count)) => tell(0, &[1, count], values),
        Ok(Added::Passed(count)) => tell(0, &[0, count], values),
        Err(AddError::Taken(line)) => tell(16, &[line], values),
        Err(AddError::Full(places)) => tell(17, &[places], values),
        Err(AddError::Broken) => tell(20, &[0], values),
    }
}

pub fn tell_removed(answer: Result<Removed, Broken>, values: &mut [u64]) -> u64
    ensures { Told (Indexing.removed_given answer) values.old values.new result }
{
    match answer {
        Ok(Removed { removed, left }) => tell(0, &[removed, left], values),
        Err(Broken) => tell(20, &[0], values),
    }
}

// A fault stands inside an answer, and is told by itself: it has the line first.
fn tell_fault(fault: Fault, values: &mut [u64]) -> u64
    ensures { Told (Directing.fault_told fault) values.old values.new result }
{
    match fault {
        Fault::Line { why, line } => tell(u64::from(why), &[line as u64], values),
        Fault::Argument {
            why,
            line,
            at,
            len,
            span,
        } => {
            let words = [line as u64, at as u64, len as u64, span];
            tell(u64::from(why), &words, values)
        }
    }
}

pub fn tell_directed(answer: Result<directives::Read, DirectivesError>, values: &mut [u64]) -> u64
    ensures { Told (Directing.answer_given answer) values.old values.new result }
{
    match answer {
        Ok(read) => {
            let words = [
                read.directives as u64,
                read.variables as u64,
                read.actions as u64,
                read.text as u64,
            ];
            tell(0, &words, values)
        }
        Err(DirectivesError::Gate(error)) => tell_gate(error, values),
        Err(DirectivesError::Refused(fault)) => tell_fault(fault, values),
        Err(
            DirectivesError::NoRoom {
                directives,
                variables,
                actions,
            },
        ) => tell(
            4,
            &[directives as u64, variables as u64, actions as u64],
            values,
        ),
    }
}
