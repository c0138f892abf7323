// Whole directives (document 02, M-100 and M-108): the tokens of a text joined, their arguments read by the parsers, and all of it laid out
// in lent memory.

#![tactic(auto)]

ghost use Rattle.std.specs.Prelude.{◌≡◌};
ghost use Rattle.directives.specs.Promises.{line_number, argument_number};
ghost use Rattle.directives.specs.declared.DirectivesError.TheVariants.{Gate, Refused};

mod arguments;
mod bodies;
mod chains;
mod parts;
mod reading;
mod settling;
mod shapes;
mod sites;
mod tokens;
mod writing;

use lent::{Flaw, GateError};
pub use reading::directives;

// The version of ModSecurity that a package is written for: from 2.7 a rule that continues none must have an id.
#[derive(Clone, Copy, Debug, PartialEq, Eq)]
pub enum Version {
    TwoSix,
    TwoSeven,
}

// Why a line is refused.
#[derive(Clone, Copy, Debug, PartialEq, Eq)]
pub enum LineFault {
    // 13, 14, 15 and 18
    WrongCount,
    Untaken,
    Stopped,
    IdMissing,
}

// Why an argument of a directive is refused.
#[derive(Clone, Copy, Debug, PartialEq, Eq)]
pub enum ArgumentFault {
    // 7, 8, 5, and 10 to 12
    UnknownVariable,
    UnknownOperator,
    UnknownAction,
    BadArgument(Flaw),
}

impl From<LineFault> for u64 {
    ghost from_gives = { λ why n. n ≡ line_number why };

    fn from(why: LineFault) -> u64 {
        match why {
            LineFault::WrongCount => 13,
            LineFault::Untaken => 14,
            LineFault::Stopped => 15,
            LineFault::IdMissing => 18,
        }
    }
}

impl From<ArgumentFault> for u64 {
    ghost from_gives = { λ why n. n ≡ argument_number why };

    fn from(why: ArgumentFault) -> u64 {
        match why {
            ArgumentFault::UnknownVariable => 7,
            ArgumentFault::UnknownOperator => 8,
            ArgumentFault::UnknownAction => 5,
            ArgumentFault::BadArgument(flaw) => u64::from(flaw),
        }
    }
}

// What no directive is read for.
#[derive(Clone, Copy, Debug, PartialEq, Eq)]
pub enum Fault {
    // the line of the directive, the token or the stop
    Line {
        why: LineFault,
        line: usize,
    },
    // the directive's line; the piece, or of 8 the name's place in the argument; the length of the name; the span of the piece, or of
    // the name, in the input
    Argument {
        why: ArgumentFault,
        line: usize,
        at: usize,
        len: usize,
        span: u64,
    },
}

// How many records of each kind, and bytes of text.
#[derive(Clone, Copy, Debug, PartialEq, Eq)]
pub struct Read {
    pub directives: usize,
    pub variables: usize,
    pub actions: usize,
    pub text: usize,
}

// The paper's other numbers, by name.
#[derive(Clone, Copy, Debug, PartialEq, Eq)]
pub enum DirectivesError {
    // 1 to 3
    Gate(GateError),
    // 5, 7, 8, 10 to 15 and 18
    Refused(Fault),
    // 4: the records needed of each kind
    NoRoom {
        directives: usize,
        variables: usize,
        actions: usize,
    },
}

impl From<GateError> for DirectivesError {
    ghost from_gives = { λ e r. r ≡ Gate e };

    fn from(e: GateError) -> DirectivesError {
        DirectivesError::Gate(e)
    }
}

impl From<Fault> for DirectivesError {
    ghost from_gives = { λ f r. r ≡ Refused f };

    fn from(f: Fault) -> DirectivesError {
        DirectivesError::Refused(f)
    }
}
