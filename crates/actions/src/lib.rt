// Action lists (document 01, module 4): normalising, cutting, and what is read of each piece written into lent memory.

#![tactic(auto)]

ghost use Rattle.std.specs.Prelude.{◌≡◌};
ghost use Rattle.actions.specs.declared.ActionsError.TheVariants.{Gate};

mod cutting;
mod lists;
mod normalising;
mod writing;

use lent::{Flaw, GateError};
pub use lists::{parse_actions, parse_setvar, read_actions};
pub use normalising::normalise;

// A list read: how many records, and the length of the texts.
#[derive(Clone, Copy, Debug, PartialEq, Eq)]
pub struct Read {
    pub count: usize,
    pub text: usize,
}

// Why a list is not read, by the paper's numbers; `name` is the length of the name that the text buffer starts with, `span` the piece's in the input.
#[derive(Clone, Copy, Debug, PartialEq, Eq)]
pub enum ActionsError {
    // 1 to 3
    Gate(GateError),
    // 5
    UnknownAction {
        piece: usize,
        name: usize,
        span: u64,
    },
    // 10 to 12
    BadArgument {
        flaw: Flaw,
        piece: usize,
        name: usize,
        span: u64,
    },
    // 4: the records needed
    NoRoom(usize),
}

impl From<GateError> for ActionsError {
    ghost from_gives = { λ e r. r ≡ Gate e };

    fn from(e: GateError) -> ActionsError {
        ActionsError::Gate(e)
    }
}

// A normalised text read into buffers from an offset and a count of records on: how many records, the offset past the last text,
// and whether an id and `chain` are among them.
#[derive(Clone, Copy, Debug, PartialEq, Eq)]
pub struct Reached {
    pub count: usize,
    pub offset: usize,
    pub id: bool,
    pub chain: bool,
}

// Why it is not.
#[derive(Clone, Copy, Debug, PartialEq, Eq)]
pub enum PieceError {
    // 5 and 10 to 12: the piece, the length of its name, and its span in that text
    Unknown {
        piece: usize,
        name: usize,
        span: u64,
    },
    Bad {
        flaw: Flaw,
        piece: usize,
        name: usize,
        span: u64,
    },
    // it may not be read from there: `lent::starts` is false
    Unfit,
}
