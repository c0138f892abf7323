// Variables and update targets (document 01, module 5).

#![tactic(auto)]

ghost use Rattle.std.specs.Prelude.{◌≡◌};
ghost use Rattle.variables.specs.declared.VariablesError.TheVariants.{Gate};

mod finding;
mod parsing;
mod singles;
mod writing;

use lent::GateError;
pub use parsing::{parse_update_targets, parse_variables, read_targets};
pub use singles::Exclusions;

// A list read: how many records and bytes of text.
#[derive(Clone, Copy, Debug, PartialEq, Eq)]
pub struct Read {
    pub count: usize,
    pub text: usize,
}

// Why a list of variables or of update targets is not read.
#[derive(Clone, Copy, Debug, PartialEq, Eq)]
pub enum VariablesError {
    // The numbers 1, 2 and 3.
    Gate(GateError),
    // 7: the piece, the length of the name that is none, and the piece's span in the input.
    Unknown {
        piece: usize,
        name: usize,
        span: u64,
    },
    // 4: the records needed.
    NoRoom(usize),
}

impl From<GateError> for VariablesError {
    ghost from_gives = { λ e r. r ≡ Gate e };

    fn from(e: GateError) -> VariablesError {
        VariablesError::Gate(e)
    }
}

// A list read into buffers from an offset and a place on: how many records, and the offset past the last text.
#[derive(Clone, Copy, Debug, PartialEq, Eq)]
pub struct Reached {
    pub count: usize,
    pub offset: usize,
}

// Why it is not.
#[derive(Clone, Copy, Debug, PartialEq, Eq)]
pub enum TargetsError {
    // The piece, the length of the name that is none, and where the piece stands in the list.
    Unknown {
        piece: usize,
        name: usize,
        first: usize,
        past: usize,
    },
    // It may not be read from there: `lent::starts` is false.
    Unfit,
}
