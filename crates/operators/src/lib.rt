// The operator of a rule (document 01, module 5): what it is, and the part of the caller's input that is its argument.

#![tactic(auto)]

ghost use Rattle.std.specs.Prelude.{◌≡◌};
ghost use Rattle.operators.specs.declared.OperatorError.TheVariants.{Gate, Unknown};

mod finding;
mod reading;

use lent::GateError;
pub use reading::{operator_argument, operator_in, parse_operator};

// The Rust's OperatorSpec, with the name's place in its enum, and the argument's place in the input and its length.
#[derive(Clone, Copy, Debug, PartialEq, Eq)]
pub struct Operator {
    pub negated: bool,
    pub name: u64,
    pub place: usize,
    pub len: usize,
}

// Where a name that no operator has stands in the input, and its length.
#[derive(Clone, Copy, Debug, PartialEq, Eq)]
pub struct UnknownOperator {
    pub place: usize,
    pub len: usize,
}

#[derive(Clone, Copy, Debug, PartialEq, Eq)]
pub enum OperatorError {
    // 1 and 2. Nothing is lent but the input, so that 3 cannot come.
    Gate(GateError),
    // 8
    Unknown(UnknownOperator),
}

impl From<GateError> for OperatorError {
    ghost from_gives = { λ e r. r ≡ Gate e };

    fn from(e: GateError) -> OperatorError {
        OperatorError::Gate(e)
    }
}

impl From<UnknownOperator> for OperatorError {
    ghost from_gives = { λ e r. r ≡ Unknown e };

    fn from(e: UnknownOperator) -> OperatorError {
        OperatorError::Unknown(e)
    }
}
