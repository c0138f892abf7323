// The public calls: what the operator is, behind the gate and without it, and its argument.
ghost use Rattle.ascii.specs.Handed.{standing};
ghost use Rattle.operators.specs.Promises.{OperatorIn, ParseOperator, OperatorArgument};

use crate::finding::find;
use crate::{Operator, OperatorError, UnknownOperator};

// The operator in a text of any bytes, without the gate.
pub fn operator_in(s: &[u8]) -> Result<Operator, UnknownOperator>
    ensures { OperatorIn s.now result }
{
    let found = find(s);
    let name = match found.name {
        None => 0,
        Some(part) => match names::operator_code(&s[part.first..part.past]) {
            Some(name) => name,
            None => {
                return Err(UnknownOperator {
                    place: part.first,
                    len: part.past - part.first,
                });
            }
        },
    };
    let argument = found.argument;
    Ok(Operator {
        negated: found.negated,
        name,
        place: argument.first,
        len: argument.past - argument.first,
    })
}

// The Rust's parse_operator, after the checks 1 and 2.
pub fn parse_operator(input: &[u8]) -> Result<Operator, OperatorError>
    ensures { ParseOperator input.now result }
{
    lent::admit(input, 0, 0)?;
    Ok(operator_in(input)?)
}

// The argument of the same operator, as a part of the input: on a refusal the empty part at the front.
pub fn operator_argument(input: &[u8]) -> &[u8]
    ensures { OperatorArgument (standing input.entry) (standing result) }
{
    match parse_operator(input) {
        Ok(operator) => &input[operator.place..operator.place + operator.len],
        Err(_) => &input[..0],
    }
}
