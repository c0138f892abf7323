// The operator's answers: what it is, with its argument, or where the unknown name stands.
use crate::words::{print_gate, print_span, print_text};
use operators::OperatorError;
use std::io;

pub fn print_operator(rt: &HostRuntime, input: &[u8]) -> io::Result<()> {
    match operators::parse_operator(input) {
        Ok(operator) => {
            let argument = operators::operator_argument(input);
            print!(rt; "0 {} {} ", u8::from(operator.negated), operator.name)?;
            print_text(rt, argument, argument.len())
        }
        Err(OperatorError::Gate(error)) => print_gate(rt, error),
        Err(OperatorError::Unknown(unknown)) => {
            print!(rt; "8 {} {} ", unknown.place, unknown.len)?;
            print_span(rt, unknown.place, unknown.len)?;
            rt.write_all(b"-")
        }
    }
}
