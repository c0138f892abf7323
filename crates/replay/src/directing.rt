// The answer for a package: its directives, or the first fault.
use crate::buffers::{Buffers, refill};
use crate::sizes;
use crate::words::{
    ACTION, DIRECTIVE, VARIABLE, print_gate, print_records, print_refusal, print_span_word,
    print_text,
};
use directives::{ArgumentFault, DirectivesError, Fault, Read, Version};
use std::io;

// A name stands in the text after 5, 7 and 10 to 12 alone.
fn print_fault(rt: &HostRuntime, fault: Fault, text: &[u8]) -> io::Result<()> {
    match fault {
        Fault::Line { why, line } => print_refusal(rt, u64::from(why), line),
        Fault::Argument {
            why,
            line,
            at,
            len,
            span,
        } => {
            let named = !matches!(why, ArgumentFault::UnknownOperator);
            print!(rt; "{} {line} {at} {len} ", u64::from(why))?;
            print_span_word(rt, span)?;
            print_text(rt, text, if named { len } else { 0 })
        }
    }
}

fn print_read(
    rt: &HostRuntime,
    read: Read,
    text: &[u8],
    records: &[u64],
    variables: &[u64],
    actions: &[u64],
) -> io::Result<()> {
    print!(rt; "0 {} {} ", read.directives, read.variables)?;
    print!(rt; "{} {} ", read.actions, read.text)?;
    print_records(rt, records, read.directives, &DIRECTIVE)?;
    print_records(rt, variables, read.variables, &VARIABLE)?;
    print_records(rt, actions, read.actions, &ACTION)?;
    print_text(rt, text, read.text)
}

pub fn print_directives(
    rt: &HostRuntime,
    input: &[u8],
    version: Version,
    buffers: &mut Buffers,
) -> io::Result<()> {
    refill(&mut buffers.text, buffers.room.text, 0)?;
    refill(&mut buffers.scratch, buffers.room.text, 0)?;
    refill(&mut buffers.records, sizes::PACKAGE, 0)?;
    let (records, others) = buffers.records.split_at_mut(sizes::DIRECTIVES);
    let (variables, actions) = others.split_at_mut(sizes::VARIABLES);
    let answer = directives::directives(
        input,
        version,
        &mut buffers.text,
        &mut buffers.scratch,
        records,
        variables,
        actions,
    );
    match answer {
        Ok(read) => print_read(rt, read, &buffers.text, records, variables, actions),
        Err(DirectivesError::Gate(error)) => print_gate(rt, error),
        Err(DirectivesError::Refused(fault)) => print_fault(rt, fault, &buffers.text),
        Err(
            DirectivesError::NoRoom {
                directives,
                variables,
                actions,
            },
        ) => print!(rt; "4 {directives} {variables} {actions} -"),
    }
}
