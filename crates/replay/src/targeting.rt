// The answers of the two parsers of lists.
use crate::buffers::{Buffers, refill};
use crate::sizes;
use crate::words::{VARIABLE, print_gate, print_records, print_refusal, print_refused, print_text};
use std::io;
use variables::{Read, VariablesError};

fn print_answer(
    rt: &HostRuntime,
    answer: Result<Read, VariablesError>,
    text: &[u8],
    records: &[u64],
) -> io::Result<()> {
    match answer {
        Ok(read) => {
            print!(rt; "0 {} {} ", read.count, read.text)?;
            print_records(rt, records, read.count, &VARIABLE)?;
            print_text(rt, text, read.text)
        }
        Err(VariablesError::Gate(error)) => print_gate(rt, error),
        Err(VariablesError::Unknown { piece, name, span }) => {
            print_refused(rt, 7, piece, name, span, text)
        }
        Err(VariablesError::NoRoom(needed)) => print_refusal(rt, 4, needed),
    }
}

pub fn print_variables(rt: &HostRuntime, input: &[u8], buffers: &mut Buffers) -> io::Result<()> {
    refill(&mut buffers.text, buffers.room.text, 0)?;
    refill(&mut buffers.records, sizes::RECORDS, 0)?;
    let answer = variables::parse_variables(input, &mut buffers.text, &mut buffers.records);
    print_answer(rt, answer, &buffers.text, &buffers.records)
}

pub fn print_update(rt: &HostRuntime, input: &[u8], buffers: &mut Buffers) -> io::Result<()> {
    refill(&mut buffers.text, buffers.room.text, 0)?;
    refill(&mut buffers.records, sizes::RECORDS, 0)?;
    let answer = variables::parse_update_targets(input, &mut buffers.text, &mut buffers.records);
    print_answer(rt, answer, &buffers.text, &buffers.records)
}
