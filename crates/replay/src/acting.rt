// The answers for action lists and for a setvar alone.
use crate::buffers::{Buffers, refill};
use crate::sizes;
use crate::words::{ACTION, print_gate, print_records, print_refusal, print_refused, print_text};
use actions::{ActionsError, Read};
use std::io;

fn print_answer(
    rt: &HostRuntime,
    answer: Result<Read, ActionsError>,
    text: &[u8],
    records: &[u64],
) -> io::Result<()> {
    match answer {
        Ok(read) => {
            print!(rt; "0 {} {} ", read.count, read.text)?;
            print_records(rt, records, read.count, &ACTION)?;
            print_text(rt, text, read.text)
        }
        Err(ActionsError::Gate(error)) => print_gate(rt, error),
        Err(ActionsError::UnknownAction { piece, name, span }) => {
            print_refused(rt, 5, piece, name, span, text)
        }
        Err(
            ActionsError::BadArgument {
                flaw,
                piece,
                name,
                span,
            },
        ) => print_refused(rt, u64::from(flaw), piece, name, span, text),
        Err(ActionsError::NoRoom(needed)) => print_refusal(rt, 4, needed),
    }
}

// The scratch buffer comes last, without the zeros at its end.
pub fn print_actions(rt: &HostRuntime, input: &[u8], buffers: &mut Buffers) -> io::Result<()> {
    refill(&mut buffers.text, buffers.room.acted, 0)?;
    refill(&mut buffers.scratch, buffers.room.text, 0)?;
    refill(&mut buffers.records, sizes::ACTIONS, 0)?;
    let answer = actions::parse_actions(
        input,
        &mut buffers.text,
        &mut buffers.scratch,
        &mut buffers.records,
    );
    print_answer(rt, answer, &buffers.text, &buffers.records)?;
    rt.write_all(b" ")?;
    let filled = buffers
        .scratch
        .iter()
        .rposition(|b| *b != 0)
        .map_or(0, |last| last + 1);
    print_text(rt, &buffers.scratch, filled)
}

pub fn print_setvar(rt: &HostRuntime, input: &[u8], buffers: &mut Buffers) -> io::Result<()> {
    refill(&mut buffers.text, buffers.room.acted, 0)?;
    refill(&mut buffers.records, sizes::ACTIONS, 0)?;
    let answer = actions::parse_setvar(input, &mut buffers.text, &mut buffers.records);
    print_answer(rt, answer, &buffers.text, &buffers.records)
}
