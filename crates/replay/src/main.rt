// Answers the stored questions on standard input, a line each. The file `stdout` beside this folder
// has the original's answers, and the check compares the two.

#![tactic(auto)]

mod acting;
mod answers;
mod buffers;
mod converting;
mod directing;
mod hexes;
mod indexing;
mod lexing;
mod lines;
mod listings;
mod long;
mod matching;
mod operating;
mod phasing;
mod selecting;
mod sizes;
mod targeting;
mod thin;
mod words;
mod writing;

use buffers::Buffers;
use std::io;

// A question's body is written out; of a long one, which has a `*`, only what it is made of.
fn answer_one(
    rt: &HostRuntime,
    letter: u8,
    form: u8,
    digits: &[u8],
    long: &mut [u8],
    buffers: &mut Buffers,
) -> io::Result<()> {
    let body = hexes::decode(rt.alloc(), digits)?;
    if form == b'*' {
        let len = long::spread(&body, long);
        buffers.room = sizes::long();
        answers::answer(rt, letter, &long[..len], buffers)?;
    } else {
        buffers.room = sizes::short();
        answers::answer(rt, letter, &body, buffers)?;
    }
    rt.write_all(b"\n")
}

// Nothing says that the input ends: the count is one that no run uses up.
fn main(rt: HostRuntime) -> io::Result<()> {
    let mut line = vec![in rt.alloc(); 0u8; sizes::LINE]?;
    let mut long = vec![in rt.alloc(); 0u8; sizes::LONG_BYTES]?;
    let mut buffers = buffers::made(rt.alloc())?;
    for _ in 0..u64::MAX {
        let Some(len) = lines::read_line(&mut rt.stdin(), &mut line) else {
            return Ok(());
        };
        let [letter, form, digits @ ..] = &line[..len] else {
            return Ok(());
        };
        answer_one(&rt, *letter, *form, digits, &mut long, &mut buffers)?;
    }
    Ok(())
}
