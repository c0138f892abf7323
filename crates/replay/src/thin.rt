// The thin reader's answers: a text, step after step.
use crate::buffers::{Buffers, refill};
use crate::lexing;
use lexer::Found;
use std::io;

// A token has a byte or more, so that this many turns are enough for a text within the limit, and one says that none is left.
pub fn print_steps(rt: &HostRuntime, text: &[u8], buffers: &mut Buffers) -> io::Result<()> {
    refill(&mut buffers.text, buffers.room.text, 0)?;
    let mut from = lexer::start();
    for _ in 0..=lent::LIMIT {
        let step = reader::token_at(text, from, &mut buffers.text);
        lexing::print_found(rt, step, &buffers.text)?;
        let Ok(Found::Token(t)) = step else {
            return Ok(());
        };
        rt.write_all(b" ; ")?;
        from = t.next;
    }
    Ok(())
}
