// A text's line, but for its line feed.
use crate::buffers::{Buffers, refill};
use std::io;

pub fn print_listing(rt: &HostRuntime, input: &[u8], buffers: &mut Buffers) -> io::Result<()> {
    refill(&mut buffers.text, buffers.room.text, 0)?;
    refill(&mut buffers.records, buffers.room.listed, 0)?;
    refill(&mut buffers.scratch, buffers.room.line, 0)?;
    let Ok(n) = listing::list_text(
        input,
        &mut buffers.text,
        &mut buffers.records,
        &mut buffers.scratch,
    ) else {
        return Ok(());
    };
    match buffers.scratch.get(..n) {
        Some([line @ .., _]) => rt.write_all(line),
        _ => Ok(()),
    }
}
