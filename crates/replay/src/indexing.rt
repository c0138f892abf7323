// The index of ids: the answer's number and values, and then all its words.
use crate::{hexes, matching, sizes};
use index::{AddError, Added, Broken, Removed};
use std::io;

fn print_added(rt: &HostRuntime, answer: Result<Added, AddError>) -> io::Result<()> {
    match answer {
        Ok(Added::Entered(count)) => print!(rt; "0 1 {count} "),
        Ok(Added::Passed(count)) => print!(rt; "0 0 {count} "),
        Err(AddError::Taken(line)) => print!(rt; "16 {line} "),
        Err(AddError::Full(places)) => print!(rt; "17 {places} "),
        Err(AddError::Broken) => rt.write_all(b"20 0 "),
    }
}

fn print_removed(rt: &HostRuntime, answer: Result<Removed, Broken>) -> io::Result<()> {
    match answer {
        Ok(done) => print!(rt; "0 {} {} ", done.removed, done.left),
        Err(Broken) => rt.write_all(b"20 0 "),
    }
}

fn print_index(rt: &HostRuntime, index: &[u64]) -> io::Result<()> {
    for word in index {
        print!(rt; "{word} ")?;
    }
    rt.write_all(b"-")
}

// The body is the line and the number of the index's bytes, 8 bytes each, then the index and the records.
fn asked(body: &[u8]) -> Option<(u64, &[u8], &[u8])> {
    let (line, rest) = hexes::first_word(body)?;
    let (len, rest) = hexes::first_word(rest)?;
    let (index, actions) = rest.split_at_checked(len as usize)?;
    Some((line, index, actions))
}

pub fn print_add(rt: &HostRuntime, body: &[u8]) -> io::Result<()> {
    let Some((line, index, actions)) = asked(body) else {
        return Ok(());
    };
    let mut index = hexes::words(rt.alloc(), index, sizes::INDEXED)?;
    let actions = hexes::words(rt.alloc(), actions, sizes::PHASED)?;
    print_added(rt, index::add(&mut index, &actions, line))?;
    print_index(rt, &index)
}

// The body is a selector as a match has it, start and end, and then the index.
pub fn print_remove(rt: &HostRuntime, body: &[u8]) -> io::Result<()> {
    let Some((selector, index)) = matching::selector(body) else {
        return Ok(());
    };
    let mut index = hexes::words(rt.alloc(), index, sizes::INDEXED)?;
    print_removed(rt, index::remove(&mut index, selector))?;
    print_index(rt, &index)
}
