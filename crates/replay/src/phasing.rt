// A rule's phase, out of the records of its actions.
use crate::{hexes, sizes};
use std::io;

pub fn print_phase(rt: &HostRuntime, body: &[u8]) -> io::Result<()> {
    let records = hexes::words(rt.alloc(), body, sizes::PHASED)?;
    print!(rt; "{}", rules::phase(&records))
}
