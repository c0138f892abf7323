// Action records written back to text: the bytes, or why there are none.
use crate::buffers::{Buffers, refill};
use crate::words::{print_refusal, print_text};
use crate::{hexes, sizes};
use listing::ListingError;
use std::io;

// The body is the number of bytes lent and that of the records' bytes, 8 bytes each, then the records and the texts.
fn asked(body: &[u8]) -> Option<(usize, &[u8], &[u8])> {
    let (lent, rest) = hexes::first_word(body)?;
    let (len, rest) = hexes::first_word(rest)?;
    let (records, text) = rest.split_at_checked(len as usize)?;
    Some((lent as usize, records, text))
}

pub fn print_written(rt: &HostRuntime, body: &[u8], buffers: &mut Buffers) -> io::Result<()> {
    let Some((lent, records, text)) = asked(body) else {
        return Ok(());
    };
    if buffers.room.text < lent {
        return Ok(());
    }
    let records = hexes::words(rt.alloc(), records, sizes::PHASED)?;
    refill(&mut buffers.text, lent, 0)?;
    match spelled::write_actions(&records, text, &mut buffers.text) {
        Ok(n) => {
            print!(rt; "0 {n} ")?;
            print_text(rt, &buffers.text, n)
        }
        Err(ListingError::NoRoom(needed)) => print_refusal(rt, 4, needed),
        Err(ListingError::NoToken(record)) => print_refusal(rt, 19, record),
    }
}
