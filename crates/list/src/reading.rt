// All bytes of a reader, with a read that failed told from an input that ended.
ghost use Rattle.std.specs.Prelude.{length};
ghost use Rattle.list.specs.Reading.{Told, Within};

use std::io::{self, Read};

// What an answer of std's `read` into `room` means: so many more bytes, or none at the input's end.
fn meaning(got: io::Result<usize>, room: &[u8]) -> io::Result<Option<usize>>
    ensures { Told got (length room.now) result }
{
    let more = got?.min(room.len());
    if more == 0 {
        return Ok(None);
    }
    Ok(Some(more))
}

// Reads into the front of `buf`, and gives how many bytes: up to the input's end, or the buffer's.
pub fn read_all<R: Read>(from: &mut R, buf: &mut [u8]) -> io::Result<usize>
    ensures { Within (length buf.new) result }
{
    let mut n = 0;
    // by what each read gave
    while n < buf.len() {
        let got = from.read(&mut buf[n..]);
        match meaning(got, &buf[n..])? {
            Some(more) => n += more,
            None => return Ok(n),
        }
    }
    Ok(n)
}
