// The large buffers, made once: each question is lent so much of them as its room says.
ghost use Rattle.std.specs.Prelude.{◌≡◌, OnOk, replicate, vec_len};

use crate::sizes;
use crate::sizes::Room;
use std::alloc::Global;
use std::io;

#[derive(Drop)]
pub struct Buffers {
    pub room: Room,
    pub text: Vec<u8>,
    // An action list's and a package's scratch, or a listing's line.
    pub scratch: Vec<u8>,
    pub records: Vec<u64>,
}

// With room for the largest question, so that none asks for more.
pub fn made(alloc: Global) -> io::Result<Buffers> {
    let text = Vec::with_capacity(alloc, sizes::LONG_BYTES)?;
    let scratch = Vec::with_capacity(alloc, sizes::LONG_BYTES)?;
    let records = Vec::with_capacity(alloc, sizes::PACKAGE)?;
    Ok(Buffers {
        room: sizes::short(),
        text,
        scratch,
        records,
    })
}

// So many elements, all alike, whatever the question before left.
pub fn refill<T: Copy>(buffer: &mut Vec<T>, len: usize, value: T) -> io::Result<()>
    ensures items { OnOk result (buffer.new.items ≡ replicate len value) }
    ensures len { OnOk result (vec_len buffer.new ≡ len) }
{
    buffer.clear();
    buffer.resize(len, value)?;
    Ok(())
}
