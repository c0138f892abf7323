// Where a reader may start in lent buffers, how every reader ends, and what a refusal by name leaves.
ghost use Rattle.std.specs.Prelude.{◌≡◌, length};
ghost use Rattle.lent.specs.Buffers.{zeros, stored};
ghost use Rattle.lent.specs.Endings.{starts as starts_at, Finished};

use crate::LIMIT;
use crate::filling::store;
use crate::packing::room;

// Whether a text of `len` bytes may be read from an offset of a text buffer of `lent` bytes and a count of records on.
#[tactic(auto, unfolding(crate::specs::Endings::starts))]
pub fn starts(len: usize, lent: usize, offset: usize, count: usize) -> bool
    ensures { result ≡ starts_at len lent offset count }
{
    len <= LIMIT && offset <= LIMIT && count <= LIMIT && offset + len <= lent
}

// Ends a reader that wrote so many bytes and records: zeros beyond them; or, where the records do not fit, both buffers all zero, and true.
// A flag and no error with the count in it: its callers answer with counts that they alone know.
pub fn finish(text: &mut [u8], used: usize, records: &mut [u64], count: usize, width: usize) -> bool
    ensures { Finished used count width text.old text.new records.old records.new result }
{
    if room(records.len(), width) < count {
        text.fill(0);
        records.fill(0);
        return true;
    }
    let words = count * width;
    records[words..].fill(0);
    if used < text.len() {
        text[used..].fill(0);
    }
    false
}

// Both buffers of a refusal that names a piece: the name where it fits, and zeros.
pub fn refuse_piece(text: &mut [u8], records: &mut [u64], name: &[u8])
    ensures { (text.new ≡ stored (zeros (length text.old)) 0 name.now) × (records.new ≡ zeros (length records.old)) }
{
    text.fill(0);
    records.fill(0);
    store(text, 0, name);
}
