// A span word's two halves, put together as the other form has them.
ghost use Rattle.std.specs.Prelude.{◌≡◌};
ghost use Rattle.spans.specs.Conversion.{in_both, from_old, to_old};

// The offset or the length is more than both forms hold.
#[derive(Clone, Copy, Debug, PartialEq, Eq)]
pub struct TooFar;

// An old word is offset times this plus length.
const OLD_BASE: u64 = 65536;

// The most that offset and length may be.
const HALF_MOST: u64 = 65535;

#[tactic(auto, unfolding(crate::specs::Conversion::in_both))]
fn fits_both(offset: u64, len: u64) -> bool
    ensures { result ≡ in_both offset len }
{
    offset <= HALF_MOST && len <= HALF_MOST
}

pub fn span_from_old(word: u64) -> Result<u64, TooFar>
    ensures { result ≡ from_old word }
{
    let offset = word / OLD_BASE;
    let len = word % OLD_BASE;
    if !fits_both(offset, len) {
        return Err(TooFar);
    }
    Ok(lent::span(offset as u32, len as u32))
}

pub fn span_to_old(word: u64) -> Result<u64, TooFar>
    ensures { result ≡ to_old word }
{
    let offset = lent::span_offset(word);
    let len = lent::span_length(word);
    if !fits_both(offset, len) {
        return Err(TooFar);
    }
    Ok(offset * OLD_BASE + len)
}
