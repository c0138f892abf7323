// Where the pieces of a list stand, by places, so that a piece is a part of the input and no copy.
ghost use Rattle.variables.specs.Steps.{Nexts};

// A piece runs from `first` up to `past`, and the part after its bar starts at `next`.
#[derive(Clone, Copy)]
pub struct Piece {
    pub first: usize,
    pub past: usize,
    pub next: usize,
}

// The next part from a place on that is not empty once trimmed.
pub fn next_piece(s: &[u8], from: usize) -> Option<Piece>
    ensures { Nexts s.now from result }
{
    let mut at = from;
    // by the widths of the parts, which differ
    while at < s.len() {
        let bar = at + ascii::first_of(&s[at..], b'|');
        let part = ascii::trimmed(&s[at..bar]);
        if part.first < part.past {
            return Some(Piece {
                first: at + part.first,
                past: at + part.past,
                next: bar + 1,
            });
        }
        at = bar + 1;
    }
    None
}
