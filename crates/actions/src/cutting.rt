// Cutting at commas outside quotes and round brackets: the loop of parse_actions.
ghost use Rattle.std.specs.Prelude.{◌≡◌, ◌+◌, ◌≤◌, length, drop};
ghost use Rattle.actions.specs.Pieces.{outside, part_length};

// Where the part that starts at `from` ends: at the next comma that cuts, or at the end.
pub fn part_end(s: &[u8], from: usize) -> usize
    requires { from ≤ length s.now }
    ensures { result ≡ from + part_length outside (drop from s.now) }
{
    let mut at = from;
    let mut depth: usize = 0;
    // by steps of differing widths, since a quoted run is passed at once
    while at < s.len() {
        let b = s[at];
        match b {
            b'"' | b'\'' => {
                // a mark that is never closed takes all that is left
                at += 1 + ascii::first_of(&s[at + 1..], b);
                if s.len() <= at {
                    return at;
                }
            }
            b'(' => depth += 1,
            b')' => depth = depth.saturating_sub(1),
            b',' if depth == 0 => return at,
            _ => {}
        }
        at += 1;
    }
    at
}
