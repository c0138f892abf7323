// The cutter's walk over a record's texts, with the normaliser's and the gate's: bytes that would not stay as they are.
ghost use Rattle.std.specs.Prelude.{◌≡◌, ◌+◌, ◌<◌, length, drop};
ghost use Rattle.actions.specs.Pieces.{nest};
ghost use Rattle.spelled.specs.Steps.{line_end, stepped_bare, stepped, passed, passed_all};

// The open quotation mark, 0 for none, and the depth of brackets.
#[derive(Clone, Copy)]
pub struct Open {
    pub mark: u8,
    pub depth: usize,
}

// Whether a line end stands at a place: a backslash before it would take it out.
fn is_line_end(t: &[u8], at: usize) -> bool
    ensures { result ≡ line_end (drop at t.now) }
{
    at < t.len() && (t[at] == b'\n' || t[at] == b'\r')
}

// Behind a byte with no mark open; none where it does not stay.
fn step_bare(depth: usize, b: u8) -> Option<Open>
    requires { depth < 9223372036854775807 }
    ensures { result ≡ stepped_bare depth b }
{
    match b {
        b'"' => Some(Open { mark: b, depth }),
        b'\'' => Some(Open { mark: b, depth }),
        b'(' => Some(Open {
            mark: 0,
            depth: depth + 1,
        }),
        b')' => Some(Open {
            mark: 0,
            depth: depth.saturating_sub(1),
        }),
        b',' if depth == 0 => None,
        _ => Some(Open { mark: 0, depth }),
    }
}

// Behind the byte at a place.
fn step(from: Open, t: &[u8], at: usize) -> Option<Open>
    requires at_in_bounds { at < length t.now }
    requires depth_bound { from.depth < 9223372036854775807 }
    ensures { result ≡ stepped (nest from.mark from.depth) (drop at t.now) }
{
    let b = t[at];
    if 128 <= b {
        return None;
    }
    if b == b'\\' && is_line_end(t, at + 1) {
        return None;
    }
    if from.mark == 0 {
        return step_bare(from.depth, b);
    }
    Some(Open {
        mark: if b == from.mark { 0 } else { from.mark },
        depth: from.depth,
    })
}

// Behind a text.
fn pass(from: Open, t: &[u8]) -> Option<Open>
    requires { from.depth + length t.now < 9223372036854775807 }
    ensures { result ≡ passed (nest from.mark from.depth) t.now }
{
    let mut reached = from;
    for at in 0..t.len() {
        reached = step(reached, t, at)?;
    }
    Some(reached)
}

// Behind three texts.
pub fn pass_all(mark: u8, a: &[u8], b: &[u8], c: &[u8]) -> Option<Open>
    requires { length a.now + length b.now + length c.now < 9223372036854775807 }
    ensures { result ≡ passed_all mark a.now b.now c.now }
{
    let first = pass(Open { mark, depth: 0 }, a)?;
    let second = pass(first, b)?;
    pass(second, c)
}
