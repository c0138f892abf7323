// The tokens of a text, one at a time, as a directive sees them.
ghost use Rattle.std.specs.Prelude.{◌≡◌, ◌+◌, ◌≤◌, length};
ghost use Rattle.lent.specs.Sizes.{limit};
ghost use Rattle.lexer.specs.Calls.{Reached};
ghost use Rattle.directives.specs.Steps.{role_of, Nexts};

use lexer::{Cursor, Found, Kind};

// What a token does to a directive: it opens one, is an argument of the one before it, or ends that one.
#[derive(Clone, Copy)]
pub enum Role {
    Opens,
    Argues,
    Closes,
}

pub fn role_of(kind: Kind) -> Role
    ensures { result ≡ role_of kind }
{
    match kind {
        Kind::Directive => Role::Opens,
        Kind::Word | Kind::QuotedString => Role::Argues,
        Kind::Comment | Kind::Newline => Role::Closes,
    }
}

// The token from a cursor on that was reached; its text goes to `scratch` behind what is held there.
pub fn token_from(s: &[u8], here: Cursor, scratch: &mut [u8], held: usize) -> Found
    requires s_len_bound { length s.now ≤ limit }
    requires reached { Reached s.now here }
    requires s_in_bounds { (length s.now ≤ length scratch.old) × (held ≤ here.place) }
    ensures { Nexts s.now here held scratch.old scratch.new result }
{
    // a cursor that was reached is not refused
    lexer::step_in(s, here, &mut scratch[held..]).unwrap()
}
