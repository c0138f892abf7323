// The arguments of a directive: the tokens that it takes, their texts one behind another.
ghost use Rattle.std.specs.Prelude.{◌≡◌, [], ◌+◌, ◌≤◌, length};
ghost use Rattle.ascii.specs.Choice.{pick};
ghost use Rattle.lent.specs.Sizes.{limit};
ghost use Rattle.lexer.specs.Calls.{Reached};
ghost use Rattle.directives.specs.Steps.{one_more, arguments_as, Took};

use crate::tokens::{Role, role_of, token_from};
use ascii::Part;
use lexer::{Cursor, Found};

// How many arguments there are, where the texts of the first, of the first two and of the first three end, and those of all;
// where the last one ends in the input, and where the first three stand there.
#[derive(Clone, Copy)]
pub struct Arguments {
    pub count: usize,
    pub one: usize,
    pub two: usize,
    pub three: usize,
    pub end: usize,
    pub past: usize,
    pub first: Part,
    pub second: Part,
    pub third: Part,
}

// The arguments, and the cursor behind what ended them.
#[derive(Clone, Copy)]
pub struct Taken {
    pub arguments: Arguments,
    pub next: Cursor,
}

// What is still open moves with every argument: an end while there are fewer, a place when its own argument comes.
fn moved<T: Copy>(growing: bool, old: T, new: T) -> T
    ensures { result ≡ pick growing new old }
{
    if growing { new } else { old }
}

// One argument more, with so many bytes of text, that stands there in the input.
fn with_one(a: Arguments, len: usize, here: Part) -> Arguments
    requires { (a.count ≤ limit) × (a.end + len ≤ limit) }
    ensures { result ≡ one_more a len here }
{
    let end = a.end + len;
    Arguments {
        count: a.count + 1,
        one: moved(a.count < 1, a.one, end),
        two: moved(a.count < 2, a.two, end),
        three: moved(a.count < 3, a.three, end),
        end,
        past: here.past,
        first: moved(a.count == 0, a.first, here),
        second: moved(a.count == 1, a.second, here),
        third: moved(a.count == 2, a.third, here),
    }
}

// No argument yet.
fn none_yet(held: usize, past: usize) -> Arguments
    ensures { result ≡ arguments_as held past [] }
{
    let nowhere = Part { first: 0, past: 0 };
    Arguments {
        count: 0,
        one: held,
        two: held,
        three: held,
        end: held,
        past,
        first: nowhere,
        second: nowhere,
        third: nowhere,
    }
}

// The arguments from a cursor on, whose texts go to `scratch` behind what is held there; `past` is where the Directive token ends.
pub fn take_arguments(s: &[u8], from: Cursor, past: usize, scratch: &mut [u8], held: usize) -> Taken
    requires s_len_bound { length s.now ≤ limit }
    requires reached { Reached s.now from }
    requires s_in_bounds { (length s.now ≤ length scratch.old) × ((held ≤ from.place) × (past ≤ from.place)) }
    ensures { Took s.now from past held scratch.old scratch.new result }
{
    let mut here = from;
    let mut arguments = none_yet(held, past);
    // token after token: what ends the arguments is read again, or passed
    loop {
        let t = match token_from(s, here, scratch, arguments.end) {
            Found::Nothing(_) => {
                let next = here;
                return Taken { arguments, next };
            }
            Found::Token(t) => t,
        };
        match role_of(t.kind) {
            // it is read again, as the next one
            Role::Opens => {
                let next = here;
                return Taken { arguments, next };
            }
            Role::Closes => {
                let next = t.next;
                return Taken { arguments, next };
            }
            Role::Argues => {
                let first = t.first;
                let past = t.next.place;
                arguments = with_one(arguments, t.len, Part { first, past });
                here = t.next;
            }
        }
    }
}
