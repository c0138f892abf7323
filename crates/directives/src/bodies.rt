// What a directive says, by its shape.
ghost use Rattle.std.specs.Prelude.{◌≡◌, length, take};
ghost use Rattle.lexer.specs.Steps.{part};
ghost use Rattle.directives.specs.Directives.{rule_by, told, variables_read, operator_read, actions_read, shape_of, body_by};
ghost use Rattle.directives.specs.Steps.{takes as takes_so, held_arguments, held_list, shrunk_by, Ready, Bodied};

use crate::arguments::Arguments;
use crate::parts::{Entry, Tally, add_actions, add_name, add_operator, add_variables, empty_entry};
use crate::shapes::{Shape, shape_of};
use crate::{Fault, LineFault};

// Whether a directive of that shape takes so many arguments.
fn takes(shape: Shape, count: usize) -> bool
    ensures { result ≡ takes_so shape count }
{
    match shape {
        Shape::Rule => (2..=3).contains(&count),
        Shape::Action | Shape::Marker | Shape::Defaults => count == 1,
        Shape::Other => true,
    }
}

// Variables, operator and actions in this order. Where there is no third argument its text is empty, and so is its list.
// Each buffer is lent by itself, and in no struct: a part is lent only those that it writes.
fn read_rule(
    line: usize,
    scratch: &mut [u8],
    name: usize,
    a: Arguments,
    text: &mut [u8],
    variables: &mut [u64],
    actions: &mut [u64],
    t: Tally,
) -> Result<Entry, Fault>
    requires { Ready scratch.old text.old name a t }
    ensures { Bodied (told line (rule_by (variables_read (part scratch.old name a.one)) (operator_read (part scratch.old a.one a.two)) (actions_read (part scratch.old a.two a.three)))) (shrunk_by (part scratch.old a.two a.three)) t text.old text.new variables.old variables.new actions.old actions.new result }
{
    let empty = empty_entry(Shape::Rule, t.text);
    let listed = &scratch[name..a.one];
    let targeted = add_variables(empty, line, listed, text, variables, t.variables)?;
    let e = add_operator(targeted, line, &scratch[a.one..a.two], text)?;
    add_actions(e, line, scratch, a.two, a.three, text, actions, t.actions)
}

// What a directive's arguments come to: their count first, then each in turn.
pub fn read_body(
    line: usize,
    scratch: &mut [u8],
    name: usize,
    a: Arguments,
    text: &mut [u8],
    variables: &mut [u64],
    actions: &mut [u64],
    t: Tally,
) -> Result<Entry, Fault>
    requires { Ready scratch.old text.old name a t }
    ensures { Bodied (body_by (shape_of (take name scratch.old)) line (take name scratch.old) (held_arguments scratch.old name a)) (shrunk_by (held_list scratch.old name a)) t text.old text.new variables.old variables.new actions.old actions.new result }
{
    let shape = shape_of(&scratch[..name]);
    if !takes(shape, a.count) {
        let why = LineFault::WrongCount;
        return Err(Fault::Line { why, line });
    }
    let empty = empty_entry(shape, t.text);
    match shape {
        Shape::Rule => read_rule(line, scratch, name, a, text, variables, actions, t),
        Shape::Action | Shape::Defaults => {
            add_actions(empty, line, scratch, name, a.one, text, actions, t.actions)
        }
        Shape::Marker => Ok(add_name(empty, &scratch[name..a.one], text)),
        Shape::Other => Ok(add_name(empty, &scratch[..name], text)),
    }
}
