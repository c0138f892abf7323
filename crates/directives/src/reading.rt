// The directives of a whole text, after the checks 1, 2 and 3.
ghost use Rattle.std.specs.Prelude.{◌≡◌, ◌+◌, ◌≤◌, length};
ghost use Rattle.lent.specs.Sizes.{limit};
ghost use Rattle.directives.specs.Promises.{lent_of, Directives};
ghost use Rattle.directives.specs.Steps.{at_line, ended_in, empty_tally, counted_on, Ends};

use crate::arguments::take_arguments;
use crate::bodies::read_body;
use crate::chains::{chain_behind, lacks_id};
use crate::parts::{Entry, Tally};
use crate::settling::{settle, settle_fault};
use crate::tokens::{Role, role_of, token_from};
use crate::writing::{finish, put_directive, refuse};
use crate::{DirectivesError, Fault, LineFault, Read, Version};
use lexer::{Cursor, Found};

fn at_line(why: LineFault, line: usize) -> Fault
    ensures { result ≡ at_line why line }
{
    Fault::Line { why, line }
}

fn nothing_yet() -> Tally
    ensures { result ≡ empty_tally }
{
    Tally {
        directives: 0,
        text: 0,
        variables: 0,
        actions: 0,
        chained: false,
    }
}

// What is reached behind one directive more.
fn counted(t: Tally, e: Entry) -> Tally
    requires { (t.directives ≤ limit) × ((t.variables + e.variables ≤ limit) × (t.actions + e.actions ≤ limit)) }
    ensures { result ≡ counted_on t e }
{
    Tally {
        directives: t.directives + 1,
        text: e.text,
        variables: t.variables + e.variables,
        actions: t.actions + e.actions,
        chained: chain_behind(t, e),
    }
}

// Behind the last token of a text of that length: reading stopped early, or all is read.
fn at_end(stop: Cursor, len: usize, t: Tally) -> Result<Tally, Fault>
    ensures { result ≡ ended_in stop len t }
{
    if stop.place < len {
        return Err(at_line(LineFault::Stopped, stop.line.0));
    }
    Ok(t)
}

// Writes every directive's texts, and its records where they fit; stops at the first fault.
fn read_all(
    s: &[u8],
    version: Version,
    text: &mut [u8],
    scratch: &mut [u8],
    records: &mut [u64],
    variables: &mut [u64],
    actions: &mut [u64],
) -> Result<Tally, Fault>
    requires { (length s.now ≤ limit) × ((length s.now ≤ length text.old) × (length s.now ≤ length scratch.old)) }
    ensures { Ends version s.now text.old text.new records.old records.new variables.old variables.new actions.old actions.new result }
{
    let mut here = lexer::start();
    let mut t = nothing_yet();
    // directive after directive, by the cursor behind the last
    loop {
        let token = match token_from(s, here, scratch, 0) {
            Found::Nothing(stop) => return at_end(stop, s.len(), t),
            Found::Token(token) => token,
        };
        let line = token.line.0;
        let next = token.next;
        match role_of(token.kind) {
            Role::Argues => return Err(at_line(LineFault::Untaken, line)),
            Role::Closes => here = next,
            Role::Opens => {
                let name = token.len;
                let taken = take_arguments(s, next, next.place, scratch, name);
                let a = taken.arguments;
                let e = match read_body(line, scratch, name, a, text, variables, actions, t) {
                    Err(f) => return Err(settle_fault(s, next, name, a, scratch, f)),
                    Ok(e) => e,
                };
                settle(s, next, name, a, scratch, variables, actions, t, e);
                if lacks_id(version, t, e) {
                    return Err(at_line(LineFault::IdMissing, line));
                }
                put_directive(records, line, token.first, a.past, t, e);
                t = counted(t, e);
                here = taken.next;
            }
        }
    }
}

// The directives of a text for that version: their records and texts with zeros beyond; or the first fault; or, where the records do not
// fit, how many there are. Scratch is all zero past the checks 1, 2 and 3.
pub fn directives(
    input: &[u8],
    version: Version,
    text: &mut [u8],
    scratch: &mut [u8],
    records: &mut [u64],
    variables: &mut [u64],
    actions: &mut [u64],
) -> Result<Read, DirectivesError>
    ensures { Directives version input.now (lent_of text.old scratch.old records.old variables.old actions.old) (lent_of text.new scratch.new records.new variables.new actions.new) result }
{
    lent::admit(input, text.len().min(scratch.len()), input.len())?;
    let ended = read_all(input, version, text, scratch, records, variables, actions);
    scratch.fill(0);
    match ended {
        Err(f) => {
            refuse(f, text, records, variables, actions);
            Err(DirectivesError::Refused(f))
        }
        Ok(t) => finish(text, records, variables, actions, t),
    }
}
