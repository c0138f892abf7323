// One action: parse_single_action, by places.
ghost use Rattle.std.specs.Prelude.{◌≡◌, List, ℕ, ◌≤◌, ◌<◌, length, drop};
ghost use Rattle.ascii.specs.Splits.{split};
ghost use Rattle.single_action.specs.Table.{row_at};
ghost use Rattle.single_action.specs.Actions.{number_by, severity_number, both_by, expiry_by, with_text, with_none, transforms, single};
ghost use Rattle.single_action.specs.Plans.{text_plan, Planned, Judged};

use crate::finding::row_of;
use crate::marking::unmarked;
use crate::naming::{LARGEST_8, Rule, code_of, rule_of};
use crate::plans::{Origin, Plan, PlanError};
use crate::settings::setvar_plan;
use ascii::NumberError;
use lent::Flaw;

// A record with a number and at most one text.
fn text_plan(code: u64, number: u64, a: Origin) -> Plan
    ensures { result ≡ text_plan code number a }
{
    Plan {
        code,
        number,
        a,
        b: Origin::Absent,
        kind: 0,
        c: Origin::Absent,
    }
}

// A number that was read, or why it was not. It is kept whole, at every width.
fn number_verdict(row: usize, n: Result<u64, NumberError>) -> Result<Plan, PlanError>
    requires { row < 41 }
    ensures { (s : List ℕ) → Judged s result (number_by (row_at row) n) }
{
    match n {
        Ok(v) => Ok(text_plan(code_of(row), v, Origin::Absent)),
        Err(NumberError::Unreadable) => Err(PlanError::Bad {
            flaw: Flaw::Unreadable,
            row,
        }),
        Err(NumberError::TooLarge) => Err(PlanError::Bad {
            flaw: Flaw::TooLarge,
            row,
        }),
    }
}

// parse_severity: a number of the width u8 first, then the words, where the text says no number.
fn severity_number(text: &[u8]) -> Result<u64, NumberError>
    ensures { result ≡ severity_number text.now }
{
    match ascii::unsigned(text, LARGEST_8) {
        Ok(v) => Ok(v),
        Err(NumberError::TooLarge) => Err(NumberError::TooLarge),
        Err(NumberError::Unreadable) => names::severity_code(text).ok_or(NumberError::Unreadable),
    }
}

// Both halves as texts, of what stands from `from` on.
fn both_plan(s: &[u8], from: usize, code: u64) -> Plan
    requires { from ≤ length s.now }
    ensures { Planned s.now result (both_by code (split 61 (drop from s.now))) }
{
    let past = s.len();
    let equals = from + ascii::first_of(&s[from..], b'=');
    let behind = if equals < past { equals + 1 } else { past };
    Plan {
        code,
        number: 0,
        a: Origin::Copied {
            first: from,
            past: equals,
        },
        b: Origin::Copied {
            first: behind,
            past,
        },
        kind: 0,
        c: Origin::Absent,
    }
}

// A variable and its seconds, which are 0 where they are unreadable, too large or not there.
fn expiry_plan(s: &[u8], from: usize, code: u64) -> Plan
    requires { from ≤ length s.now }
    ensures { Planned s.now result (expiry_by code (split 61 (drop from s.now))) }
{
    let equals = from + ascii::first_of(&s[from..], b'=');
    let name = Origin::Copied {
        first: from,
        past: equals,
    };
    if s.len() <= equals {
        return text_plan(code, 0, name);
    }
    let seconds = ascii::unsigned(&s[equals + 1..], u64::MAX).unwrap_or(0);
    text_plan(code, seconds, name)
}

// A row's rule on the argument that starts at `from`.
fn with_text(row: usize, s: &[u8], from: usize) -> Result<Plan, PlanError>
    requires row_bound { row < 41 }
    requires from_in_bounds { from ≤ length s.now }
    ensures { Judged s.now result (with_text (row_at row).rule (row_at row) (drop from s.now)) }
{
    let past = s.len();
    let code = code_of(row);
    match rule_of(row) {
        Rule::Plain => Ok(text_plan(code, 0, Origin::Absent)),
        Rule::Wanted => Ok(text_plan(code, 0, Origin::Copied { first: from, past })),
        Rule::Unmarked => {
            let part = unmarked(s, from);
            let first = part.first;
            let past = part.past;
            Ok(text_plan(code, 0, Origin::Copied { first, past }))
        }
        Rule::UpTo(most) => number_verdict(row, ascii::unsigned(&s[from..], most)),
        Rule::Severity => {
            let part = unmarked(s, from);
            let first = part.first;
            let past = part.past;
            number_verdict(row, severity_number(&s[first..past]))
        }
        Rule::Equation => Ok(both_plan(s, from, code)),
        Rule::Expiry => Ok(expiry_plan(s, from, code)),
        Rule::Setting => Ok(setvar_plan(s, from, code)),
    }
}

// And where there is no argument: some take the empty text, others are refused.
fn with_none(row: usize) -> Result<Plan, PlanError>
    requires { row < 41 }
    ensures { (s : List ℕ) → Judged s result (with_none (row_at row).rule (row_at row)) }
{
    let code = code_of(row);
    let empty = Origin::Copied { first: 0, past: 0 };
    match rule_of(row) {
        Rule::Plain => Ok(text_plan(code, 0, Origin::Absent)),
        Rule::Unmarked => Ok(text_plan(code, 0, empty)),
        Rule::Expiry => Ok(text_plan(code, 0, empty)),
        _ => Err(PlanError::Bad {
            flaw: Flaw::Absent,
            row,
        }),
    }
}

// `t:` stands first, in small letters only.
fn is_transform(s: &[u8]) -> bool
    ensures { result ≡ transforms s.now }
{
    s.starts_with(b"t:")
}

// One piece, which is trimmed.
pub fn read_single(s: &[u8]) -> Result<Plan, PlanError>
    ensures { Judged s.now result (single s.now) }
{
    let past = s.len();
    if is_transform(s) {
        return Ok(text_plan(
            records::TRANSFORMATION,
            0,
            Origin::Copied { first: 2, past },
        ));
    }
    let colon = ascii::first_of(s, b':');
    let Some(row) = row_of(&s[..colon]) else {
        return Err(PlanError::Unknown(colon));
    };
    if colon < past {
        with_text(row, s, colon + 1)
    } else {
        with_none(row)
    }
}
