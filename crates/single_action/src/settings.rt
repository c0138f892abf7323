// A setvar specification: parse_setvar of the Rust, by places.
ghost use Rattle.std.specs.Prelude.{◌≡◌, ◌≤◌, length, drop};
ghost use Rattle.records.specs.Codes.{set_var_code};
ghost use Rattle.single_action.specs.Setvar.{name_of, plain_value, value_of, setvar_bare, setvar};
ghost use Rattle.single_action.specs.Actions.{setvar_action};
ghost use Rattle.single_action.specs.Plans.{cut, step_plan, setvar_plan, NamePlanned, ValuePlanned, Planned};

use crate::marking::is_paired;
use crate::plans::{Origin, Plan};
use crate::searching::has_macro;
use ascii::NumberError;

// The collection and the key.
#[derive(Clone, Copy)]
pub struct NamePlan {
    pub collection: Origin,
    pub key: Origin,
}

// The value: its number, its kind from 1 in the order of SetVarValue, and its text.
#[derive(Clone, Copy)]
pub struct ValuePlan {
    pub number: u64,
    pub kind: u64,
    pub text: Origin,
}

// parse_var_name, on the bytes from `first` up to `past`.
fn name_plan(s: &[u8], first: usize, past: usize) -> NamePlan
    requires first_le_past { first ≤ past }
    requires past_in_bounds { past ≤ length s.now }
    ensures { NamePlanned s.now result (name_of (cut s.now first past)) }
{
    let dot = first + ascii::first_of(&s[first..past], b'.');
    if past <= dot {
        return NamePlan {
            collection: Origin::Tx,
            key: Origin::Copied { first, past },
        };
    }
    NamePlan {
        collection: Origin::Lowered { first, past: dot },
        key: Origin::Copied {
            first: dot + 1,
            past,
        },
    }
}

// A step's amount: 1 where it is unreadable or too large.
fn step(kind: u64, amount: Result<u64, NumberError>) -> ValuePlan
    ensures { result ≡ step_plan kind amount }
{
    ValuePlan {
        number: amount.unwrap_or(1),
        kind,
        text: Origin::Absent,
    }
}

// A value without a macro, on the bytes from `first` up to `past`: `+`, `-`, a number, a text.
fn plain_value(s: &[u8], first: usize, past: usize) -> ValuePlan
    requires first_le_past { first ≤ past }
    requires past_in_bounds { past ≤ length s.now }
    ensures { ValuePlanned s.now result (plain_value (cut s.now first past)) }
{
    if first < past {
        match s[first] {
            b'+' => return step(records::INCREMENT_KIND, ascii::signed(&s[first + 1..past])),
            b'-' => return step(records::DECREMENT_KIND, ascii::signed(&s[first + 1..past])),
            _ => {}
        }
    }
    match ascii::signed(&s[first..past]) {
        Ok(number) => ValuePlan {
            number,
            kind: records::INT_KIND,
            text: Origin::Absent,
        },
        Err(_) => ValuePlan {
            number: 0,
            kind: records::STRING_KIND,
            text: Origin::Copied { first, past },
        },
    }
}

// The value behind `=`: a macro anywhere in it comes first.
fn value_plan(s: &[u8], first: usize, past: usize) -> ValuePlan
    requires first_le_past { first ≤ past }
    requires past_in_bounds { past ≤ length s.now }
    ensures { ValuePlanned s.now result (value_of (cut s.now first past)) }
{
    if has_macro(&s[first..past]) {
        return ValuePlan {
            number: 0,
            kind: records::MACRO_KIND,
            text: Origin::Copied { first, past },
        };
    }
    plain_value(s, first, past)
}

// A setvar's record from its name and its value.
fn setvar_of(code: u64, name: NamePlan, value: ValuePlan) -> Plan
    ensures { result ≡ setvar_plan code name value }
{
    Plan {
        code,
        number: value.number,
        a: name.collection,
        b: name.key,
        kind: value.kind,
        c: value.text,
    }
}

// A specification without its marks, on the bytes from `first` up to `past`: `!` first, then the first `=`.
fn bare_plan(s: &[u8], first: usize, past: usize, code: u64) -> Plan
    requires first_le_past { first ≤ past }
    requires past_in_bounds { past ≤ length s.now }
    ensures { Planned s.now result (setvar_action code (setvar_bare (cut s.now first past))) }
{
    if first < past && s[first] == b'!' {
        let deleted = ValuePlan {
            number: 0,
            kind: records::DELETE_KIND,
            text: Origin::Absent,
        };
        return setvar_of(code, name_plan(s, first + 1, past), deleted);
    }
    let equals = first + ascii::first_of(&s[first..past], b'=');
    if past <= equals {
        let one = ValuePlan {
            number: 0,
            kind: records::STRING_KIND,
            text: Origin::One,
        };
        return setvar_of(code, name_plan(s, first, past), one);
    }
    setvar_of(
        code,
        name_plan(s, first, equals),
        value_plan(s, equals + 1, past),
    )
}

// A setvar by the argument that starts at `from`: trimmed, and without one matching pair of marks.
pub fn setvar_plan(s: &[u8], from: usize, code: u64) -> Plan
    requires { from ≤ length s.now }
    ensures { Planned s.now result (setvar_action code (setvar (drop from s.now))) }
{
    let part = ascii::trimmed(&s[from..]);
    let first = from + part.first;
    let past = from + part.past;
    if is_paired(&s[first..past]) {
        return bare_plan(s, first + 1, past - 1, code);
    }
    bare_plan(s, first, past, code)
}

// A setvar specification alone, which has the code of SetVar.
pub fn read_setvar(s: &[u8]) -> Plan
    ensures { Planned s.now result (setvar_action set_var_code (setvar s.now)) }
{
    setvar_plan(s, 0, records::SET_VAR)
}
