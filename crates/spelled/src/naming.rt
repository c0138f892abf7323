// Names and rules by code: the first of the Rust's names for an action, in small letters, and `t` for a transformation.
ghost use Rattle.std.specs.Prelude.{◌≡◌, ◌+◌, ◌≤◌};
ghost use Rattle.listing.specs.Steps.{far, Puts};
ghost use Rattle.spelled.specs.Steps.{name_for, rule_for};

use crate::putting::put_bytes;
use single_action::Rule;

// Names in rows of 16 bytes, zero-filled.
const NAMES: [u8; 528] =
    *b"\0\0\0\0\0\0\0\0\0\0\0\0\0\0\0\0deny\0\0\0\0\0\0\0\0\0\0\0\0block\0\0\0\0\0\0\0\0\0\0\0pass\0\0\0\0\0\0\0\0\0\0\0\0allow\0\0\0\0\0\0\0\0\0\0\0drop\0\0\0\0\0\0\0\0\0\0\0\0redirect\0\0\0\0\0\0\0\0chain\0\0\0\0\0\0\0\0\0\0\0skip\0\0\0\0\0\0\0\0\0\0\0\0skipafter\0\0\0\0\0\0\0multimatch\0\0\0\0\0\0id\0\0\0\0\0\0\0\0\0\0\0\0\0\0phase\0\0\0\0\0\0\0\0\0\0\0severity\0\0\0\0\0\0\0\0msg\0\0\0\0\0\0\0\0\0\0\0\0\0tag\0\0\0\0\0\0\0\0\0\0\0\0\0rev\0\0\0\0\0\0\0\0\0\0\0\0\0ver\0\0\0\0\0\0\0\0\0\0\0\0\0maturity\0\0\0\0\0\0\0\0accuracy\0\0\0\0\0\0\0\0logdata\0\0\0\0\0\0\0\0\0status\0\0\0\0\0\0\0\0\0\0setvar\0\0\0\0\0\0\0\0\0\0capture\0\0\0\0\0\0\0\0\0initcol\0\0\0\0\0\0\0\0\0expirevar\0\0\0\0\0\0\0log\0\0\0\0\0\0\0\0\0\0\0\0\0nolog\0\0\0\0\0\0\0\0\0\0\0auditlog\0\0\0\0\0\0\0\0noauditlog\0\0\0\0\0\0sanitisematched\0ctl\0\0\0\0\0\0\0\0\0\0\0\0\0t\0\0\0\0\0\0\0\0\0\0\0\0\0\0\0";

// Their lengths, and the rules by number.
const LENGTHS: [u8; 33] = [
    0, // no code
    4, // deny
    5, // block
    4, // pass
    5, // allow
    4, // drop
    8, // redirect
    5, // chain
    4, // skip
    9, // skipafter
    10, // multimatch
    2, // id
    5, // phase
    8, // severity
    3, // msg
    3, // tag
    3, // rev
    3, // ver
    8, // maturity
    8, // accuracy
    7, // logdata
    6, // status
    6, // setvar
    7, // capture
    7, // initcol
    9, // expirevar
    3, // log
    5, // nolog
    8, // auditlog
    10, // noauditlog
    15, // sanitisematched
    3, // ctl
    1, // t
];

// By number, for single_action's reason.
const RULES: [u8; 33] = [
    0, // no code
    0, // deny
    0, // block
    0, // pass
    0, // allow
    0, // drop
    1, // redirect
    0, // chain
    5, // skip
    1, // skipafter
    0, // multimatch
    6, // id
    3, // phase
    7, // severity
    2, // msg
    2, // tag
    2, // rev
    2, // ver
    3, // maturity
    3, // accuracy
    2, // logdata
    4, // status
    10, // setvar
    0, // capture
    8, // initcol
    9, // expirevar
    0, // log
    0, // nolog
    0, // auditlog
    0, // noauditlog
    0, // sanitisematched
    8, // ctl
    1, // t
];

pub fn put_name(out: &mut [u8], at: usize, code: u64) -> usize
    requires code_bound { code ≤ 32 }
    requires at_bound { at + 16 ≤ far }
    ensures { Puts out.old out.new at result (name_for code) }
{
    let row = code as usize;
    let first = 16 * row;
    let n = LENGTHS[row] as usize;
    put_bytes(out, at, &NAMES[first..first + n])
}

pub fn rule_for(code: u64) -> Rule
    requires { code ≤ 32 }
    ensures { result ≡ rule_for code }
{
    single_action::numbered_rule(RULES[code as usize])
}
