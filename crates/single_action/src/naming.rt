// The table of actions: the arms of parse_single_action as rows.
ghost use Rattle.std.specs.Prelude.{◌≡◌, ◌<◌, length};
ghost use Rattle.lent.specs.Buffers.{stored};
ghost use Rattle.single_action.specs.Table.{row_at, rule_of};

// The largest number of each width.
pub const LARGEST_8: u64 = u8::MAX as u64;

const LARGEST_16: u64 = u16::MAX as u64;

const LARGEST_32: u64 = u32::MAX as u64;

// What is done with an argument.
#[derive(Clone, Copy)]
pub enum Rule {
    // nothing
    Plain,
    // it is the text, and must be there
    Wanted,
    // it is the text without the marks at both ends, empty where absent
    Unmarked,
    // a number up to this, the largest of its width
    UpTo(u64),
    // a number or a severity word, without the marks at both ends
    Severity,
    // two texts, split at the first `=`
    Equation,
    // a text and seconds, split at the first `=`
    Expiry,
    // a setvar specification
    Setting,
}

// Names as the Rust's errors spell them, 16 bytes each, zero-filled.
const NAMES: [u8; 656] =
    *b"deny\0\0\0\0\0\0\0\0\0\0\0\0block\0\0\0\0\0\0\0\0\0\0\0pass\0\0\0\0\0\0\0\0\0\0\0\0allow\0\0\0\0\0\0\0\0\0\0\0drop\0\0\0\0\0\0\0\0\0\0\0\0redirect\0\0\0\0\0\0\0\0chain\0\0\0\0\0\0\0\0\0\0\0skip\0\0\0\0\0\0\0\0\0\0\0\0skipAfter\0\0\0\0\0\0\0id\0\0\0\0\0\0\0\0\0\0\0\0\0\0phase\0\0\0\0\0\0\0\0\0\0\0severity\0\0\0\0\0\0\0\0msg\0\0\0\0\0\0\0\0\0\0\0\0\0tag\0\0\0\0\0\0\0\0\0\0\0\0\0rev\0\0\0\0\0\0\0\0\0\0\0\0\0ver\0\0\0\0\0\0\0\0\0\0\0\0\0maturity\0\0\0\0\0\0\0\0accuracy\0\0\0\0\0\0\0\0logdata\0\0\0\0\0\0\0\0\0status\0\0\0\0\0\0\0\0\0\0setvar\0\0\0\0\0\0\0\0\0\0capture\0\0\0\0\0\0\0\0\0log\0\0\0\0\0\0\0\0\0\0\0\0\0nolog\0\0\0\0\0\0\0\0\0\0\0auditlog\0\0\0\0\0\0\0\0noauditlog\0\0\0\0\0\0sanitisematched\0sanitizematched\0ctl\0\0\0\0\0\0\0\0\0\0\0\0\0initcol\0\0\0\0\0\0\0\0\0setsid\0\0\0\0\0\0\0\0\0\0setuid\0\0\0\0\0\0\0\0\0\0deprecatevar\0\0\0\0expirevar\0\0\0\0\0\0\0multimatch\0\0\0\0\0\0exec\0\0\0\0\0\0\0\0\0\0\0\0append\0\0\0\0\0\0\0\0\0\0prepend\0\0\0\0\0\0\0\0\0proxy\0\0\0\0\0\0\0\0\0\0\0pause\0\0\0\0\0\0\0\0\0\0\0xmlns\0\0\0\0\0\0\0\0\0\0\0";

// Their lengths, the actions' codes, and their rules by number, row by row.
const LENGTHS: [u8; 41] = [
    4, // deny
    5, // block
    4, // pass
    5, // allow
    4, // drop
    8, // redirect
    5, // chain
    4, // skip
    9, // skipAfter
    2, // id
    5, // phase
    8, // severity
    3, // msg
    3, // tag
    3, // rev
    3, // ver
    8, // maturity
    8, // accuracy
    7, // logdata
    6, // status
    6, // setvar
    7, // capture
    3, // log
    5, // nolog
    8, // auditlog
    10, // noauditlog
    15, // sanitisematched
    15, // sanitizematched
    3, // ctl
    7, // initcol
    6, // setsid
    6, // setuid
    12, // deprecatevar
    9, // expirevar
    10, // multimatch
    4, // exec
    6, // append
    7, // prepend
    5, // proxy
    5, // pause
    5, // xmlns
];

const CODES: [u64; 41] = [
    records::DENY, // deny
    records::BLOCK, // block
    records::PASS, // pass
    records::ALLOW, // allow
    records::DROP, // drop
    records::REDIRECT, // redirect
    records::CHAIN, // chain
    records::SKIP, // skip
    records::SKIP_AFTER, // skipAfter
    records::ID, // id
    records::PHASE, // phase
    records::SEVERITY, // severity
    records::MSG, // msg
    records::TAG, // tag
    records::REV, // rev
    records::VER, // ver
    records::MATURITY, // maturity
    records::ACCURACY, // accuracy
    records::LOG_DATA, // logdata
    records::STATUS, // status
    records::SET_VAR, // setvar
    records::CAPTURE, // capture
    records::LOG, // log
    records::NO_LOG, // nolog
    records::AUDIT_LOG, // auditlog
    records::NO_AUDIT_LOG, // noauditlog
    records::SANITISE_MATCHED, // sanitisematched
    records::SANITISE_MATCHED, // sanitizematched
    records::CONTROL, // ctl
    records::INIT_COL, // initcol
    records::NO_AUDIT_LOG, // setsid
    records::NO_AUDIT_LOG, // setuid
    records::NO_AUDIT_LOG, // deprecatevar
    records::EXPIRE_VAR, // expirevar
    records::MULTI_MATCH, // multimatch
    records::NO_AUDIT_LOG, // exec
    records::NO_AUDIT_LOG, // append
    records::NO_AUDIT_LOG, // prepend
    records::NO_AUDIT_LOG, // proxy
    records::NO_AUDIT_LOG, // pause
    records::NO_AUDIT_LOG, // xmlns
];

// By number: a constant table of the rules themselves is laid out anew at each look (parse_actions 37.9 instructions a byte for 23.4).
const RULES: [u8; 41] = [
    0, // deny
    0, // block
    0, // pass
    0, // allow
    0, // drop
    1, // redirect
    0, // chain
    5, // skip
    1, // skipAfter
    6, // id
    3, // phase
    7, // severity
    2, // msg
    2, // tag
    2, // rev
    2, // ver
    3, // maturity
    3, // accuracy
    2, // logdata
    4, // status
    10, // setvar
    0, // capture
    0, // log
    0, // nolog
    0, // auditlog
    0, // noauditlog
    0, // sanitisematched
    0, // sanitizematched
    8, // ctl
    8, // initcol
    0, // setsid
    0, // setuid
    0, // deprecatevar
    9, // expirevar
    0, // multimatch
    0, // exec
    0, // append
    0, // prepend
    0, // proxy
    0, // pause
    0, // xmlns
];

// A row's name at the front of `out`, where it fits, and its length. A row past the table has the empty name.
pub fn put_name(row: usize, out: &mut [u8]) -> usize
    ensures { (out.new ≡ stored out.old 0 (row_at row).name) × (result ≡ length (row_at row).name) }
{
    if 41 <= row {
        return 0;
    }
    let n = LENGTHS[row] as usize;
    let at = 16 * row;
    lent::store(out, 0, &NAMES[at..at + n]);
    n
}

pub fn code_of(row: usize) -> u64
    requires { row < 41 }
    ensures { result ≡ (row_at row).code }
{
    CODES[row]
}

// The rule by its number in the table.
pub fn numbered_rule(number: u8) -> Rule
    ensures { result ≡ rule_of number }
{
    match number {
        1 => Rule::Wanted,
        2 => Rule::Unmarked,
        3 => Rule::UpTo(LARGEST_8),
        4 => Rule::UpTo(LARGEST_16),
        5 => Rule::UpTo(LARGEST_32),
        6 => Rule::UpTo(u64::MAX),
        7 => Rule::Severity,
        8 => Rule::Equation,
        9 => Rule::Expiry,
        10 => Rule::Setting,
        _ => Rule::Plain,
    }
}

pub fn rule_of(row: usize) -> Rule
    requires { row < 41 }
    ensures { result ≡ (row_at row).rule }
{
    numbered_rule(RULES[row])
}
