// The operator names (operator.rs): 39 rows of 20 bytes in the enum's order, so that a row's number is the code.
ghost use Rattle.std.specs.Prelude.{◌≡◌};
ghost use Rattle.names.specs.Operators.{operator_code, requires_argument};

use crate::operator_rows::{of_twelve_and_more, up_to_eleven};

// Zero-filled behind the name.
const ROWS: [[u8; 20]; 39] = [
    *b"rx\0\0\0\0\0\0\0\0\0\0\0\0\0\0\0\0\0\0",
    *b"pm\0\0\0\0\0\0\0\0\0\0\0\0\0\0\0\0\0\0",
    *b"pmfromfile\0\0\0\0\0\0\0\0\0\0",
    *b"pmf\0\0\0\0\0\0\0\0\0\0\0\0\0\0\0\0\0",
    *b"streq\0\0\0\0\0\0\0\0\0\0\0\0\0\0\0",
    *b"contains\0\0\0\0\0\0\0\0\0\0\0\0",
    *b"containsword\0\0\0\0\0\0\0\0",
    *b"beginswith\0\0\0\0\0\0\0\0\0\0",
    *b"endswith\0\0\0\0\0\0\0\0\0\0\0\0",
    *b"within\0\0\0\0\0\0\0\0\0\0\0\0\0\0",
    *b"strmatch\0\0\0\0\0\0\0\0\0\0\0\0",
    *b"eq\0\0\0\0\0\0\0\0\0\0\0\0\0\0\0\0\0\0",
    *b"ne\0\0\0\0\0\0\0\0\0\0\0\0\0\0\0\0\0\0",
    *b"gt\0\0\0\0\0\0\0\0\0\0\0\0\0\0\0\0\0\0",
    *b"ge\0\0\0\0\0\0\0\0\0\0\0\0\0\0\0\0\0\0",
    *b"lt\0\0\0\0\0\0\0\0\0\0\0\0\0\0\0\0\0\0",
    *b"le\0\0\0\0\0\0\0\0\0\0\0\0\0\0\0\0\0\0",
    *b"detectsqli\0\0\0\0\0\0\0\0\0\0",
    *b"detectxss\0\0\0\0\0\0\0\0\0\0\0",
    *b"validateurlencoding\0",
    *b"validateutf8encoding",
    *b"validatebyterange\0\0\0",
    *b"validatehash\0\0\0\0\0\0\0\0",
    *b"validatedtd\0\0\0\0\0\0\0\0\0",
    *b"validateschema\0\0\0\0\0\0",
    *b"verifycc\0\0\0\0\0\0\0\0\0\0\0\0",
    *b"verifyssn\0\0\0\0\0\0\0\0\0\0\0",
    *b"verifycpf\0\0\0\0\0\0\0\0\0\0\0",
    *b"ipmatch\0\0\0\0\0\0\0\0\0\0\0\0\0",
    *b"ipmatchfromfile\0\0\0\0\0",
    *b"ipmatchf\0\0\0\0\0\0\0\0\0\0\0\0",
    *b"rbl\0\0\0\0\0\0\0\0\0\0\0\0\0\0\0\0\0",
    *b"geolookup\0\0\0\0\0\0\0\0\0\0\0",
    *b"gsblookup\0\0\0\0\0\0\0\0\0\0\0",
    *b"inspectfile\0\0\0\0\0\0\0\0\0",
    *b"fuzzyhash\0\0\0\0\0\0\0\0\0\0\0",
    *b"nomatch\0\0\0\0\0\0\0\0\0\0\0\0\0",
    *b"unconditionalmatch\0\0",
    *b"rsub\0\0\0\0\0\0\0\0\0\0\0\0\0\0\0\0",
];

// A flag for each operator, 1 or 0.
const NEEDS_ARGUMENT: [u8; 39] = *b"111111111111111110000111111111110111001";

// The rows with a name of the length are compared with it one after another.
pub fn operator_code(name: &[u8]) -> Option<u64>
    ensures { result ≡ operator_code name.now }
{
    let rows = &ROWS;
    if name.len() <= 11 {
        return up_to_eleven(rows, name);
    }
    of_twelve_and_more(rows, name)
}

pub fn requires_argument(code: u64) -> bool
    ensures { result ≡ requires_argument code }
{
    if code < 39 {
        NEEDS_ARGUMENT[code as usize] == b'1'
    } else {
        false
    }
}
