// The variable names (variable.rs): one run of bytes, strictly ascending by name.
ghost use Rattle.std.specs.Prelude.{◌≡◌};
ghost use Rattle.names.specs.Variables.{variable_code, is_collection, is_implemented};

use crate::packing::NAMES;
use crate::variable_runs::{
    of_eighteen_and_more, of_nine_to_twelve, of_thirteen_to_seventeen, up_to_eight,
};

// A flag for each place of the enum, 1 or 0.
const COLLECTIONS: [u8; 92] =
    *b"11110000000000111100000110000000000111111110101000000000111010000000000000000010000000000000";

const IMPLEMENTED: [u8; 92] =
    *b"11111111111111111111110101101100111100000001111000000000100010000000000000000011000000111110";

// The names of the length are compared with the name where they stand in the run.
pub fn variable_code(name: &[u8]) -> Option<u64>
    ensures { result ≡ variable_code name.now }
{
    let n = name.len();
    let run = &NAMES;
    if n <= 8 {
        return up_to_eight(run, name);
    }
    if n <= 12 {
        return of_nine_to_twelve(run, name);
    }
    if n <= 17 {
        return of_thirteen_to_seventeen(run, name);
    }
    of_eighteen_and_more(run, name)
}

pub fn is_collection(code: u64) -> bool
    ensures { result ≡ is_collection code }
{
    if code < 92 {
        COLLECTIONS[code as usize] == b'1'
    } else {
        false
    }
}

pub fn is_implemented(code: u64) -> bool
    ensures { result ≡ is_implemented code }
{
    if code < 92 {
        IMPLEMENTED[code as usize] == b'1'
    } else {
        false
    }
}
