// Operator names by their length: the rows that have such a name.
ghost use Rattle.std.specs.Prelude.{◌≡◌, ◌<◌, ◌≤◌, length};
ghost use Rattle.names.specs.Shelves.{rows_of};
ghost use Rattle.names.specs.Operators.{operators, operator_code};

use crate::matching::row_among;

// Up to eleven letters.
pub fn up_to_eleven(rows: &[[u8; 20]], name: &[u8]) -> Option<u64>
    requires rows { rows.now ≡ rows_of operators }
    requires long { length name.now ≤ 11 }
    ensures { result ≡ operator_code name.now }
{
    match name.len() {
        2 => row_among(rows, name, 2, &[0, 1, 11, 12, 13, 14, 15, 16]), // rx, pm, eq, ne, gt, ge, lt, le
        3 => row_among(rows, name, 3, &[3, 31]), // pmf, rbl
        4 => row_among(rows, name, 4, &[38]), // rsub
        5 => row_among(rows, name, 5, &[4]), // streq
        6 => row_among(rows, name, 6, &[9]), // within
        7 => row_among(rows, name, 7, &[28, 36]), // ipmatch, nomatch
        8 => row_among(rows, name, 8, &[5, 8, 10, 25, 30]), // contains, endswith, strmatch, verifycc, ipmatchf
        9 => row_among(rows, name, 9, &[18, 26, 27, 32, 33, 35]), // detectxss, verifyssn, verifycpf, geolookup, gsblookup, fuzzyhash
        10 => row_among(rows, name, 10, &[2, 7, 17]), // pmfromfile, beginswith, detectsqli
        11 => row_among(rows, name, 11, &[23, 34]), // validatedtd, inspectfile
        _ => None,
    }
}

// Twelve and more.
pub fn of_twelve_and_more(rows: &[[u8; 20]], name: &[u8]) -> Option<u64>
    requires rows { rows.now ≡ rows_of operators }
    requires long { 11 < length name.now }
    ensures { result ≡ operator_code name.now }
{
    match name.len() {
        12 => row_among(rows, name, 12, &[6, 22]), // containsword, validatehash
        14 => row_among(rows, name, 14, &[24]), // validateschema
        15 => row_among(rows, name, 15, &[29]), // ipmatchfromfile
        17 => row_among(rows, name, 17, &[21]), // validatebyterange
        18 => row_among(rows, name, 18, &[37]), // unconditionalmatch
        19 => row_among(rows, name, 19, &[19]), // validateurlencoding
        20 => row_among(rows, name, 20, &[20]), // validateutf8encoding
        _ => None,
    }
}
