// The severity words (action.rs) with their numbers, rows as an operator's.
ghost use Rattle.std.specs.Prelude.{◌≡◌};
ghost use Rattle.names.specs.Shelves.{rows_of};
ghost use Rattle.names.specs.Severities.{severities, severity_code};

use crate::matching::row_among;

const WORDS: [[u8; 20]; 8] = [
    *b"emergency\0\0\0\0\0\0\0\0\0\0\0",
    *b"alert\0\0\0\0\0\0\0\0\0\0\0\0\0\0\0",
    *b"critical\0\0\0\0\0\0\0\0\0\0\0\0",
    *b"error\0\0\0\0\0\0\0\0\0\0\0\0\0\0\0",
    *b"warning\0\0\0\0\0\0\0\0\0\0\0\0\0",
    *b"notice\0\0\0\0\0\0\0\0\0\0\0\0\0\0",
    *b"info\0\0\0\0\0\0\0\0\0\0\0\0\0\0\0\0",
    *b"debug\0\0\0\0\0\0\0\0\0\0\0\0\0\0\0",
];

// A row's number is the word's.
fn by_length(rows: &[[u8; 20]], word: &[u8]) -> Option<u64>
    requires { rows.now ≡ rows_of severities }
    ensures { result ≡ severity_code word.now }
{
    match word.len() {
        4 => row_among(rows, word, 4, &[6]), // info
        5 => row_among(rows, word, 5, &[1, 3, 7]), // alert, error, debug
        6 => row_among(rows, word, 6, &[5]), // notice
        7 => row_among(rows, word, 7, &[4]), // warning
        8 => row_among(rows, word, 8, &[2]), // critical
        9 => row_among(rows, word, 9, &[0]), // emergency
        _ => None,
    }
}

pub fn severity_code(word: &[u8]) -> Option<u64>
    ensures { result ≡ severity_code word.now }
{
    by_length(&WORDS, word)
}
