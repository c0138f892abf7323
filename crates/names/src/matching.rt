// Names of one length, compared one after another where they stand in a table.
ghost use Rattle.std.specs.Prelude.{◌≡◌, length};
ghost use Rattle.names.specs.Runs.{PartsFit, AmongParts, FrontsFit, AmongFronts};

use crate::spelling::{in_words, spells};

// The code of the first part that is the name in capitals, of the parts of the run that begin at these places and have these codes.
pub fn among(run: &[u8], name: &[u8], n: usize, parts: &[(usize, u64)]) -> Option<u64>
    requires here { n ≡ length name.now }
    requires fits { PartsFit n run.now parts.now }
    ensures { AmongParts n run.now parts.now name.now result }
{
    let sought = in_words(name, n, true);
    for &(at, code) in parts {
        if spells(run, at, n, sought) {
            return Some(code);
        }
    }
    None
}

// A twin of the last: one function for parts of a run and rows of a table would take them from an iterator, which is no plainer.
// The number of the first row, of those listed, whose first `n` bytes are the name in small letters.
pub fn row_among(rows: &[[u8; 20]], name: &[u8], n: usize, listed: &[usize]) -> Option<u64>
    requires here { n ≡ length name.now }
    requires fits { FrontsFit n rows.now listed.now }
    ensures { AmongFronts n rows.now listed.now name.now result }
{
    let sought = in_words(name, n, false);
    for &row in listed {
        if spells(&rows[row], 0, n, sought) {
            return Some(row as u64);
        }
    }
    None
}
