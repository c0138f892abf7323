// A name in words of eight bytes, folded, beside a part of a table.
ghost use Rattle.std.specs.Prelude.{◌≡◌, map, ◌+◌, ◌<◌, ◌≤◌, length};
ghost use Rattle.names.specs.Tables.{casing};
ghost use Rattle.names.specs.Words.{Eighth, Worded, Spelled};

use crate::folding::fold;
use crate::wording::{eight, up_to_eight};

// The last word has one to eight bytes; the others eight, where there is a byte behind them, else they are 0.
#[derive(Clone, Copy)]
pub struct Words {
    pub last: u64,
    pub first: u64,
    pub second: u64,
    pub third: u64,
}

// The eight bytes from a place on, folded, if a byte stands behind them.
fn eighth(name: &[u8], at: usize, n: usize, capitals: bool) -> u64
    requires here { n ≡ length name.now }
    requires few { at ≤ 16 }
    ensures { Eighth (map (casing capitals) name.now) at result }
{
    if at + 8 < n {
        fold(eight(name, at), capitals)
    } else {
        0
    }
}

// The name's letters folded where they stand. Its length is told, so that where the caller knows it each word is a load or two.
pub fn in_words(name: &[u8], n: usize, capitals: bool) -> Words
    requires here { n ≡ length name.now }
    requires some { (0 < n) × (n ≤ 32) }
    ensures { Worded (map (casing capitals) name.now) result }
{
    let at = (n - 1) / 8 * 8;
    let last = fold(up_to_eight(name, at, n - at), capitals);
    let first = eighth(name, 0, n, capitals);
    let second = eighth(name, 8, n, capitals);
    let third = eighth(name, 16, n, capitals);
    Words {
        last,
        first,
        second,
        third,
    }
}

// Whether the `n` bytes from a place on are the name whose words these are. The last word first: names begin alike more often.
pub fn spells(table: &[u8], at: usize, n: usize, name: Words) -> bool
    requires here { at + n ≤ length table.now }
    requires some { (0 < n) × (n ≤ 32) }
    ensures { Spelled table.now at n name result }
{
    let before = (n - 1) / 8 * 8;
    if up_to_eight(table, at + before, n - before) != name.last {
        return false;
    }
    if n <= 8 {
        return true;
    }
    if eight(table, at) != name.first {
        return false;
    }
    if n <= 16 {
        return true;
    }
    if eight(table, at + 8) != name.second {
        return false;
    }
    if n <= 24 {
        return true;
    }
    if eight(table, at + 16) != name.third {
        return false;
    }
    true
}
