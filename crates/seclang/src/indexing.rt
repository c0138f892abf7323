// The index of ids beside the rules.
ghost use Rattle.seclang.specs.Codes.{selector_of};
ghost use Rattle.seclang.specs.Indexing.{AddsTold, RemovesTold};

use crate::looking::selector;
use crate::telling::{tell_added, tell_removed};

pub fn seclang_index_add(index: &mut [u64], actions: &[u64], line: u64, values: &mut [u64]) -> u64
    ensures { AddsTold actions.now line index.old index.new values.old values.new result }
{
    tell_added(index::add(index, actions, line), values)
}

pub fn seclang_index_remove(
    index: &mut [u64],
    ranged: bool,
    start: u64,
    end: u64,
    values: &mut [u64],
) -> u64
    ensures { RemovesTold (selector_of ranged start end) index.old index.new values.old values.new result }
{
    tell_removed(index::remove(index, selector(ranged, start, end)), values)
}
