// An index of ids.
ghost use Rattle.seclang.specs.Codes.{selector_of};
ghost use Rattle.seclang.specs.Indexing.{AddsTold, RemovesTold};

#[unsafe(no_mangle)]
pub extern "C" fn seclang_index_add(
    index: &mut [u64],
    actions: &[u64],
    line: u64,
    values: &mut [u64],
) -> u64
    ensures { AddsTold actions.now line index.old index.new values.old values.new result }
{
    seclang::seclang_index_add(index, actions, line, values)
}

#[unsafe(no_mangle)]
pub extern "C" fn seclang_index_remove(
    index: &mut [u64],
    ranged: bool,
    start: u64,
    end: u64,
    values: &mut [u64],
) -> u64
    ensures { RemovesTold (selector_of ranged start end) index.old index.new values.old values.new result }
{
    seclang::seclang_index_remove(index, ranged, start, end, values)
}
