// Listings, and action lists written back.
ghost use Rattle.std.specs.Prelude.{◌≡◌, length};
ghost use Rattle.listing.specs.Listings.{refusal};
ghost use Rattle.listing.specs.Promises.{listing_outcome, fitted};
ghost use Rattle.spelled.specs.Promises.{written_outcome};
ghost use Rattle.seclang.specs.Readers.{stop_of, Lists, ListsText};

use crate::telling::tell_listed;
use lexer::{Column, Line};
use listing::Stop;

fn stop_of(early: bool, line: usize, column: usize) -> Option<Stop>
    ensures { result ≡ stop_of early line column }
{
    early.then_some(Stop {
        line: Line(line),
        column: Column(column),
    })
}

pub fn seclang_write_listing(
    records: &[u64],
    text: &[u8],
    early: bool,
    line: usize,
    column: usize,
    out: &mut [u8],
    values: &mut [u64],
) -> u64
    ensures { Lists (listing_outcome records.now text.now (stop_of early line column) (length out.old)) out.old out.new values.old values.new result }
{
    let stop = stop_of(early, line, column);
    tell_listed(listing::write_listing(records, text, stop, out), values)
}

pub fn seclang_write_refusal(number: u64, place: u64, out: &mut [u8], values: &mut [u64]) -> u64
    ensures { Lists (fitted (length out.old) (refusal number place)) out.old out.new values.old values.new result }
{
    tell_listed(listing::write_refusal(number, place, out), values)
}

pub fn seclang_list_text(
    input: &[u8],
    text: &mut [u8],
    records: &mut [u64],
    out: &mut [u8],
    values: &mut [u64],
) -> u64
    ensures { ListsText input.now text.old text.new records.old records.new out.old out.new values.old values.new result }
{
    tell_listed(listing::list_text(input, text, records, out), values)
}

pub fn seclang_write_actions(
    records: &[u64],
    text: &[u8],
    out: &mut [u8],
    values: &mut [u64],
) -> u64
    ensures { Lists (written_outcome records.now text.now (length out.old)) out.old out.new values.old values.new result }
{
    tell_listed(spelled::write_actions(records, text, out), values)
}
