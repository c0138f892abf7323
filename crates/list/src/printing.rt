// A text's line, with room for all that a text within the program's limit holds.
ghost use Rattle.std.specs.Prelude.{◌≤◌, length};
ghost use Rattle.listing.specs.Listings.{line_most, list_limit};
ghost use Rattle.list.specs.Printing.{Prints, Lists};

use listing::ListingError;

// What the library lists.
fn list_within(input: &[u8], out: &mut [u8]) -> Result<usize, ListingError>
    requires { length input.now ≤ list_limit }
    ensures { Lists input.now out.old out.new result }
{
    let mut text = [0u8; listing::LIST_LIMIT];
    let mut records = [0u64; listing::LIST_RECORDS];
    listing::list_text(input, &mut text, &mut records, out)
}

// The program's limit is its own, below the library's: a longer text is refused here, as the library would with that limit.
fn list_any(input: &[u8], out: &mut [u8]) -> Result<usize, ListingError>
    ensures { Lists input.now out.old out.new result }
{
    if listing::LIST_LIMIT < input.len() {
        return listing::write_refusal_line(1, listing::LIST_LIMIT as u64, out);
    }
    list_within(input, out)
}

// Writes the line at the front of `out`, and gives its length. That it always fits is proved.
pub fn line_of(input: &[u8], out: &mut [u8]) -> usize
    requires { line_most ≤ length out.old }
    ensures { Prints input.now out.new result }
{
    list_any(input, out).unwrap()
}
