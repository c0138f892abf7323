// All tokens of a text, a byte at a step.
ghost use Rattle.std.specs.Prelude.{◌≡◌, ◌≤◌, length};
ghost use Rattle.lent.specs.Sizes.{limit};
ghost use Rattle.lexer.specs.Promises.{Tokens};
ghost use Rattle.lexer.specs.Steps.{Whole};
ghost use Rattle.plain.specs.Coding.{column_digits, cell_numbers};
ghost use Rattle.plain.specs.Steps.{tallied};

use crate::acting::{Held, act, step};
use crate::moving::past;
use crate::table::{CELLS, COLUMNS, HALT, OVER, S, cell_of, column_of};
use lexer::{Cursor, Read, Tally, TokensError};

// What was read, where the last token was told and reading stopped.
fn tally(h: Held, stop: Cursor) -> Tally
    ensures { result ≡ tallied h stop }
{
    Tally {
        count: h.count,
        used: h.used,
        stop,
    }
}

// The loop: the column of the byte, its cell, the cell's acts, the next state, and the cursor past the byte.
fn run_by(
    columns: &[u8; 256],
    cells: &[usize; 165],
    s: &[u8],
    text: &mut [u8],
    records: &mut [u64],
) -> Tally
    requires columns_value { (columns.now ≡ column_digits) × (cells.now ≡ cell_numbers) }
    requires s_len_bound { (length s.now ≤ limit) × (length s.now ≤ length text.old) }
    ensures { Whole s.now text.old text.new records.old records.new result }
{
    let mut here = lexer::start();
    let mut held = Held {
        from: here,
        start: 0,
        used: 0,
        count: 0,
    };
    let mut state = S;
    for b in s {
        let class = column_of(columns, *b);
        let x = cell_of(cells, state, class);
        held = step(x, state, *b, here, held, text, records);
        if HALT <= x {
            return tally(held, here);
        }
        state = x % 256;
        here = past(here, class);
    }
    let x = cell_of(cells, state, OVER);
    held = act(x, state, here, held, text, records);
    tally(held, here)
}

// The same with the tables laid out once.
fn run(s: &[u8], text: &mut [u8], records: &mut [u64]) -> Tally
    requires s_len_bound { length s.now ≤ limit }
    requires s_in_bounds { length s.now ≤ length text.old }
    ensures { Whole s.now text.old text.new records.old records.new result }
{
    let columns = COLUMNS;
    let cells = CELLS;
    run_by(&columns, &cells, s, text, records)
}

// All tokens of a text: the same promise as the first lexer's `tokens`.
pub fn plain_tokens(input: &[u8], text: &mut [u8], records: &mut [u64]) -> Result<Read, TokensError>
    ensures { Tokens input.now text.old text.new records.old records.new result }
{
    lent::admit(input, text.len(), input.len())?;
    let read = run(input, text, records);
    lexer::end_reading(read, text, records)
}
