// The cursor past a byte: one rule in all states. The byte's column says enough: LF has the first, and white space the first four.
ghost use Rattle.std.specs.Prelude.{◌≡◌, ℕ, ◌≤◌};
ghost use Rattle.lent.specs.Sizes.{limit};
ghost use Rattle.lexer.specs.Cursors.{moved};
ghost use Rattle.plain.specs.Table.{class_of};
ghost use Rattle.plain.specs.Coding.{class_code};

use lexer::{Column, Cursor, Line};

#[tactic(auto, using(crate::proofs::ClassLaws::past_feed, crate::proofs::ClassLaws::past_flat))]
pub fn past(c: Cursor, column: usize) -> Cursor
    requires { (c.place ≤ limit) × (c.line.0 ≤ limit) × (c.column.0 ≤ limit) }
    ensures { (b : ℕ) → column ≡ class_code (class_of b) → result ≡ moved c b }
{
    let place = c.place + 1;
    if column == 0 {
        return Cursor {
            place,
            line: Line(c.line.0 + 1),
            column: Column(1),
            mark: true,
        };
    }
    Cursor {
        place,
        line: c.line,
        column: Column(c.column.0 + 1),
        mark: c.mark && column < 4,
    }
}
