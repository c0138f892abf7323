// What stands before a token.
ghost use Rattle.lexer.specs.Steps.{Within, Skipped};

use crate::bytes::{Class, class_of, line_end};
use crate::{Column, Cursor, Line};

// The cursor at the next token: past blanks, continuations and lone backslashes.
pub fn skip_blanks(s: &[u8], c: Cursor) -> Cursor
    requires { Within s.now c }
    ensures { Skipped s.now c result }
{
    let mut place = c.place;
    let mut line = c.line;
    let mut column = c.column;
    let mut mark = c.mark;
    // a `while`, since a backslash with its line end is passed at once
    while place < s.len() {
        match class_of(s[place]) {
            Class::Gap | Class::Return => {
                place += 1;
                column = Column(column.0 + 1);
            }
            Class::Slash => {
                let owed = line_end(s, place + 1);
                if owed == 0 {
                    place += 1;
                    column = Column(column.0 + 1);
                    mark = false;
                } else {
                    place += 1 + owed;
                    line = Line(line.0 + 1);
                    column = Column(1);
                    mark = true;
                }
            }
            _ => break,
        }
    }
    Cursor {
        place,
        line,
        column,
        mark,
    }
}
