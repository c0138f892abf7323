// Which action records there are, and which of their words are texts.
ghost use Rattle.std.specs.Prelude.{false, ◌≡◌, get_or};
ghost use Rattle.records.specs.Codes.{shape_of, known_by, has_a, has_b, has_c};
ghost use Rattle.records.specs.Marks.{marks_for};

use crate::{MACRO_KIND, STRING_KIND, TRANSFORMATION};

// What a code says of the words a, b and c.
#[derive(Clone, Copy)]
pub enum Shape {
    // there is no such code
    NoCode,
    // none is a text
    Bare,
    // a is
    One,
    // a and b are
    Two,
    // these are, and c by the value kind
    Setting,
}

// By code, from 0.
const SHAPES: [Shape; 33] = [
    Shape::NoCode, // no code
    Shape::Bare, // deny
    Shape::Bare, // block
    Shape::Bare, // pass
    Shape::Bare, // allow
    Shape::Bare, // drop
    Shape::One, // redirect
    Shape::Bare, // chain
    Shape::Bare, // skip
    Shape::One, // skipAfter
    Shape::Bare, // multiMatch
    Shape::Bare, // id
    Shape::Bare, // phase
    Shape::Bare, // severity
    Shape::One, // msg
    Shape::One, // tag
    Shape::One, // rev
    Shape::One, // ver
    Shape::Bare, // maturity
    Shape::Bare, // accuracy
    Shape::One, // logData
    Shape::Bare, // status
    Shape::Setting, // setVar
    Shape::Bare, // capture
    Shape::Two, // initCol
    Shape::One, // expireVar
    Shape::Bare, // log
    Shape::Bare, // noLog
    Shape::Bare, // auditLog
    Shape::Bare, // noAuditLog
    Shape::Bare, // sanitiseMatched
    Shape::Two, // control
    Shape::One, // transformation
];

impl Shape {
    fn has_a(self) -> bool
        ensures { result ≡ has_a self }
    {
        matches!(self, Shape::One | Shape::Two | Shape::Setting)
    }

    fn has_b(self) -> bool
        ensures { result ≡ has_b self }
    {
        matches!(self, Shape::Two | Shape::Setting)
    }

    fn has_c(self, kind: u64) -> bool
        ensures { result ≡ has_c self kind }
    {
        matches!(self, Shape::Setting) && (kind == STRING_KIND || kind == MACRO_KIND)
    }

    // There is such a code and, for SetVar, such a value kind.
    fn is_known_by(self, kind: u64) -> bool
        ensures { result ≡ known_by self kind }
    {
        match self {
            Shape::NoCode => false,
            Shape::Bare | Shape::One | Shape::Two => true,
            Shape::Setting => STRING_KIND <= kind && kind <= MACRO_KIND,
        }
    }
}

fn shape_of(code: u64) -> Shape
    ensures { result ≡ shape_of code }
{
    if TRANSFORMATION < code {
        return Shape::NoCode;
    }
    // indexed by its own name, the table is laid out on the stack at each look
    let shapes = &SHAPES;
    shapes[code as usize]
}

// Whether there is such a code and, for SetVar, such a value kind.
pub fn is_known(code: u64, kind: u64) -> bool
    ensures { result ≡ known_by (shape_of code) kind }
{
    shape_of(code).is_known_by(kind)
}

// Whether the word at this place of a record is a text.
pub fn is_text(code: u64, kind: u64, place: usize) -> bool
    ensures { result ≡ get_or (marks_for code kind) place false }
{
    match place {
        2 => shape_of(code).has_a(),
        3 => shape_of(code).has_b(),
        5 => shape_of(code).has_c(kind),
        _ => false,
    }
}
