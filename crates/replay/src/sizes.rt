// The buffers of this program: what the stored questions and their answers need.

// Texts as long as the library took them when most questions were stored.
const SHORT: usize = 16384;

// What parse_setvar asks for a text. The text of a longer answer is told by a sum.
pub const SHORT_SETVAR: usize = SHORT + 3;

// Enough for a long question, its text and its line, each with few bytes more than the limit.
pub const LONG_BYTES: usize = lent::LIMIT + 4096;

// More pieces than a short text can have of two bytes and the mark between two.
const PIECES: usize = 5462;

// Words of token and variable records, and of action records.
pub const RECORDS: usize = 24576;

pub const ACTIONS: usize = PIECES * lent::ACTION_WORDS;

// The same for a package of as many directives, and of as many variables, as its bytes can name.
pub const DIRECTIVES: usize = 4096 * lent::DIRECTIVE_WORDS;

pub const VARIABLES: usize = PIECES * lent::VARIABLE_WORDS;

// All three of a package, more than those of any other question.
pub const PACKAGE: usize = DIRECTIVES + VARIABLES + ACTIONS;

// Words of the records that a phase is asked of.
pub const PHASED: usize = 64 * lent::ACTION_WORDS;

// Words of an index.
pub const INDEXED: usize = 64;

// A span word's base.
pub const SPAN: u64 = 4294967296;

// A question's line, in which each byte of its body is two digits.
pub const LINE: usize = 4 * SHORT;

// What a question is lent: bytes of a text and of scratch, of an action list's text, and of a listing, with the words of its records.
#[derive(Clone, Copy)]
pub struct Room {
    pub text: usize,
    pub acted: usize,
    pub line: usize,
    pub listed: usize,
}

// For a body that is written out.
pub fn short() -> Room {
    Room {
        text: SHORT,
        acted: SHORT_SETVAR,
        line: listing::LIST_LINE,
        listed: listing::LIST_RECORDS,
    }
}

// For one that is made of parts.
pub fn long() -> Room {
    Room {
        text: LONG_BYTES,
        acted: LONG_BYTES,
        line: LONG_BYTES,
        listed: RECORDS,
    }
}
