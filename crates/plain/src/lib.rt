// The plain lexer (document 02, M-103): a second lexer with the promise of the first, one byte at a step, by a table that can be drawn.

#![tactic(auto)]

mod acting;
mod moving;
mod running;
mod table;

pub use running::plain_tokens;
