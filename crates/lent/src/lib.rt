// What the caller lends: the gate that every reader's input passes, and the buffers it writes.

#![tactic(auto)]

mod ending;
mod filling;
mod gating;
mod packing;
mod refusing;

pub use ending::{finish, refuse_piece, starts};
pub use filling::store;
pub use gating::{GateError, admit, first_high};
pub use packing::{room, span, span_length, span_offset};
pub use refusing::Flaw;

// The longest input, in bytes.
pub const LIMIT: usize = 1048576;

// Words in a record of each kind.
pub const TOKEN_WORDS: usize = 5;

pub const ACTION_WORDS: usize = 7;

pub const VARIABLE_WORDS: usize = 6;

pub const DIRECTIVE_WORDS: usize = 11;
