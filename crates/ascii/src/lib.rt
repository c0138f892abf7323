// Bytes and numbers (document 01, module 1): what every parser reads by.

#![tactic(auto)]

mod classes;
mod folding;
mod numbers;
mod searching;
mod trimming;

pub use classes::{ends_operator_name, is_digit, is_white};
pub use folding::{is_same, same_lowered, to_lower, to_upper};
pub use numbers::{NumberError, digits, signed, unsigned};
pub use searching::first_of;
pub use trimming::{
    ByteTest, Part, White, kept_len, leading, leading_white, trim, trim_end, trim_start, trimmed,
    trimmed_len,
};
