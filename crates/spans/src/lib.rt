// Span words that hosts stored while an input had 16,384 bytes at most, to the span words of today and back (document 02, M-105).

#![tactic(auto)]

mod converting;

pub use converting::{TooFar, span_from_old, span_to_old};
