// Where the bytes of a text that was read came from (document 02, M-104): a walk along the bytes that it was read from.

#![tactic(auto)]

mod acting;
mod moving;
mod running;
mod walking;

pub use moving::{resite, site_word};
pub use walking::site;

// How a text was read: line continuations taken out of a list of actions; a word; the bytes behind an opening quotation mark.
#[derive(Clone, Copy)]
pub enum Rule {
    Joined,
    Word,
    Quoted,
}
