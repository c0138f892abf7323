// An id index beside the rules (document 02, M-106): which rules stand, by id, in a slice that the caller lends.
// Its words: a count, then id and line of each rule by turns, ids ascending, and zeros beyond.

#![tactic(auto)]

mod adding;
mod changing;
mod checking;
mod removing;
mod seeking;

pub use adding::{AddError, Added, add};
pub use removing::{Broken, Removed, remove};
