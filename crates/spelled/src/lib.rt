// Action lists written back (document 02, M-109): records and texts in one fixed spelling, where that reads back to them.

#![tactic(auto)]

mod entries;
mod fitting;
mod naming;
mod passing;
mod putting;
mod spelling;
mod writing;

pub use writing::write_actions;
