// Action records (document 01): codes, value kinds, and which words are texts. What a record says is defined in specs/, and read back in proofs/.

#![tactic(auto)]

mod marking;

pub use marking::{Shape, is_known, is_text};

// The codes of actions: the words of a record, which the C interface fixes.
pub const DENY: u64 = 1;

pub const BLOCK: u64 = 2;

pub const PASS: u64 = 3;

pub const ALLOW: u64 = 4;

pub const DROP: u64 = 5;

pub const REDIRECT: u64 = 6;

pub const CHAIN: u64 = 7;

pub const SKIP: u64 = 8;

pub const SKIP_AFTER: u64 = 9;

pub const MULTI_MATCH: u64 = 10;

pub const ID: u64 = 11;

pub const PHASE: u64 = 12;

pub const SEVERITY: u64 = 13;

pub const MSG: u64 = 14;

pub const TAG: u64 = 15;

pub const REV: u64 = 16;

pub const VER: u64 = 17;

pub const MATURITY: u64 = 18;

pub const ACCURACY: u64 = 19;

pub const LOG_DATA: u64 = 20;

pub const STATUS: u64 = 21;

pub const SET_VAR: u64 = 22;

pub const CAPTURE: u64 = 23;

pub const INIT_COL: u64 = 24;

pub const EXPIRE_VAR: u64 = 25;

pub const LOG: u64 = 26;

pub const NO_LOG: u64 = 27;

pub const AUDIT_LOG: u64 = 28;

pub const NO_AUDIT_LOG: u64 = 29;

pub const SANITISE_MATCHED: u64 = 30;

pub const CONTROL: u64 = 31;

pub const TRANSFORMATION: u64 = 32;

// The kinds of a setvar's value, words of a record too.
pub const STRING_KIND: u64 = 1;

pub const INT_KIND: u64 = 2;

pub const INCREMENT_KIND: u64 = 3;

pub const DECREMENT_KIND: u64 = 4;

pub const DELETE_KIND: u64 = 5;

pub const MACRO_KIND: u64 = 6;
