// Names and their codes (document 01, module 2): variables, operators and severity words looked up, and tests on a code.

#![tactic(auto)]

mod folding;
mod matching;
mod operator_names;
mod operator_rows;
mod packing;
mod severities;
mod spelling;
mod variable_names;
mod variable_runs;
mod wording;

pub use operator_names::{operator_code, requires_argument};
pub use severities::severity_code;
pub use variable_names::{is_collection, is_implemented, variable_code};
