// Rules as a desk sees them (document 01, module 6; document 02, M-101): selectors of ids, a rule's phase, and the house grade.

#![tactic(auto)]

mod finding;
mod grading;
mod phases;
mod selecting;

pub use finding::first_number;
pub use grading::grade;
pub use phases::phase;
pub use selecting::RuleIdSelector;
