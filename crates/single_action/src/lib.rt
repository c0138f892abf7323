// One action (document 01, module 4): what a piece of a list comes to, and a setvar alone, by places in the piece.

#![tactic(auto)]

mod finding;
mod marking;
mod naming;
mod plans;
mod searching;
mod settings;
mod singles;

pub use marking::is_quotation;
pub use naming::{Rule, numbered_rule, put_name};
pub use plans::{Origin, Plan, PlanError};
pub use searching::has_macro;
pub use settings::read_setvar;
pub use singles::read_single;
