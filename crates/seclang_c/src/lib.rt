// The library for C: each function of `seclang` under its own name, with the same promise.

#![tactic(auto)]

mod converting;
mod indexing;
mod looking;
mod printing;
mod reading;
mod versioning;

pub use converting::{seclang_span_from_old, seclang_span_to_old};
pub use indexing::{seclang_index_add, seclang_index_remove};
pub use looking::{
    seclang_grade, seclang_lookup, seclang_matches, seclang_phase, seclang_test, seclang_xml_target,
};
pub use printing::{
    seclang_list_text, seclang_write_actions, seclang_write_listing, seclang_write_refusal,
};
pub use reading::{
    seclang_directives, seclang_next_token, seclang_parse_actions, seclang_parse_operator,
    seclang_parse_setvar, seclang_parse_update_targets, seclang_parse_variables,
    seclang_plain_tokens, seclang_tokens,
};
pub use versioning::seclang_version;
