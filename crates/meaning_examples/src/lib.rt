//! Expressions and texts worked out by hand, with what the definitions of `hll_meaning` give for each.

#![tactic(auto)]

mod examples;

pub use examples::{
    chains_group, divisions_truncate, elements_have_their_codes, numbers_are_chosen,
    obligations_hold_or_break, operators_have_their_tables, parts_are_read, pre_looks_back,
    quantifiers_go_over_their_domains, safety_is_of_what_is_looked_at, texts_have_their_runs,
    types_are_as_written, values_fit,
};
