//! Tests of the texts of low-level models.
#![tactic(auto)]

#[cfg(test)]
mod texts;
