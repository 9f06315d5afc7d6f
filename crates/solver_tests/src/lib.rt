//! Tests of the checker of logs and of the search, on small formulas.
#![tactic(auto)]

#[cfg(test)]
mod checks;
#[cfg(test)]
mod searches;
