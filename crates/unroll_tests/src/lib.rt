//! Tests of the formulas of runs and induction steps, on texts of the low-level language.
#![tactic(auto)]

#[cfg(test)]
mod evaluated;
#[cfg(test)]
mod formulas;
#[cfg(test)]
mod worked;
