//! Texts of traces: those that are read and written again, and the first faults of others.
#![tactic(auto)]

#[cfg(test)]
mod faults;
#[cfg(test)]
mod lengths;
#[cfg(test)]
mod texts;
#[cfg(test)]
mod values;
