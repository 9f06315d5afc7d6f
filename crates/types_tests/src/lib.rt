//! Texts with their first static faults, and with what those without faults give their readers.
#![tactic(auto)]

#[cfg(test)]
mod models;
#[cfg(test)]
mod readers;
#[cfg(test)]
mod texts;
