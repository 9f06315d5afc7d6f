//! Texts with their trees, and texts that the grammar refuses.
#![tactic(auto)]

#[cfg(test)]
mod texts;
