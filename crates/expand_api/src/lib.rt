//! What expanders of typed models share: the laws of binary digits, and codes of numbers.
#![tactic(auto)]

mod code;
pub mod digits;
#[cfg(test)]
mod tests;

pub use code::{code_of, digits_of, natural_of, number_of};
