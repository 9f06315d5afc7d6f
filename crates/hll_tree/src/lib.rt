//! The tree of a text, with its grammar as a relation and its layout.
//!
//! Contracts see a tree as plain data: a list as its items and a box as what it holds. `specs/Spells.antt`
//! says which tokens spell a tree, `specs/Printing.antt` how it is printed.
#![tactic(auto)]

mod copies;
mod expressions;
mod laws;
mod printer;
mod tree;

pub use laws::printed_texts_are_texts;
pub use printer::print;
pub use tree::{
    Branch, Cmp, ConstItem, Decl, Declarator, Def, Domain, Expr, Field, Form, HllModel, Link, Name,
    Op, Part, Precedence, Quant, Reach, Section, Slot, TypeItem, TypeText,
};

#[cfg(test)]
mod tests;
