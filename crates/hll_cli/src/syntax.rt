//! The model that a text spells, or its first mistake.

ghost use Rattle.std.specs.Prelude.{◌≡◌, ℕ, ◌≤◌, List, length, IfOk, Err};
ghost use Rattle.std.specs.List.{AllByRecursion};
ghost use Rattle.hll_lexer.specs.Place.{place_of};
ghost use Rattle.hll_tree.specs.declared.tree.HllModel.{HllModel};
ghost use Rattle.hll_meaning.specs.Runs.{obligations};
ghost use Rattle.hll_cli.specs.Accepted.{IsSpelled};
ghost use Rattle.hll_cli.specs.Texts.{IsMisspelled};
ghost use Rattle.hll_cli.specs.Mistakes.{IsFault, IsSyntaxFault};
ghost use Rattle.hll_cli.specs.declared.fault.Fault.TheVariants as fault;
ghost use Rattle.hll_cli.specs.declared.fault.Refusal.{Refusal as TheRefusal};
ghost use Rattle.hll_cli.specs.declared.fault.Refusal.TheVariants as refusal;

use crate::fault::{Fault, Mistake, Refusal};
use hll_grammar::{SyntaxFault, parse};
use hll_lexer::{LexFault, place, tokens};
use hll_tree::HllModel;
use std::alloc::Global;

/// How many bytes a text has at most.
pub const TEXT_LIMIT: u64 = 1 << 24;

/// A model, and how many tokens spell it.
#[derive(Drop)]
pub struct Spelled {
    pub model: HllModel,
    pub tokens: usize,
}

/// The refusal of a text for its first mistake, which stands at this byte.
fn misplaced(text: &[u8], mistake: Mistake, at: usize) -> Fault
    requires { at ≤ length text.now }
    ensures { result ≡ fault.Refused (refusal.Misplaced mistake (place_of text.now at)) }
{
    Fault::Refused(Refusal::Misplaced(mistake, place(text, at)))
}

/// The refusal of a text that has no tokens.
fn lexical(text: &[u8], lexing: LexFault) -> Fault
    requires { IsFault text.now lexing }
    ensures { (r : TheRefusal) → result ≡ fault.Refused r → IsMisspelled text.now r }
{
    match lexing {
        LexFault::Stray { at } => misplaced(text, Mistake::Stray, at),
        LexFault::Unclosed { at } => misplaced(text, Mistake::Unclosed, at),
        LexFault::Number { at } => misplaced(text, Mistake::Number, at),
        LexFault::Memory => Fault::Memory,
    }
}

/// The refusal of a text whose tokens spell no model.
fn syntactical(text: &[u8], parsing: SyntaxFault) -> Fault
    requires { IsSyntaxFault text.now parsing }
    ensures { (r : TheRefusal) → result ≡ fault.Refused r → IsMisspelled text.now r }
{
    match parsing {
        SyntaxFault::Unexpected { at } => misplaced(text, Mistake::Unexpected, at),
        SyntaxFault::Deep { at } => misplaced(text, Mistake::Deep, at),
        SyntaxFault::Memory => Fault::Memory,
    }
}

/// The model that a text spells.
pub fn model_of(alloc: Global, text: &[u8]) -> Result<Spelled, Fault>
    ensures spelled { IfOk result (λ s. (is : IsSpelled text.now s.model) × (length is.tokens ≡ s.tokens)) }
    ensures only { IfOk result (λ s. (other : HllModel) (is : IsSpelled text.now other) → (other ≡ s.model) × (length is.tokens ≡ s.tokens)) }
    ensures places { IfOk result (λ s. AllByRecursion (λ e. e.at ≤ length text.now) (obligations s.model)) }
    ensures refused { (r : TheRefusal) → result ≡ Err (fault.Refused r) → IsMisspelled text.now r }
{
    let tokens = match tokens(alloc, text) {
        Ok(tokens) => tokens,
        Err(lexing) => return Err(lexical(text, lexing)),
    };
    match parse(alloc, text, &tokens) {
        Ok(model) => Ok(Spelled {
            model,
            tokens: tokens.len(),
        }),
        Err(parsing) => Err(syntactical(text, parsing)),
    }
}
