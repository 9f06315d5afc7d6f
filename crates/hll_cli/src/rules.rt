//! Whether a text keeps the static rules.

ghost use Rattle.std.specs.Prelude.{◌≡◌, Err, IfOk};
ghost use Rattle.hll_lexer.specs.Place.{place_of};
ghost use Rattle.hll_meaning.specs.StaticRules.{Well};
ghost use Rattle.hll_cli.specs.Accepted.{IsSpelled};
ghost use Rattle.hll_cli.specs.Prove.{IsTextRefusal};
ghost use Rattle.hll_cli.specs.declared.fault.Fault.TheVariants as fault;
ghost use Rattle.hll_cli.specs.declared.fault.Mistake.TheVariants as mistake;
ghost use Rattle.hll_cli.specs.declared.fault.Refusal.{Refusal as TheRefusal};
ghost use Rattle.hll_cli.specs.declared.fault.Refusal.TheVariants as refusal;

use crate::fault::{Fault, Mistake, Refusal};
use hll_lexer::{LineColumn, place};
use hll_meaning::StaticKind;
use hll_tree::HllModel;
use hll_types::{Checked, StaticFault, check};
use std::alloc::Global;

/// The place of a byte offset. One beyond the text has the place of its end.
fn place_or_end(text: &[u8], at: u64) -> LineColumn
    ensures { result ≡ place_of text.now at }
{
    place(text, (at as usize).min(text.len()))
}

/// The refusal of a text for its first static fault, which stands at this byte.
fn faulty(text: &[u8], kind: StaticKind, at: u64) -> Fault
    ensures { result ≡ fault.Refused (refusal.Misplaced (mistake.Static kind) (place_of text.now at)) }
{
    Fault::Refused(Refusal::Misplaced(Mistake::Static(kind), place_or_end(text, at)))
}

/// A text whose model has no static fault. One that has a fault is refused for the first one.
pub fn check_rules(alloc: Global, text: &[u8], model: HllModel) -> Result<Checked, Fault>
    requires { IsSpelled text.now model }
    ensures checked { IfOk result (λ checked. (checked ≡ model) × Well model) }
    ensures refused { (r : TheRefusal) → result ≡ Err (fault.Refused r) → IsTextRefusal text.now r }
{
    match check(alloc, model) {
        Ok(checked) => Ok(checked),
        Err(StaticFault::Fault { kind, at }) => Err(faulty(text, kind, at)),
        Err(StaticFault::Memory) => Err(Fault::Memory),
    }
}
