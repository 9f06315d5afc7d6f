//! A text decided: its report, or why there is none.

ghost use Rattle.std.specs.Prelude.{◌≡◌, ◌≤◌, length, IfOk, Err};
ghost use Rattle.std.specs.List.{AllByRecursion};
ghost use Rattle.hll_tree.specs.declared.tree.HllModel.{HllModel as TheModel};
ghost use Rattle.hll_meaning.specs.Runs.{obligations};
ghost use Rattle.hll_meaning.specs.StaticRules.{Well};
ghost use Rattle.hll_cli.specs.Accepted.{IsSpelled};
ghost use Rattle.hll_cli.specs.Report.{IsReport};
ghost use Rattle.hll_cli.specs.Prove.{IsTextRefusal};
ghost use Rattle.hll_cli.specs.declared.fault.Fault.TheVariants as fault;
ghost use Rattle.hll_cli.specs.declared.fault.Refusal.{Refusal as TheRefusal};

use crate::built::is_built;
use crate::collect::{asked, inputs};
use crate::fault::{Fault, Refusal};
use crate::report::{any_falsified, report};
use crate::rules::check_rules;
use crate::syntax::model_of;
use crate::table::MAX_INPUTS;
use crate::verdict::verdicts;
use hll_tree::HllModel;
use std::alloc::Global;

/// The greatest number of tokens of a text that is decided.
const MAX_TOKENS: usize = 20_000;

/// What is printed of a text, and whether a falsified obligation is among it.
#[derive(Debug, Drop)]
pub struct Decided {
    pub output: Vec<u8>,
    pub falsified: bool,
}

/// Decides each obligation of a text without static faults, which so many tokens spell.
fn decide_model(
    alloc: Global,
    text: &[u8],
    tokens: usize,
    model: &HllModel,
) -> Result<Decided, Fault>
    requires spelled { (is : IsSpelled text.now model.now) × (length is.tokens ≡ tokens) }
    requires only { (other : TheModel) (is : IsSpelled text.now other) → (other ≡ model.now) × (length is.tokens ≡ tokens) }
    requires places { AllByRecursion (λ e. e.at ≤ length text.now) (obligations model.now) }
    requires well { Well model.now }
    ensures report { IfOk result (λ r. IsReport text.now r.output.items r.falsified) }
    ensures refused { (r : TheRefusal) → result ≡ Err (fault.Refused r) → IsTextRefusal text.now r }
{
    if tokens > MAX_TOKENS || !is_built(model) {
        return Err(Fault::Refused(Refusal::Unbuilt));
    }
    let names = inputs(alloc, model)?;
    if names.len() > MAX_INPUTS {
        return Err(Fault::Refused(Refusal::Unbuilt));
    }
    let obligations = asked(alloc, model)?;
    let verdicts = verdicts(alloc, &names, &obligations)?;
    let output = report(alloc, text, &names, &obligations, verdicts.as_slice())?;
    let falsified = any_falsified(verdicts.as_slice());
    Ok(Decided { output, falsified })
}

/// Decides each obligation of a text.
pub fn decide(alloc: Global, text: &[u8]) -> Result<Decided, Fault>
    ensures report { IfOk result (λ r. IsReport text.now r.output.items r.falsified) }
    ensures refused { (r : TheRefusal) → result ≡ Err (fault.Refused r) → IsTextRefusal text.now r }
{
    let spelled = model_of(alloc, text)?;
    let tokens = spelled.tokens;
    let checked = check_rules(alloc, text, spelled.model)?;
    decide_model(alloc, text, tokens, checked.model())
}
