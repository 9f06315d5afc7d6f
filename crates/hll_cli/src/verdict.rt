//! Verdicts on obligations, by a truth table for each.

ghost use Rattle.std.specs.Prelude.{◌≡◌, ℕ, ◌≤◌, ◌<◌, List, [], ◌∷◌, length, map, IfSome, IfNone, IfOk, false, true};
ghost use Rattle.std.specs.List.{slice_index_or, AllByRecursion, AllZip};
ghost use Rattle.hll_cli.specs.BooleanTexts.{is_boolean, UsesOnly};
ghost use Rattle.hll_cli.specs.Accepted.{input_limit};
ghost use Rattle.hll_cli.specs.Table.{row, IsDecidedBy};

use crate::table::column;
use hll_tree::Expr;
use sqlite_items::Items;
use std::alloc::{AllocError, Global};

/// What was found of an obligation.
#[derive(Debug, Drop)]
pub enum Verdict {
    /// It holds at the last instant of every run, found in this round.
    Proved(u32),
    /// A trace whose run breaks it: for each instant a value for each input.
    Falsified(Items<Items<bool>>),
}

/// The first row of a column that is false.
fn first_false(column: &[bool]) -> Option<usize>
    ensures there { IfSome result (λ k. k < length column.now) }
    ensures at { IfSome result (λ k. slice_index_or column.now k false ≡ false) }
    ensures none { IfNone result ((k : ℕ) → k < length column.now → slice_index_or column.now k false ≡ true) }
{
    column.iter().position(|value| !*value)
}

/// The values of the inputs at a row.
fn instant(alloc: Global, inputs: usize, number: usize) -> Result<Items<bool>, AllocError>
    requires { inputs ≤ input_limit }
    ensures { IfOk result (λ values. values ≡ row inputs number) }
{
    let mut values = Items::new(alloc);
    for position in 0..inputs {
        values.push((number >> position) % 2 == 1)?;
    }
    Ok(values)
}

/// A trace of one instant.
fn trace(alloc: Global, values: Items<bool>) -> Result<Items<Items<bool>>, AllocError>
    ensures { IfOk result (λ rows. rows ≡ values ∷ []) }
{
    let mut rows = Items::new(alloc);
    rows.push(values)?;
    Ok(rows)
}

/// The verdict on a Boolean obligation over these inputs.
fn verdict_on(alloc: Global, names: &[&[u8]], obligation: &Expr) -> Result<Verdict, AllocError>
    requires few { length names.now ≤ input_limit }
    requires boolean { is_boolean obligation.now ≡ true }
    requires declared { UsesOnly (map (λ n. n.now) names.now) obligation.now }
    ensures { IfOk result (IsDecidedBy (map (λ n. n.now) names.now) obligation.now) }
{
    let column = column(alloc, names, obligation)?;
    match first_false(&column) {
        None => Ok(Verdict::Proved(1)),
        Some(number) => {
            let values = instant(alloc, names.len(), number)?;
            Ok(Verdict::Falsified(trace(alloc, values)?))
        }
    }
}

/// The verdicts on Boolean obligations over these inputs, in order.
pub fn verdicts(
    alloc: Global,
    names: &[&[u8]],
    obligations: &[&Expr],
) -> Result<Items<Verdict>, AllocError>
    requires few { length names.now ≤ input_limit }
    requires boolean { AllByRecursion (λ e. is_boolean e ≡ true) (map (λ e. e.now) obligations.now) }
    requires declared { AllByRecursion (UsesOnly (map (λ n. n.now) names.now)) (map (λ e. e.now) obligations.now) }
    ensures { IfOk result (AllZip (IsDecidedBy (map (λ n. n.now) names.now)) (map (λ e. e.now) obligations.now)) }
{
    let mut verdicts = Items::new(alloc);
    for obligation in obligations {
        verdicts.push(verdict_on(alloc, names, obligation)?)?;
    }
    Ok(verdicts)
}
