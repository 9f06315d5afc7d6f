//! What is read off an assignment: the inputs of each instant, and the latches of the first.

ghost use Rattle.std.specs.Prelude.{◌≡◌, ◌+◌, ◌*◌, ◌<◌, ◌≤◌, ◌∷◌, [], ℕ, IfOk, length, map, take};
ghost use Rattle.lll_core.specs.Tables.{Table, IsRun, IsWindow, values_where, input_values, latch_values};
ghost use Rattle.rup_checker.specs.Formulas.{Satisfies, listed};
ghost use Rattle.unroll_cnf.specs.Unrollings.{base_formula, step_formula};
ghost use Rattle.unroll_cnf.specs.Counterexamples.{shown_at, shown, IsCounterexample, IsInductionCounterexample};
ghost use Rattle.unroll_cnf.specs.Rows.{is_chosen};

use lll_core::{Lll, Signal};
use sqlite_items::Items;
use std::alloc::{AllocError, Global};

/// Which signals' values are read off.
#[derive(Debug, Clone, Copy)]
enum Chosen {
    Inputs,
    Latches,
}

/// Whether a signal is one of those that are chosen.
fn is_one_of(chosen: Chosen, signal: &Signal) -> bool
    ensures { result ≡ is_chosen chosen signal.now }
{
    match (chosen, signal) {
        (Chosen::Inputs, Signal::Input(_)) => true,
        (Chosen::Inputs, Signal::One | Signal::Latch { .. } | Signal::Imp(..) | Signal::Eqv(..)) =>
            false,
        (Chosen::Latches, Signal::Latch { .. }) => true,
        (Chosen::Latches, Signal::One | Signal::Input(_) | Signal::Imp(..) | Signal::Eqv(..)) =>
            false,
    }
}

/// The values of the chosen signals at an instant, in the order of the signals.
fn row(
    alloc: Global,
    chosen: Chosen,
    signals: &[Signal],
    instant: u32,
    values: &[bool],
) -> Result<Items<bool>, AllocError>
    requires { instant * length signals.now + length signals.now ≤ length values.now }
    ensures { IfOk result (λ bits. bits ≡ values_where (is_chosen chosen) signals.now
        (shown_at (length signals.now) (listed values.now) instant)) }
{
    let start = instant as usize * signals.len();
    let mut bits = Items::new(alloc);
    for (number, signal) in signals.iter().enumerate() {
        if is_one_of(chosen, signal) {
            bits.push(values[start + number])?;
        }
    }
    Ok(bits)
}

/// The values of the inputs at an instant.
fn input_row(
    alloc: Global,
    signals: &[Signal],
    instant: u32,
    values: &[bool],
) -> Result<Items<bool>, AllocError>
    requires { instant * length signals.now + length signals.now ≤ length values.now }
    ensures { IfOk result (λ bits. bits ≡ input_values signals.now (shown_at (length signals.now) (listed values.now) instant)) }
{
    row(alloc, Chosen::Inputs, signals, instant, values)
}

/// The values of the latches at an instant.
fn latch_row(
    alloc: Global,
    signals: &[Signal],
    instant: u32,
    values: &[bool],
) -> Result<Items<bool>, AllocError>
    requires { instant * length signals.now + length signals.now ≤ length values.now }
    ensures { IfOk result (λ bits. bits ≡ latch_values signals.now (shown_at (length signals.now) (listed values.now) instant)) }
{
    row(alloc, Chosen::Latches, signals, instant, values)
}

/// The rows of input bits, in the order of the signals, of so many instants that an assignment shows, the value of
/// variable 1 first. Where it satisfies a base formula, the run of these inputs is a counterexample.
pub fn input_rows(
    alloc: Global,
    l: &Lll,
    instants: u32,
    values: &[bool],
) -> Result<Items<Items<bool>>, AllocError>
    requires { instants * length l.now.signals ≤ length values.now }
    ensures rows { IfOk result (λ rows. rows ≡ map (input_values l.now.signals) (shown l.now.signals instants (listed values.now))) }
    ensures counterexample { IfOk result (λ rows. (p j : ℕ) (g : Table) → p < length l.now.obligations → instants ≡ j + 1
        → Satisfies (listed values.now) (base_formula l.now p j).clauses
        → IsRun l.now.signals g → map (input_values l.now.signals) g ≡ rows → IsCounterexample l.now p j g) }
{
    let mut rows = Items::new(alloc);
    for instant in 0..instants {
        let bits = input_row(alloc, l.signals.as_slice(), instant, values)?;
        rows.push(bits)?;
    }
    Ok(rows)
}

/// The values of the latches, in the order of the signals, at the first instant that an assignment shows. Where it
/// satisfies a step formula, the window that begins with these latches and has the inputs that are shown is a
/// counterexample to induction.
pub fn first_latches(alloc: Global, l: &Lll, values: &[bool]) -> Result<Items<bool>, AllocError>
    requires { length l.now.signals ≤ length values.now }
    ensures latches { IfOk result (λ bits. bits ≡ latch_values l.now.signals (shown_at (length l.now.signals) (listed values.now) 0)) }
    ensures counterexample { IfOk result (λ bits. (p k : ℕ) (g : Table) → p < length l.now.obligations
        → Satisfies (listed values.now) (step_formula l.now p k).clauses
        → IsWindow l.now.signals g → map (input_values l.now.signals) g ≡ map (input_values l.now.signals) (shown l.now.signals (k + 1) (listed values.now))
        → map (latch_values l.now.signals) (take 1 g) ≡ bits ∷ [] → IsInductionCounterexample l.now p k g) }
{
    latch_row(alloc, l.signals.as_slice(), 0, values)
}
