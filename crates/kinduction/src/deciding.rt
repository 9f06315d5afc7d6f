//! An obligation, round by round.

ghost use Rattle.std.specs.Prelude.{◌+◌, ◌<◌, ◌≤◌, length, IfOk};
ghost use Rattle.cdcl_solver.specs.Answers.{Answers};
ghost use Rattle.unroll_cnf.specs.Unrollings.{base_formula, step_formula};
ghost use Rattle.kinduction.specs.Rounds.{Decides};
ghost use Rattle.kinduction.specs.Sizes.{IsSearchable, RoundsFit};

use crate::{Found, Spot};
use cdcl_solver::{Answer, solve};
use lll_core::Lll;
use sqlite_items::Items;
use std::alloc::{AllocError, Global};
use unroll_cnf::{base, input_rows, step};

/// The search over the runs that break the obligation at an instant and end there.
fn search_base(
    alloc: Global,
    l: &Lll,
    p: usize,
    instant: u32,
    budget: u32,
) -> Result<Answer, AllocError>
    requires obligation { p < length l.now.obligations }
    requires some_budget { 1 ≤ budget }
    requires budget_bound { budget ≤ 1000000 }
    requires size { IsSearchable (base_formula l.now p instant) }
    ensures { IfOk result (Answers (base_formula l.now p instant) budget) }
{
    let formula = base(alloc, l, p, instant)?;
    solve(alloc, &formula, budget)
}

/// The search over the windows of a round.
fn search_step(
    alloc: Global,
    l: &Lll,
    p: usize,
    round: u32,
    budget: u32,
) -> Result<Answer, AllocError>
    requires obligation { p < length l.now.obligations }
    requires some_budget { 1 ≤ budget }
    requires budget_bound { budget ≤ 1000000 }
    requires size { IsSearchable (step_formula l.now p round) }
    ensures { IfOk result (Answers (step_formula l.now p round) budget) }
{
    let formula = step(alloc, l, p, round)?;
    solve(alloc, &formula, budget)
}

/// Tries the obligation with number `p` in at most `depth` rounds, each search with the same budget of learnt clauses.
/// Round by round, first the base formula of the next instant is searched, then the step formula.
pub fn decide(
    alloc: Global,
    l: &Lll,
    p: usize,
    depth: u32,
    budget: u32,
) -> Result<Found, AllocError>
    requires obligation { p < length l.now.obligations }
    requires some_depth { 1 ≤ depth }
    requires depth_bound { depth ≤ 64 }
    requires some_budget { 1 ≤ budget }
    requires budget_bound { budget ≤ 1000000 }
    requires size { RoundsFit l.now p depth }
    ensures { IfOk result (Decides l.now p depth budget) }
{
    let mut bases = Items::new(alloc);
    let mut instant = 0;
    loop {
        match search_base(alloc, l, p, instant, budget)? {
            Answer::Sat(values) => {
                let bits = input_rows(alloc, l, instant + 1, &values)?;
                return Ok(Found::Falsified { bits, bases });
            }
            Answer::Unsat(log) => bases.push(log)?,
            Answer::Spent(log) => {
                let place = Spot::Base(instant);
                return Ok(Found::Conflicts { place, log, bases });
            }
        }
        let round = instant + 1;
        match search_step(alloc, l, p, round, budget)? {
            Answer::Sat(values) => {
                if round == depth {
                    let step_model = Items::from_vec(values);
                    return Ok(Found::Depth { step_model, bases });
                }
            }
            Answer::Unsat(step) => return Ok(Found::Proved {
                k: round,
                bases,
                step,
            }),
            Answer::Spent(log) => {
                let place = Spot::Step(round);
                return Ok(Found::Conflicts { place, log, bases });
            }
        }
        instant = round;
    }
}
