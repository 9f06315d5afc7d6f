ghost use Rattle.std.specs.Prelude.{◌<◌, ◌≤◌, ◌^◌, ◌≡◌, ◌+◌, length, IfOk};
ghost use Rattle.cdcl_solver.specs.Answers.{Answers, IsDecided};
ghost use Rattle.cdcl_solver.specs.Literals.{IsClear};

use crate::analysis::{Workspace, analyse};
use crate::answer::Answer;
use crate::search::Search;
use rup_checker::{Formula, Log};
use sqlite_items::Items;
use std::alloc::{AllocError, Global};

/// The most steps that a budget may allow.
pub const MAX_BUDGET: u32 = 1_000_000;

/// Searches for a satisfying assignment, and learns at most `budget` clauses on the way.
pub fn solve(alloc: Global, formula: &Formula, budget: u32) -> Result<Answer, AllocError>
    requires some { 1 ≤ budget }
    requires bound { budget ≤ 1000000 }
    requires clauses { length formula.now.clauses < 2 ^ 31 }
    ensures answer { IfOk result (Answers formula.now budget) }
    ensures decided { 3 ^ formula.now.variables < budget → IfOk result IsDecided }
{
    let mut work = Workspace::new(alloc, formula.variables())?;
    run(alloc, formula, budget, &mut work)
}

/// The same, with a workspace in which nothing is marked.
fn run(
    alloc: Global,
    formula: &Formula,
    budget: u32,
    work: &mut Workspace,
) -> Result<Answer, AllocError>
    requires bound { budget ≤ 1000000 }
    requires clauses { length formula.now.clauses < 2 ^ 31 }
    requires variables { work.old.seen.variables ≡ formula.now.variables }
    requires size { length work.old.places ≡ formula.now.variables + 1 }
    requires clear { IsClear work.old.seen }
    ensures answer { IfOk result (Answers formula.now budget) }
    ensures decided { 3 ^ formula.now.variables < budget → IfOk result IsDecided }
{
    let mut search = Search::new(alloc, formula)?;
    let mut steps = Items::new(alloc);
    loop {
        if let Some(conflict) = search.propagate()? {
            let learnt = analyse(alloc, &search, work, conflict)?;
            let back = learnt.back;
            let step = learnt.step;
            if step.clause.is_empty() {
                steps.push(step)?;
                return Ok(Answer::Unsat(Log { steps }));
            }
            if steps.len() == budget as usize {
                return Ok(Answer::Spent(Log { steps }));
            }
            work.order.undo(search.trail(), back)?;
            search.backtrack(back);
            search = search.learn(step.clause.as_slice())?;
            steps.push(step)?;
        } else if let Some(literal) = work.order.next(&search) {
            search.assume(literal)?;
        } else {
            return Ok(Answer::Sat(search.assignment(alloc)?));
        }
    }
}
