//! The parts of a miter, one after the other.

ghost use Rattle.std.specs.Prelude.{◌<◌, ◌≤◌, length, IfOk};
ghost use Rattle.rup_checker.specs.Formulas.{IsUnsatisfiable};
ghost use Rattle.cdcl_solver.specs.Answers.{Answers};
ghost use Rattle.kinduction.specs.Parts.{part_formula, AreNeverDifferent, Compares};
ghost use Rattle.kinduction.specs.Shares.{TriesPart};
ghost use Rattle.kinduction.specs.Sizes.{IsSearchable, PartsFit};

use crate::Equal;
use cdcl_solver::{Answer, solve};
use miter::MiterLll;
use rup_checker::Log;
use sqlite_items::Items;
use std::alloc::{AllocError, Global};
use unroll_cnf::{part_base, part_step};

/// The search at one formula of a part.
fn search_part(
    alloc: Global,
    m: &MiterLll,
    part: u32,
    stepping: bool,
    budget: u32,
) -> Result<Answer, AllocError>
    requires part { part < length m.now.parts }
    requires some_budget { 1 ≤ budget }
    requires budget_bound { budget ≤ 1000000 }
    requires size { IsSearchable (part_formula m.now part stepping) }
    ensures { IfOk result (Answers (part_formula m.now part stepping) budget) }
{
    let formula = if stepping {
        part_step(alloc, m, part as usize)?
    } else {
        part_base(alloc, m, part as usize)?
    };
    solve(alloc, &formula, budget)
}

/// Searches one formula of a part. The log that refutes it joins the others; the log of a spent budget is answered.
fn try_part(
    alloc: Global,
    m: &MiterLll,
    part: u32,
    stepping: bool,
    budget: u32,
    logs: &mut Items<Log>,
) -> Result<Option<Log>, AllocError>
    requires part { part < length m.now.parts }
    requires some_budget { 1 ≤ budget }
    requires budget_bound { budget ≤ 1000000 }
    requires size { IsSearchable (part_formula m.now part stepping) }
    requires never_different { IsUnsatisfiable (part_formula m.now part stepping) }
    ensures { IfOk result (TriesPart m.now part stepping budget logs.old logs.new) }
{
    match search_part(alloc, m, part, stepping, budget)? {
        Answer::Sat(_) => unreachable!(),
        Answer::Unsat(log) => {
            logs.push(log)?;
            Ok(None)
        }
        Answer::Spent(log) => Ok(Some(log)),
    }
}

/// Shows that all parts of a miter are true as long as assume is: for each part its base formula is searched, then its
/// step formula, each with the same budget of learnt clauses.
pub fn equivalence(alloc: Global, m: &MiterLll, budget: u32) -> Result<Equal, AllocError>
    requires some_budget { 1 ≤ budget }
    requires budget_bound { budget ≤ 1000000 }
    requires size { PartsFit m.now }
    requires never_different { AreNeverDifferent m.now }
    ensures { IfOk result (Compares m.now budget) }
{
    let mut logs = Items::new(alloc);
    for part in 0..m.parts.len() as u32 {
        if let Some(log) = try_part(alloc, m, part, false, budget, &mut logs)? {
            let stepping = false;
            return Ok(Equal::Conflicts {
                part,
                stepping,
                log,
            });
        }
        if let Some(log) = try_part(alloc, m, part, true, budget, &mut logs)? {
            let stepping = true;
            return Ok(Equal::Conflicts {
                part,
                stepping,
                log,
            });
        }
    }
    Ok(Equal::Shown { logs })
}
