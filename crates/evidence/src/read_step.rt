//! A step that is read of a line, in memory that serves for the next one too.

ghost use Rattle.std.specs.Prelude.{◌≡◌};

use std::alloc::Global;
use std::marker::Model;

/// The literals and hints of a step. Contracts see it as the step.
#[derive(Debug, Drop)]
pub struct ReadStep {
    literals: Vec<i32>,
    hints: Vec<u32>,
}

impl Model for ReadStep {
    ghost use Rattle.rup_checker.specs.declared.log.Step.{Step};

    ghost Value = { Step };

    ghost view = { λ s. record { clause = s.literals.items; hints = s.hints.items } };
}

impl ReadStep {
    /// No literals and no hints, in no memory.
    pub(crate) fn empty(alloc: Global) -> ReadStep {
        ReadStep {
            literals: Vec::new(alloc),
            hints: Vec::new(alloc),
        }
    }

    pub(crate) fn new(literals: Vec<i32>, hints: Vec<u32>) -> ReadStep
        ensures { result ≡ record { clause = literals.items; hints = hints.items } }
    {
        ReadStep { literals, hints }
    }

    /// The memory for literals, and that for hints.
    pub(crate) fn into_room(self) -> (Vec<i32>, Vec<u32>) {
        let ReadStep { literals, hints } = self;
        (literals, hints)
    }

    pub(crate) fn literals(&self) -> &[i32]
        ensures { result.now ≡ self.now.clause }
    {
        &self.literals
    }

    pub(crate) fn hints(&self) -> &[u32]
        ensures { result.now ≡ self.now.hints }
    {
        &self.hints
    }
}
