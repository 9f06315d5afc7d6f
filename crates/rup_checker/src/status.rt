ghost use Rattle.std.specs.Prelude.{◌≡◌, All};
ghost use Rattle.rup_checker.specs.Formulas.{IsLiteral};
ghost use Rattle.rup_checker.specs.Marks.{IsMarked, HasStatus};

use crate::marks::LiteralSet;

/// How a clause stands to the literals that are taken false.
#[derive(Clone, Copy, Debug, PartialEq, Eq)]
pub enum Status {
    /// All its literals are false.
    False,
    /// Just this literal isn't, however often it stands there.
    Unit(i32),
    /// Two different literals aren't.
    Open,
}

/// How a clause stands to a set of literals that are taken false.
pub fn status_of(taken: &LiteralSet, clause: &[i32]) -> Status
    requires { All (IsLiteral taken.now.variables) clause.now }
    ensures { HasStatus (IsMarked taken.now) clause.now result }
{
    let mut left = None;
    for &literal in clause {
        if taken.contains(literal) {
            continue;
        }
        match left {
            None => left = Some(literal),
            Some(other) if other == literal => {}
            Some(_) => return Status::Open,
        }
    }
    match left {
        None => Status::False,
        Some(literal) => Status::Unit(literal),
    }
}
