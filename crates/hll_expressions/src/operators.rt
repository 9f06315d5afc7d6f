//! Operators of chains, and comparisons.

ghost use Rattle.std.specs.Prelude.{◌≡◌, pos, [], true, false, Bool, List, Some, if◌then◌else◌};
ghost use Rattle.std.specs.Ordering.{int_eq};
ghost use Rattle.intervals.specs.Answers.{IsInterval};
ghost use Rattle.hll_meaning.specs.Judging.{is_division as said_division, is_logical as said_logical, Judged};
ghost use Rattle.hll_meaning.specs.Kinds.{Value};
ghost use Rattle.hll_meaning.specs.Types.{ends};
ghost use Rattle.hll_meaning.specs.Values.{chained, compared as said_compared, number as number_in};
ghost use Rattle.hll_expressions.specs.Chains.{arithmetic_range, by_zero, is_implication as said_implication, logical_of, Counts, CountsLeft, IsFurther, IsTallied, IsTally, Operates, TalliesOn};
ghost use Rattle.hll_expressions.specs.Described.{Describes};

use crate::faults::{StaticFault, fault, refuse_if};
use crate::given::{Given, truth, whole};
use crate::numbers::of_truth;
use hll_meaning::{StaticKind, Ty};
use hll_tree::{Cmp, Op};
use intervals::Interval;

/// The number of a chain of constants so far.
#[derive(Clone, Copy, Debug, PartialEq, Eq)]
pub enum Tally {
    /// That of its first operand.
    First(i128),
    /// That of its operators from the left.
    Left(i128),
    /// Its operators from the right: what they make where the last operand is false and where it is true, and that operand.
    Right {
        of_false: bool,
        of_true: bool,
        last: bool,
    },
}

fn is_logical(op: Op) -> bool
    ensures { result ≡ said_logical op }
{
    match op {
        Op::Same | Op::Differ | Op::Implies | Op::Or | Op::And => true,
        Op::Plus | Op::Less | Op::Times | Op::Over | Op::Rest => false,
    }
}

fn is_division(op: Op) -> bool
    ensures { result ≡ said_division op }
{
    match op {
        Op::Over | Op::Rest => true,
        Op::Same | Op::Differ | Op::Implies | Op::Or | Op::And => false,
        Op::Plus | Op::Less | Op::Times => false,
    }
}

/// The truth value of a logical operator.
fn logical(op: Op, left: bool, right: bool) -> bool
    ensures { result ≡ logical_of op left right }
{
    match op {
        Op::Same => left == right,
        Op::Differ => left != right,
        Op::Implies => !left || right,
        Op::Or => left || right,
        Op::And => left && right,
        Op::Plus | Op::Less | Op::Times | Op::Over | Op::Rest => false,
    }
}

/// The range of an arithmetic operator's result, where it isn't wide.
fn range_of(op: Op, left: &Interval, right: &Interval) -> Option<Interval>
    requires { said_logical op ≡ false }
    ensures { IsInterval result (arithmetic_range op (ends left.now) (ends right.now)) }
{
    match op {
        Op::Plus => left.add(right),
        Op::Less => left.sub(right),
        Op::Times => left.mul(right),
        Op::Over => left.div(right),
        Op::Rest => left.rem(right),
        Op::Same | Op::Differ | Op::Implies | Op::Or | Op::And => None,
    }
}

/// The number of an operator's result between constants.
fn operated(op: Op, left: i128, right: i128) -> Option<i128>
    ensures { Operates op left right result }
{
    match op {
        Op::Same => Some(i128::from(left == right)),
        Op::Differ => Some(i128::from(left != right)),
        Op::Implies => Some(i128::from(left == 0 || right != 0)),
        Op::Or => Some(i128::from(left != 0 || right != 0)),
        Op::And => Some(i128::from(left != 0 && right != 0)),
        Op::Plus => left.checked_add(right),
        Op::Less => left.checked_sub(right),
        Op::Times => left.checked_mul(right),
        Op::Over if right == 0 => Some(0),
        Op::Over => left.checked_div(right),
        Op::Rest if right == 0 => Some(left),
        Op::Rest => left.checked_rem(right),
    }
}

/// The number of a chain of its first operand alone.
pub fn begun(number: Option<i128>) -> Option<Tally>
    ensures { (v : Value) → number ≡ Some (number_in v) → IsTallied result v [] }
{
    match number {
        Some(number) => Some(Tally::First(number)),
        None => None,
    }
}

fn is_implication(op: Op) -> bool
    ensures { result ≡ said_implication op }
{
    match op {
        Op::Implies => true,
        Op::Same | Op::Differ | Op::Or | Op::And => false,
        Op::Plus | Op::Less | Op::Times | Op::Over | Op::Rest => false,
    }
}

/// The number of an operator's result, behind a chain from the left.
fn from_left(op: Op, left: i128, right: i128) -> Option<Tally>
    ensures { CountsLeft op left right result }
{
    match operated(op, left, right) {
        Some(number) => Some(Tally::Left(number)),
        None => None,
    }
}

fn is_zero(number: i128) -> bool
    ensures { result ≡ int_eq number (pos 0) }
{
    number == 0
}

/// The number of a chain one operator further.
fn counted(tally: Tally, op: Op, right: i128) -> Option<Tally>
    ensures { Counts tally op right result }
{
    match tally {
        Tally::First(left) => {
            if is_implication(op) {
                let of_false = is_zero(left);
                let zero = is_zero(right);
                Some(Tally::Right {
                    of_false,
                    of_true: true,
                    last: !zero,
                })
            } else {
                from_left(op, left, right)
            }
        }
        Tally::Left(left) => from_left(op, left, right),
        Tally::Right {
            of_false,
            of_true,
            last,
        } => {
            let at_false = logical(op, last, false);
            let at_true = logical(op, last, true);
            let on_false = either(at_false, of_false, of_true);
            let on_true = either(at_true, of_false, of_true);
            let none = is_zero(right);
            Some(Tally::Right {
                of_false: on_false,
                of_true: on_true,
                last: !none,
            })
        }
    }
}

fn either(test: bool, of_false: bool, of_true: bool) -> bool
    ensures { result ≡ if test then of_true else of_false }
{
    if test { of_true } else { of_false }
}

/// The number of a chain.
#[tactic(auto, using(crate::proofs::TallyLemmas::total_first, crate::proofs::TallyLemmas::total_left, crate::proofs::TallyLemmas::total_right))]
fn total(tally: Tally) -> Option<i128>
    ensures { (v : Value) (ws : List (Op × Value)) → IsTally tally v ws → result ≡ Some (number_in (chained v ws)) }
{
    match tally {
        Tally::First(number) => Some(number),
        Tally::Left(number) => Some(number),
        Tally::Right {
            of_false,
            of_true,
            last,
        } => {
            let end = either(last, of_false, of_true);
            let number = of_truth(end);
            Some(number)
        }
    }
}

/// The number of a chain one operator further, where there are numbers.
pub fn with_operand(tally: Option<Tally>, op: Op, right: Option<i128>) -> Option<Tally>
    ensures { TalliesOn tally op right result }
{
    match (tally, right) {
        (Some(tally), Some(right)) => counted(tally, op, right),
        (None, _) | (_, None) => None,
    }
}

/// The number of a chain, where there is one.
pub fn number_of_chain(tally: Option<Tally>) -> Option<i128>
    ensures { (v : Value) (ws : List (Op × Value)) → IsTallied tally v ws → result ≡ Some (number_in (chained v ws)) }
{
    match tally {
        Some(tally) => total(tally),
        None => None,
    }
}

/// Whether a constant is divided by zero.
fn divides_by_zero(needs_constant: bool, op: Op, right: &Given) -> bool
    ensures { (r : Judged) → Describes needs_constant right.now r → result ≡ by_zero needs_constant op r }
{
    if needs_constant && is_division(op) {
        right.is_zero()
    } else {
        false
    }
}

/// An arithmetic operator behind what a chain came to so far.
fn further_arithmetic(
    left: &Given,
    op: Op,
    at: u64,
    right: &Given,
    needs_constant: bool,
) -> Result<Given, StaticFault>
    requires { said_logical op ≡ false }
    ensures { IsFurther needs_constant left.now op at right.now result }
{
    let first = whole(left)?;
    let second = whole(right)?;
    let by_zero = divides_by_zero(needs_constant, op, right);
    refuse_if(by_zero, StaticKind::Range, at)?;
    match range_of(op, &first, &second) {
        Some(range) => Ok(Given::Whole {
            at,
            kind: Ty::Int(range),
            number: None,
        }),
        None => Err(fault(StaticKind::Wide, at)),
    }
}

/// A logical operator behind what a chain came to so far.
fn further_logical(left: &Given, op: Op, at: u64, right: &Given) -> Result<Given, StaticFault>
    requires { said_logical op ≡ true }
    ensures { (needs : Bool) → IsFurther needs left.now op at right.now result }
{
    truth(left)?;
    truth(right)?;
    Ok(Given::Whole {
        at,
        kind: Ty::Bool,
        number: None,
    })
}

/// A chain one operator further, but for its number.
pub fn further(
    left: &Given,
    op: Op,
    at: u64,
    right: &Given,
    needs_constant: bool,
) -> Result<Given, StaticFault>
    ensures { IsFurther needs_constant left.now op at right.now result }
{
    if is_logical(op) {
        further_logical(left, op, at, right)
    } else {
        further_arithmetic(left, op, at, right, needs_constant)
    }
}

/// The truth value of a comparison of constants.
pub fn compared(cmp: Cmp, left: i128, right: i128) -> bool
    ensures { result ≡ said_compared cmp left right }
{
    match cmp {
        Cmp::Eq => left == right,
        Cmp::Ne => left != right,
        Cmp::Lt => left < right,
        Cmp::Le => left <= right,
        Cmp::Gt => left > right,
        Cmp::Ge => left >= right,
    }
}
