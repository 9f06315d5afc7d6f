//! Expressions.

ghost use Rattle.std.specs.Prelude.{◌≡◌, ◌++◌, [], length, true, Bool, IfOk, List, Ok, OnOk, Some, map, neg_ℤ, option_map, pos, unsigned_abs};
ghost use Rattle.intervals.specs.Rules.{absolute, negation};
ghost use Rattle.hll_meaning.proofs.JudgedForms.{branch_said, domain_said, link_said};
ghost use Rattle.hll_meaning.proofs.RangeForms.{all_ranges, branches_ranges, domain_ranges, links_ranges};
ghost use Rattle.hll_meaning.specs.Fitting.{ends_of, is_scalar as is_scalar_kind};
ghost use Rattle.hll_meaning.specs.Judging.{all_in, bound_domain, chain_of, choice_of, comparison_faults, count_of, given_whole, group_at, inside_bind, judged, made_of, no_constant, pre_alone, pre_at, pre_with, quantified_at, thing_domain as said_domain, wants_kind_of, wants_scalar, wants_whole, Context, Judged, Ranged};
ghost use Rattle.hll_meaning.specs.Kinds.{truth as truth_kind};
ghost use Rattle.hll_meaning.specs.Names.{under};
ghost use Rattle.hll_meaning.specs.Nodes.{ranges as ranges_in};
ghost use Rattle.hll_meaning.specs.Types.{kind_of};
ghost use Rattle.hll_meaning.specs.Values.{of_truth};
ghost use Rattle.hll_expressions.specs.Answers.{IsFaultAt, IsJudged};
ghost use Rattle.hll_expressions.specs.Choices.{AreBranches};
ghost use Rattle.hll_expressions.specs.Described.{DescribeAll, Describes, IsAnswer, IsWhole};
ghost use Rattle.hll_expressions.specs.Figures.{IsExtreme, IsOverTruths, IsRange, IsSummed};
ghost use Rattle.hll_expressions.specs.Forms.{compared_said, extreme_said, not_said, number_said, within_said, AreBounds, AreJudged, AreJudgedBranches, IsDomain, IsKindWanted, IsMadeOf, IsQuantified, IsWholeNumber};
ghost use Rattle.hll_expressions.specs.Ranges.{first_ranges, HasNoted, HasNotedParts};
ghost use Rattle.hll_expressions.specs.Scopes.{context};
ghost use Rattle.hll_expressions.specs.Things.{said_of, thing_found};

use crate::choice::{Branches, Tested, choice};
use crate::faults::{StaticFault, fault, refuse_if};
use crate::given::{Given, scalar_kind, truth, wants, whole};
use crate::join::{is_scalar, join};
use crate::numbers::{
    comparing, count, extreme_number, extreme_range, mirrored, of_truth, opposite, sized,
};
use crate::operators::{begun, further, number_of_chain, with_operand};
use crate::paths::path;
use crate::ranges::Ranges;
use crate::scope::{Bounds, Scope};
use crate::things::{Found, Thing};
use hll_meaning::{StaticKind, Ty};
use hll_tree::{Branch, Cmp, Domain, Expr, Form, Link, Name, Quant};
use intervals::Interval;
use sqlite_items::{Boxed, Items};
use std::alloc::Global;

/// A truth value.
fn truth_value(at: u64, number: Option<i128>) -> Given
    ensures { IsWhole at truth_kind number result }
{
    Given::Whole {
        at,
        kind: Ty::Bool,
        number,
    }
}

/// A whole number, whose range may be wide.
fn whole_number(
    at: u64,
    range: Option<Interval>,
    number: Option<i128>,
) -> Result<Given, StaticFault>
    ensures { IsWholeNumber at range number result }
{
    match range {
        Some(range) => Ok(Given::Whole {
            at,
            kind: Ty::Int(range),
            number,
        }),
        None => Err(fault(StaticKind::Wide, at)),
    }
}

/// A number.
fn number_of(at: u64, number: i128) -> Result<Given, StaticFault>
    ensures { (needs : Bool) → IsAnswer needs (number_said at number) result }
{
    whole_number(at, Interval::new(number, number), Some(number))
}

/// A truth value that is written.
fn literal(at: u64, value: bool) -> Given
    ensures { (needs : Bool) → Describes needs result (given_whole at [] truth_kind (of_truth value)) }
{
    truth_value(at, Some(of_truth(value)))
}

/// The mirror image of a number.
fn minus(at: u64, inner: &Given) -> Result<Given, StaticFault>
    ensures { IsMadeOf at inner.now negation neg_ℤ result }
{
    let range = whole(inner)?;
    whole_number(at, range.neg(), mirrored(inner.number()))
}

/// The absolute value of a number.
fn size(at: u64, inner: &Given) -> Result<Given, StaticFault>
    ensures { IsMadeOf at inner.now absolute (λ x. pos (unsigned_abs x)) result }
{
    let range = whole(inner)?;
    whole_number(at, range.abs(), sized(inner.number()))
}

/// The other truth value.
fn not(at: u64, inner: &Given) -> Result<Given, StaticFault>
    ensures { (needs : Bool) (j : Judged) → Describes needs inner.now j → IsAnswer needs (not_said at j) result }
{
    truth(inner)?;
    Ok(truth_value(at, opposite(inner.number())))
}

/// What a comparison wants of its operands.
fn comparable(cmp: Cmp, left: &Given, right: &Given) -> Result<(), StaticFault>
    ensures { (needs : Bool) (a b : Judged) → Describes needs left.now a → Describes needs right.now b → IsJudged (comparison_faults cmp a b) result }
{
    match cmp {
        Cmp::Eq | Cmp::Ne => alike(left, right),
        Cmp::Lt | Cmp::Le | Cmp::Gt | Cmp::Ge => both_whole(left, right),
    }
}

/// Two whole numbers.
fn both_whole(left: &Given, right: &Given) -> Result<(), StaticFault>
    ensures { (needs : Bool) (a b : Judged) → Describes needs left.now a → Describes needs right.now b → IsJudged (wants_whole a ++ wants_whole b) result }
{
    whole(left)?;
    whole(right)?;
    Ok(())
}

/// Two cells of one kind.
fn alike(left: &Given, right: &Given) -> Result<(), StaticFault>
    ensures { (needs : Bool) (a b : Judged) → Describes needs left.now a → Describes needs right.now b → IsJudged (wants_scalar a ++ wants_kind_of a b) result }
{
    let kind = scalar_kind(left)?;
    kind_wanted(right, kind)?;
    Ok(())
}

/// The kind of another cell is wanted.
fn kind_wanted<'g>(given: &'g Given, kind: &Ty) -> Result<&'g Ty, StaticFault>
    ensures { IsKindWanted kind.now given.now result }
{
    let own = scalar_kind(given)?;
    wants(given.at(), own, kind)?;
    Ok(own)
}

/// A comparison.
fn comparison(at: u64, cmp: Cmp, left: &Given, right: &Given) -> Result<Given, StaticFault>
    ensures { (needs : Bool) (a b : Judged) → Describes needs left.now a → Describes needs right.now b → IsAnswer needs (compared_said at cmp a b) result }
{
    comparable(cmp, left, right)?;
    let number = comparing(cmp, left.number(), right.number());
    Ok(truth_value(at, number))
}

/// Parts in braces.
fn group(at: u64, parts: Items<Given>, needs_constant: bool) -> Result<Given, StaticFault>
    ensures { (c : Context) (js : List Judged) → c.needs_constant ≡ needs_constant → DescribeAll needs_constant parts js → IsAnswer needs_constant (group_at c at js) result }
{
    refuse_if(needs_constant, StaticKind::Constant, at)?;
    Ok(Given::Group { at, parts })
}

/// The range from one number to another, which are in order.
fn range_between(at: u64, lo: i128, hi: i128) -> Result<Interval, StaticFault>
    ensures { IsRange at lo hi result }
{
    refuse_if(lo > hi, StaticKind::Range, at)?;
    match Interval::new(lo, hi) {
        Some(range) => Ok(range),
        None => Err(fault(StaticKind::Wide, at)),
    }
}

/// Bounds: whole numbers in order, and not wide.
pub fn bounds(lowest: &Given, greatest: &Given) -> Result<Interval, StaticFault>
    ensures { AreBounds lowest.now greatest.now result }
{
    whole(lowest)?;
    whole(greatest)?;
    let (Some(lo), Some(hi)) = (lowest.number(), greatest.number()) else {
        return Err(StaticFault::Memory);
    };
    range_between(lowest.at(), lo, hi)
}

/// The domain of a type, or what is wrong where something else stands.
fn type_domain(alloc: Global, at: u64, thing: &Thing) -> Result<Ty, StaticFault>
    ensures { IsDomain (said_domain at (Some (said_of thing.now))) result }
{
    match thing {
        Thing::Type(ty) => {
            refuse_if(!is_scalar(ty), StaticKind::Kind, at)?;
            Ok(ty.copy(alloc)?)
        }
        Thing::Truth(_) | Thing::Number(_) | Thing::Element { .. } | Thing::Variable { .. } => {
            Err(fault(StaticKind::Kind, at))
        }
    }
}

/// The domain of what a type's name stands for, or what is wrong there.
fn thing_domain(alloc: Global, at: u64, found: Found<'_>) -> Result<Ty, StaticFault>
    ensures { IsDomain (said_domain at (thing_found found.entry)) result }
{
    match found {
        Found::Nothing => Err(fault(StaticKind::Unknown, at)),
        Found::Later => Err(fault(StaticKind::Kind, at)),
        Found::Thing(thing) => type_domain(alloc, at, thing),
    }
}

/// The domain of a type's name. A bound or index name hides a type.
fn named_domain(scope: &Scope<'_>, name: &Name) -> Result<Ty, StaticFault>
    ensures { IsDomain (bound_domain (context scope.now) name.now (under name.now.text (context scope.now).bound)) result }
{
    match scope.bound.kind(name.text.bytes()) {
        Some(_) => Err(fault(StaticKind::Kind, name.at)),
        None => thing_domain(scope.alloc, name.at, scope.names.get(name.text.bytes())),
    }
}

/// How many numbers a scalar kind has.
#[tactic(auto, using(crate::proofs::KindForms::kind_of_bool, crate::proofs::KindForms::kind_of_int, crate::proofs::KindForms::kind_of_elem, crate::proofs::KindForms::kind_of_array, crate::proofs::KindForms::kind_of_struct))]
fn numbers_of(kind: &Ty) -> u128
    ensures { is_scalar_kind (kind_of kind.now) ≡ true → result ≡ count_of (ends_of (kind_of kind.now)) }
{
    match kind {
        Ty::Int(range) | Ty::Elem(_, range) => count(range),
        Ty::Bool | Ty::Array(_, _) | Ty::Struct(_, _) => 2,
    }
}

/// A quantifier of truth values.
fn over_truths(at: u64, body: &Given, needs_constant: bool) -> Result<Given, StaticFault>
    ensures { IsOverTruths at body.now needs_constant result }
{
    truth(body)?;
    refuse_if(needs_constant, StaticKind::Constant, at)?;
    Ok(truth_value(at, None))
}

/// A sum over a domain.
fn summed(at: u64, domain: &Ty, body: &Given, needs_constant: bool) -> Result<Given, StaticFault>
    ensures { IsSummed at domain.now body.now needs_constant result }
{
    let range = whole(body)?;
    refuse_if(needs_constant, StaticKind::Constant, at)?;
    whole_number(at, range.times(numbers_of(domain)), None)
}

/// What a quantifier comes to over a domain.
fn quantified(
    at: u64,
    quant: Quant,
    domain: &Ty,
    body: &Given,
    needs_constant: bool,
) -> Result<Given, StaticFault>
    ensures { IsQuantified at quant domain.now body.now needs_constant result }
{
    match quant {
        Quant::All | Quant::Any => over_truths(at, body, needs_constant),
        Quant::Sum => summed(at, domain, body, needs_constant),
    }
}

/// A memory: two cells of one kind.
fn memory(
    alloc: Global,
    at: u64,
    body: &Given,
    first: &Given,
    needs_constant: bool,
) -> Result<Given, StaticFault>
    ensures { (c : Context) (j k : Judged) → c.needs_constant ≡ needs_constant → Describes needs_constant body.now j → Describes needs_constant first.now k → IsAnswer needs_constant (pre_with c at j k) result }
{
    let kind = scalar_kind(body)?;
    let own = kind_wanted(first, kind)?;
    refuse_if(needs_constant, StaticKind::Constant, at)?;
    let joined = join(alloc, kind, own)?;
    refuse_if(joined.wide, StaticKind::Wide, at)?;
    Ok(Given::Whole {
        at,
        kind: joined.kind,
        number: None,
    })
}

/// A memory without a first value, which is wrong.
fn first_missing(at: u64, body: &Given, needs_constant: bool) -> StaticFault
    ensures { (c : Context) (j : Judged) → c.needs_constant ≡ needs_constant → Describes needs_constant body.now j → IsFaultAt (pre_alone c at j).faults result }
{
    match scalar_kind(body) {
        Err(wrong) => wrong,
        Ok(_) if needs_constant => fault(StaticKind::Constant, at),
        Ok(_) => fault(StaticKind::FirstMissing, at),
    }
}

/// Whether a number lies in a range is a truth value, and no constant.
fn within(at: u64, inner: &Given, needs_constant: bool) -> Result<Given, StaticFault>
    ensures { (c : Context) (j : Judged) → c.needs_constant ≡ needs_constant → Describes needs_constant inner.now j → IsAnswer needs_constant (within_said c at j) result }
{
    whole(inner)?;
    starting(at, needs_constant)
}

/// A truth value that is no constant.
fn starting(at: u64, needs_constant: bool) -> Result<Given, StaticFault>
    ensures { (c : Context) → c.needs_constant ≡ needs_constant → IsAnswer needs_constant (given_whole at (no_constant c at) truth_kind []) result }
{
    refuse_if(needs_constant, StaticKind::Constant, at)?;
    Ok(truth_value(at, None))
}

/// The least or the greatest of a number and others.
fn extreme_among(
    at: u64,
    first: &Given,
    others: &[Given],
    greatest: bool,
) -> Result<Given, StaticFault>
    ensures { IsExtreme at greatest first.now others.now result }
{
    let mut range = whole(first)?;
    let mut number = first.number();
    for given in others {
        let own = whole(given)?;
        range = extreme_range(greatest, &range, &own);
        number = extreme_number(greatest, number, given.number());
    }
    whole_number(at, Some(range), number)
}

/// The least or the greatest of some numbers; of none, 0.
fn extreme(at: u64, each: &[Given], greatest: bool) -> Result<Given, StaticFault>
    ensures { (needs : Bool) (js : List Judged) → DescribeAll needs each.now js → IsAnswer needs (extreme_said at greatest js) result }
{
    match each {
        [] => number_of(at, 0),
        [first, others @ ..] => extreme_among(at, first, others, greatest),
    }
}

/// Expressions one after the other.
#[cycle(judge)]
fn judge_each(
    scope: &Scope<'_>,
    ranges: &mut Ranges,
    exprs: &[Expr],
) -> Result<Items<Given>, StaticFault>
    ensures answer { AreJudged scope.now.needs_constant (map (λ e. judged e (context scope.now)) exprs.now) result }
    ensures noted { OnOk result (HasNoted ranges.old ranges.new (all_ranges exprs.now (context scope.now))) }
{
    let mut each = Items::new(scope.alloc);
    for expr in exprs {
        let given = judge_noting(scope, ranges, expr)?;
        each.push(given)?;
    }
    Ok(each)
}

/// The operators of a chain, each with its operand, behind the first one.
#[cycle(judge)]
fn judge_links(
    scope: &Scope<'_>,
    ranges: &mut Ranges,
    links: &[Link],
    at: u64,
    first: Given,
) -> Result<Given, StaticFault>
    ensures answer { (j : Judged) → Describes scope.now.needs_constant first j → IsAnswer scope.now.needs_constant (chain_of (context scope.now) at j (map link_said links.now)) result }
    ensures noted { OnOk result (HasNoted ranges.old ranges.new (links_ranges links.now (context scope.now))) }
{
    let mut tally = begun(first.number());
    let mut chain = first;
    for link in links {
        let right = judge_noting(scope, ranges, &link.with)?;
        chain = further(&chain, link.op, link.at, &right, scope.needs_constant)?;
        tally = with_operand(tally, link.op, right.number());
    }
    let kind = chain.kind(scope.alloc)?;
    let number = number_of_chain(tally);
    Ok(Given::Whole { at, kind, number })
}

/// The conditions of an `if` with what stands for each, in text order.
#[cycle(judge)]
fn judge_branches(
    scope: &Scope<'_>,
    ranges: &mut Ranges,
    each: &[Branch],
) -> Result<Branches, StaticFault>
    ensures lengths { IfOk result (λ b. length b.conditions ≡ length b.branches) }
    ensures judged { AreJudgedBranches scope.now.needs_constant (all_in (context scope.now) (map branch_said each.now)) result }
    ensures noted { OnOk result (HasNoted ranges.old ranges.new (branches_ranges each.now (context scope.now))) }
{
    let mut conditions = Items::new(scope.alloc);
    let mut branches = Items::new(scope.alloc);
    for branch in each {
        let when = judge_noting(scope, ranges, &branch.when)?;
        let gives = judge_noting(scope, ranges, &branch.gives)?;
        conditions.push(when)?;
        branches.push(gives)?;
    }
    Ok(Branches {
        conditions,
        branches,
    })
}

/// A domain: the kind of the bound name.
#[cycle(judge)]
fn judge_domain(scope: &Scope<'_>, ranges: &mut Ranges, domain: &Domain) -> Result<Ty, StaticFault>
    ensures answer { IsDomain (domain_said domain.now (context scope.now)) result }
    ensures noted { OnOk result (HasNoted ranges.old ranges.new (domain_ranges domain.now (context scope.now))) }
{
    match domain {
        Domain::Bounds(lowest, greatest) => {
            let scope = Scope {
                needs_constant: true,
                ..*scope
            };
            let lowest = judge_noting(&scope, ranges, lowest.get())?;
            let greatest = judge_noting(&scope, ranges, greatest.get())?;
            Ok(Ty::Int(bounds(&lowest, &greatest)?))
        }
        Domain::Bool => Ok(Ty::Bool),
        Domain::Named(name) => named_domain(scope, name),
    }
}

/// The body of a quantifier over a domain.
#[cycle(judge)]
fn judge_body<'s>(
    scope: &'s Scope<'s>,
    ranges: &mut Ranges,
    body: &Expr,
    name: &'s Name,
    domain: &'s Ty,
) -> Result<Given, StaticFault>
    ensures answer { IsAnswer scope.now.needs_constant (judged body.now (inside_bind name.now.text (kind_of domain.now) (context scope.now))) result }
    ensures noted { OnOk result (HasNoted ranges.old ranges.new (ranges_in body.now (inside_bind name.now.text (kind_of domain.now) (context scope.now)))) }
{
    let inner = Scope {
        bound: Bounds::Bind {
            name: name.text.bytes(),
            kind: domain,
            outer: &scope.bound,
        },
        ..*scope
    };
    judge_noting(&inner, ranges, body)
}

/// The first value of a memory, behind its body.
#[cycle(judge)]
fn judge_first(
    scope: &Scope<'_>,
    ranges: &mut Ranges,
    first: &Option<Boxed<Expr>>,
    at: u64,
    body: &Given,
) -> Result<Given, StaticFault>
    ensures answer { (j : Judged) → Describes scope.now.needs_constant body.now j → IsAnswer scope.now.needs_constant (pre_at (context scope.now) at j (option_map judged first.now)) result }
    ensures noted { OnOk result (HasNoted ranges.old ranges.new (first_ranges first.now (context scope.now))) }
{
    match first {
        None => Err(first_missing(at, body, scope.needs_constant)),
        Some(first) => {
            let first = judge_noting(scope, ranges, first.get())?;
            memory(scope.alloc, at, body, &first, scope.needs_constant)
        }
    }
}

/// A comparison, behind its left operand.
#[cycle(judge)]
fn judge_comparison(
    scope: &Scope<'_>,
    ranges: &mut Ranges,
    right: &Expr,
    at: u64,
    cmp: Cmp,
    left: &Given,
) -> Result<Given, StaticFault>
    ensures answer { (j : Judged) → Describes scope.now.needs_constant left.now j → IsAnswer scope.now.needs_constant (compared_said at cmp j (judged right.now (context scope.now))) result }
    ensures noted { OnOk result (HasNoted ranges.old ranges.new (ranges_in right.now (context scope.now))) }
{
    let right = judge_noting(scope, ranges, right)?;
    comparison(at, cmp, left, &right)
}

/// An `if`, behind its branches.
#[cycle(judge)]
fn judge_choice(
    scope: &Scope<'_>,
    ranges: &mut Ranges,
    at: u64,
    tests: Branches,
    otherwise: &Expr,
) -> Result<Given, StaticFault>
    requires { length tests.conditions ≡ length tests.branches }
    ensures answer { (bs : List (Judged × Judged)) → AreBranches scope.now.needs_constant tests.conditions tests.branches bs → IsAnswer scope.now.needs_constant (choice_of at bs (judged otherwise.now (context scope.now))) result }
    ensures noted { OnOk result (HasNoted ranges.old ranges.new (ranges_in otherwise.now (context scope.now))) }
{
    let otherwise = judge_noting(scope, ranges, otherwise)?;
    let Branches {
        conditions,
        branches,
    } = tests;
    let tested = Tested {
        conditions,
        branches,
        otherwise,
    };
    choice(scope.alloc, at, tested)
}

/// A group.
#[cycle(judge)]
fn judge_group(
    scope: &Scope<'_>,
    ranges: &mut Ranges,
    at: u64,
    parts: &[Expr],
) -> Result<Given, StaticFault>
    ensures answer { IsAnswer scope.now.needs_constant (group_at (context scope.now) at (map (λ e. judged e (context scope.now)) parts.now)) result }
    ensures noted { OnOk result (HasNoted ranges.old ranges.new (all_ranges parts.now (context scope.now))) }
{
    let parts = judge_each(scope, ranges, parts)?;
    group(at, parts, scope.needs_constant)
}

/// A quantifier, behind its domain.
#[cycle(judge)]
fn judge_quantified(
    scope: &Scope<'_>,
    ranges: &mut Ranges,
    body: &Expr,
    at: u64,
    quant: Quant,
    name: &Name,
    domain: &Ty,
) -> Result<Given, StaticFault>
    ensures answer { (d : Ranged) → IsDomain d (Ok domain.now) → IsAnswer scope.now.needs_constant (quantified_at (context scope.now) at quant name.now.text d (judged body.now)) result }
    ensures noted { OnOk result (HasNoted ranges.old ranges.new (ranges_in body.now (inside_bind name.now.text (kind_of domain.now) (context scope.now)))) }
{
    let body = judge_body(&*scope, ranges, body, name, domain)?;
    quantified(at, quant, domain, &body, scope.needs_constant)
}

/// The mirror image of a number.
#[cycle(judge)]
fn judge_minus(
    scope: &Scope<'_>,
    ranges: &mut Ranges,
    at: u64,
    inner: &Expr,
) -> Result<Given, StaticFault>
    ensures answer { IsAnswer scope.now.needs_constant (made_of at (judged inner.now (context scope.now)) negation neg_ℤ) result }
    ensures noted { OnOk result (HasNoted ranges.old ranges.new (ranges_in inner.now (context scope.now))) }
{
    let inner = judge_noting(scope, ranges, inner)?;
    minus(at, &inner)
}

/// The absolute value of a number.
#[cycle(judge)]
fn judge_size(
    scope: &Scope<'_>,
    ranges: &mut Ranges,
    at: u64,
    inner: &Expr,
) -> Result<Given, StaticFault>
    ensures answer { IsAnswer scope.now.needs_constant (made_of at (judged inner.now (context scope.now)) absolute (λ x. pos (unsigned_abs x))) result }
    ensures noted { OnOk result (HasNoted ranges.old ranges.new (ranges_in inner.now (context scope.now))) }
{
    let inner = judge_noting(scope, ranges, inner)?;
    size(at, &inner)
}

/// The other truth value.
#[cycle(judge)]
fn judge_not(
    scope: &Scope<'_>,
    ranges: &mut Ranges,
    at: u64,
    inner: &Expr,
) -> Result<Given, StaticFault>
    ensures answer { IsAnswer scope.now.needs_constant (not_said at (judged inner.now (context scope.now))) result }
    ensures noted { OnOk result (HasNoted ranges.old ranges.new (ranges_in inner.now (context scope.now))) }
{
    let inner = judge_noting(scope, ranges, inner)?;
    not(at, &inner)
}

/// Whether a number lies in a range.
#[cycle(judge)]
fn judge_within(
    scope: &Scope<'_>,
    ranges: &mut Ranges,
    at: u64,
    inner: &Expr,
) -> Result<Given, StaticFault>
    ensures answer { IsAnswer scope.now.needs_constant (within_said (context scope.now) at (judged inner.now (context scope.now))) result }
    ensures noted { OnOk result (HasNoted ranges.old ranges.new (ranges_in inner.now (context scope.now))) }
{
    let inner = judge_noting(scope, ranges, inner)?;
    within(at, &inner, scope.needs_constant)
}

/// The least or the greatest of some numbers.
#[cycle(judge)]
fn judge_extreme(
    scope: &Scope<'_>,
    ranges: &mut Ranges,
    at: u64,
    parts: &[Expr],
    greatest: bool,
) -> Result<Given, StaticFault>
    ensures answer { IsAnswer scope.now.needs_constant (extreme_said at greatest (map (λ e. judged e (context scope.now)) parts.now)) result }
    ensures noted { OnOk result (HasNoted ranges.old ranges.new (all_ranges parts.now (context scope.now))) }
{
    let parts = judge_each(scope, ranges, parts)?;
    extreme(at, parts.as_slice(), greatest)
}

/// An expression, where the ranges of its parts are noted.
#[cycle(judge)]
fn judge_form(scope: &Scope<'_>, ranges: &mut Ranges, expr: &Expr) -> Result<Given, StaticFault>
    ensures answer { IsAnswer scope.now.needs_constant (judged expr.now (context scope.now)) result }
    ensures noted { OnOk result (HasNotedParts ranges.old ranges.new expr.now (context scope.now)) }
{
    let at = expr.at;
    match &expr.form {
        Form::Number(number) => number_of(at, *number),
        Form::Truth(value) => Ok(literal(at, *value)),
        Form::Path(name, reaches) => path(scope, ranges, reaches.as_slice(), at, name),
        Form::Chain(first, links) => {
            let first = judge_noting(scope, ranges, first.get())?;
            judge_links(scope, ranges, links.as_slice(), at, first)
        }
        Form::Compare(cmp, left, right) => {
            let left = judge_noting(scope, ranges, left.get())?;
            judge_comparison(scope, ranges, right.get(), at, *cmp, &left)
        }
        Form::Minus(inner) => judge_minus(scope, ranges, at, inner.get()),
        Form::Not(inner) => judge_not(scope, ranges, at, inner.get()),
        Form::Choice(branches, otherwise) => {
            let tests = judge_branches(scope, ranges, branches.as_slice())?;
            judge_choice(scope, ranges, at, tests, otherwise.get())
        }
        Form::Group(parts) => judge_group(scope, ranges, at, parts.as_slice()),
        Form::Quant(quant, name, domain, body) => {
            let domain = judge_domain(scope, ranges, domain)?;
            judge_quantified(scope, ranges, body.get(), at, *quant, name, &domain)
        }
        Form::Pre(body, first) => {
            let body = judge_noting(scope, ranges, body.get())?;
            judge_first(scope, ranges, first, at, &body)
        }
        Form::Least(parts) => judge_extreme(scope, ranges, at, parts.as_slice(), false),
        Form::Greatest(parts) => judge_extreme(scope, ranges, at, parts.as_slice(), true),
        Form::Size(inner) => judge_size(scope, ranges, at, inner.get()),
        Form::Starting => starting(at, scope.needs_constant),
        Form::Within(inner, _) => judge_within(scope, ranges, at, inner.get()),
    }
}

/// An expression, whose ranges are noted: those of its parts, and then its own.
#[cycle(judge)]
pub fn judge_noting(
    scope: &Scope<'_>,
    ranges: &mut Ranges,
    expr: &Expr,
) -> Result<Given, StaticFault>
    ensures answer { IsAnswer scope.now.needs_constant (judged expr.now (context scope.now)) result }
    ensures noted { OnOk result (HasNoted ranges.old ranges.new (ranges_in expr.now (context scope.now))) }
{
    let given = judge_form(scope, ranges, expr)?;
    ranges.note(expr.at, &given)?;
    Ok(given)
}

/// An expression.
pub fn judge(scope: &Scope<'_>, expr: &Expr) -> Result<Given, StaticFault>
    ensures { IsAnswer scope.now.needs_constant (judged expr.now (context scope.now)) result }
{
    let mut silent = Ranges::silent(scope.alloc);
    judge_noting(scope, &mut silent, expr)
}
