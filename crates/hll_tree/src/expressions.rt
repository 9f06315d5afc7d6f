//! The one layout of a text: names, numbers, operators and expressions.

ghost use Rattle.std.specs.Prelude.{◌≡◌, ℕ, ◌++◌, ◌∷◌, [], map, codes, List, true, false, OnOk, IfOk, option_map};
ghost use Rattle.std.specs.Fmt.{signed_decimal};
ghost use Rattle.std.specs.List.{flat_map};
ghost use Rattle.hll_tree.specs.Spells.{precedence_of as precedence_of_op};
ghost use Rattle.hll_tree.specs.Printing.{ReachText, name_text, sign_text, comparison_text as text_of_comparison, chain_level as level_of_chain, at_level, plainly, list_text, reaches_text, truth_text, quantifier_text, branch_text, branches_text, links_level as level_of_links, link_text, links_text, first_value_text, expression_text, operand_level, printed};
ghost use Rattle.hll_tree.specs.PrintedParts.{before_index as text_before_index, before_field as text_before_field, printed_domain, printed_reach, printed_branch, printed_link};

use crate::tree::{Branch, Cmp, Domain, Expr, Form, Link, Name, Op, Precedence, Quant, Reach};
use hll_lexer::is_plain_name;
use itoa::Buffer;
use sqlite_items::Boxed;
use std::alloc::AllocError;

/// Where anything may stand.
const LOOSEST: u8 = 0;

/// How tightly a comparison holds together.
const COMPARISON: u8 = 5;

/// How tightly an operand holds together, with a sign before it or without one.
const OPERAND: u8 = 8;

/// Appends a name, in quotes where it isn't plain.
pub fn push_name(out: &mut Vec<u8>, name: &Name) -> Result<(), AllocError>
    ensures { OnOk result (out.new.items ≡ out.old.items ++ name_text name.now.text) }
{
    let bytes = name.text.bytes();
    if is_plain_name(bytes) {
        return out.extend_from_slice(bytes);
    }
    out.push(b'\'')?;
    out.extend_from_slice(bytes)?;
    out.push(b'\'')?;
    Ok(())
}

/// Appends a number in decimal.
pub fn push_number(out: &mut Vec<u8>, number: i128) -> Result<(), AllocError>
    ensures { OnOk result (out.new.items ≡ out.old.items ++ signed_decimal number) }
{
    let mut buffer = Buffer::new();
    out.extend_from_slice(buffer.format(number).as_bytes())
}

/// The sign of an operator.
fn sign(op: Op) -> &'static str
    ensures { result.now ≡ sign_text op }
{
    match op {
        Op::Same => "<->",
        Op::Differ => "#!",
        Op::Implies => "->",
        Op::Or => "#",
        Op::And => "&",
        Op::Plus => "+",
        Op::Less => "-",
        Op::Times => "*",
        Op::Over => "/",
        Op::Rest => "%",
    }
}

/// The sign of a comparison.
fn comparison_sign(cmp: Cmp) -> &'static str
    ensures { result.now ≡ text_of_comparison cmp }
{
    match cmp {
        Cmp::Eq => "=",
        Cmp::Ne => "<>",
        Cmp::Lt => "<",
        Cmp::Le => "<=",
        Cmp::Gt => ">",
        Cmp::Ge => ">=",
    }
}

/// The word of a quantifier.
fn quantifier(quant: Quant) -> &'static str
    ensures { result.now ≡ quantifier_text quant }
{
    match quant {
        Quant::All => "ALL",
        Quant::Any => "SOME",
        Quant::Sum => "SUM",
    }
}

impl Op {
    /// How tightly the operator binds.
    pub fn precedence(self) -> Precedence
        ensures { result ≡ precedence_of_op self }
    {
        match self {
            Op::Same | Op::Differ => Precedence::Equivalence,
            Op::Implies => Precedence::Implication,
            Op::Or => Precedence::Disjunction,
            Op::And => Precedence::Conjunction,
            Op::Plus | Op::Less => Precedence::Sum,
            Op::Times | Op::Over | Op::Rest => Precedence::Product,
        }
    }
}

/// How tightly a chain of such operators holds together.
fn chain_level(op: Op) -> u8
    ensures { result ≡ level_of_chain (precedence_of_op op) }
{
    match op.precedence() {
        Precedence::Equivalence => 1,
        Precedence::Implication => 2,
        Precedence::Disjunction => 3,
        Precedence::Conjunction => 4,
        Precedence::Sum => 6,
        Precedence::Product => 7,
    }
}

/// How tightly a chain with these links holds together.
fn links_level(links: &[Link]) -> u8
    ensures { result ≡ level_of_links (map printed_link links.now) }
{
    match links {
        [] => OPERAND,
        [link, ..] => chain_level(link.op),
    }
}

/// How tightly an expression holds together.
#[tactic(auto, using(crate::proofs::PrintedLevels::level_number, crate::proofs::PrintedLevels::level_truth, crate::proofs::PrintedLevels::level_path, crate::proofs::PrintedLevels::level_chain, crate::proofs::PrintedLevels::level_compare, crate::proofs::PrintedLevels::level_minus, crate::proofs::PrintedLevels::level_not, crate::proofs::PrintedLevels::level_choice, crate::proofs::PrintedLevels::level_group, crate::proofs::PrintedLevels::level_quant, crate::proofs::PrintedLevels::level_pre, crate::proofs::PrintedLevels::level_least, crate::proofs::PrintedLevels::level_greatest, crate::proofs::PrintedLevels::level_size, crate::proofs::PrintedLevels::level_within, crate::proofs::PrintedLevels::level_starting))]
fn level(expr: &Expr) -> u8
    ensures { result ≡ (printed expr.now).level }
{
    match &expr.form {
        Form::Choice(_, _) => LOOSEST,
        Form::Chain(_, links) => links_level(links.as_slice()),
        Form::Compare(_, _, _) => COMPARISON,
        Form::Number(_)
        | Form::Truth(_)
        | Form::Path(_, _)
        | Form::Minus(_)
        | Form::Not(_)
        | Form::Group(_)
        | Form::Quant(_, _, _, _)
        | Form::Pre(_, _)
        | Form::Least(_)
        | Form::Greatest(_)
        | Form::Size(_)
        | Form::Starting
        | Form::Within(_, _) => OPERAND,
    }
}

/// Appends an expression where one is wanted that holds together so tightly: in parentheses where it doesn't.
#[cycle(print)]
fn push_at(out: &mut Vec<u8>, wanted: u8, expr: &Expr) -> Result<(), AllocError>
    ensures { OnOk result (out.new.items ≡ out.old.items ++ at_level wanted (printed expr.now)) }
{
    if level(expr) >= wanted {
        return push_form(out, expr);
    }
    out.push(b'(')?;
    push_form(out, expr)?;
    out.push(b')')?;
    Ok(())
}

/// Appends a comma, and an expression behind it.
#[cycle(print)]
fn push_further(out: &mut Vec<u8>, expr: &Expr) -> Result<(), AllocError>
    ensures { OnOk result (out.new.items ≡ out.old.items ++ (codes ", " ++ plainly (printed expr.now))) }
{
    out.extend_from_slice(b", ")?;
    push_at(out, LOOSEST, expr)
}

/// Appends expressions, parted by commas.
#[cycle(print)]
fn push_list(out: &mut Vec<u8>, exprs: &[Expr]) -> Result<(), AllocError>
    ensures { OnOk result (out.new.items ≡ out.old.items ++ list_text (map printed exprs.now)) }
{
    match exprs {
        [] => Ok(()),
        [first, rest @ ..] => {
            push_at(out, LOOSEST, first)?;
            for expr in rest {
                push_further(out, expr)?;
            }
            Ok(())
        }
    }
}

/// Appends expressions between two brackets, parted by commas.
#[cycle(print)]
fn push_enclosed(
    out: &mut Vec<u8>,
    opening: &str,
    exprs: &[Expr],
    closing: u8,
) -> Result<(), AllocError>
    ensures { OnOk result (out.new.items ≡ out.old.items ++ opening.now ++ list_text (map printed exprs.now) ++ closing ∷ []) }
{
    out.extend_from_slice(opening.as_bytes())?;
    push_list(out, exprs)?;
    out.push(closing)?;
    Ok(())
}

/// What stands before an index, where a bracket is open or not.
fn before_index(opened: bool) -> &'static str
    ensures { result.now ≡ text_before_index opened }
{
    if opened { ", " } else { "[" }
}

/// What stands before a field, where a bracket is open or not.
fn before_field(opened: bool) -> &'static str
    ensures { result.now ≡ text_before_field opened }
{
    if opened { "]." } else { "." }
}

/// Appends a step into a part of a value, where a bracket is open or not, and answers whether one is open behind it.
#[cycle(print)]
fn push_reach(out: &mut Vec<u8>, opened: bool, reach: &Reach) -> Result<bool, AllocError>
    ensures { IfOk result (λ after. (rest : List ReachText) →
        out.new.items ++ reaches_text after rest ≡ out.old.items ++ reaches_text opened (printed_reach reach.now ∷ rest)) }
{
    match reach {
        Reach::At(index) => {
            out.extend_from_slice(before_index(opened).as_bytes())?;
            push_at(out, LOOSEST, index)?;
            Ok(true)
        }
        Reach::Field(name) => {
            out.extend_from_slice(before_field(opened).as_bytes())?;
            push_name(out, name)?;
            Ok(false)
        }
    }
}

/// Appends what is reached through a name: indices that follow each other stand in one bracket.
#[cycle(print)]
fn push_reaches(out: &mut Vec<u8>, reaches: &[Reach]) -> Result<(), AllocError>
    ensures { OnOk result (out.new.items ≡ out.old.items ++ reaches_text false (map printed_reach reaches.now)) }
{
    let mut opened = false;
    for reach in reaches {
        opened = push_reach(out, opened, reach)?;
    }
    if opened {
        out.push(b']')?;
    }
    Ok(())
}

/// Appends an operator with its right operand.
#[cycle(print)]
fn push_link(out: &mut Vec<u8>, link: &Link) -> Result<(), AllocError>
    ensures { OnOk result (out.new.items ≡ out.old.items ++ link_text (printed_link link.now)) }
{
    out.push(b' ')?;
    out.extend_from_slice(sign(link.op).as_bytes())?;
    out.push(b' ')?;
    push_at(out, chain_level(link.op) + 1, &link.with)
}

/// Appends operators, each with its right operand.
#[cycle(print)]
fn push_links(out: &mut Vec<u8>, links: &[Link]) -> Result<(), AllocError>
    ensures { OnOk result (out.new.items ≡ out.old.items ++ links_text (map printed_link links.now)) }
{
    for link in links {
        push_link(out, link)?;
    }
    Ok(())
}

/// Appends a condition with what stands for it.
#[cycle(print)]
fn push_branch(out: &mut Vec<u8>, branch: &Branch) -> Result<(), AllocError>
    ensures { OnOk result (out.new.items ≡ out.old.items ++ branch_text (printed_branch branch.now)) }
{
    push_at(out, LOOSEST, &branch.when)?;
    out.extend_from_slice(b" then ")?;
    push_at(out, LOOSEST, &branch.gives)
}

/// Appends `elif`, and a condition with what stands for it.
#[cycle(print)]
fn push_further_branch(out: &mut Vec<u8>, branch: &Branch) -> Result<(), AllocError>
    ensures { OnOk result (out.new.items ≡ out.old.items ++ (codes " elif " ++ branch_text (printed_branch branch.now))) }
{
    out.extend_from_slice(b" elif ")?;
    push_branch(out, branch)
}

/// Appends conditions, each with what stands for it.
#[cycle(print)]
fn push_branches(out: &mut Vec<u8>, branches: &[Branch]) -> Result<(), AllocError>
    ensures { OnOk result (out.new.items ≡ out.old.items ++ branches_text (map printed_branch branches.now)) }
{
    match branches {
        [] => Ok(()),
        [first, rest @ ..] => {
            push_branch(out, first)?;
            for branch in rest {
                push_further_branch(out, branch)?;
            }
            Ok(())
        }
    }
}

/// Appends a domain.
#[cycle(print)]
fn push_domain(out: &mut Vec<u8>, domain: &Domain) -> Result<(), AllocError>
    ensures { OnOk result (out.new.items ≡ out.old.items ++ printed_domain domain.now) }
{
    match domain {
        Domain::Bounds(lowest, greatest) => {
            out.push(b'[')?;
            push_at(out, LOOSEST, lowest.get())?;
            out.extend_from_slice(b", ")?;
            push_at(out, LOOSEST, greatest.get())?;
            out.push(b']')?;
            Ok(())
        }
        Domain::Bool => out.extend_from_slice(b"bool"),
        Domain::Named(name) => push_name(out, name),
    }
}

/// Appends the word of a quantifier, and its bind.
#[cycle(print)]
fn push_bind(
    out: &mut Vec<u8>,
    quant: Quant,
    name: &Name,
    domain: &Domain,
) -> Result<(), AllocError>
    ensures { OnOk result (out.new.items ≡ out.old.items
        ++ quantifier_text quant ++ codes " " ++ name_text name.now.text ++ codes " : " ++ printed_domain domain.now) }
{
    out.extend_from_slice(quantifier(quant).as_bytes())?;
    out.push(b' ')?;
    push_name(out, name)?;
    out.extend_from_slice(b" : ")?;
    push_domain(out, domain)
}

/// Appends the first value of a `pre`, where it has one.
#[cycle(print)]
fn push_first_value(out: &mut Vec<u8>, first: &Option<Boxed<Expr>>) -> Result<(), AllocError>
    ensures { OnOk result (out.new.items ≡ out.old.items ++ first_value_text (option_map printed first.now)) }
{
    match first {
        None => Ok(()),
        Some(first) => {
            out.extend_from_slice(b", ")?;
            push_at(out, LOOSEST, first.get())
        }
    }
}

/// Appends an expression between two brackets.
#[cycle(print)]
fn push_one(out: &mut Vec<u8>, opening: &str, expr: &Expr, closing: u8) -> Result<(), AllocError>
    ensures { OnOk result (out.new.items ≡ out.old.items ++ opening.now ++ plainly (printed expr.now) ++ closing ∷ []) }
{
    out.extend_from_slice(opening.as_bytes())?;
    push_at(out, LOOSEST, expr)?;
    out.push(closing)?;
    Ok(())
}

/// Appends an operand behind a sign.
#[cycle(print)]
fn push_signed(out: &mut Vec<u8>, sign: u8, operand: &Expr) -> Result<(), AllocError>
    ensures { OnOk result (out.new.items ≡ out.old.items ++ sign ∷ at_level operand_level (printed operand.now)) }
{
    out.push(sign)?;
    push_at(out, OPERAND, operand)
}

/// Appends an expression without parentheses around it.
#[cycle(print)]
fn push_form(out: &mut Vec<u8>, expr: &Expr) -> Result<(), AllocError>
    ensures { OnOk result (out.new.items ≡ out.old.items ++ (printed expr.now).text) }
{
    match &expr.form {
        Form::Number(number) => push_number(out, *number),
        Form::Truth(value) => out.extend_from_slice(if *value {
            "true"
        } else {
            "false"
        }.as_bytes()),
        Form::Path(name, reaches) => {
            push_name(out, name)?;
            push_reaches(out, reaches.as_slice())
        }
        Form::Chain(first, links) => {
            push_at(out, links_level(links.as_slice()) + 1, first.get())?;
            push_links(out, links.as_slice())
        }
        Form::Compare(cmp, left, right) => {
            push_at(out, COMPARISON + 1, left.get())?;
            out.push(b' ')?;
            out.extend_from_slice(comparison_sign(*cmp).as_bytes())?;
            out.push(b' ')?;
            push_at(out, COMPARISON + 1, right.get())
        }
        Form::Minus(operand) => push_signed(out, b'-', operand.get()),
        Form::Not(operand) => push_signed(out, b'~', operand.get()),
        Form::Choice(branches, otherwise) => {
            out.extend_from_slice(b"if ")?;
            push_branches(out, branches.as_slice())?;
            out.extend_from_slice(b" else ")?;
            push_at(out, LOOSEST, otherwise.get())
        }
        Form::Group(parts) => push_enclosed(out, "{", parts.as_slice(), b'}'),
        Form::Quant(quant, name, domain, body) => {
            push_bind(out, *quant, name, domain)?;
            push_one(out, " (", body.get(), b')')
        }
        Form::Pre(body, first) => {
            out.extend_from_slice(b"pre(")?;
            push_at(out, LOOSEST, body.get())?;
            push_first_value(out, first)?;
            out.push(b')')?;
            Ok(())
        }
        Form::Least(parts) => push_enclosed(out, "$min(", parts.as_slice(), b')'),
        Form::Greatest(parts) => push_enclosed(out, "$max(", parts.as_slice(), b')'),
        Form::Size(inner) => push_one(out, "$abs(", inner.get(), b')'),
        Form::Starting => Ok(()),
        Form::Within(_, _) => Ok(()),
    }
}

/// Appends an expression.
pub fn push_expression(out: &mut Vec<u8>, expr: &Expr) -> Result<(), AllocError>
    ensures { OnOk result (out.new.items ≡ out.old.items ++ expression_text expr.now) }
{
    push_at(out, LOOSEST, expr)
}
