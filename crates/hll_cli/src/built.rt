//! Which models are of the forms that are built.

ghost use Rattle.std.specs.Prelude.{◌≡◌};
ghost use Rattle.hll_cli.specs.BooleanTexts.{is_boolean_op as is_boolean_operator, is_boolean as is_boolean_expression};
ghost use Rattle.std.specs.List.{list_all};
ghost use Rattle.hll_cli.specs.Accepted.{is_boolean_link, is_single, is_bool as is_bool_type, is_boolean_decl, is_built_section, is_built as is_built_model};

use hll_tree::{Decl, Declarator, Expr, Form, HllModel, Link, Op, Section, TypeText};

/// Whether the operator is one of Boolean chains.
fn is_boolean_op(op: Op) -> bool
    ensures { result ≡ is_boolean_operator op }
{
    match op {
        Op::Implies | Op::Or | Op::And => true,
        Op::Same | Op::Differ | Op::Plus | Op::Less | Op::Times | Op::Over | Op::Rest => false,
    }
}

/// Whether an expression has truth values, names, `~`, `&`, `#` and `->` alone.
#[tactic(auto, using(crate::proofs::Booleans::boolean_number, crate::proofs::Booleans::boolean_truth, crate::proofs::Booleans::boolean_path, crate::proofs::Booleans::boolean_reaching, crate::proofs::Booleans::boolean_compare, crate::proofs::Booleans::boolean_minus, crate::proofs::Booleans::boolean_not, crate::proofs::Booleans::boolean_choice, crate::proofs::Booleans::boolean_group, crate::proofs::Booleans::boolean_quant, crate::proofs::Booleans::boolean_pre, crate::proofs::Booleans::boolean_least, crate::proofs::Booleans::boolean_greatest, crate::proofs::Booleans::boolean_size, crate::proofs::Booleans::boolean_starting, crate::proofs::Booleans::boolean_within, crate::proofs::Booleans::boolean_chain))]
#[cycle(boolean)]
fn is_boolean(expr: &Expr) -> bool
    ensures { result ≡ is_boolean_expression expr.now }
{
    match &expr.form {
        Form::Truth(_) => true,
        Form::Path(_, reaches) => reaches.as_slice().is_empty(),
        Form::Not(inner) => is_boolean(inner.get()),
        Form::Chain(first, links) => is_boolean(first.get()) && are_boolean(links.as_slice()),
        Form::Number(_)
        | Form::Compare(_, _, _)
        | Form::Minus(_)
        | Form::Choice(_, _)
        | Form::Group(_)
        | Form::Quant(_, _, _, _)
        | Form::Pre(_, _)
        | Form::Least(_)
        | Form::Greatest(_)
        | Form::Size(_)
        | Form::Starting
        | Form::Within(_, _) => false,
    }
}

/// Whether the operators are Boolean, and their right operands.
#[cycle(boolean)]
fn are_boolean(links: &[Link]) -> bool
    ensures { result ≡ list_all is_boolean_link links.now }
{
    for link in links {
        if !is_boolean_op(link.op) || !is_boolean(&link.with) {
            return false;
        }
    }
    true
}

fn is_bool(ty: &TypeText) -> bool
    ensures { result ≡ is_bool_type ty.now }
{
    match ty {
        TypeText::Bool => true,
        TypeText::Bounds(_, _) | TypeText::Signed(_) | TypeText::Unsigned(_) | TypeText::Named(_) =>
            false,
    }
}

/// Whether none of the names is an array's.
fn are_single(names: &[Declarator]) -> bool
    ensures { result ≡ list_all (λ n. is_single n.dims) names.now }
{
    names.iter().all(|name| name.dims.as_slice().is_empty())
}

/// Whether a declaration is one of Booleans, none of them an array.
fn declares_booleans(decl: &Decl) -> bool
    ensures { result ≡ is_boolean_decl decl.now }
{
    is_bool(&decl.ty) && are_single(decl.names.as_slice())
}

fn all_declare_booleans(decls: &[Decl]) -> bool
    ensures { result ≡ list_all is_boolean_decl decls.now }
{
    decls.iter().all(declares_booleans)
}

fn all_are_boolean(exprs: &[Expr]) -> bool
    ensures { result ≡ list_all is_boolean_expression exprs.now }
{
    exprs.iter().all(is_boolean)
}

/// Whether a section is of a kind that is built, with items that are.
fn is_built_of(section: &Section) -> bool
    ensures { result ≡ is_built_section section.now }
{
    match section {
        Section::Inputs(decls) => all_declare_booleans(decls.as_slice()),
        Section::Obligations(exprs) => all_are_boolean(exprs.as_slice()),
        Section::Constants(_)
        | Section::Types(_)
        | Section::Declarations(_)
        | Section::Definitions(_)
        | Section::Constraints(_) => false,
    }
}

/// Whether a model has Boolean inputs and obligations alone.
pub fn is_built(model: &HllModel) -> bool
    ensures { result ≡ is_built_model model.now }
{
    model.sections.as_slice().iter().all(is_built_of)
}
