use crate::expressions::push_expression;
use crate::{
    Branch, Cmp, ConstItem, Decl, Declarator, Def, Domain, Expr, Field, Form, HllModel, Link, Name,
    Op, Quant, Reach, Section, TypeText, print,
};
use hll_lexer::Word;
use intervals::Interval;
use sqlite_items::{Boxed, Items};
use std::alloc::{AllocError, Global};
use std::test::Fail;

/// Compiles and is proved where values of the type may go from thread to thread and be shared by threads.
fn crosses_threads<T: Send + Sync>() {}

#[test]
fn parts_of_trees_cross_threads() {
    crosses_threads::<Expr>();
    crosses_threads::<ConstItem>();
    crosses_threads::<Field>();
    crosses_threads::<Decl>();
    crosses_threads::<Def>();
}

fn one<T: Drop>(alloc: Global, item: T) -> Result<Items<T>, AllocError> {
    let mut items = Items::new(alloc);
    items.push(item)?;
    Ok(items)
}

fn name(alloc: Global, text: &str) -> Result<Name, AllocError> {
    Ok(Name {
        text: Word::new(alloc, text.as_bytes())?,
        at: 0,
    })
}

fn path(alloc: Global, text: &str) -> Result<Expr, AllocError> {
    Ok(Expr {
        at: 0,
        form: Form::Path(name(alloc, text)?, Items::new(alloc)),
    })
}

fn chain(alloc: Global, first: Expr, op: Op, with: Expr) -> Result<Expr, AllocError> {
    let link = Link { op, at: 0, with };
    Ok(Expr {
        at: 0,
        form: Form::Chain(Boxed::new(alloc, first)?, one(alloc, link)?),
    })
}

/// `Inputs: bool 'if'; Proof Obligations: (a -> 'b c') -> 'if' & a;`
fn model(alloc: Global) -> Result<HllModel, AllocError> {
    let declarator = Declarator {
        name: name(alloc, "if")?,
        dims: Items::new(alloc),
    };
    let decl = Decl {
        ty: TypeText::Bool,
        names: one(alloc, declarator)?,
    };
    let left = chain(alloc, path(alloc, "a")?, Op::Implies, path(alloc, "b c")?)?;
    let right = chain(alloc, path(alloc, "if")?, Op::And, path(alloc, "a")?)?;
    let obligation = chain(alloc, left, Op::Implies, right)?;
    let mut sections = one(alloc, Section::Inputs(one(alloc, decl)?))?;
    sections.push(Section::Obligations(one(alloc, obligation)?))?;
    Ok(HllModel { sections })
}

#[test]
fn print_quotes_names_and_keeps_the_parentheses_that_the_tree_needs(
    rt: HostRuntime,
) -> Result<(), Fail> {
    let text = print(rt.alloc(), &model(rt.alloc())?)?;
    let expected = "Inputs:\n  bool 'if';\nProof Obligations:\n  (a -> 'b c') -> 'if' & a;\n";
    assert_eq!(rt; text.as_slice(), expected.as_bytes());
    Ok(())
}

/// What is printed of one expression of each form that has a spelling.
const FORMS: &str =
    "{7, true, m[1].f, a + 2, a < 3, -a, ~a, $abs(a), $min(1), $max(2), {}, if a then 1 else 2, ALL i : [0, 1] (a), SOME i : bool (a), SUM i : t (a), pre(a), pre(a, 0)}";

fn push(parts: &mut Items<Expr>, form: Form) -> Result<(), AllocError> {
    parts.push(Expr { at: 0, form })
}

fn number(alloc: Global, value: i128) -> Result<Boxed<Expr>, AllocError> {
    let form = Form::Number(value);
    Boxed::new(alloc, Expr { at: 0, form })
}

fn variable(alloc: Global) -> Result<Boxed<Expr>, AllocError> {
    Boxed::new(alloc, path(alloc, "a")?)
}

fn push_operations(alloc: Global, parts: &mut Items<Expr>) -> Result<(), AllocError> {
    push(parts, Form::Number(7))?;
    push(parts, Form::Truth(true))?;
    let mut reaches = one(alloc, Reach::At(number(alloc, 1)?.into_inner()))?;
    reaches.push(Reach::Field(name(alloc, "f")?))?;
    push(parts, Form::Path(name(alloc, "m")?, reaches))?;
    let two = number(alloc, 2)?.into_inner();
    parts.push(chain(alloc, path(alloc, "a")?, Op::Plus, two)?)?;
    let (left, right) = (variable(alloc)?, number(alloc, 3)?);
    push(parts, Form::Compare(Cmp::Lt, left, right))?;
    push(parts, Form::Minus(variable(alloc)?))?;
    push(parts, Form::Not(variable(alloc)?))?;
    push(parts, Form::Size(variable(alloc)?))
}

fn push_lists(alloc: Global, parts: &mut Items<Expr>) -> Result<(), AllocError> {
    let least = one(alloc, number(alloc, 1)?.into_inner())?;
    push(parts, Form::Least(least))?;
    let greatest = one(alloc, number(alloc, 2)?.into_inner())?;
    push(parts, Form::Greatest(greatest))?;
    push(parts, Form::Group(Items::new(alloc)))?;
    let branch = Branch {
        when: path(alloc, "a")?,
        gives: number(alloc, 1)?.into_inner(),
    };
    push(parts, Form::Choice(one(alloc, branch)?, number(alloc, 2)?))
}

fn push_quantifiers(alloc: Global, parts: &mut Items<Expr>) -> Result<(), AllocError> {
    let bounds = Domain::Bounds(number(alloc, 0)?, number(alloc, 1)?);
    let named = Domain::Named(name(alloc, "t")?);
    let index = name(alloc, "i")?;
    push(
        parts,
        Form::Quant(Quant::All, index, bounds, variable(alloc)?),
    )?;
    let index = name(alloc, "i")?;
    push(
        parts,
        Form::Quant(Quant::Any, index, Domain::Bool, variable(alloc)?),
    )?;
    let index = name(alloc, "i")?;
    push(
        parts,
        Form::Quant(Quant::Sum, index, named, variable(alloc)?),
    )?;
    push(parts, Form::Pre(variable(alloc)?, None))?;
    let first = number(alloc, 0)?;
    push(parts, Form::Pre(variable(alloc)?, Some(first)))
}

#[test]
fn copies_of_expressions_have_every_part(rt: HostRuntime) -> Result<(), Fail> {
    let alloc = rt.alloc();
    let mut parts = Items::new(alloc);
    push_operations(alloc, &mut parts)?;
    push_lists(alloc, &mut parts)?;
    push_quantifiers(alloc, &mut parts)?;
    let form = Form::Group(parts);
    let copy = Expr { at: 9, form }.copy(alloc)?;
    let mut text = Vec::new(alloc);
    push_expression(&mut text, &copy)?;
    assert_eq!(rt; text.as_slice(), FORMS.as_bytes());
    assert_eq!(rt; copy.at, 9);
    Ok(())
}

/// The ends between which an expression says that a variable lies.
fn ends_of(expr: &Expr) -> Option<Interval> {
    match &expr.form {
        Form::Within(inner, ends) => match &inner.get().form {
            Form::Path(_, _) => Some(*ends),
            _ => None,
        },
        _ => None,
    }
}

fn within(alloc: Global, ends: Interval) -> Result<Expr, AllocError> {
    let form = Form::Within(variable(alloc)?, ends);
    Ok(Expr { at: 5, form })
}

#[test]
fn copy_of_within_has_its_ends(rt: HostRuntime) -> Result<(), Fail> {
    let ends = Interval::new(-3, 7).ok_or("-3..7")?;
    let copy = within(rt.alloc(), ends)?.copy(rt.alloc())?;
    assert_eq!(rt; ends_of(&copy), Some(ends));
    Ok(())
}

#[test]
fn copy_of_starting_is_starting(rt: HostRuntime) -> Result<(), Fail> {
    let form = Form::Starting;
    let copy = Expr { at: 4, form }.copy(rt.alloc())?;
    assert!(rt; matches!(&copy.form, Form::Starting));
    Ok(())
}
