//! Copies of expressions, in memory of their own.

ghost use Rattle.std.specs.Prelude.{◌≡◌, IfOk};

use crate::tree::{Branch, Domain, Expr, Form, Link, Name, Reach};
use hll_lexer::Word;
use sqlite_items::{Boxed, Items};
use std::alloc::{AllocError, Global};

impl Expr {
    /// The same expression, in memory of its own. Time is linear in its size, and the stack goes as deep as it does.
    #[cycle(copying)]
    pub fn copy(&self, alloc: Global) -> Result<Expr, AllocError>
        ensures { IfOk result (λ e. e ≡ self.now) }
    {
        Ok(Expr {
            at: self.at,
            form: self.form.copy(alloc)?,
        })
    }
}

impl Form {
    #[cycle(copying)]
    fn copy(&self, alloc: Global) -> Result<Form, AllocError>
        ensures { IfOk result (λ f. f ≡ self.now) }
    {
        match self {
            Form::Number(value) => Ok(Form::Number(*value)),
            Form::Truth(value) => Ok(Form::Truth(*value)),
            Form::Path(name, reaches) => {
                Ok(Form::Path(name.copy(alloc)?, copy_reaches(alloc, reaches)?))
            }
            Form::Chain(first, links) => {
                Ok(Form::Chain(copy_boxed(alloc, first)?, copy_links(alloc, links)?))
            }
            Form::Compare(cmp, left, right) => {
                Ok(Form::Compare(*cmp, copy_boxed(alloc, left)?, copy_boxed(alloc, right)?))
            }
            Form::Minus(operand) => Ok(Form::Minus(copy_boxed(alloc, operand)?)),
            Form::Not(operand) => Ok(Form::Not(copy_boxed(alloc, operand)?)),
            Form::Choice(branches, otherwise) => Ok(Form::Choice(
                copy_branches(alloc, branches)?,
                copy_boxed(alloc, otherwise)?,
            )),
            Form::Group(parts) => Ok(Form::Group(copy_parts(alloc, parts)?)),
            Form::Quant(quant, name, domain, body) => {
                let (name, domain) = (name.copy(alloc)?, domain.copy(alloc)?);
                Ok(Form::Quant(*quant, name, domain, copy_boxed(alloc, body)?))
            }
            Form::Pre(body, first) => {
                Ok(Form::Pre(copy_boxed(alloc, body)?, copy_first(alloc, first)?))
            }
            Form::Least(parts) => Ok(Form::Least(copy_parts(alloc, parts)?)),
            Form::Greatest(parts) => Ok(Form::Greatest(copy_parts(alloc, parts)?)),
            Form::Size(inner) => Ok(Form::Size(copy_boxed(alloc, inner)?)),
            Form::Starting => Ok(Form::Starting),
            Form::Within(inner, ends) => Ok(Form::Within(copy_boxed(alloc, inner)?, *ends)),
        }
    }
}

impl Name {
    fn copy(&self, alloc: Global) -> Result<Name, AllocError>
        ensures { IfOk result (λ n. n ≡ self.now) }
    {
        Ok(Name {
            text: Word::new(alloc, self.text.bytes())?,
            at: self.at,
        })
    }
}

impl Reach {
    #[cycle(copying)]
    fn copy(&self, alloc: Global) -> Result<Reach, AllocError>
        ensures { IfOk result (λ r. r ≡ self.now) }
    {
        match self {
            Reach::At(index) => Ok(Reach::At(index.copy(alloc)?)),
            Reach::Field(name) => Ok(Reach::Field(name.copy(alloc)?)),
        }
    }
}

impl Link {
    #[cycle(copying)]
    fn copy(&self, alloc: Global) -> Result<Link, AllocError>
        ensures { IfOk result (λ l. l ≡ self.now) }
    {
        Ok(Link {
            op: self.op,
            at: self.at,
            with: self.with.copy(alloc)?,
        })
    }
}

impl Branch {
    #[cycle(copying)]
    fn copy(&self, alloc: Global) -> Result<Branch, AllocError>
        ensures { IfOk result (λ b. b ≡ self.now) }
    {
        Ok(Branch {
            when: self.when.copy(alloc)?,
            gives: self.gives.copy(alloc)?,
        })
    }
}

impl Domain {
    #[cycle(copying)]
    fn copy(&self, alloc: Global) -> Result<Domain, AllocError>
        ensures { IfOk result (λ d. d ≡ self.now) }
    {
        match self {
            Domain::Bounds(lowest, greatest) => {
                Ok(Domain::Bounds(copy_boxed(alloc, lowest)?, copy_boxed(alloc, greatest)?))
            }
            Domain::Bool => Ok(Domain::Bool),
            Domain::Named(name) => Ok(Domain::Named(name.copy(alloc)?)),
        }
    }
}

#[cycle(copying)]
fn copy_boxed(alloc: Global, expr: &Boxed<Expr>) -> Result<Boxed<Expr>, AllocError>
    ensures { IfOk result (λ copy. copy ≡ expr.now) }
{
    Boxed::new(alloc, expr.get().copy(alloc)?)
}

#[cycle(copying)]
fn copy_first(alloc: Global, first: &Option<Boxed<Expr>>) -> Result<Option<Boxed<Expr>>, AllocError>
    ensures { IfOk result (λ copy. copy ≡ first.now) }
{
    match first {
        None => Ok(None),
        Some(first) => Ok(Some(Boxed::new(alloc, first.get().copy(alloc)?)?)),
    }
}

#[cycle(copying)]
fn copy_parts(alloc: Global, parts: &Items<Expr>) -> Result<Items<Expr>, AllocError>
    ensures { IfOk result (λ copies. copies ≡ parts.now) }
{
    let mut copies = Items::new(alloc);
    for part in parts.as_slice() {
        copies.push(part.copy(alloc)?)?;
    }
    Ok(copies)
}

#[cycle(copying)]
fn copy_reaches(alloc: Global, reaches: &Items<Reach>) -> Result<Items<Reach>, AllocError>
    ensures { IfOk result (λ copies. copies ≡ reaches.now) }
{
    let mut copies = Items::new(alloc);
    for reach in reaches.as_slice() {
        copies.push(reach.copy(alloc)?)?;
    }
    Ok(copies)
}

#[cycle(copying)]
fn copy_links(alloc: Global, links: &Items<Link>) -> Result<Items<Link>, AllocError>
    ensures { IfOk result (λ copies. copies ≡ links.now) }
{
    let mut copies = Items::new(alloc);
    for link in links.as_slice() {
        copies.push(link.copy(alloc)?)?;
    }
    Ok(copies)
}

#[cycle(copying)]
fn copy_branches(alloc: Global, branches: &Items<Branch>) -> Result<Items<Branch>, AllocError>
    ensures { IfOk result (λ copies. copies ≡ branches.now) }
{
    let mut copies = Items::new(alloc);
    for branch in branches.as_slice() {
        copies.push(branch.copy(alloc)?)?;
    }
    Ok(copies)
}
