//! What a text declares, and what is asked of it.

ghost use Rattle.std.specs.Prelude.{◌≡◌, ◌++◌, map, IfOk, OnOk};
ghost use Rattle.hll_meaning.specs.Runs.{obligations_in, obligations};
ghost use Rattle.hll_cli.specs.BooleanTexts.{declared_names, input_names_in, input_names};

use hll_tree::{Decl, Expr, HllModel, Section};
use std::alloc::{AllocError, Global};

/// Appends the names of a declaration.
fn push_names<'a>(names: &mut Vec<&'a [u8]>, decl: &'a Decl) -> Result<(), AllocError>
    ensures { OnOk result (map (λ n. n.now) names.new.items ≡ map (λ n. n.now) names.old.items ++ declared_names decl.now) }
{
    for declarator in decl.names.as_slice() {
        names.push(declarator.name.text.bytes())?;
    }
    Ok(())
}

/// Appends the names of the inputs that a section declares.
fn push_inputs<'a>(names: &mut Vec<&'a [u8]>, section: &'a Section) -> Result<(), AllocError>
    ensures { OnOk result (map (λ n. n.now) names.new.items ≡ map (λ n. n.now) names.old.items ++ input_names_in section.now) }
{
    match section {
        Section::Inputs(decls) => {
            for decl in decls.as_slice() {
                push_names(names, decl)?;
            }
            Ok(())
        }
        Section::Constants(_)
        | Section::Types(_)
        | Section::Declarations(_)
        | Section::Definitions(_)
        | Section::Constraints(_)
        | Section::Obligations(_) => Ok(()),
    }
}

/// The names of the inputs, in text order.
pub fn inputs(alloc: Global, model: &HllModel) -> Result<Vec<&[u8]>, AllocError>
    ensures { IfOk result (λ names. map (λ n. n.now) names.items ≡ input_names model.now) }
{
    let mut names = Vec::new(alloc);
    for section in model.sections.as_slice() {
        push_inputs(&mut names, section)?;
    }
    Ok(names)
}

/// Appends the obligations of a section.
fn push_obligations<'a>(
    obligations: &mut Vec<&'a Expr>,
    section: &'a Section,
) -> Result<(), AllocError>
    ensures { OnOk result (map (λ e. e.now) obligations.new.items ≡ map (λ e. e.now) obligations.old.items ++ obligations_in section.now) }
{
    match section {
        Section::Obligations(expressions) => {
            for expression in expressions.as_slice() {
                obligations.push(expression)?;
            }
            Ok(())
        }
        Section::Constants(_)
        | Section::Types(_)
        | Section::Inputs(_)
        | Section::Declarations(_)
        | Section::Definitions(_)
        | Section::Constraints(_) => Ok(()),
    }
}

/// The obligations, in text order.
pub fn asked(alloc: Global, model: &HllModel) -> Result<Vec<&Expr>, AllocError>
    ensures { IfOk result (λ es. map (λ e. e.now) es.items ≡ obligations model.now) }
{
    let mut obligations = Vec::new(alloc);
    for section in model.sections.as_slice() {
        push_obligations(&mut obligations, section)?;
    }
    Ok(obligations)
}
