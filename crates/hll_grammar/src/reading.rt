//! What the readers of the parts of a text share.

ghost use Rattle.std.specs.Prelude.{◌≡◌, [], ◌∷◌, ◌++◌, OnOk, IfOk};
ghost use Rattle.std.specs.Result.{IsOkUnless};
ghost use Rattle.hll_tree.specs.Spells.{Listed, IsName, named};
ghost use Rattle.hll_grammar.specs.Lookahead.{Kinds, nothing, list_goes_on};
ghost use Rattle.hll_grammar.specs.Reading.{Form as FormOf, Reads};
ghost use Rattle.hll_grammar.specs.Repetition.{Lists};

use crate::cursor::Cursor;
use crate::fault::SyntaxFault;
use hll_lexer::Mark;
use hll_tree::{Expr, Form, Name};
use sqlite_items::{Boxed, Items};
use std::alloc::Global;

/// What is read wherever it stands, in the same way.
pub trait Read: Drop {
    /// How it is spelled.
    ghost form: { FormOf Self };
    /// With what it may go on.
    ghost goes_on: { Kinds };

    fn read(alloc: Global, cursor: &mut Cursor<'_>) -> Result<Self, SyntaxFault>
        ensures text { cursor.new.text ≡ cursor.old.text }
        ensures reads { Reads form goes_on
            cursor.old.text 200 cursor.old.rest cursor.new.rest result };
}

impl Read for Name {
    ghost form = { IsName };

    ghost goes_on = { nothing };

    fn read(alloc: Global, cursor: &mut Cursor<'_>) -> Result<Name, SyntaxFault> {
        cursor.name(alloc)
    }
}

pub fn push<T: Drop>(items: &mut Items<T>, item: T) -> Result<(), SyntaxFault>
    ensures pushed { OnOk result (items.new ≡ items.old ++ item ∷ []) }
    ensures memory { IsOkUnless result SyntaxFault.Memory }
{
    items.push(item).map_err(|_| SyntaxFault::Memory)
}

pub fn append<T: Drop>(items: &mut Items<T>, more: Items<T>) -> Result<(), SyntaxFault>
    ensures appended { OnOk result (items.new ≡ items.old ++ more) }
    ensures memory { IsOkUnless result SyntaxFault.Memory }
{
    items.append(more).map_err(|_| SyntaxFault::Memory)
}

pub fn boxed(alloc: Global, inner: Expr) -> Result<Boxed<Expr>, SyntaxFault>
    ensures value { IfOk result (λ b. b ≡ inner) }
    ensures memory { IsOkUnless result SyntaxFault.Memory }
{
    Boxed::new(alloc, inner).map_err(|_| SyntaxFault::Memory)
}

/// One or more, parted by commas.
pub fn listed<T: Read>(alloc: Global, cursor: &mut Cursor<'_>) -> Result<Items<T>, SyntaxFault>
    requires { Lists T.form T.goes_on }
    ensures text { cursor.new.text ≡ cursor.old.text }
    ensures reads { Reads (λ s. Listed (T.form s)) (list_goes_on T.goes_on)
        cursor.old.text 200 cursor.old.rest cursor.new.rest result }
{
    let mut items = Items::new(alloc);
    let first = T::read(alloc, cursor)?;
    push(&mut items, first)?;
    'further: while let Some(_comma) = cursor.accept(Mark::Comma) {
        let item = T::read(alloc, cursor)?;
        push(&mut items, item)?;
    }
    Ok(items)
}

/// A name alone, as an expression.
pub fn named_alone(alloc: Global, name: Name) -> Expr
    ensures { result ≡ named name }
{
    let at = name.at;
    let form = Form::Path(name, Items::new(alloc));
    Expr { at, form }
}
