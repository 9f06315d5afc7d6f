//! Names that were seen in one item.

ghost use Rattle.std.specs.Prelude.{◌≡◌, ◌∷◌, ◌++◌, [], MatchResult};
ghost use Rattle.hll_meaning.specs.StaticRules.{fresh_name};
ghost use Rattle.hll_expressions.specs.Answers.{IsFaultAt};

use hll_expressions::{StaticFault, refuse_if};
use hll_meaning::StaticKind;
use hll_tree::Name;
use indexmap::IndexSet;
use std::alloc::Global;
use std::marker::Model;

/// The names so far, lent from the text. Contracts see the list of their bytes.
#[derive(Drop)]
pub struct Seen<'a> {
    names: IndexSet<&'a [u8]>,
}

impl<'a> Model for Seen<'a> {
    ghost use Rattle.std.specs.Prelude.{List, ℕ, map};

    ghost Value = { List (List ℕ) };

    ghost view = { λ s. map (λ name. name.now) s.names.keys };
}

impl<'a> Seen<'a> {
    pub fn new(alloc: Global) -> Seen<'a>
        ensures { result ≡ [] }
    {
        Seen {
            names: IndexSet::new(alloc),
        }
    }

    /// Takes in a name that is new.
    pub fn insert(&mut self, name: &'a Name) -> Result<(), StaticFault>
        ensures { MatchResult result (λ u. (fresh_name self.old name.now ≡ []) × (self.new ≡ self.old ++ name.now.text ∷ [])) (IsFaultAt (fresh_name self.old name.now)) }
    {
        match self.names.insert_full(name.text.bytes()) {
            Ok((_, is_new)) => refuse_if(!is_new, StaticKind::Twice, name.at),
            Err(_) => Err(StaticFault::Memory),
        }
    }
}
