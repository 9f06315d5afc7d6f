//! The names of inputs and latches so far.

ghost use Rattle.std.specs.Prelude.{◌≡◌, List, [], ◌∷◌, ◌++◌, ℕ, map, true, not, IfOk};
ghost use Rattle.std.specs.List.{list_any};
ghost use Rattle.std.specs.Str.{bytes_eq};

use indexmap::IndexSet;
use std::alloc::{AllocError, Global};
use std::marker::Model;

/// The names so far, lent from the text. Contracts see the list of their bytes.
#[derive(Drop)]
pub(crate) struct Names<'a> {
    seen: IndexSet<&'a [u8]>,
}

impl<'a> Model for Names<'a> {
    ghost use Rattle.std.specs.Prelude.{List, ℕ, map};

    ghost Value = { List (List ℕ) };

    ghost view = { λ n. map (λ k. k.now) n.seen.keys };
}

impl<'a> Names<'a> {
    pub(crate) fn new(alloc: Global) -> Names<'a>
        ensures { result ≡ [] }
    {
        Names {
            seen: IndexSet::new(alloc),
        }
    }

    /// Takes in a name, and answers whether it is new.
    pub(crate) fn insert(&mut self, name: &'a [u8]) -> Result<bool, AllocError>
        ensures is_new { IfOk result (λ new. new ≡ not (list_any (bytes_eq name.now) self.old)) }
        ensures taken { IfOk result (λ new. new ≡ true → self.new ≡ self.old ++ name.now ∷ []) }
    {
        match self.seen.insert_full(name) {
            Ok((_, new)) => Ok(new),
            Err(_) => Err(AllocError),
        }
    }
}
