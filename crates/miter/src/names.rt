//! Names of inputs and latches.

ghost use Rattle.std.specs.Prelude.{◌≡◌, ◌∷◌, ◌++◌, [], List, ℕ, ◌<◌, ◌^◌, length, false, Some, MatchOption, IfOk, OnOk};
ghost use Rattle.std.specs.List.{list_any};
ghost use Rattle.std.specs.Str.{bytes_eq};
ghost use Rattle.lll_core.specs.declared.signal.Signal.{Signal};
ghost use Rattle.lll_core.specs.Signals.{own_names, signal_names};
ghost use Rattle.miter.specs.Miters.{marked as marked_of, IsNewName};
ghost use Rattle.miter.specs.Joining.{Puts, name_number, is_taken, AreNumbers};

use indexmap::{IndexMap, IndexSet};
use lll_core::Signal;
use std::alloc::{AllocError, Global};
use std::marker::Model;

/// The numbers of the inputs and latches of a model, by names that it lends. Contracts see the list of
/// names with their numbers.
#[derive(Drop)]
pub(crate) struct Numbers<'a> {
    by_name: IndexMap<&'a [u8], u32>,
}

impl<'a> Model for Numbers<'a> {
    ghost use Rattle.std.specs.Prelude.{List, ℕ, map};

    ghost Value = { List (List ℕ × ℕ) };

    ghost view = { λ n. map (λ e. (e.0.now, e.1)) n.by_name.entries };
}

impl<'a> Numbers<'a> {
    pub(crate) fn new(alloc: Global) -> Numbers<'a>
        ensures { result ≡ [] }
    {
        Numbers {
            by_name: IndexMap::new(alloc),
        }
    }

    pub(crate) fn insert(&mut self, name: &'a [u8], number: u32) -> Result<(), AllocError>
        ensures { OnOk result (Puts (name_number self.old) (name_number self.new) name.now (Some number)) }
    {
        match self.by_name.insert(name, number) {
            Ok(_) => Ok(()),
            Err(_) => Err(AllocError),
        }
    }

    pub(crate) fn get(&self, name: &[u8]) -> Option<u32>
        ensures { result ≡ name_number self.now name.now }
    {
        self.by_name.get(name).copied()
    }
}

/// The names that were given to latches. Contracts see their list.
#[derive(Drop)]
pub(crate) struct Given {
    seen: IndexSet<Vec<u8>>,
}

impl Model for Given {
    ghost use Rattle.std.specs.Prelude.{List, ℕ, map};

    ghost Value = { List (List ℕ) };

    ghost view = { λ g. map (λ name. name.items) g.seen.keys };
}

impl Given {
    pub(crate) fn new(alloc: Global) -> Given
        ensures { result ≡ [] }
    {
        Given {
            seen: IndexSet::new(alloc),
        }
    }

    pub(crate) fn contains(&self, name: &[u8]) -> bool
        ensures { result ≡ list_any (bytes_eq name.now) self.now }
    {
        self.seen.contains(name)
    }

    /// Takes in a new name.
    pub(crate) fn insert(&mut self, name: Vec<u8>) -> Result<(), AllocError>
        requires { list_any (bytes_eq name.items) self.old ≡ false }
        ensures { OnOk result (self.new ≡ self.old ++ name.items ∷ []) }
    {
        match self.seen.insert(name) {
            Ok(_) => Ok(()),
            Err(_) => Err(AllocError),
        }
    }
}

/// The name of an input or a latch.
fn name_of(signal: &Signal) -> Option<&[u8]>
    ensures { MatchOption result (own_names signal.now ≡ []) (λ name. own_names signal.now ≡ name.now ∷ []) }
{
    match signal {
        Signal::Input(name) => Some(name.bytes()),
        Signal::Latch { name, .. } => Some(name.bytes()),
        Signal::One | Signal::Imp(..) | Signal::Eqv(..) => None,
    }
}

/// The numbers of the inputs and latches among these signals.
pub(crate) fn numbers_of(alloc: Global, signals: &[Signal]) -> Result<Numbers<'_>, AllocError>
    requires { length signals.now < 2 ^ 31 }
    ensures { IfOk result (AreNumbers signals.now) }
{
    let mut numbers = Numbers::new(alloc);
    for (number, signal) in signals.iter().enumerate() {
        if let Some(name) = name_of(signal) {
            numbers.insert(name, number as u32)?;
        }
    }
    Ok(numbers)
}

/// The name with `b ` in front.
fn marked(alloc: Global, name: &[u8]) -> Result<Vec<u8>, AllocError>
    ensures { IfOk result (λ new. new.items ≡ marked_of 1 name.now) }
{
    let mut new = Vec::from_slice(alloc, b"b ")?;
    new.extend_from_slice(name)?;
    Ok(new)
}

/// Whether an input or a latch has the name.
fn is_taken(numbers: &Numbers<'_>, given: &Given, name: &[u8]) -> bool
    ensures { result ≡ is_taken numbers.now given.now name.now }
{
    numbers.get(name).is_some() || given.contains(name)
}

/// The new name of a latch of b.
pub(crate) fn new_name(
    alloc: Global,
    numbers: &Numbers<'_>,
    given: &Given,
    name: &[u8],
) -> Result<Vec<u8>, AllocError>
    ensures new { IfOk result (λ new. (signals : List Signal) → AreNumbers signals numbers.now →
        IsNewName (signal_names signals ++ given.now) name.now new.items) }
    ensures free { IfOk result (λ new. list_any (bytes_eq new.items) given.now ≡ false) }
{
    let mut new = marked(alloc, name)?;
    while is_taken(numbers, given, &new) {
        new = marked(alloc, &new)?;
    }
    Ok(new)
}
