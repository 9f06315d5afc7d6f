ghost use Rattle.std.specs.Prelude.{◌≡◌, ◌≢◌, ◌+◌, ◌*◌, ◌<◌, ◌≤◌, ◌++◌, ◌∷◌, [], ℤ, IfOk, OnOk, OnErr, length, slice_index_or, slice_set};
ghost use Rattle.std.specs.List.{swap_remove};
ghost use Rattle.rup_checker.specs.Formulas.{IsLiteral};
ghost use Rattle.cdcl_solver.specs.Watches.{listed, AreEdited};

use crate::literals::place;
use rup_checker::MAX_VARIABLES;
use sqlite_items::Items;
use std::alloc::{AllocError, Global};
use std::marker::Model;

/// An entry in the list of a literal: the clause with this number is to be looked at when the literal becomes false,
/// unless this other literal of it is true. Of a binary clause it says all.
#[derive(Clone, Copy, Debug)]
pub struct Watch {
    pub number: u32,
    pub other: i32,
    pub binary: bool,
}

/// A list of watches for each literal.
#[derive(Debug, Drop)]
pub struct Watches {
    variables: u32,
    lists: Vec<Items<Watch>>,
}

impl Model for Watches {
    ghost use Rattle.std.specs.Prelude.{◌≡◌, ◌≤◌, ◌+◌, ◌*◌, length};
    ghost use Rattle.cdcl_solver.specs.Watches.{Lists};

    ghost Value = { Lists };

    ghost view = { λ w. record { variables = w.variables; lists = w.lists.items } };

    ghost invariant = { λ w. (w.variables ≤ 16000000) × (length w.lists.items ≡ 2 * w.variables + 2) };
}

/// Removes an item, and puts the last one in its place.
fn remove(list: &mut Items<Watch>, at: usize)
    requires { at < length list.old }
    ensures { (d : Watch) → list.new ≡ swap_remove list.old at d }
{
    if let Some(last) = list.pop() {
        if at < list.len() {
            list.set(at, last);
        }
    }
}

impl Watches {
    /// Empty lists for the literals of the variables 1 to `variables`.
    pub fn new(alloc: Global, variables: u32) -> Result<Watches, AllocError>
        requires { variables ≤ MAX_VARIABLES }
        ensures variables { IfOk result (λ w. w.variables ≡ variables) }
        ensures empty { IfOk result (λ w. (l : ℤ) → listed w l ≡ []) }
    {
        let count = 2 * variables as usize + 2;
        let mut lists = Vec::with_capacity(alloc, count)?;
        for _ in 0..count {
            lists.push(Items::new(alloc))?;
        }
        Ok(Watches { variables, lists })
    }

    /// The watches of a literal.
    pub fn of(&self, literal: i32) -> &[Watch]
        requires { IsLiteral self.now.variables literal }
        ensures { result.now ≡ listed self.now literal }
    {
        self.lists[place(literal)].as_slice()
    }

    /// Appends a watch to the list of a literal.
    pub fn push(&mut self, literal: i32, watch: Watch) -> Result<(), AllocError>
        requires { IsLiteral self.old.variables literal }
        ensures ok { OnOk result (AreEdited self.old self.new literal (listed self.old literal ++ watch ∷ [])) }
        ensures err { OnErr result (self.new ≡ self.old) }
    {
        self.lists[place(literal)].push(watch)
    }

    /// Puts another watch in the place of one.
    pub fn set(&mut self, literal: i32, at: usize, watch: Watch)
        requires in_range { IsLiteral self.old.variables literal }
        requires within { at < length (listed self.old literal) }
        ensures { AreEdited self.old self.new literal (slice_set (listed self.old literal) at watch) }
    {
        self.lists[place(literal)].set(at, watch);
    }

    /// Removes a watch, and puts the last one in its place.
    pub fn remove(&mut self, literal: i32, at: usize)
        requires in_range { IsLiteral self.old.variables literal }
        requires within { at < length (listed self.old literal) }
        ensures { (d : Watch) → AreEdited self.old self.new literal (swap_remove (listed self.old literal) at d) }
    {
        remove(&mut self.lists[place(literal)], at);
    }
}
