//! The elements of enumerations and sorts by their roots and codes.

ghost use Rattle.std.specs.Prelude.{◌≡◌, ℕ, ◌&&◌, List, None, Some, nat_eq, IfOk, OnOk, if◌then◌else◌};
ghost use Rattle.std.specs.Option.{option_copied};
ghost use Rattle.std.specs.Str.{bytes_eq};
ghost use Rattle.hll_expressions.specs.Things.{declared_names, said_of};
ghost use Rattle.hll_types.specs.Tables.{coded_among, element_in, AreNumbered, HasNumber, IsFound};

use hll_expressions::{Thing, Things};
use hll_lexer::Word;
use indexmap::{IndexMap, IndexSet};
use std::alloc::{AllocError, Global};

/// The names of elements by the numbers of their roots and their codes there.
#[derive(Drop)]
pub struct Elements {
    roots: IndexSet<Vec<u8>>,
    by_code: IndexMap<(usize, u64), Word>,
}

impl Elements {
    fn new(alloc: Global) -> Elements
        ensures empty { (root : List ℕ) (code : ℕ) → element_in result root code ≡ None }
        ensures numbered { AreNumbered result }
    {
        Elements {
            roots: IndexSet::new(alloc),
            by_code: IndexMap::new(alloc),
        }
    }

    /// The name of the element with this code in a root.
    pub fn get(&self, root: &[u8], code: u64) -> Option<&Word>
        ensures { option_copied result ≡ element_in self.now root.now code }
    {
        let number = self.roots.get_index_of(root)?;
        self.by_code.get(&(number, code))
    }

    /// The number of a root: one that is new goes last.
    fn number(&mut self, alloc: Global, root: &[u8]) -> Result<usize, AllocError>
        ensures { IfOk result (HasNumber self.old self.new root.now) }
    {
        let root = Vec::from_slice(alloc, root)?;
        match self.roots.insert_full(root) {
            Ok((number, _)) => Ok(number),
            Err(_) => Err(AllocError),
        }
    }

    /// Puts a name under the code of an element.
    fn put(&mut self, alloc: Global, root: &[u8], code: u64, name: &[u8]) -> Result<(), AllocError>
        requires { AreNumbered self.old }
        ensures found { OnOk result ((r : List ℕ) (c : ℕ) → element_in self.new r c ≡ (if bytes_eq root.now r && nat_eq code c then Some name.now else element_in self.old r c)) }
        ensures numbered { OnOk result (AreNumbered self.new) }
    {
        let name = Word::new(alloc, name)?;
        let number = self.number(alloc, root)?;
        match self.by_code.insert((number, code), name) {
            Ok(_) => Ok(()),
            Err(_) => Err(AllocError),
        }
    }

    /// Takes in a name, if it is that of an element.
    fn take_in(&mut self, alloc: Global, name: &[u8], thing: &Thing) -> Result<(), AllocError>
        requires { AreNumbered self.old }
        ensures { OnOk result (IsFound self.old self.new name.now (said_of thing.now)) }
    {
        match thing {
            Thing::Element { root, code } => self.put(alloc, root.bytes(), *code, name),
            Thing::Truth(_) | Thing::Number(_) | Thing::Type(_) | Thing::Variable { .. } => Ok(()),
        }
    }

    /// The elements among names.
    pub fn among(alloc: Global, names: &Things) -> Result<Elements, AllocError>
        ensures { IfOk result (λ all. (root : List ℕ) (code : ℕ) → element_in all root code ≡ coded_among root code (declared_names names.now)) }
    {
        let mut all = Elements::new(alloc);
        for (name, thing) in names.iter() {
            all.take_in(alloc, name.as_slice(), thing)?;
        }
        Ok(all)
    }
}
