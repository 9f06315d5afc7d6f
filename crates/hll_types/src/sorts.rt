//! Sorts and enumerations.

ghost use Rattle.std.specs.Prelude.{◌≡◌, ◌∷◌, ◌++◌, [], None, Some, length, map, position, slice_get, is_none, option_map, IfErr, OnOk};
ghost use Rattle.std.specs.Str.{bytes_eq};
ghost use Rattle.hll_meaning.specs.Names.{under};
ghost use Rattle.hll_meaning.specs.Types.{ends};
ghost use Rattle.indexmap.specs.IndexMap.{insert_entry};
ghost use Rattle.hll_expressions.specs.declared.faults.StaticFault.TheVariants.{Memory};
ghost use Rattle.hll_expressions.specs.Things.{thing_found};
ghost use Rattle.hll_types.specs.Sorting.{codes_of_count, AreJoined, IsChildJoined};

use hll_expressions::{Found, StaticFault, Things, fault, refuse_if};
use hll_meaning::StaticKind;
use hll_tree::Name;
use indexmap::IndexMap;
use intervals::Interval;
use std::alloc::Global;
use std::marker::Model;

/// An enumeration or a sort: how many elements it has, and where they begin in the sort that it is joined to.
#[derive(Clone, Copy, Debug, PartialEq, Eq)]
pub struct Sort {
    pub is_sort: bool,
    pub count: u64,
    /// The number of its parent, and how many elements of that stand before its own.
    pub parent: Option<(usize, u64)>,
}

/// The enumerations and sorts by their names, in the order of the text. Contracts see the list of names with what stands
/// under them.
#[derive(Drop)]
pub struct Sorts<'a> {
    by_name: IndexMap<&'a [u8], Sort>,
}

impl<'a> Model for Sorts<'a> {
    ghost use Rattle.std.specs.Prelude.{List, ℕ, map};
    ghost use Rattle.hll_types.specs.declared.sorts.Sort.{Sort};

    ghost Value = { List (List ℕ × Sort) };

    ghost view = { λ s. map (λ e. (e.0.now, e.1)) s.by_name.entries };
}

/// The codes of so many elements.
pub fn codes(count: u64) -> Interval
    ensures { ends result ≡ codes_of_count count }
{
    Interval {
        lo: 0,
        hi: count.saturating_sub(1) as i128,
    }
}

/// Whether nothing stands under a name.
fn is_nothing(found: Found<'_>) -> bool
    ensures { result ≡ is_none (thing_found found.entry) }
{
    match found {
        Found::Nothing => true,
        Found::Thing(_) | Found::Later => false,
    }
}

impl<'a> Sorts<'a> {
    pub fn new(alloc: Global) -> Sorts<'a>
        ensures { result ≡ [] }
    {
        Sorts {
            by_name: IndexMap::new(alloc),
        }
    }

    /// How many there are.
    pub fn len(&self) -> usize
        ensures { result ≡ length self.now }
    {
        self.by_name.len()
    }

    /// The sort or enumeration with a name.
    pub fn get(&self, name: &[u8]) -> Option<Sort>
        ensures { result ≡ under name.now self.now }
    {
        self.by_name.get(name).copied()
    }

    /// The number of a sort or an enumeration.
    pub fn number(&self, name: &[u8]) -> Option<usize>
        ensures { result ≡ position (bytes_eq name.now) (map (λ e. e.0) self.now) }
    {
        self.by_name.get_index_of(name)
    }

    /// The one with a number.
    pub fn at(&self, number: usize) -> Option<(&[u8], Sort)>
        ensures { option_map (λ e. (e.0.now, e.1)) result ≡ slice_get self.now number }
    {
        match self.by_name.get_index(number) {
            Some((name, sort)) => Some((name, *sort)),
            None => None,
        }
    }

    /// Puts a sort or an enumeration under a name.
    fn put(&mut self, name: &'a [u8], sort: Sort) -> Result<(), StaticFault>
        ensures put { OnOk result (self.new ≡ insert_entry bytes_eq self.old name.now sort) }
        ensures memory { IfErr result (λ wrong. wrong ≡ Memory) }
    {
        match self.by_name.insert(name, sort) {
            Ok(_) => Ok(()),
            Err(_) => Err(StaticFault::Memory),
        }
    }

    /// Declares an enumeration or a sort by its elements.
    pub fn declare(&mut self, name: &'a [u8], is_sort: bool, count: u64) -> Result<(), StaticFault>
        ensures declared { OnOk result (self.new ≡ insert_entry bytes_eq self.old name.now (record { is_sort = is_sort; count = count; parent = None })) }
        ensures memory { IfErr result (λ wrong. wrong ≡ Memory) }
    {
        let sort = Sort {
            is_sort,
            count,
            parent: None,
        };
        self.put(name, sort)
    }

    /// One child of the sort that is declared next: a sort that has no parent yet. Answers how many elements it has.
    fn child(&mut self, names: &Things, name: &'a Name, before: u64) -> Result<u64, StaticFault>
        ensures { IsChildJoined self.old self.new names.now name.now before result }
    {
        let at = name.at;
        let unknown = is_nothing(names.get(name.text.bytes()));
        refuse_if(unknown, StaticKind::Unknown, at)?;
        let Some(sort) = self.get(name.text.bytes()) else {
            return Err(fault(StaticKind::Kind, at));
        };
        refuse_if(sort.parent.is_some(), StaticKind::Twice, at)?;
        refuse_if(!sort.is_sort, StaticKind::Kind, at)?;
        let joined = Sort {
            is_sort: sort.is_sort,
            count: sort.count,
            parent: Some((self.len(), before)),
        };
        self.put(name.text.bytes(), joined)?;
        Ok(sort.count)
    }

    /// The children of the sort that is declared next, one by one: how many elements they have together.
    pub fn children(&mut self, names: &Things, children: &'a [Name]) -> Result<u64, StaticFault>
        ensures { AreJoined self.old self.new names.now children.now result }
    {
        let mut count: u64 = 0;
        for name in children {
            let more = self.child(names, name, count)?;
            match count.checked_add(more) {
                Some(sum) => count = sum,
                None => return Err(StaticFault::Memory),
            }
        }
        Ok(count)
    }
}
