ghost use Rattle.std.specs.Prelude.{◌≡◌, ◌^◌, ◌+◌, ◌<◌, ◌≤◌, ◌++◌, ◌∷◌, [], ◌⊎◌, ℤ, List, Some, IfOk, OnOk, OnErr, length, slice_get, slice_set, slice_range, swap};
ghost use Rattle.rup_checker.specs.Stores.{start_of, clause_at};

use std::alloc::{AllocError, Global};
use std::marker::Model;

/// Clauses, numbered from 0, one after the other in one list of literals, each with the place where it ends. What is an
/// `i32` is up to the owner. Contracts see a store as its clauses, and for how many more clauses and literals it has
/// memory.
#[derive(Debug, Drop)]
pub struct Store {
    literals: Vec<i32>,
    ends: Vec<usize>,
}

impl Model for Store {
    ghost use Rattle.std.specs.Prelude.{◌-◌, vec_len, vec_capacity, length};
    ghost use Rattle.rup_checker.specs.Stores.{Stored, pieces, AreEnds};

    ghost Value = { Stored };

    ghost view = { λ s. record {
      clauses = pieces s.literals.items 0 s.ends.items;
      spare_clauses = vec_capacity s.ends - vec_len s.ends;
      spare_literals = vec_capacity s.literals - vec_len s.literals;
    } };

    ghost invariant = { λ s. AreEnds 0 s.ends.items (length s.literals.items) };
}

/// Where the piece with this number starts.
fn start(ends: &[usize], number: usize) -> usize
    requires { number ≤ length ends.now }
    ensures { result ≡ start_of ends.now number }
{
    if number == 0 { 0 } else { ends[number - 1] }
}

fn part(literals: &[i32], from: usize, to: usize) -> &[i32]
    requires ordered { from ≤ to }
    requires within { to ≤ length literals.now }
    ensures { result.now ≡ slice_range literals.now from to }
{
    &literals[from..to]
}

impl Store {
    /// No clauses. It takes no memory.
    pub fn new(alloc: Global) -> Store
        ensures clauses { result.clauses ≡ [] }
    {
        Store {
            literals: Vec::new(alloc),
            ends: Vec::new(alloc),
        }
    }

    /// No clauses, with memory for so many, and for so many literals.
    pub fn with_room(alloc: Global, clauses: usize, literals: usize) -> Result<Store, AllocError>
        ensures none { IfOk result (λ s. s.clauses ≡ []) }
        ensures clauses_room { IfOk result (λ s. clauses ≤ s.spare_clauses) }
        ensures literals_room { IfOk result (λ s. literals ≤ s.spare_literals) }
    {
        let mut store = Store::new(alloc);
        store.reserve(clauses, literals)?;
        Ok(store)
    }

    /// The same clauses, in memory of their own.
    pub fn copy(&self, alloc: Global) -> Result<Store, AllocError>
        ensures { IfOk result (λ s. s.clauses ≡ self.now.clauses) }
    {
        Ok(Store {
            literals: Vec::from_slice(alloc, &self.literals)?,
            ends: Vec::from_slice(alloc, &self.ends)?,
        })
    }

    /// The number of clauses.
    pub fn len(&self) -> usize
        ensures value { result ≡ length self.now.clauses }
        ensures bound { result < 2 ^ 63 }
    {
        self.ends.len()
    }

    /// The literals of the clause with this number.
    pub fn clause(&self, number: u32) -> &[i32]
        requires { number < length self.now.clauses }
        ensures { slice_get self.now.clauses number ≡ Some result.now }
    {
        self.at(number as usize)
    }

    /// The literals of the clause with this number.
    pub(crate) fn at(&self, number: usize) -> &[i32]
        requires { number < length self.now.clauses }
        ensures { slice_get self.now.clauses number ≡ Some result.now }
    {
        let from = start(&self.ends, number);
        let to = self.ends[number];
        part(&self.literals, from, to)
    }

    /// Takes memory for so many more clauses, and so many more literals.
    pub fn reserve(&mut self, clauses: usize, literals: usize) -> Result<(), AllocError>
        ensures clauses_room { OnOk result (clauses ≤ self.new.spare_clauses) }
        ensures literals_room { OnOk result (literals ≤ self.new.spare_literals) }
        ensures clauses_kept { self.old.spare_clauses ≤ self.new.spare_clauses }
        ensures literals_kept { self.old.spare_literals ≤ self.new.spare_literals }
        ensures same { self.new.clauses ≡ self.old.clauses }
    {
        self.ends.reserve(clauses)?;
        self.literals.reserve(literals)
    }

    /// Appends a clause, and answers its number.
    pub fn push(&mut self, clause: &[i32]) -> Result<u32, AllocError>
        requires { length self.old.clauses < 4294967295 }
        ensures number { IfOk result (λ n. n ≡ length self.old.clauses) }
        ensures ok { OnOk result (self.new.clauses ≡ self.old.clauses ++ clause.now ∷ []) }
        ensures err { OnErr result (self.new.clauses ≡ self.old.clauses) }
        ensures clauses_kept { OnOk result (self.old.spare_clauses ≤ self.new.spare_clauses + 1) }
        ensures literals_kept { OnOk result (self.old.spare_literals ≤ self.new.spare_literals + length clause.now) }
        ensures err_clauses_kept { OnErr result (self.old.spare_clauses ≤ self.new.spare_clauses) }
        ensures err_literals_kept { OnErr result (self.old.spare_literals ≤ self.new.spare_literals) }
        ensures full { OnErr result ((self.old.spare_clauses < 1) ⊎ (self.old.spare_literals < length clause.now)) }
    {
        let number = self.len() as u32;
        self.append(clause)?;
        Ok(number)
    }

    /// Appends a clause.
    pub(crate) fn append(&mut self, clause: &[i32]) -> Result<(), AllocError>
        ensures ok { OnOk result (self.new.clauses ≡ self.old.clauses ++ clause.now ∷ []) }
        ensures err { OnErr result (self.new.clauses ≡ self.old.clauses) }
        ensures clauses_kept { OnOk result (self.old.spare_clauses ≤ self.new.spare_clauses + 1) }
        ensures literals_kept { OnOk result (self.old.spare_literals ≤ self.new.spare_literals + length clause.now) }
        ensures err_clauses_kept { OnErr result (self.old.spare_clauses ≤ self.new.spare_clauses) }
        ensures err_literals_kept { OnErr result (self.old.spare_literals ≤ self.new.spare_literals) }
        ensures full { OnErr result ((self.old.spare_clauses < 1) ⊎ (self.old.spare_literals < length clause.now)) }
    {
        self.ends.reserve(1)?;
        self.literals.extend_from_slice(clause)?;
        let end = self.literals.len();
        self.ends.push_reserved(end);
        Ok(())
    }

    /// Puts two literals of a clause in each other's place.
    pub fn swap(&mut self, number: u32, one: usize, other: usize)
        requires there { number < length self.old.clauses }
        requires one { one < length (clause_at self.old.clauses number) }
        requires other { other < length (clause_at self.old.clauses number) }
        ensures swapped { self.new.clauses ≡
            slice_set self.old.clauses number (swap (clause_at self.old.clauses number) one other) }
        ensures clauses_kept { self.new.spare_clauses ≡ self.old.spare_clauses }
        ensures literals_kept { self.new.spare_literals ≡ self.old.spare_literals }
    {
        let from = start(&self.ends, number as usize);
        self.literals.swap(from + one, from + other);
    }
}
