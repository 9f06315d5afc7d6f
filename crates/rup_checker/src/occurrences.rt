ghost use Rattle.std.specs.Prelude.{◌≡◌, ◌<◌, ◌≤◌, ◌∷◌, [], ℤ, IfOk, IfSome, OnOk, MatchOption, All};
ghost use Rattle.rup_checker.specs.Formulas.{IsLiteral};
ghost use Rattle.rup_checker.specs.Occurrences.{AddsNumber, head, linked, listed};

use crate::formula::MAX_VARIABLES;
use crate::marks::place;
use std::alloc::{AllocError, Global};
use std::marker::Model;

/// A number that is listed, and the link to the rest of its list.
#[derive(Clone, Copy, Debug)]
pub struct Cell {
    pub number: u32,
    pub rest: u32,
}

/// A list of numbers of clauses for each literal, the last one first. The lists share one vector of cells. The link to a
/// list is 0 where it is empty, and else one more than the place of its first cell.
#[derive(Debug, Drop)]
pub struct Occurrences {
    variables: u32,
    heads: Vec<u32>,
    cells: Vec<Cell>,
}

impl Model for Occurrences {
    ghost use Rattle.rup_checker.specs.Occurrences.{Listing, IsListing};

    ghost Value = { Listing };

    ghost view = { λ o. record { variables = o.variables; heads = o.heads.items; cells = o.cells.items } };

    ghost invariant = { λ o. IsListing o.variables o.heads.items o.cells.items };
}

impl Occurrences {
    /// No numbers, for literals of the variables 1 to `variables`.
    pub fn new(alloc: Global, variables: u32) -> Result<Occurrences, AllocError>
        requires { variables ≤ MAX_VARIABLES }
        ensures variables { IfOk result (λ o. o.variables ≡ variables) }
        ensures empty { IfOk result (λ o. (l : ℤ) → listed o l ≡ []) }
    {
        let places = 2 * variables as usize + 1;
        Ok(Occurrences {
            variables,
            heads: vec![in alloc; 0; places]?,
            cells: Vec::new(alloc),
        })
    }

    /// The link to the numbers that are listed under a literal. The later a number was listed there, the greater it is.
    pub fn head(&self, literal: i32) -> u32
        requires { IsLiteral self.now.variables literal }
        ensures { result ≡ head self.now literal }
    {
        self.heads[place(self.variables, literal)]
    }

    /// The cell that a link leads to.
    pub fn follow(&self, link: u32) -> Option<Cell>
        ensures numbers { MatchOption result (linked self.now link ≡ []) (λ c. linked self.now link ≡ c.number ∷ linked self.now c.rest) }
        ensures falls { IfSome result (λ c. c.rest < link) }
    {
        let count = self.cells.len();
        if link == 0 || link as usize > count {
            return None;
        }
        Some(self.cells[link as usize - 1])
    }

    /// Lists a number under a literal. There is no memory for a number that is greater than 2^32 - 1, or for more numbers
    /// than that.
    pub fn add(&mut self, literal: i32, number: usize) -> Result<(), AllocError>
        requires { IsLiteral self.old.variables literal }
        ensures { OnOk result (AddsNumber self.old self.new (literal ∷ []) number) }
    {
        let count = self.cells.len();
        if number > u32::MAX as usize || count >= u32::MAX as usize {
            return Err(AllocError);
        }
        let place = place(self.variables, literal);
        let rest = self.heads[place];
        let number = number as u32;
        self.cells.push(Cell { number, rest })?;
        self.heads[place] = count as u32 + 1;
        Ok(())
    }

    /// Lists a number under each of these literals.
    pub fn add_each(&mut self, literals: &[i32], number: usize) -> Result<(), AllocError>
        requires { All (IsLiteral self.old.variables) literals.now }
        ensures { OnOk result (AddsNumber self.old self.new literals.now number) }
    {
        for &literal in literals {
            self.add(literal, number)?;
        }
        Ok(())
    }
}
