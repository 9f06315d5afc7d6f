//! A value that is built signal by signal.

ghost use Rattle.std.specs.Prelude.{◌≡◌, ℕ, ◌+◌, ◌*◌, ◌%◌, ◌<◌, ◌≤◌, ◌^◌, ◌||◌, not, min, max, [], ◌∷◌, ◌++◌, length, All, Contains, Some, slice_get, slice_set, IfOk, OnOk, OnErr};
ghost use Rattle.lll_core.specs.declared.draft.Draft.{Draft};
ghost use Rattle.lll_core.specs.declared.draft.Draft.TheVariants.{Whole, Waiting};
ghost use Rattle.lll_core.specs.declared.signal.Signal.TheVariants.{One, Input, Imp, Eqv};
ghost use Rattle.lll_core.specs.Signals.{signal_of, signal_names, operands, nexts, NamesSignal, IsName};
ghost use Rattle.lll_core.specs.Tables.{Instant, value, are_equal, GatesHold};
ghost use Rattle.lll_core.specs.Drafts.{signal_in, signals_in, with_next as with_next_of, lower, upper, IsWhole, IsLatchLiteral, IsGate, IsProper, AreProper, AreReduced, GainsAtMost};
ghost use Rattle.lll_core.specs.Building.{node_at, nodes_from, MayFollow};

use crate::draft::{into_signal, with_next};
use crate::literal::{folded_eqv, folded_imp, opposite, positive};
use crate::node::{Node, place, push};
use crate::{Draft, Lll, Named, Signal};
use hll_lexer::Word;
use indexmap::IndexSet;
use sqlite_items::Items;
use std::alloc::{AllocError, Global};
use std::marker::Model;
use std::mem;

/// Builds an [`Lll`] signal by signal, each gate once. Contracts see the signals so far.
#[derive(Drop)]
pub struct Builder {
    alloc: Global,
    /// A signal's number is its node's place.
    nodes: IndexSet<Node>,
    drafts: Vec<Draft>,
}

impl Model for Builder {
    ghost use Rattle.std.specs.Prelude.{List};
    ghost use Rattle.lll_core.specs.declared.draft.Draft.{Draft};
    ghost use Rattle.lll_core.specs.Building.{IsBuilding};

    ghost Value = { List Draft };

    ghost view = { λ b. b.drafts.items };

    ghost invariant = { λ b. IsBuilding b.nodes.keys b.drafts.items };
}

/// Puts a signal and its node after the others.
fn append(
    nodes: &mut IndexSet<Node>,
    drafts: &mut Vec<Draft>,
    node: Node,
    draft: Draft,
) -> Result<(), AllocError>
    requires new { Contains nodes.old.keys node → ⊥ }
    ensures nodes { OnOk result (nodes.new.keys ≡ nodes.old.keys ++ node ∷ []) }
    ensures drafts { OnOk result (drafts.new.items ≡ drafts.old.items ++ draft ∷ []) }
    ensures err_nodes { OnErr result (nodes.new.keys ≡ nodes.old.keys) }
    ensures err_drafts { OnErr result (drafts.new.items ≡ drafts.old.items) }
{
    drafts.push(draft)?;
    if let Err(refused) = push(nodes, node) {
        drafts.pop();
        return Err(refused);
    }
    Ok(())
}

/// The signals of drafts.
fn signals(alloc: Global, drafts: Vec<Draft>) -> Result<Vec<Signal>, AllocError>
    ensures { IfOk result (λ signals. signals.items ≡ signals_in drafts.items) }
{
    let mut signals = Vec::with_capacity(alloc, drafts.len())?;
    for draft in drafts {
        signals.push(into_signal(draft))?;
    }
    Ok(signals)
}

impl Builder {
    /// Holds the signal that is always true.
    pub fn new(alloc: Global) -> Result<Builder, AllocError>
        ensures { IfOk result (λ b. b ≡ Whole One ∷ []) }
    {
        let mut nodes = IndexSet::new(alloc);
        let mut drafts = Vec::new(alloc);
        append(
            &mut nodes,
            &mut drafts,
            Node::Alone(0),
            Draft::Whole(Signal::One),
        )?;
        Ok(Builder {
            alloc,
            nodes,
            drafts,
        })
    }

    /// Adds a signal that the builder doesn't have, and answers its literal.
    fn add(&mut self, node: Node, draft: Draft) -> Result<u32, AllocError>
        requires follows { MayFollow (signals_in self.old) (signal_in draft) }
        requires next { All (NamesSignal self.old) (nexts (signal_in draft)) }
        requires proper { IsProper (signal_in draft) }
        requires tied { node ≡ node_at (length self.old) (signal_in draft) }
        requires new { Contains (nodes_from 0 (signals_in self.old)) node → ⊥ }
        ensures literal { IfOk result (λ literal. literal ≡ 2 * length self.old) }
        ensures added { OnOk result (self.new ≡ self.old ++ draft ∷ []) }
        ensures reduced { AreReduced (signals_in self.new) }
        ensures err { OnErr result (self.new ≡ self.old) }
    {
        let number = self.drafts.len() as u32;
        append(&mut self.nodes, &mut self.drafts, node, draft)?;
        Ok(positive(number))
    }

    /// An input, free at every instant.
    pub fn input(&mut self, name: &[u8]) -> Result<u32, AllocError>
        requires room { length self.old + 1 < 2 ^ 31 }
        requires named { IsName name.now }
        requires new { Contains (signal_names (signals_in self.old)) name.now → ⊥ }
        ensures literal { IfOk result (λ literal. literal ≡ 2 * length self.old) }
        ensures added { OnOk result (self.new ≡ self.old ++ Whole (Input name.now) ∷ []) }
        ensures err { OnErr result (self.new ≡ self.old) }
    {
        let node = Node::Alone(self.drafts.len() as u32);
        let name = Word::new(self.alloc, name)?;
        self.add(node, Draft::Whole(Signal::Input(name)))
    }

    /// A latch, which needs a next before the value is finished.
    pub fn latch(&mut self, name: &[u8], init: u32) -> Result<u32, AllocError>
        requires room { length self.old + 1 < 2 ^ 31 }
        requires named { IsName name.now }
        requires new { Contains (signal_names (signals_in self.old)) name.now → ⊥ }
        requires init { NamesSignal self.old init }
        ensures literal { IfOk result (λ literal. literal ≡ 2 * length self.old) }
        ensures added { OnOk result (self.new ≡ self.old ++ Waiting name.now init ∷ []) }
        ensures err { OnErr result (self.new ≡ self.old) }
    {
        let node = Node::Alone(self.drafts.len() as u32);
        let name = Word::new(self.alloc, name)?;
        self.add(node, Draft::Waiting { name, init })
    }

    /// The literal of a gate, which is added where it isn't there.
    fn gate(&mut self, node: Node, gate: Signal) -> Result<u32, AllocError>
        requires room { length self.old + 1 < 2 ^ 31 }
        requires gate { IsGate gate }
        requires tied { node ≡ node_at 0 gate }
        requires lower { All (NamesSignal self.old) (operands gate) }
        requires proper { IsProper gate }
        ensures literal { IfOk result (λ literal. (n : ℕ) × (literal ≡ 2 * n)
            × (slice_get self.new n ≡ Some (Whole gate))) }
        ensures added { OnOk result (GainsAtMost gate self.old self.new) }
        ensures least { length self.old ≤ length self.new }
        ensures most { length self.new ≤ length self.old + 1 }
        ensures reduced { AreReduced (signals_in self.new) }
        ensures err { OnErr result (self.new ≡ self.old) }
    {
        match place(&self.nodes, node) {
            Some(number) => Ok(positive(number as u32)),
            None => self.add(node, Draft::Whole(gate)),
        }
    }

    /// A literal whose value is that of `a -> b`.
    pub fn imp(&mut self, a: u32, b: u32) -> Result<u32, AllocError>
        requires room { length self.old + 1 < 2 ^ 31 }
        requires a { NamesSignal self.old a }
        requires b { NamesSignal self.old b }
        ensures there { IfOk result (λ literal. NamesSignal self.new literal) }
        ensures value { IfOk result (λ literal. (now : Instant) → GatesHold (signals_in self.new) now →
            value now literal ≡ (not (value now a) || value now b)) }
        ensures added { OnOk result (GainsAtMost (Imp a b) self.old self.new) }
        ensures least { length self.old ≤ length self.new }
        ensures most { length self.new ≤ length self.old + 1 }
        ensures gate { IfOk result (λ literal. AreProper a b →
            (n : ℕ) × (literal ≡ 2 * n) × (slice_get self.new n ≡ Some (Whole (Imp a b)))) }
        ensures reduced { AreReduced (signals_in self.new) }
        ensures err { OnErr result (self.new ≡ self.old) }
    {
        // What a builder keeps holds of its fields: signal 0 is always true.
        let _ = &self.drafts;
        match folded_imp(a, b) {
            Some(literal) => Ok(literal),
            None => self.gate(Node::Imp(a, b), Signal::Imp(a, b)),
        }
    }

    /// A literal whose value is that of `a <-> b`.
    pub fn eqv(&mut self, a: u32, b: u32) -> Result<u32, AllocError>
        requires room { length self.old + 1 < 2 ^ 31 }
        requires a { NamesSignal self.old a }
        requires b { NamesSignal self.old b }
        ensures there { IfOk result (λ literal. NamesSignal self.new literal) }
        ensures value { IfOk result (λ literal. (now : Instant) → GatesHold (signals_in self.new) now →
            value now literal ≡ are_equal (value now a) (value now b)) }
        ensures added { OnOk result (GainsAtMost (Eqv (lower a b) (upper a b)) self.old self.new) }
        ensures least { length self.old ≤ length self.new }
        ensures most { length self.new ≤ length self.old + 1 }
        ensures gate { IfOk result (λ literal. AreProper a b →
            (n : ℕ) × (literal ≡ 2 * n + (a + b) % 2)
            × (slice_get self.new n ≡ Some (Whole (Eqv (lower a b) (upper a b))))) }
        ensures reduced { AreReduced (signals_in self.new) }
        ensures err { OnErr result (self.new ≡ self.old) }
    {
        // What a builder keeps holds of its fields: signal 0 is always true.
        let _ = &self.drafts;
        match folded_eqv(a, b) {
            Some(literal) => Ok(literal),
            None => {
                let low = positive((a / 2).min(b / 2));
                let high = positive((a / 2).max(b / 2));
                let gate = self.gate(Node::Eqv(low, high), Signal::Eqv(low, high))?;
                Ok(if a % 2 == b % 2 { gate } else { opposite(gate) })
            }
        }
    }

    /// Gives a latch its next, also where it has one already.
    pub fn set_next(&mut self, latch: u32, next: u32)
        requires latch { IsLatchLiteral self.old latch }
        requires next { NamesSignal self.old next }
        ensures long { length self.new ≡ length self.old }
        ensures next { (d : Draft) → slice_get self.old (signal_of latch) ≡ Some d →
            self.new ≡ slice_set self.old (signal_of latch) (with_next_of next d) }
    {
        let slot = &mut self.drafts[(latch / 2) as usize];
        let draft = mem::replace(slot, Draft::Whole(Signal::One));
        *slot = with_next(draft, next);
    }

    /// The value, once each latch has its next.
    pub fn finish(
        self,
        assume: u32,
        keep: u32,
        constraints: Vec<u32>,
        obligations: Vec<u32>,
        names: Vec<Named>,
    ) -> Result<Lll, AllocError>
        requires whole { All IsWhole self }
        requires assume { NamesSignal self assume }
        requires keep { NamesSignal self keep }
        requires constraints { All (NamesSignal self) constraints.items }
        requires obligations { All (NamesSignal self) obligations.items }
        requires literals { All (λ n. NamesSignal self n.literal) names.items }
        requires named { All (λ n. IsName n.name) names.items }
        ensures signals { IfOk result (λ l. l.signals ≡ signals_in self) }
        ensures reduced { IfOk result (λ l. AreReduced l.signals) }
        ensures assume { IfOk result (λ l. l.assume ≡ assume) }
        ensures keep { IfOk result (λ l. l.keep ≡ keep) }
        ensures constraints { IfOk result (λ l. l.constraints ≡ constraints.items) }
        ensures obligations { IfOk result (λ l. l.obligations ≡ obligations.items) }
        ensures names { IfOk result (λ l. l.names ≡ names.items) }
    {
        let Builder {
            alloc,
            nodes: _nodes,
            drafts,
        } = self;
        let signals = signals(alloc, drafts)?;
        Ok(Lll {
            signals: Items::from_vec(signals),
            assume,
            keep,
            constraints: Items::from_vec(constraints),
            obligations: Items::from_vec(obligations),
            names: Items::from_vec(names),
        })
    }
}
