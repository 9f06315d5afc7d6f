//! The signals of b are put to those of a one by one.

ghost use Rattle.std.specs.Prelude.{◌≡◌, ℕ, ◌+◌, ◌*◌, ◌<◌, ◌^◌, ◌∷◌, ◌++◌, [], List, length, All, IfOk, IfErr, IfSome, IfNone, OnOk};
ghost use Rattle.lll_core.specs.declared.signal.Signal.{Signal};
ghost use Rattle.lll_core.specs.declared.signal.Signal.TheVariants.{Input, Latch};
ghost use Rattle.lll_core.specs.Signals.{signal_of as signal_of_literal, is_input as is_input_of, is_latch as is_latch_of, operands, own_names, AreSignals};
ghost use Rattle.miter.specs.declared.fault.MiterFault.TheVariants as fault;
ghost use Rattle.miter.specs.Pairs.{IsInputAt, IsLatchAt, HasPartner, IsWithoutPartner};
ghost use Rattle.miter.specs.Miters.{image as image_of};
ghost use Rattle.miter.specs.Joining.{AreNumbers, BecomesGate, Joins};

use crate::MiterFault;
use crate::gates::{Gate, Gates, gates_of, signal_of};
use crate::names::{Given, Numbers, new_name, numbers_of};
use hll_lexer::Word;
use lll_core::Signal;
use std::alloc::{AllocError, Global};

/// What is known of the signals of b so far, and what is appended to those of a.
#[derive(Drop)]
pub(crate) struct Joining {
    /// For each signal of b the number of the signal that it becomes.
    pub places: Vec<u32>,
    /// What is appended. Latches have their nexts of b still.
    pub added: Vec<Signal>,
    /// The comparisons of latches.
    pub latches: Vec<Signal>,
    pub given: Given,
    pub gates: Gates,
}

/// The literal that a literal of b becomes.
pub(crate) fn image(places: &[u32], literal: u32) -> u32
    requires there { signal_of_literal literal < length places.now }
    requires small { All (λ place. place < 2 ^ 31) places.now }
    ensures { result ≡ image_of places.now literal }
{
    2 * places[(literal / 2) as usize] + literal % 2
}

/// The fault of what has this name.
pub(crate) fn unpaired(alloc: Global, name: &[u8]) -> MiterFault
    ensures { (other : List ℕ) → result ≡ fault.Unpaired other → other ≡ name.now }
{
    match Word::new(alloc, name) {
        Ok(name) => MiterFault::Unpaired { name },
        Err(_) => MiterFault::Memory,
    }
}

fn is_input(signal: &Signal) -> bool
    ensures { result ≡ is_input_of signal.now }
{
    match signal {
        Signal::Input(_) => true,
        Signal::One | Signal::Latch { .. } | Signal::Imp(..) | Signal::Eqv(..) => false,
    }
}

pub(crate) fn is_latch(signal: &Signal) -> bool
    ensures { result ≡ is_latch_of signal.now }
{
    match signal {
        Signal::Latch { .. } => true,
        Signal::One | Signal::Input(_) | Signal::Imp(..) | Signal::Eqv(..) => false,
    }
}

/// The number of the input with this name.
fn input_number(a: &[Signal], numbers: &Numbers<'_>, name: &[u8]) -> Option<u32>
    requires distinct { AreSignals a.now }
    requires numbers { AreNumbers a.now numbers.now }
    ensures found { IfSome result (IsInputAt a.now name.now) }
    ensures none { IfNone result (HasPartner a.now (Input name.now) → ⊥) }
{
    match numbers.get(name) {
        Some(number) if is_input(&a[number as usize]) => Some(number),
        Some(_) | None => None,
    }
}

/// The number of the latch with this name.
fn latch_number(a: &[Signal], numbers: &Numbers<'_>, name: &[u8]) -> Option<u32>
    requires distinct { AreSignals a.now }
    requires numbers { AreNumbers a.now numbers.now }
    ensures found { IfSome result (IsLatchAt a.now name.now) }
    ensures none { IfNone result ((init next : ℕ) → HasPartner a.now (Latch name.now init next) → ⊥) }
{
    match numbers.get(name) {
        Some(number) if is_latch(&a[number as usize]) => Some(number),
        Some(_) | None => None,
    }
}

impl Joining {
    /// No signal of b so far.
    fn new(alloc: Global, a: &[Signal]) -> Result<Joining, AllocError>
        requires { length a.now < 2 ^ 31 }
        ensures { IfOk result (Joins a.now []) }
    {
        Ok(Joining {
            places: Vec::new(alloc),
            added: Vec::new(alloc),
            latches: Vec::new(alloc),
            given: Given::new(alloc),
            gates: gates_of(alloc, a)?,
        })
    }

    /// A gate: the first one of its form and operands, or else it is appended.
    fn gate(&mut self, a: &[Signal], gate: Gate) -> Result<(), AllocError>
        requires room { length a.now + length self.old.added.items + 1 < 2 ^ 31 }
        ensures { (done : List Signal) (s : Signal) → Joins a.now done self.old →
            ((more : List ℕ) → BecomesGate (self.old.places.items ++ more) s gate) →
            OnOk result (Joins a.now (done ++ s ∷ []) self.new) }
    {
        let next = (a.len() + self.added.len()) as u32;
        let place = self.gates.number(gate, next)?;
        if place == next {
            self.added.push(signal_of(gate))?;
        }
        self.places.push(place)?;
        Ok(())
    }

    /// A latch, which is appended under a new name and compared with its partner.
    fn latch(
        &mut self,
        alloc: Global,
        a: &[Signal],
        numbers: &Numbers<'_>,
        name: &[u8],
        init: u32,
        next: u32,
    ) -> Result<(), MiterFault>
        requires distinct { AreSignals a.now }
        requires numbers { AreNumbers a.now numbers.now }
        requires room { length a.now + length self.old.added.items + 1 < 2 ^ 31 }
        requires there { signal_of_literal init < length self.old.places.items }
        requires small { All (λ place. place < 2 ^ 31) self.old.places.items }
        ensures joined { (done : List Signal) → Joins a.now done self.old →
            OnOk result (Joins a.now (done ++ Latch name.now init next ∷ []) self.new) }
        ensures fault { IfErr result (λ e. (other : List ℕ) → e ≡ fault.Unpaired other →
            (other ≡ name.now) × (HasPartner a.now (Latch name.now init next) → ⊥)) }
    {
        let Some(partner) = latch_number(a, numbers, name) else {
            return Err(unpaired(alloc, name));
        };
        let given = new_name(alloc, numbers, &self.given, name)?;
        let place = (a.len() + self.added.len()) as u32;
        let init = image(&self.places, init);
        let name = Word::new(alloc, &given)?;
        self.added.push(Signal::Latch { name, init, next })?;
        self.given.insert(given)?;
        self.latches.push(Signal::Eqv(2 * partner, 2 * place))?;
        self.places.push(place)?;
        Ok(())
    }

    /// One more signal of b.
    fn take(
        &mut self,
        alloc: Global,
        a: &[Signal],
        numbers: &Numbers<'_>,
        signal: &Signal,
    ) -> Result<(), MiterFault>
        requires distinct { AreSignals a.now }
        requires numbers { AreNumbers a.now numbers.now }
        requires room { length a.now + length self.old.added.items + 1 < 2 ^ 31 }
        requires there { All (λ x. signal_of_literal x < length self.old.places.items) (operands signal.now) }
        requires small { All (λ place. place < 2 ^ 31) self.old.places.items }
        ensures joined { (done : List Signal) → Joins a.now done self.old →
            OnOk result (Joins a.now (done ++ signal.now ∷ []) self.new) }
        ensures fault { IfErr result (λ e. (name : List ℕ) → e ≡ fault.Unpaired name →
            (own_names signal.now ≡ name ∷ []) × (HasPartner a.now signal.now → ⊥)) }
    {
        match signal {
            Signal::One => {
                self.places.push(0)?;
                Ok(())
            }
            Signal::Input(name) => match input_number(a, numbers, name.bytes()) {
                Some(place) => {
                    self.places.push(place)?;
                    Ok(())
                }
                None => Err(unpaired(alloc, name.bytes())),
            },
            Signal::Latch { name, init, next } => {
                self.latch(alloc, a, numbers, name.bytes(), *init, *next)
            }
            Signal::Imp(x, y) => {
                let gate = Gate::Imp(image(&self.places, *x), image(&self.places, *y));
                self.gate(a, gate)?;
                Ok(())
            }
            Signal::Eqv(x, y) => {
                let gate = Gate::Eqv(image(&self.places, *x), image(&self.places, *y));
                self.gate(a, gate)?;
                Ok(())
            }
        }
    }
}

/// The signals of b put to those of a.
pub(crate) fn join(alloc: Global, a: &[Signal], b: &[Signal]) -> Result<Joining, MiterFault>
    requires a { AreSignals a.now }
    requires b { AreSignals b.now }
    requires few { length a.now + length b.now < 2 ^ 31 }
    ensures joined { IfOk result (Joins a.now b.now) }
    ensures fault { IfErr result (λ e. (name : List ℕ) → e ≡ fault.Unpaired name →
        IsWithoutPartner a.now b.now name) }
{
    let numbers = numbers_of(alloc, a)?;
    let mut joining = Joining::new(alloc, a)?;
    for signal in b {
        joining.take(alloc, a, &numbers, signal)?;
    }
    Ok(joining)
}
