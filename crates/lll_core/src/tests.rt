ghost use Rattle.std.specs.Prelude.{◌≡◌, ◌<◌, All, IfOk, length};
ghost use Rattle.lll_core.specs.Signals.{is_input as is_input_of};
ghost use Rattle.lll_core.specs.Drafts.{IsWhole};
ghost use Rattle.lll_core.specs.Tables.{input_count as input_count_of};

use crate::{Builder, Lll, Named, Signal, eval_into};
use hll_lexer::Word;
use std::alloc::{AllocError, Global};
use std::mem;
use std::test::Fail;

fn is_input(signal: &Signal) -> bool
    ensures { result ≡ is_input_of signal.now }
{
    matches!(signal, Signal::Input(_))
}

/// How many inputs there are.
fn input_count(signals: &[Signal]) -> usize
    ensures { result ≡ input_count_of signals.now }
{
    let mut count = 0;
    for signal in signals {
        if is_input(signal) {
            count += 1;
        }
    }
    count
}

/// The value of a literal, or none where it names no signal.
fn value(now: &[bool], literal: u32) -> Option<bool> {
    now.get((literal / 2) as usize)
        .map(|value| *value != (literal % 2 == 1))
}

#[test]
fn builds_each_gate_once(rt: HostRuntime) -> Result<(), Fail> {
    let mut builder = Builder::new(rt.alloc())?;
    let a = builder.input(b"a")?;
    let b = builder.input(b"b")?;
    let gate = builder.imp(a, b)?;
    assert_eq!(rt; (a, b, gate), (2, 4, 6));
    assert_eq!(rt; builder.imp(a, b)?, gate);
    let equal = builder.eqv(a, b)?;
    assert_eq!(rt; equal, 8);
    assert_eq!(rt; builder.eqv(b + 1, a)?, 9);
    Ok(())
}

/// Two inputs, a latch that begins as the opposite of the first and goes on as that of the second, and two
/// gates.
fn model(alloc: Global) -> Result<Lll, AllocError> {
    let mut builder = Builder::new(alloc)?;
    let a = builder.input(b"a")?;
    let b = builder.input(b"b")?;
    let latch = builder.latch(b"x", a + 1)?;
    builder.set_next(latch, b + 1);
    let implied = builder.imp(a, b)?;
    let equal = builder.eqv(latch, a)?;
    let mut names = Vec::new(alloc);
    names.push(Named {
        name: Word::new(alloc, b"x = a")?,
        literal: equal,
    })?;
    builder.finish(
        latch,
        0,
        Vec::from_slice(alloc, &[implied])?,
        Vec::from_slice(alloc, &[equal, implied])?,
        names,
    )
}

/// The inputs of three instants, with the values of the latch and of the two gates.
const INSTANTS: [([bool; 2], [bool; 3]); 3] = [
    ([true, false], [false, false, false]),
    ([true, true], [true, true, true]),
    ([false, true], [false, true, true]),
];

#[test]
fn evaluates_instants(rt: HostRuntime) -> Result<(), Fail> {
    let lll = model(rt.alloc())?;
    assert_eq!(rt; (lll.assume, lll.keep), (6, 0));
    assert_eq!(rt; lll.constraints.as_slice(), [8].as_slice());
    assert_eq!(rt; lll.obligations.as_slice(), [10, 8].as_slice());
    assert_eq!(rt; lll.names.as_slice().len(), 1);
    assert_eq!(rt; lll.signals.len(), 6);
    assert_eq!(rt; input_count(lll.signals.as_slice()), 2);
    let mut before = vec![in rt.alloc(); false; lll.signals.len()]?;
    let mut now = vec![in rt.alloc(); true; lll.signals.len()]?;
    let mut first = true;
    for (inputs, [latch, implied, equal]) in INSTANTS {
        assert!(rt; now.len() == lll.signals.len() && before.len() == lll.signals.len());
        eval_into(&lll, first, &inputs, &before, &mut now);
        let found = (value(&now, 6), value(&now, 8), value(&now, 10));
        assert_eq!(rt; found, (Some(latch), Some(implied), Some(equal)));
        mem::swap(&mut before, &mut now);
        first = false;
    }
    Ok(())
}

/// Two inputs alone.
fn two_inputs(alloc: Global) -> Result<Builder, AllocError>
    ensures length { IfOk result (λ b. length b ≡ 3) }
    ensures whole { IfOk result (λ b. All IsWhole b) }
{
    let mut builder = Builder::new(alloc)?;
    builder.input(b"a")?;
    builder.input(b"b")?;
    Ok(builder)
}

/// The implication and the equivalence of two literals of two inputs, as the two roots of a model.
fn gates(alloc: Global, a: u32, b: u32) -> Result<Lll, AllocError>
    requires a { a < 6 }
    requires b { b < 6 }
{
    let mut builder = two_inputs(alloc)?;
    let implied = builder.imp(a, b)?;
    let equal = builder.eqv(a, b)?;
    builder.finish(
        implied,
        equal,
        Vec::new(alloc),
        Vec::new(alloc),
        Vec::new(alloc),
    )
}

#[test]
fn gates_of_all_operands_have_their_values(rt: HostRuntime) -> Result<(), Fail> {
    for a in 0..6 {
        for b in 0..6 {
            let lll = gates(rt.alloc(), a, b)?;
            assert_eq!(rt; input_count(lll.signals.as_slice()), 2);
            for inputs in [[false, false], [false, true], [true, false], [true, true]] {
                let mut now = vec![in rt.alloc(); false; lll.signals.len()]?;
                eval_into(&lll, true, &inputs, &[], &mut now);
                let [x, y] = [a, b].map(|literal| value(&[true, inputs[0], inputs[1]], literal)
                    == Some(true));
                assert_eq!(rt; value(&now, lll.assume), Some(!x || y), "{a} -> {b}");
                assert_eq!(rt; value(&now, lll.keep), Some(x == y), "{a} <-> {b}");
            }
        }
    }
    Ok(())
}

/// Compiles and is proved where values of the type may go from thread to thread and be shared by threads.
fn crosses_threads<T: Send + Sync>() {}

#[test]
fn values_cross_threads() {
    crosses_threads::<Lll>();
    crosses_threads::<Signal>();
    crosses_threads::<Named>();
}
