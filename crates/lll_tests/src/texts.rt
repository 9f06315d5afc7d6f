//! Texts that spell a value, and the first fault of texts that spell none.

ghost use Rattle.std.specs.Prelude.{◌≡◌, ◌+◌, ◌*◌, ◌^◌, ◌<◌, ◌≤◌, length};
ghost use Rattle.lll_core.specs.Signals.{is_input as is_input_of};
ghost use Rattle.lll_core.specs.Tables.{input_count as input_count_of};

use lll_core::{Signal, eval_into};
use lll_text::{LllFault, LllKind, read_lll, write_lll};
use std::alloc::{AllocError, Global};
use std::test::Fail;

/// Two inputs and one gate.
const SMALL: &[u8] =
    b"lll 1\n0 one\n1 input a#0\n2 input b#0\n3 imp 2 4\nassume 0\nkeep 0\nobligation 6\nend\n";

/// A line of each kind.
const EACH: &[u8] =
    b"lll 1\n0 one\n1 input a\n2 latch 3 9 b c\n3 imp 2 4\n4 eqv 7 1\nassume 0\nkeep 1\nconstraint 8\nconstraint 9\nobligation 6\nname 8 x  ~\nname 8 a\nend\n";

const HEADER: &[u8] = b"lll 1\n";

const FIRST: &[u8] = b"lll 1\n0 one\n";

const SIGNALS: &[u8] = b"lll 1\n0 one\n1 input a\n2 latch 3 9 b\n";

const WITH_GATES: &[u8] = b"lll 1\n0 one\n1 input a\n2 latch 3 9 b\n3 imp 2 4\n4 eqv 7 1\n";

const ASSUMED: &[u8] = b"lll 1\n0 one\n1 input a\n2 imp 2 0\nassume 0\n";

const KEPT: &[u8] = b"lll 1\n0 one\n1 input a\n2 imp 2 0\nassume 0\nkeep 0\n";

const OBLIGED: &[u8] = b"lll 1\n0 one\n1 input a\n2 imp 2 0\nassume 0\nkeep 0\nobligation 4\n";

const NAMED: &[u8] = b"lll 1\n0 one\n1 input a\n2 imp 2 0\nassume 0\nkeep 0\nname 4 n\n";

const ENDED: &[u8] = b"lll 1\n0 one\n1 input a\n2 imp 2 0\nassume 0\nkeep 0\nend\n";

const OPEN: &[u8] = b"lll 1\n0 one\n1 latch 0 2 a\n2 latch 0 6 b\n3 latch 0 8 c\n4294967295 one\n";

/// The first line.
const FIRST_LINES: [(&[u8], u64, LllKind); 9] = [
    (b"", 1, LllKind::Ending),
    (b"\n", 1, LllKind::Word),
    (b"lll", 1, LllKind::Word),
    (b"lll 2\n", 1, LllKind::Word),
    (b" lll 1\n", 1, LllKind::Word),
    (b"lll 1", 1, LllKind::Ending),
    (b"lll 1 \n", 1, LllKind::Ending),
    (b"lll 1\r\n", 1, LllKind::Ending),
    (b"end\n", 1, LllKind::Word),
];

/// The line of the first signal.
const FIRST_SIGNALS: [(&[u8], u64, LllKind); 9] = [
    (b"assume 0\n", 2, LllKind::Word),
    (b"one\n", 2, LllKind::Word),
    (b"1 one\n", 2, LllKind::Number),
    (b"00 one\n", 2, LllKind::Number),
    (b"0 input a\n", 2, LllKind::Word),
    (b"0one\n", 2, LllKind::Word),
    (b"0  one\n", 2, LllKind::Word),
    (b"0 one ", 2, LllKind::Ending),
    (b"0 ones\n", 2, LllKind::Ending),
];

/// Numbers and words of a signal, and lines of no signal.
const SIGNAL_NUMBERS: [(&[u8], u64, LllKind); 13] = [
    (b"0 input a\n", 3, LllKind::Number),
    (b"2 input a\n", 3, LllKind::Number),
    (b"01 input a\n", 3, LllKind::Number),
    (b"2147483648 input a\n", 3, LllKind::Number),
    (b"4294967297 input a\n", 3, LllKind::Number),
    (b"18446744073709551617 input a\n", 3, LllKind::Number),
    (b"1 one\n", 3, LllKind::Word),
    (b"1 and 0 0\n", 3, LllKind::Word),
    (b"1\n", 3, LllKind::Word),
    (b"-1 input a\n", 3, LllKind::Word),
    (b"keep 0\n", 3, LllKind::Word),
    (b"\n", 3, LllKind::Word),
    (b"", 3, LllKind::Ending),
];

/// An input.
const INPUTS: [(&[u8], u64, LllKind); 8] = [
    (b"1 input\n", 3, LllKind::Name),
    (b"1 input \n", 3, LllKind::Name),
    (b"1 inputa\n", 3, LllKind::Name),
    (b"1 input a\x7F\n", 3, LllKind::Name),
    (b"1 input a\tb\n", 3, LllKind::Name),
    (b"1 input \xC3\xA9\n", 3, LllKind::Name),
    (b"1 input a", 3, LllKind::Ending),
    (b"1 input \x1F", 3, LllKind::Name),
];

/// A name that an earlier one has, with its line feed or without.
const INPUT_NAMES: [(&[u8], u64, LllKind); 3] = [
    (b"3 input a\n", 5, LllKind::Name),
    (b"3 input b\n", 5, LllKind::Name),
    (b"3 input b", 5, LllKind::Name),
];

/// A latch, the last with two faults in its line and one in the next.
const LATCHES: [(&[u8], u64, LllKind); 15] = [
    (b"3 latch\n", 5, LllKind::Number),
    (b"3 latch 00 0 c\n", 5, LllKind::Number),
    (b"3 latch x 0 c\n", 5, LllKind::Number),
    (b"3 latch 6 0 c\n", 5, LllKind::Order),
    (b"3 latch 7 x c\n", 5, LllKind::Order),
    (b"3 latch 4294967296 0 c\n", 5, LllKind::Order),
    (b"3 latch 0\n", 5, LllKind::Number),
    (b"3 latch 0 c\n", 5, LllKind::Number),
    (b"3 latch 0 01 c\n", 5, LllKind::Number),
    (b"3 latch 0 0\n", 5, LllKind::Name),
    (b"3 latch 0 0 \n", 5, LllKind::Name),
    (b"3 latch 0 0 a\n", 5, LllKind::Name),
    (b"3 latch 0 0 b\n", 5, LllKind::Name),
    (b"3 latch 0 99999999999999999999 c", 5, LllKind::Ending),
    (b"3 latch 6 x a\n4 imp\n", 5, LllKind::Order),
];

/// A gate.
const GATES: [(&[u8], u64, LllKind); 11] = [
    (b"3 imp\n", 5, LllKind::Number),
    (b"3 imp 2\n", 5, LllKind::Number),
    (b"3 imp  2 4\n", 5, LllKind::Number),
    (b"3 imp 2x4\n", 5, LllKind::Number),
    (b"3 imp 2 04\n", 5, LllKind::Number),
    (b"3 imp 2 6\n", 5, LllKind::Order),
    (b"3 imp 6 x\n", 5, LllKind::Order),
    (b"3 eqv 2 7\n", 5, LllKind::Order),
    (b"3 eqv 2147483648 0\n", 5, LllKind::Order),
    (b"3 eqv 2 4 \n", 5, LllKind::Ending),
    (b"3 imp 2 4", 5, LllKind::Ending),
];

/// The line after the signals.
const ASSUME_LINES: [(&[u8], u64, LllKind); 5] = [
    (b"assume 10\n", 7, LllKind::Number),
    (b"assume\n", 7, LllKind::Number),
    (b"assume 0", 7, LllKind::Ending),
    (b"assume 0 0\n", 7, LllKind::Ending),
    (b"assum 0\n", 7, LllKind::Word),
];

/// Where a latch has a next that names no signal, and the line after the signals is there or not reached.
const OPEN_NEXTS: [(&[u8], u64, LllKind); 5] = [
    (b"assume 0\n", 4, LllKind::Number),
    (b"assume x\n", 4, LllKind::Number),
    (b"3 input b\nassume 0\n", 5, LllKind::Name),
    (b"3 input c\nassume 0\n", 4, LllKind::Number),
    (b"3 imp 9 9\nassume 0\n", 5, LllKind::Order),
];

/// A number that none may be.
const LARGE_NUMBERS: [(&[u8], u64, LllKind); 1] = [(b"assume 0\n", 6, LllKind::Number)];

/// What is kept.
const KEEP_LINES: [(&[u8], u64, LllKind); 5] = [
    (b"", 6, LllKind::Ending),
    (b"assume 0\n", 6, LllKind::Word),
    (b"keep 6\n", 6, LllKind::Number),
    (b"keep 00\n", 6, LllKind::Number),
    (b"keep 0", 6, LllKind::Ending),
];

/// The lists.
const LIST_LINES: [(&[u8], u64, LllKind); 13] = [
    (b"", 7, LllKind::Ending),
    (b"keep 0\n", 7, LllKind::Word),
    (b"3 imp 0 0\n", 7, LllKind::Word),
    (b"constraint 6\n", 7, LllKind::Number),
    (b"constraint 2147483648\n", 7, LllKind::Number),
    (b"constraint 0x\n", 7, LllKind::Ending),
    (b"obligation 6\n", 7, LllKind::Number),
    (b"obligation\n", 7, LllKind::Number),
    (b"obligation 0 \n", 7, LllKind::Ending),
    (b"name 6 n\n", 7, LllKind::Number),
    (b"name 0\n", 7, LllKind::Name),
    (b"name 0 \x19\n", 7, LllKind::Name),
    (b"name 0 n", 7, LllKind::Ending),
];

/// A constraint after an obligation.
const LINES_AFTER_OBLIGATION: [(&[u8], u64, LllKind); 1] = [(b"constraint 0\n", 8, LllKind::Word)];

/// Lines after a name, and the last line.
const LINES_AFTER_NAME: [(&[u8], u64, LllKind); 4] = [
    (b"constraint 0\n", 8, LllKind::Word),
    (b"obligation 0\n", 8, LllKind::Word),
    (b"end", 8, LllKind::Ending),
    (b"ended\n", 8, LllKind::Ending),
];

/// What follows the last line.
const LINES_AFTER_END: [(&[u8], u64, LllKind); 2] = [
    (b"\n", 8, LllKind::Ending),
    (b"end\n", 8, LllKind::Ending),
];

fn joined(alloc: Global, front: &[u8], rest: &[u8]) -> Result<Vec<u8>, AllocError> {
    let mut text = Vec::from_slice(alloc, front)?;
    text.extend_from_slice(rest)?;
    Ok(text)
}

#[test]
fn a_text_is_written_back_as_it_was_read(rt: HostRuntime) -> Result<(), Fail> {
    for text in [SMALL, EACH] {
        let lll = read_lll(rt.alloc(), text)?;
        let written = write_lll(rt.alloc(), &lll)?;
        assert_eq!(rt; written.as_slice(), text);
    }
    let lll = read_lll(rt.alloc(), EACH)?;
    assert_eq!(rt; (lll.assume, lll.keep), (0, 1));
    assert_eq!(rt; lll.constraints.as_slice(), [8u32, 9].as_slice());
    assert!(rt;
        matches!(
            lll.signals.get(2),
            Some(Signal::Latch {
                init: 3,
                next: 9,
                ..
            })
        )
    );
    Ok(())
}

/// The first case in which this front and what follows it are not refused with the fault that stands there.
fn first_missed(
    alloc: Global,
    front: &[u8],
    cases: &[(&[u8], u64, LllKind)],
) -> Result<Option<usize>, AllocError> {
    for (at, (rest, line, kind)) in cases.iter().enumerate() {
        let text = joined(alloc, front, rest)?;
        match read_lll(alloc, text.as_slice()) {
            Err(LllFault::Fault { line: l, kind: k }) if l == *line && k == *kind => {}
            _ => return Ok(Some(at)),
        }
    }
    Ok(None)
}

#[test]
fn the_first_line_and_the_first_signal_are_due(rt: HostRuntime) -> Result<(), Fail> {
    assert_eq!(rt; first_missed(rt.alloc(), b"", &FIRST_LINES)?, None);
    assert_eq!(rt; first_missed(rt.alloc(), HEADER, &FIRST_SIGNALS)?, None);
    Ok(())
}

#[test]
fn a_signal_has_its_number_and_a_form(rt: HostRuntime) -> Result<(), Fail> {
    assert_eq!(rt; first_missed(rt.alloc(), FIRST, &SIGNAL_NUMBERS)?, None);
    assert_eq!(rt; first_missed(rt.alloc(), OPEN, &LARGE_NUMBERS)?, None);
    Ok(())
}

#[test]
fn an_input_has_a_name_of_its_own(rt: HostRuntime) -> Result<(), Fail> {
    assert_eq!(rt; first_missed(rt.alloc(), FIRST, &INPUTS)?, None);
    assert_eq!(rt; first_missed(rt.alloc(), SIGNALS, &INPUT_NAMES)?, None);
    Ok(())
}

#[test]
fn a_latch_has_a_lower_init_and_a_name_of_its_own(rt: HostRuntime) -> Result<(), Fail> {
    assert_eq!(rt; first_missed(rt.alloc(), SIGNALS, &LATCHES)?, None);
    Ok(())
}

#[test]
fn a_gate_has_lower_operands(rt: HostRuntime) -> Result<(), Fail> {
    assert_eq!(rt; first_missed(rt.alloc(), SIGNALS, &GATES)?, None);
    Ok(())
}

#[test]
fn a_next_is_judged_where_the_signals_end(rt: HostRuntime) -> Result<(), Fail> {
    assert_eq!(rt; first_missed(rt.alloc(), WITH_GATES, &ASSUME_LINES)?, None);
    assert_eq!(rt; first_missed(rt.alloc(), SIGNALS, &OPEN_NEXTS)?, None);
    Ok(())
}

#[test]
fn a_line_of_the_lists_names_a_signal(rt: HostRuntime) -> Result<(), Fail> {
    assert_eq!(rt; first_missed(rt.alloc(), ASSUMED, &KEEP_LINES)?, None);
    assert_eq!(rt; first_missed(rt.alloc(), KEPT, &LIST_LINES)?, None);
    Ok(())
}

#[test]
fn the_lists_stand_in_order_and_end(rt: HostRuntime) -> Result<(), Fail> {
    assert_eq!(rt;
        first_missed(rt.alloc(), OBLIGED, &LINES_AFTER_OBLIGATION)?,
        None
    );
    assert_eq!(rt; first_missed(rt.alloc(), NAMED, &LINES_AFTER_NAME)?, None);
    assert_eq!(rt; first_missed(rt.alloc(), ENDED, &LINES_AFTER_END)?, None);
    Ok(())
}

fn line_feeds(bytes: &[u8]) -> u64
    ensures { result ≤ length bytes.now }
{
    bytes.iter().filter(|byte| **byte == b'\n').count() as u64
}

#[test]
fn a_text_that_is_cut_after_a_line_lacks_the_next(rt: HostRuntime) {
    for at in 0..EACH.len() {
        let line = 1 + line_feeds(&EACH[..at]);
        let outcome = read_lll(rt.alloc(), &EACH[..at]);
        assert!(rt; matches!(outcome, Err(LllFault::Fault { line: l, .. }) if l == line));
        if at > 0 && EACH[at - 1] == b'\n' {
            assert!(rt;
                matches!(
                    outcome,
                    Err(LllFault::Fault {
                        kind: LllKind::Ending,
                        ..
                    })
                )
            );
        }
    }
}

/// How many gates the long text has, and the numbers of its signals.
const GATE_COUNT: u32 = 100_000;

const INPUT_VALUES: [bool; 3] = [true, false, true];

const SIGNAL_COUNT: u32 = 4 + GATE_COUNT;

/// A gate: whether it is an equivalence, and its operands.
#[derive(Clone, Copy)]
struct Gate {
    is_eqv: bool,
    left: u32,
    right: u32,
}

/// A literal of one of so many signals, picked at random.
fn next_literal(state: &mut u64, count: u32) -> u32
    requires some { 0 < count }
    requires few { count < 2 ^ 30 }
    ensures { result < 2 * count }
{
    *state = state
        .wrapping_mul(6_364_136_223_846_793_005)
        .wrapping_add(1_442_695_040_888_963_407);
    ((*state >> 33) % u64::from(2 * count)) as u32
}

fn random_gates(alloc: Global) -> Result<Vec<Gate>, AllocError> {
    let mut gates = Vec::new(alloc);
    let mut state: u64 = 2_026;
    for count in 4..SIGNAL_COUNT {
        let left = next_literal(&mut state, count);
        let right = next_literal(&mut state, count);
        let is_eqv = next_literal(&mut state, 1) == 0;
        gates.push(Gate {
            is_eqv,
            left,
            right,
        })?;
    }
    Ok(gates)
}

/// The text of three inputs and these gates.
fn text_of(alloc: Global, gates: &[Gate]) -> Result<String, AllocError> {
    let mut text = String::from_str(alloc, "lll 1\n0 one\n1 input a\n2 input b\n3 input c\n")?;
    let mut number: u32 = 4;
    for gate in gates {
        let word = if gate.is_eqv { "eqv" } else { "imp" };
        let line = format!(in alloc; "{number} {word} {} {}\n", gate.left, gate.right)?;
        text.push_str(line.as_str())?;
        number = number.saturating_add(1);
    }
    text.push_str("assume 0\nkeep 0\nobligation 6\nend\n")?;
    Ok(text)
}

/// The value of a literal; one past the values so far is false.
fn value(values: &[bool], literal: u32) -> bool {
    match values.get((literal / 2) as usize) {
        Some(value) => *value != (literal % 2 == 1),
        None => false,
    }
}

/// The values of all signals, gate by gate.
fn plain_values(alloc: Global, gates: &[Gate]) -> Result<Vec<bool>, AllocError> {
    let mut values = Vec::new(alloc);
    values.push(true)?;
    values.extend_from_slice(&INPUT_VALUES)?;
    for gate in gates {
        let left = value(&values, gate.left);
        let right = value(&values, gate.right);
        values.push(if gate.is_eqv {
            left == right
        } else {
            !left || right
        })?;
    }
    Ok(values)
}

fn is_input(signal: &Signal) -> bool
    ensures { result ≡ is_input_of signal.now }
{
    matches!(signal, Signal::Input(_))
}

fn input_count(signals: &[Signal]) -> usize
    ensures { result ≡ input_count_of signals.now }
{
    signals.iter().filter(|signal| is_input(signal)).count()
}

#[test]
fn many_gates_are_read_written_and_worth_what_they_say(rt: HostRuntime) -> Result<(), Fail> {
    let gates = random_gates(rt.alloc())?;
    let text = text_of(rt.alloc(), gates.as_slice())?;
    let lll = read_lll(rt.alloc(), text.as_bytes())?;
    let written = write_lll(rt.alloc(), &lll)?;
    assert!(rt; written.as_slice() == text.as_bytes());
    let mut now = vec![in rt.alloc(); false; lll.signals.len()]?;
    assert!(rt; input_count(lll.signals.as_slice()) == INPUT_VALUES.len());
    eval_into(&lll, true, &INPUT_VALUES, &[], &mut now);
    let plain = plain_values(rt.alloc(), gates.as_slice())?;
    assert!(rt; now.as_slice() == plain.as_slice());
    Ok(())
}
