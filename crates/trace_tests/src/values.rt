//! Texts that spell traces, with the values of their cells, worked out by hand.

use crate::texts::{first_fault, trace_of, written_again};
use std::test::Fail;

/// A text with a truth value and a number.
const NUMBERS: &[u8] = b"Inputs: bool a; int [-5, 12] d;";

/// Its lines, and their values: a truth value is 1 or 0.
const NUMBER_LINES: &[u8] = b"0: a=true d=-5\n1: a=false d=12\n2: a=true d=0\n";

const NUMBER_ROWS: &[&[i128]] = &[&[1, -5], &[0, 12], &[1, 0]];

/// A text with elements.
const ELEMENTS: &[u8] = b"Types: enum {stop, go} A; sort {b, 'end of line'} P; Inputs: A s; P p;";

/// Its lines, and their values: an element's is its code.
const ELEMENT_LINES: &[u8] = b"0: s=go p='end of line'\n1: s=stop p=b\n";

const ELEMENT_ROWS: &[&[i128]] = &[&[1, 1], &[0, 0]];

/// A text with an array of structs.
const LAMPS: &[u8] = b"Types: struct {lit: bool, 'max age': int [0, 3]} Lamp; Inputs: Lamp l[2];";

/// Its lines, and their values.
const LAMP_LINES: &[u8] = b"0: l[0].lit=true l[0].'max age'=1 l[1].lit=false l[1].'max age'=3\n";

const LAMP_ROWS: &[&[i128]] = &[&[1, 1, 0, 3]];

#[test]
fn numbers_are_read(rt: HostRuntime) -> Result<(), Fail> {
    let trace = trace_of(rt.alloc(), NUMBERS, NUMBER_LINES)?;
    assert_eq!(rt; trace.rows.len(), NUMBER_ROWS.len());
    for (row, values) in trace.rows.iter().zip(NUMBER_ROWS) {
        assert_eq!(rt; row.as_slice(), *values);
    }
    Ok(())
}

#[test]
fn elements_are_read(rt: HostRuntime) -> Result<(), Fail> {
    let trace = trace_of(rt.alloc(), ELEMENTS, ELEMENT_LINES)?;
    assert_eq!(rt; trace.rows.len(), ELEMENT_ROWS.len());
    for (row, values) in trace.rows.iter().zip(ELEMENT_ROWS) {
        assert_eq!(rt; row.as_slice(), *values);
    }
    Ok(())
}

#[test]
fn arrays_and_structs_are_read(rt: HostRuntime) -> Result<(), Fail> {
    let trace = trace_of(rt.alloc(), LAMPS, LAMP_LINES)?;
    assert_eq!(rt; trace.rows.len(), LAMP_ROWS.len());
    for (row, values) in trace.rows.iter().zip(LAMP_ROWS) {
        assert_eq!(rt; row.as_slice(), *values);
    }
    Ok(())
}

#[test]
fn the_empty_text_is_a_trace_without_instants(rt: HostRuntime) -> Result<(), Fail> {
    assert_eq!(rt; first_fault(rt.alloc(), NUMBERS, b"")?, None);
    let trace = trace_of(rt.alloc(), NUMBERS, b"")?;
    assert_eq!(rt; trace.rows.len(), 0);
    Ok(())
}

/// Texts with the texts of their traces.
const TEXTS: &[(&[u8], &[u8])] = &[
    (NUMBERS, b""),
    (NUMBERS, NUMBER_LINES),
    (ELEMENTS, ELEMENT_LINES),
    (LAMPS, LAMP_LINES),
];

#[test]
fn what_is_written_is_read_back(rt: HostRuntime) -> Result<(), Fail> {
    for &(model, text) in TEXTS {
        let written = written_again(rt.alloc(), model, text)?;
        assert_eq!(rt; written.as_slice(), text);
    }
    Ok(())
}
