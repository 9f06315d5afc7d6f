//! The first faults of texts that spell no trace, worked out by hand.

use crate::texts::first_fault;
use std::test::Fail;
use trace_text::TraceKind;

/// A text with a truth value and a number.
const SMALL: &[u8] = b"Inputs: bool a; int [0, 3] d;";

/// A text with elements, one of which has a name in quotes.
const PLACES: &[u8] = b"Types: enum {stop, go} A; sort {b, 'end of line'} P; Inputs: A s; P p;";

/// Lines whose number or colon is wrong.
const INSTANTS: &[&[u8]] = &[
    b"\n",
    b"x",
    b"0",
    b"1: a=true d=2\n",
    b"00: a=true d=2\n",
    b" 0: a=true d=2\n",
    b"0 a=true d=2\n",
];

#[test]
fn wrong_instants_are_found(rt: HostRuntime) -> Result<(), Fail> {
    for text in INSTANTS {
        assert_eq!(rt;
            first_fault(rt.alloc(), SMALL, text)?,
            Some((1, TraceKind::Instant)),
            "{text:?}"
        );
    }
    Ok(())
}

/// Lines where a space, a name and `=` are wrong, of the first cell or of the second.
const CELLS: &[&[u8]] = &[
    b"0:",
    b"0:\n",
    b"0:a=true d=2\n",
    b"0:  a=true d=2\n",
    b"0: d=2 a=true\n",
    b"0: a =true d=2\n",
    b"0: 'a'=true d=2\n",
    b"0: a=true\n",
    b"0: a=true  d=2\n",
    b"0: a=true,d=2\n",
    b"0: a=true e=2\n",
    b"0: a=true d2\n",
];

#[test]
fn wrong_cells_are_found(rt: HostRuntime) -> Result<(), Fail> {
    for text in CELLS {
        assert_eq!(rt;
            first_fault(rt.alloc(), SMALL, text)?,
            Some((1, TraceKind::Cell)),
            "{text:?}"
        );
    }
    Ok(())
}

/// Lines with what is no truth value.
const TRUTHS: &[&[u8]] = &[
    b"0: a=",
    b"0: a= true d=2\n",
    b"0: a=1 d=2\n",
    b"0: a=0 d=2\n",
    b"0: a=True d=2\n",
    b"0: a=truex d=2\n",
    b"0: a=true1 d=2\n",
    b"0: a='true' d=2\n",
];

#[test]
fn wrong_truth_values_are_found(rt: HostRuntime) -> Result<(), Fail> {
    for text in TRUTHS {
        assert_eq!(rt;
            first_fault(rt.alloc(), SMALL, text)?,
            Some((1, TraceKind::Value)),
            "{text:?}"
        );
    }
    Ok(())
}

/// Lines with what is no number from 0 to 3.
const NUMBERS: &[&[u8]] = &[
    b"0: a=true d=\n",
    b"0: a=true d=x\n",
    b"0: a=true d=4\n",
    b"0: a=true d=12\n",
    b"0: a=true d=02\n",
    b"0: a=true d=00\n",
    b"0: a=true d=-0\n",
    b"0: a=true d=-1\n",
    b"0: a=true d=+1\n",
    b"0: a=true d=99999999999999999999\n",
];

#[test]
fn wrong_numbers_are_found(rt: HostRuntime) -> Result<(), Fail> {
    for text in NUMBERS {
        assert_eq!(rt;
            first_fault(rt.alloc(), SMALL, text)?,
            Some((1, TraceKind::Value)),
            "{text:?}"
        );
    }
    Ok(())
}

/// Lines with what is no element of the cell's type, of the first cell or of the second.
const ELEMENTS: &[&[u8]] = &[
    b"0: s=\n",
    b"0: s=left p=b\n",
    b"0: s=b p=b\n",
    b"0: s=1 p=b\n",
    b"0: s='go' p=b\n",
    b"0: s=gone p=b\n",
    b"0: s=go p=go\n",
    b"0: s=go p=end of line\n",
    b"0: s=go p='end of line\n",
    b"0: s=go p='end of'\n",
    b"0: s=go p=''\n",
];

#[test]
fn wrong_elements_are_found(rt: HostRuntime) -> Result<(), Fail> {
    for text in ELEMENTS {
        assert_eq!(rt;
            first_fault(rt.alloc(), PLACES, text)?,
            Some((1, TraceKind::Value)),
            "{text:?}"
        );
    }
    Ok(())
}

/// Lines with bytes behind the last cell, or without a line feed.
const ENDINGS: &[&[u8]] = &[
    b"0: a=true d=2",
    b"0: a=true d=2 ",
    b"0: a=true d=2 \n",
    b"0: a=true d=2\r\n",
    b"0: a=true d=2x\n",
    b"0: a=true d=2 e=1\n",
];

#[test]
fn wrong_endings_are_found(rt: HostRuntime) -> Result<(), Fail> {
    for text in ENDINGS {
        assert_eq!(rt;
            first_fault(rt.alloc(), SMALL, text)?,
            Some((1, TraceKind::Ending)),
            "{text:?}"
        );
    }
    Ok(())
}

/// Texts of several lines, with the kind of the fault of the second line, whatever stands behind it.
const SECOND: &[(&[u8], TraceKind)] = &[
    (b"0: a=true d=2\n\n", TraceKind::Instant),
    (b"0: a=true d=2\n0: a=true d=2\n", TraceKind::Instant),
    (b"0: a=true d=2\n1: a=1\n2 x", TraceKind::Value),
    (b"0: a=true d=2\n1: d=9\n2: a=1\n", TraceKind::Cell),
    (b"0: a=true d=2\n1: a=false d=1", TraceKind::Ending),
];

#[test]
fn the_first_wrong_line_is_found(rt: HostRuntime) -> Result<(), Fail> {
    for &(text, kind) in SECOND {
        assert_eq!(rt;
            first_fault(rt.alloc(), SMALL, text)?,
            Some((2, kind)),
            "{text:?}"
        );
    }
    Ok(())
}
