//! Parts of miters of two texts.

use crate::fitting::{are_small, has_fit_parts, is_never_different};
use kinduction::{Equal, equivalence};
use lll_text::read_lll;
use miter::miter;
use std::test::Fail;

/// What was found, in short.
#[derive(Clone, Copy, Debug, PartialEq, Eq)]
enum Short {
    /// So many logs.
    Shown(usize),
    /// The part, whether its step formula, and the steps of the log.
    Conflicts(u32, bool, usize),
}

/// A latch that takes over the equivalence of two inputs, and is the obligation.
const ONE_WAY: &[u8] =
    b"lll 1\n0 one\n1 input a\n2 input b\n3 eqv 2 4\n4 latch 0 6 x\nassume 0\nkeep 0\nobligation 8\nend\n";

/// The same, with the inputs of the equivalence in the other order.
const OTHER_WAY: &[u8] =
    b"lll 1\n0 one\n1 input a\n2 input b\n3 eqv 4 2\n4 latch 0 6 x\nassume 0\nkeep 0\nobligation 8\nend\n";

/// The equivalences as obligations alone.
const ONE_GATE: &[u8] =
    b"lll 1\n0 one\n1 input a\n2 input b\n3 eqv 2 4\nassume 0\nkeep 0\nobligation 6\nend\n";

const OTHER_GATE: &[u8] =
    b"lll 1\n0 one\n1 input a\n2 input b\n3 eqv 4 2\nassume 0\nkeep 0\nobligation 6\nend\n";

/// Two texts, a budget, and what is found for the parts of their miter.
const CASES: &[(&[u8], &[u8], u32, Short)] = &[
    (ONE_WAY, ONE_WAY, 1000, Short::Shown(10)),
    (ONE_WAY, OTHER_WAY, 1000, Short::Shown(10)),
    (ONE_WAY, OTHER_WAY, 1, Short::Conflicts(0, true, 1)),
    (ONE_GATE, OTHER_GATE, 1, Short::Conflicts(3, false, 1)),
];

#[test]
fn parts_are_shown_or_spend_the_budget(rt: HostRuntime) -> Result<(), Fail> {
    let alloc = rt.alloc();
    for &(a, b, budget, expected) in CASES {
        let a = read_lll(alloc, a)?;
        let b = read_lll(alloc, b)?;
        assert!(rt; are_small(&a, &b) && 1 <= budget && budget <= 1_000_000);
        let m = miter(alloc, &a, &b)?;
        assert!(rt; has_fit_parts(&m));
        assert!(rt; is_never_different(alloc, &m)?);
        let found = match equivalence(alloc, &m, budget)? {
            Equal::Shown { logs } => Short::Shown(logs.len()),
            Equal::Conflicts {
                part,
                stepping,
                log,
            } => Short::Conflicts(part, stepping, log.steps.len()),
        };
        assert_eq!(rt; found, expected, "{budget}");
    }
    Ok(())
}
