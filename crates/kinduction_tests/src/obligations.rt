//! Obligations that were worked out by hand.

use crate::fitting::has_fit_rounds;
use kinduction::{Found, Spot, decide, decide_all};
use lll_text::read_lll;
use std::alloc::{AllocError, Global};
use std::test::Fail;

/// What was found, in short: logs and models are left out.
#[derive(Clone, Copy, Debug, PartialEq, Eq)]
enum Short {
    /// So many instants, and so many logs of bases.
    Proved(u32, usize),
    /// So many rows, and so many logs of bases.
    Falsified(usize, usize),
    /// So many values, and so many logs of bases.
    Depth(usize, usize),
    /// The place, the steps of its log, and so many logs of bases.
    Conflicts(Spot, usize, usize),
}

/// A latch that begins true and stays so, as an obligation and its opposite.
const STAYS: &[u8] =
    b"lll 1\n0 one\n1 latch 0 2 x\nassume 0\nkeep 0\nobligation 2\nobligation 3\nend\n";

/// A latch that takes over an input, and should not become true.
const FOLLOWS: &[u8] =
    b"lll 1\n0 one\n1 input a\n2 latch 1 2 x\nassume 0\nkeep 0\nobligation 5\nend\n";

/// The same, where the input is constrained to be false.
const CONSTRAINED: &[u8] =
    b"lll 1\n0 one\n1 input a\n2 latch 1 2 x\nassume 0\nkeep 0\nconstraint 3\nobligation 5\nend\n";

/// A latch x that is never true, and a latch y that stays true as long as x and the input aren't both true. Windows in
/// which x is true break y after any number of instants.
const UNREACHED: &[u8] =
    b"lll 1\n0 one\n1 input a\n2 latch 1 4 x\n3 latch 0 8 y\n4 imp 4 3\nassume 0\nkeep 0\nobligation 6\nend\n";

/// The same, where keep excludes these windows.
const KEPT: &[u8] =
    b"lll 1\n0 one\n1 input a\n2 latch 1 4 x\n3 latch 0 8 y\n4 imp 4 3\nassume 0\nkeep 5\nobligation 6\nend\n";

/// A counter of three bits that counts 0, 1, 2, 3 and begins again, and from 4 up to 7 and then from 0. No number is
/// followed by 4. It is never 7, and it is 3 at the fourth instant; true and false as obligations besides.
const COUNTER: &[u8] =
    b"lll 1\n0 one\n1 latch 1 3 b0\n2 latch 1 11 b1\n3 latch 1 13 b2\n4 imp 2 5\n5 eqv 2 4\n6 imp 6 9\n7 imp 6 8\nassume 0\nkeep 0\nobligation 14\nobligation 8\nobligation 0\nobligation 1\nobligation 14\nend\n";

/// The same counter up to its obligations.
const COUNTER_HEAD: &str =
    "lll 1\n0 one\n1 latch 1 3 b0\n2 latch 1 11 b1\n3 latch 1 13 b2\n4 imp 2 5\n5 eqv 2 4\n6 imp 6 9\n7 imp 6 8\nassume 0\nkeep 0\n";

/// Equivalence is commutative; and a latch that begins true and takes this over.
const COMMUTES: &[u8] =
    b"lll 1\n0 one\n1 input a\n2 input b\n3 eqv 2 4\n4 eqv 4 2\n5 eqv 6 8\n6 latch 0 10 x\nassume 0\nkeep 0\nobligation 10\nobligation 12\nend\n";

/// Texts with an obligation, a depth, a budget, and what is found.
const CASES: &[(&[u8], usize, u32, u32, Short)] = &[
    (STAYS, 0, 1, 1, Short::Proved(1, 1)),
    (STAYS, 1, 1, 1, Short::Falsified(1, 0)),
    (FOLLOWS, 0, 1, 10, Short::Depth(6, 1)),
    (FOLLOWS, 0, 64, 10, Short::Falsified(2, 1)),
    (CONSTRAINED, 0, 64, 10, Short::Proved(1, 1)),
    (UNREACHED, 0, 1, 10, Short::Depth(10, 1)),
    (UNREACHED, 0, 64, 10, Short::Depth(325, 64)),
    (KEPT, 0, 64, 10, Short::Proved(1, 1)),
    (COUNTER, 0, 64, 1000, Short::Proved(4, 4)),
    (COUNTER, 0, 3, 1000, Short::Depth(32, 3)),
    (COUNTER, 1, 4, 1000, Short::Falsified(4, 3)),
    (COUNTER, 1, 3, 1000, Short::Depth(32, 3)),
    (COMMUTES, 0, 1, 1000, Short::Proved(1, 1)),
    (COMMUTES, 0, 1, 1, Short::Conflicts(Spot::Base(0), 1, 0)),
    (COMMUTES, 1, 64, 1, Short::Conflicts(Spot::Step(1), 1, 1)),
];

fn shortened(found: &Found) -> Short {
    match found {
        Found::Proved { k, bases, step: _ } => Short::Proved(*k, bases.len()),
        Found::Falsified { bits, bases } => Short::Falsified(bits.len(), bases.len()),
        Found::Depth { step_model, bases } => Short::Depth(step_model.len(), bases.len()),
        Found::Conflicts { place, log, bases } => Short::Conflicts(
            *place,
            log.steps.len(),
            bases.len(),
        ),
    }
}

#[test]
fn obligations_are_decided_as_by_hand(rt: HostRuntime) -> Result<(), Fail> {
    let alloc = rt.alloc();
    for &(text, p, depth, budget, expected) in CASES {
        let l = read_lll(alloc, text)?;
        assert!(rt; p < l.obligations.len());
        assert!(rt; has_fit_rounds(&l, depth));
        assert!(rt; 1 <= budget && budget <= 1_000_000);
        let found = decide(alloc, &l, p, depth, budget)?;
        assert_eq!(rt; shortened(&found), expected, "{depth} {budget}");
    }
    Ok(())
}

#[test]
fn a_broken_run_is_shown_by_its_inputs(rt: HostRuntime) -> Result<(), Fail> {
    let alloc = rt.alloc();
    let l = read_lll(alloc, FOLLOWS)?;
    assert!(rt; l.obligations.len() == 1);
    assert!(rt; has_fit_rounds(&l, 64));
    match decide(alloc, &l, 0, 64, 10)? {
        Found::Falsified { bits, bases: _ } => {
            let first = bits.as_slice().first().ok_or("no row")?;
            assert!(rt; first.as_slice() == [true].as_slice());
        }
        _ => return Err(Fail::new("not falsified")),
    }
    Ok(())
}

#[test]
fn any_number_of_workers_finds_the_same(rt: HostRuntime) -> Result<(), Fail> {
    let alloc = rt.alloc();
    let l = read_lll(alloc, COUNTER)?;
    assert!(rt; has_fit_rounds(&l, 8));
    let expected = [
        Short::Proved(4, 4),
        Short::Falsified(4, 3),
        Short::Proved(1, 1),
        Short::Falsified(1, 0),
        Short::Proved(4, 4),
    ];
    for workers in [1, 3, 4] {
        let answers = decide_all(&rt, alloc, &l, 8, 1000, workers)?;
        assert_eq!(rt; answers.len(), expected.len());
        for (found, expected) in answers.as_slice().iter().zip(expected) {
            assert_eq!(rt; shortened(found), expected, "{workers}");
        }
    }
    Ok(())
}

/// The counter with so many obligations, its literals in turn.
fn counter(alloc: Global, obligations: u32) -> Result<String, AllocError> {
    let mut text = format!(in alloc; "{COUNTER_HEAD}")?;
    for number in 0..obligations {
        let line = format!(in alloc; "obligation {}\n", number % 16)?;
        text.push_str(&line)?;
    }
    text.push_str("end\n")?;
    Ok(text)
}

#[test]
fn four_workers_find_what_one_finds(rt: HostRuntime) -> Result<(), Fail> {
    let alloc = rt.alloc();
    for obligations in [0, 3, 64] {
        let text = counter(alloc, obligations)?;
        let l = read_lll(alloc, text.as_bytes())?;
        assert!(rt; has_fit_rounds(&l, 8));
        let alone = decide_all(&rt, alloc, &l, 8, 1000, 1)?;
        let together = decide_all(&rt, alloc, &l, 8, 1000, 4)?;
        assert_eq!(rt; alone.len(), obligations as usize);
        assert_eq!(rt; together.len(), alone.len());
        for (one, other) in alone.as_slice().iter().zip(together.as_slice()) {
            assert_eq!(rt; shortened(one), shortened(other));
        }
    }
    Ok(())
}
