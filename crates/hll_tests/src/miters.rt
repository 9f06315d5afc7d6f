//! Miters of low-level texts, worked out by hand.

ghost use Rattle.std.specs.Prelude.{◌≡◌, ◌+◌, ◌<◌, ◌^◌, true};
ghost use Rattle.miter.specs.Pairs.{size_of};

use lll_core::Lll;
use lll_text::{read_lll, write_lll};
use miter::{MiterFault, MiterLll, miter, size};
use std::test::Fail;

/// Two models, their miter and its parts.
#[derive(Clone, Copy)]
struct Case {
    a: &'static [u8],
    b: &'static [u8],
    miter: &'static [u8],
    parts: &'static [u32],
}

/// Two latches in another order, one with another next; an equivalence that is there is appended once more for the
/// obligation.
const TWO_LATCHES: Case = Case {
    a: b"lll 1\n0 one\n1 input i\n2 input j\n3 latch 0 10 x\n4 latch 1 4 y\n5 imp 2 6\nassume 0\nkeep 6\nconstraint 10\nobligation 8\nend\n",
    b: b"lll 1\n0 one\n1 input j\n2 latch 1 2 y\n3 input i\n4 latch 0 12 x\n5 imp 6 8\n6 eqv 2 6\nassume 12\nkeep 4\nconstraint 11\nobligation 4\nend\n",
    miter: b"lll 1\n0 one\n1 input i\n2 input j\n3 latch 0 10 x\n4 latch 1 4 y\n5 imp 2 6\n6 latch 1 4 b y\n7 latch 0 18 b x\n8 imp 2 14\n9 eqv 4 2\n10 eqv 8 12\n11 eqv 6 14\n12 eqv 10 17\n13 eqv 8 12\nassume 18\nkeep 0\nend\n",
    parts: &[20, 22, 6, 12, 0, 24, 26],
};

/// A name that is taken by inputs of a.
const TAKEN_BY_INPUTS: Case = Case {
    a: b"lll 1\n0 one\n1 input b x\n2 latch 0 0 x\n3 input b b x\nassume 0\nkeep 0\nend\n",
    b: b"lll 1\n0 one\n1 input b b x\n2 input b x\n3 latch 1 6 x\nassume 0\nkeep 0\nend\n",
    miter: b"lll 1\n0 one\n1 input b x\n2 latch 0 0 x\n3 input b b x\n4 latch 1 8 b b b x\n5 eqv 4 8\nassume 0\nkeep 0\nend\n",
    parts: &[10, 0, 0, 0],
};

/// A name that was given to an earlier latch, and a latch that is constant.
const TAKEN_BY_LATCHES: Case = Case {
    a: b"lll 1\n0 one\n1 latch 0 0 x\n2 latch 0 2 b x\nassume 0\nkeep 0\nend\n",
    b: b"lll 1\n0 one\n1 latch 0 0 x\n2 latch 0 2 b x\nassume 0\nkeep 0\nend\n",
    miter: b"lll 1\n0 one\n1 latch 0 0 x\n2 latch 0 2 b x\n3 latch 0 0 b b x\n4 latch 0 6 b b b x\n5 eqv 2 6\n6 eqv 4 8\nassume 0\nkeep 0\nend\n",
    parts: &[10, 12, 0, 0, 0],
};

/// Gates that are found again, the first of two equal ones; operands in the other order make another gate.
const FOUND_AGAIN: Case = Case {
    a: b"lll 1\n0 one\n1 input i\n2 input j\n3 eqv 2 4\n4 eqv 2 4\n5 imp 2 4\nassume 0\nkeep 0\nobligation 8\nend\n",
    b: b"lll 1\n0 one\n1 input i\n2 input j\n3 eqv 2 4\n4 eqv 4 2\n5 imp 2 4\n6 eqv 4 2\nassume 6\nkeep 8\nobligation 12\nend\n",
    miter: b"lll 1\n0 one\n1 input i\n2 input j\n3 eqv 2 4\n4 eqv 2 4\n5 imp 2 4\n6 eqv 4 2\n7 eqv 8 12\nassume 6\nkeep 0\nend\n",
    parts: &[0, 12, 0, 14],
};

const CASES: [Case; 4] = [TWO_LATCHES, TAKEN_BY_INPUTS, TAKEN_BY_LATCHES, FOUND_AGAIN];

/// Two models, and what has no partner.
const UNPAIRED: [(&[u8], &[u8], &[u8]); 6] = [
    (
        SMALL,
        b"lll 1\n0 one\n1 input c#0\nassume 0\nkeep 0\nobligation 0\nend\n",
        b"c#0",
    ),
    (
        SMALL,
        b"lll 1\n0 one\n1 latch 0 0 a#0\nassume 0\nkeep 0\nobligation 0\nend\n",
        b"a#0",
    ),
    (
        SMALL,
        b"lll 1\n0 one\n1 input b#0\n2 latch 0 0 q\n3 input p\nassume 0\nkeep 0\nend\n",
        b"q",
    ),
    (
        SMALL,
        b"lll 1\n0 one\nassume 0\nkeep 0\nconstraint 0\nobligation 0\nend\n",
        b"constraints",
    ),
    (
        SMALL,
        b"lll 1\n0 one\nassume 0\nkeep 0\nend\n",
        b"obligations",
    ),
    (
        SMALL,
        b"lll 1\n0 one\nassume 0\nkeep 0\nconstraint 0\nend\n",
        b"constraints",
    ),
];

const SMALL: &[u8] =
    b"lll 1\n0 one\n1 input a#0\n2 input b#0\n3 imp 2 4\nassume 0\nkeep 0\nobligation 6\nend\n";

/// Whether the two are small enough for a miter.
fn are_small(a: &Lll, b: &Lll) -> bool
    ensures { result ≡ true → size_of a.now + size_of b.now < 2 ^ 31 }
{
    size(a) + size(b) < 1 << 31
}

#[test]
fn miters_are_those_by_hand(rt: HostRuntime) -> Result<(), Fail> {
    for case in CASES {
        let a = read_lll(rt.alloc(), case.a)?;
        let b = read_lll(rt.alloc(), case.b)?;
        assert!(rt; are_small(&a, &b));
        let both = miter(rt.alloc(), &a, &b)?;
        let text = write_lll(rt.alloc(), &both.lll)?;
        assert_eq!(rt; text.as_slice(), case.miter);
        assert_eq!(rt; both.parts.as_slice(), case.parts);
    }
    Ok(())
}

/// Whether there is no miter, for want of what has this name.
fn is_unpaired(answer: Result<MiterLll, MiterFault>, name: &[u8]) -> bool {
    match answer {
        Ok(_) => false,
        Err(MiterFault::Unpaired { name: found }) => {
            let same = found.bytes() == name;
            same
        }
        Err(MiterFault::Memory) => false,
    }
}

#[test]
fn the_first_without_a_partner_is_named(rt: HostRuntime) -> Result<(), Fail> {
    for (a, b, name) in UNPAIRED {
        let a = read_lll(rt.alloc(), a)?;
        let b = read_lll(rt.alloc(), b)?;
        assert!(rt; are_small(&a, &b));
        assert!(rt; is_unpaired(miter(rt.alloc(), &a, &b), name));
    }
    Ok(())
}
