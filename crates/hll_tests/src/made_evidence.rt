//! Evidence that is made of two low-level texts, written to a file and checked.

use crate::memory::run_over;
use evidence::{Evidence, write_evidence};
use kinduction::{Equal, decide_all, equivalence};
use kinduction_tests::{are_small, has_fit_parts, has_fit_rounds, is_never_different};
use lll_text::read_lll;
use miter::miter;
use ports::{SureDesk, SureSink};
use sqlite_items::Items;
use std::test::Fail;

/// Two texts, the depth and the budget, the status of `check`, and what it writes.
struct Case {
    a: &'static [u8],
    b: &'static [u8],
    depth: u32,
    conflicts: u32,
    status: u8,
    output: &'static [u8],
}

/// A latch that begins true and stays so, as an obligation and its opposite; in b by a gate.
const STAYS: Case = Case {
    a: b"lll 1\n0 one\n1 latch 0 2 x\nassume 0\nkeep 0\nobligation 2\nobligation 3\nend\n",
    b: b"lll 1\n0 one\n1 latch 0 4 x\n2 imp 0 2\nassume 0\nkeep 0\nobligation 2\nobligation 3\nend\n",
    depth: 1,
    conflicts: 10,
    status: 1,
    output: b"entry 1: proved 1\nentry 2: falsified 1\nproved 1 falsified 1 undecided 0\n",
};

/// A latch that takes over an input, and should not become true.
const FOLLOWS: &[u8] =
    b"lll 1\n0 one\n1 input a\n2 latch 1 2 x\nassume 0\nkeep 0\nobligation 5\nname 5 x'\nend\n";

/// The same, its signals in another order.
const LEADS: &[u8] =
    b"lll 1\n0 one\n1 latch 1 4 x\n2 input a\nassume 0\nkeep 0\nobligation 3\nend\n";

/// It is false at the first instant.
const FOLLOWS_ONCE: Case = Case {
    a: FOLLOWS,
    b: LEADS,
    depth: 1,
    conflicts: 10,
    status: 2,
    output: b"entry 1: undecided depth\nproved 0 falsified 0 undecided 1\n",
};

/// And may be true at the second.
const FOLLOWS_TWICE: Case = Case {
    a: LEADS,
    b: FOLLOWS,
    depth: 64,
    conflicts: 10,
    status: 1,
    output: b"entry 1: falsified 2\nproved 0 falsified 1 undecided 0\n",
};

/// The same, where the input is constrained to be false.
const CONSTRAINED: Case = Case {
    a: b"lll 1\n0 one\n1 input a\n2 latch 1 2 x\nassume 0\nkeep 0\nconstraint 3\nobligation 5\nend\n",
    b: b"lll 1\n0 one\n1 latch 1 4 x\n2 input a\n3 imp 4 1\nassume 0\nkeep 0\nconstraint 6\nobligation 3\nend\n",
    depth: 64,
    conflicts: 10,
    status: 0,
    output: b"entry 1: proved 1\nproved 1 falsified 0 undecided 0\n",
};

/// And where this is assumed.
const ASSUMED: Case = Case {
    a: b"lll 1\n0 one\n1 input a\n2 latch 1 2 x\nassume 3\nkeep 0\nobligation 5\nend\n",
    b: b"lll 1\n0 one\n1 latch 1 4 x\n2 input a\n3 imp 4 1\nassume 6\nkeep 0\nobligation 3\nend\n",
    depth: 64,
    conflicts: 10,
    status: 0,
    output: b"entry 1: proved 1\nproved 1 falsified 0 undecided 0\n",
};

/// A latch x that is never true, and a latch y that stays true as long as x and the input aren't both true. Windows in
/// which x is true break y after any number of instants.
const UNREACHED: Case = Case {
    a: b"lll 1\n0 one\n1 input a\n2 latch 1 4 x\n3 latch 0 8 y\n4 imp 4 3\nassume 0\nkeep 0\nobligation 6\nend\n",
    b: b"lll 1\n0 one\n1 input a\n2 latch 1 4 x\n3 latch 0 8 y\n4 imp 2 5\nassume 0\nkeep 0\nobligation 6\nend\n",
    depth: 3,
    conflicts: 100,
    status: 2,
    output: b"entry 1: undecided depth\nproved 0 falsified 0 undecided 1\n",
};

/// The same, where keep excludes these windows.
const KEPT: Case = Case {
    a: b"lll 1\n0 one\n1 input a\n2 latch 1 4 x\n3 latch 0 8 y\n4 imp 4 3\nassume 0\nkeep 5\nobligation 6\nend\n",
    b: b"lll 1\n0 one\n1 input a\n2 latch 1 4 x\n3 latch 0 8 y\n4 imp 2 5\nassume 0\nkeep 0\nobligation 6\nend\n",
    depth: 3,
    conflicts: 100,
    status: 0,
    output: b"entry 1: proved 1\nproved 1 falsified 0 undecided 0\n",
};

/// A counter of three bits that counts 0, 1, 2, 3 and begins again, and from 4 up to 7 and then from 0. No number is
/// followed by 4. It is never 7, and it is 3 at the fourth instant; true and false as obligations besides.
const COUNTER: &[u8] =
    b"lll 1\n0 one\n1 latch 1 3 b0\n2 latch 1 11 b1\n3 latch 1 13 b2\n4 imp 2 5\n5 eqv 2 4\n6 imp 6 9\n7 imp 6 8\nassume 0\nkeep 0\nobligation 14\nobligation 8\nobligation 0\nobligation 1\nobligation 14\nend\n";

/// The same, with three implications for the equivalence.
const COUNTER_BY_IMPLICATIONS: &[u8] =
    b"lll 1\n0 one\n1 latch 1 3 b0\n2 latch 1 14 b1\n3 latch 1 17 b2\n4 imp 2 5\n5 imp 2 4\n6 imp 4 2\n7 imp 10 13\n8 imp 6 9\n9 imp 6 8\nassume 0\nkeep 0\nobligation 18\nobligation 8\nobligation 0\nobligation 1\nobligation 18\nend\n";

const COUNTS: Case = Case {
    a: COUNTER,
    b: COUNTER_BY_IMPLICATIONS,
    depth: 8,
    conflicts: 1000,
    status: 1,
    output: b"entry 1: proved 4\nentry 2: falsified 4\nentry 3: proved 1\nentry 4: falsified 1\nentry 5: proved 4\nproved 3 falsified 2 undecided 0\n",
};

const COUNTS_LESS: Case = Case {
    a: COUNTER_BY_IMPLICATIONS,
    b: COUNTER,
    depth: 3,
    conflicts: 1000,
    status: 1,
    output: b"entry 1: undecided depth\nentry 2: undecided depth\nentry 3: proved 1\nentry 4: falsified 1\nentry 5: undecided depth\nproved 1 falsified 1 undecided 3\n",
};

/// Whether an even number of six inputs is false, asked from the first input on and from the last one on. That the two
/// are the same isn't seen in eight conflicts: as an obligation, and of a latch that takes it over.
const PARITIES: &[u8] =
    b"lll 1\n0 one\n1 input a\n2 input b\n3 input c\n4 input d\n5 input e\n6 input f\n7 eqv 2 4\n8 eqv 14 6\n9 eqv 16 8\n10 eqv 18 10\n11 eqv 20 12\n12 eqv 12 10\n13 eqv 24 8\n14 eqv 26 6\n15 eqv 28 4\n16 eqv 30 2\n17 eqv 22 32\n18 latch 0 34 x\nassume 0\nkeep 0\nobligation 34\nobligation 36\nobligation 0\nend\n";

const GIVEN_UP: Case = Case {
    a: PARITIES,
    b: PARITIES,
    depth: 2,
    conflicts: 8,
    status: 2,
    output: b"entry 1: undecided conflicts\nentry 2: undecided conflicts\nentry 3: proved 1\nproved 1 falsified 0 undecided 2\n",
};

/// Six inputs asked from the first one on.
const FORWARDS: &[u8] =
    b"lll 1\n0 one\n1 input a\n2 input b\n3 input c\n4 input d\n5 input e\n6 input f\n7 eqv 2 4\n8 eqv 14 6\n9 eqv 16 8\n10 eqv 18 10\n11 eqv 20 12\nassume 0\nkeep 0\nobligation 0\nobligation 22\nend\n";

/// And from the last one on.
const BACKWARDS: &[u8] =
    b"lll 1\n0 one\n1 input a\n2 input b\n3 input c\n4 input d\n5 input e\n6 input f\n7 eqv 12 10\n8 eqv 14 8\n9 eqv 16 6\n10 eqv 18 4\n11 eqv 20 2\nassume 0\nkeep 0\nobligation 0\nobligation 22\nend\n";

const NOT_COMPARED: Case = Case {
    a: FORWARDS,
    b: BACKWARDS,
    depth: 2,
    conflicts: 8,
    status: 2,
    output: b"entry 1: undecided equivalence\nentry 2: undecided equivalence\nproved 0 falsified 0 undecided 2\n",
};

const COMPARED: Case = Case {
    a: FORWARDS,
    b: BACKWARDS,
    depth: 2,
    conflicts: 1_000_000,
    status: 1,
    output: b"entry 1: proved 1\nentry 2: falsified 1\nproved 1 falsified 1 undecided 0\n",
};

/// Nothing is asked.
const EMPTY: Case = Case {
    a: b"lll 1\n0 one\nassume 0\nkeep 0\nend\n",
    b: b"lll 1\n0 one\n1 imp 0 0\nassume 2\nkeep 2\nend\n",
    depth: 1,
    conflicts: 1,
    status: 0,
    output: b"proved 0 falsified 0 undecided 0\n",
};

const CASES: [Case; 13] = [
    STAYS,
    FOLLOWS_ONCE,
    FOLLOWS_TWICE,
    CONSTRAINED,
    ASSUMED,
    UNREACHED,
    KEPT,
    COUNTS,
    COUNTS_LESS,
    GIVEN_UP,
    NOT_COMPARED,
    COMPARED,
    EMPTY,
];

#[test]
fn made_evidence_is_accepted_with_its_verdicts(rt: HostRuntime) -> Result<(), Fail> {
    let alloc = rt.alloc();
    for case in &CASES {
        let a = read_lll(alloc, case.a)?;
        let b = read_lll(alloc, case.b)?;
        assert!(rt; are_small(&a, &b));
        assert!(rt; has_fit_rounds(&a, case.depth));
        assert!(rt; 1 <= case.conflicts && case.conflicts <= 1_000_000);
        let joint = miter(alloc, &a, &b)?;
        assert!(rt; has_fit_parts(&joint));
        assert!(rt; is_never_different(alloc, &joint)?);
        let equal = equivalence(alloc, &joint, case.conflicts)?;
        let entries = match &equal {
            Equal::Shown { .. } => decide_all(&rt, alloc, &a, case.depth, case.conflicts, 2)?,
            Equal::Conflicts { .. } => Items::new(alloc),
        };
        let evidence = Evidence {
            depth: case.depth,
            conflicts: case.conflicts,
            a,
            b,
            equal,
            entries,
        };
        let mut desk = SureDesk::new(alloc, Vec::new(alloc));
        let mut out = SureSink::new(alloc);
        write_evidence(alloc, &mut desk, "e", &evidence)?;
        let status = run_over(&rt, alloc, "check e", &mut desk, &mut out)?;
        assert_eq!(rt; out.bytes(), case.output);
        assert_eq!(rt; status, case.status);
    }
    Ok(())
}
