//! Texts whose claims are judged as their lines come.

use crate::{Cause, EvidenceFault, Feed};
use std::alloc::{AllocError, Global};
use std::test::Fail;

/// Two models with a latch that follows an input and three that don't, and all logs of their parts: one obligation is
/// proved, one undecided and one broken.
const DECIDED: &[u8] =
    b"hll-evidence 1\ndepth 2\nconflicts 2\ntext a\nlll 1\n0 one\n1 input a\n2 latch 1 4 u\n3 latch 0 5 y\n4 latch 0 6 x\n5 latch 0 2 z\nassume 0\nkeep 0\nobligation 0\nobligation 8\nobligation 10\nend\ntext b\nlll 1\n0 one\n1 input a\n2 latch 1 4 u\n3 latch 0 5 y\n4 latch 0 6 x\n5 latch 0 2 z\nassume 0\nkeep 0\nobligation 0\nobligation 8\nobligation 10\nend\nequal shown 10\nlog 1\n: 0 46 10 2 19\nlog 6\n27 31: 71 55 48\n31: 87 72 56 47\n25 29: 30 63 51 44 2\n29: 30 89 64 52 43 1\n-3: 30 86 41 1 60 49\n: 30 86 91 42 2 59 50\nlog 1\n: 0 46 11 3 24\nlog 4\n27 31: 71 55 48\n31: 87 72 56 47\n25: 30 86 63 51 44 2\n: 30 86 89 64 52 43 1\nlog 1\n: 0 46 13 5 28\nlog 6\n27 31: 71 55 48\n31: 87 72 56 47\n25 29: 30 63 51 44 2\n29: 30 89 64 52 43 1\n22: 31 86 67 45 54 6\n: 31 86 91 68 46 53 5\nlog 1\n: 0 46 15 7 32\nlog 4\n27 34: 83 55 48\n34: 87 84 56 47\n-2: 86 55 47 72\n: 86 89 56 48 71\nlog 1\n: 0 46\nlog 1\n: 40 86\nlog 1\n: 0 46\nlog 1\n: 40 86\nlog 1\n: 0 46\nlog 1\n: 40 86\nlog 1\n: 0 46 36\nlog 1\n: 40 86 76\nlog 1\n: 0 46 13 5 40\nlog 6\n27 31: 71 55 48\n31: 87 72 56 47\n25 29: 30 63 51 44 2\n29: 30 89 64 52 43 1\n22: 31 86 79 45 54 6\n: 31 86 91 80 46 53 5\nlog 1\n: 0 46 15 7 44\nlog 4\n27 31: 71 55 48\n31: 87 72 56 47\n-2: 86 55 47 84\n: 86 89 56 48 83\nentry 1 proved 1\nlog 1\n: 0 10\nlog 1\n: 4 14\nentry 2 depth\nlog 1\n: 0 10 5\nlog 1\n: 0 20 3 15\nmodel:101110101010101000\nentry 3 falsified 2\nlog 1\n: 0 10 7\nbits:0\nbits:0\nend\n";

/// The same, with a log of two steps at the second obligation that shows its budget spent.
const SPENT: &[u8] =
    b"hll-evidence 1\ndepth 2\nconflicts 2\ntext a\nlll 1\n0 one\n1 input a\n2 latch 1 4 u\n3 latch 0 5 y\n4 latch 0 6 x\n5 latch 0 2 z\nassume 0\nkeep 0\nobligation 0\nobligation 8\nobligation 10\nend\ntext b\nlll 1\n0 one\n1 input a\n2 latch 1 4 u\n3 latch 0 5 y\n4 latch 0 6 x\n5 latch 0 2 z\nassume 0\nkeep 0\nobligation 0\nobligation 8\nobligation 10\nend\nequal shown 10\nlog 1\n: 0 46 10 2 19\nlog 6\n27 31: 71 55 48\n31: 87 72 56 47\n25 29: 30 63 51 44 2\n29: 30 89 64 52 43 1\n-3: 30 86 41 1 60 49\n: 30 86 91 42 2 59 50\nlog 1\n: 0 46 11 3 24\nlog 4\n27 31: 71 55 48\n31: 87 72 56 47\n25: 30 86 63 51 44 2\n: 30 86 89 64 52 43 1\nlog 1\n: 0 46 13 5 28\nlog 6\n27 31: 71 55 48\n31: 87 72 56 47\n25 29: 30 63 51 44 2\n29: 30 89 64 52 43 1\n22: 31 86 67 45 54 6\n: 31 86 91 68 46 53 5\nlog 1\n: 0 46 15 7 32\nlog 4\n27 34: 83 55 48\n34: 87 84 56 47\n-2: 86 55 47 72\n: 86 89 56 48 71\nlog 1\n: 0 46\nlog 1\n: 40 86\nlog 1\n: 0 46\nlog 1\n: 40 86\nlog 1\n: 0 46\nlog 1\n: 40 86\nlog 1\n: 0 46 36\nlog 1\n: 40 86 76\nlog 1\n: 0 46 13 5 40\nlog 6\n27 31: 71 55 48\n31: 87 72 56 47\n25 29: 30 63 51 44 2\n29: 30 89 64 52 43 1\n22: 31 86 79 45 54 6\n: 31 86 91 80 46 53 5\nlog 1\n: 0 46 15 7 44\nlog 4\n27 31: 71 55 48\n31: 87 72 56 47\n-2: 86 55 47 84\n: 86 89 56 48 83\nentry 1 proved 1\nlog 1\n: 0 10\nlog 1\n: 4 14\nentry 2 conflicts step 1\nlog 1\n: 0 10 5\nlog 2\n-4: 14 9\n9 10: 7 5\nentry 3 falsified 2\nlog 1\n: 0 10 7\nbits:0\nbits:0\nend\n";

/// The same models, with a log that shows the budget spent at a part.
const PARTLY: &[u8] =
    b"hll-evidence 1\ndepth 2\nconflicts 2\ntext a\nlll 1\n0 one\n1 input a\n2 latch 1 4 u\n3 latch 0 5 y\n4 latch 0 6 x\n5 latch 0 2 z\nassume 0\nkeep 0\nobligation 0\nobligation 8\nobligation 10\nend\ntext b\nlll 1\n0 one\n1 input a\n2 latch 1 4 u\n3 latch 0 5 y\n4 latch 0 6 x\n5 latch 0 2 z\nassume 0\nkeep 0\nobligation 0\nobligation 8\nobligation 10\nend\nequal conflicts 1 step\nlog 2\n27 31: 71 55 48\n31: 87 72 56 47\nend\n";

/// Why a text is refused.
#[derive(Clone, Copy, Debug, PartialEq, Eq)]
enum Why {
    Unpaired,
    Size,
    Unknown(u32),
    NotUnit(u32),
    NoConflict,
    Literal(i32),
    Unended,
    Count,
    Idle,
    Trace,
    Model,
}

/// What is told of a text.
#[derive(Clone, Copy, Debug, PartialEq, Eq)]
enum Told {
    Accepted,
    Refused(u64, Why),
    Form(u64),
    Nothing,
}

fn why_of(cause: &Cause) -> Why {
    match cause {
        Cause::Unpaired(_) => Why::Unpaired,
        Cause::Size => Why::Size,
        Cause::Unknown(hint) => Why::Unknown(*hint),
        Cause::NotUnit(hint) => Why::NotUnit(*hint),
        Cause::NoConflict => Why::NoConflict,
        Cause::Literal(literal) => Why::Literal(*literal),
        Cause::Unended => Why::Unended,
        Cause::Count => Why::Count,
        Cause::Idle => Why::Idle,
        Cause::Trace => Why::Trace,
        Cause::Model => Why::Model,
    }
}

/// What is told of a text that comes in two pieces.
fn judged_text(alloc: Global, text: &[u8]) -> Result<Told, AllocError> {
    let (front, rest) = text.split_at(text.len() / 2);
    let mut feed = Feed::new(alloc);
    feed.feed(alloc, front)?;
    feed.feed(alloc, rest)?;
    match feed.end(alloc) {
        Ok(_) => Ok(Told::Accepted),
        Err(EvidenceFault::Refused { line, cause }) => Ok(Told::Refused(line, why_of(&cause))),
        Err(EvidenceFault::Form { line }) => Ok(Told::Form(line)),
        Err(EvidenceFault::Memory) => Err(AllocError),
        Err(EvidenceFault::Failed | EvidenceFault::Long) => Ok(Told::Nothing),
    }
}

/// The text with other bytes in place of a line and its line feed.
fn altered(alloc: Global, text: &[u8], line: u64, with: &[u8]) -> Result<Vec<u8>, AllocError> {
    let mut changed = Vec::new(alloc);
    let mut at = 1u64;
    for byte in text {
        if at != line {
            changed.push(*byte)?;
        } else if *byte == b'\n' {
            changed.extend_from_slice(with)?;
        }
        if *byte == b'\n' {
            at += 1;
        }
    }
    Ok(changed)
}

/// Changes of a line, and what is told then.
const OF_DECIDED: [(u64, &[u8], Told); 20] = [
    (1, b"hll-evidence 1\n", Told::Accepted),
    (3, b"conflicts 1\n", Told::Accepted),
    (21, b"1 input c\n", Told::Refused(18, Why::Unpaired)),
    (34, b": 0 46 10 2\n", Told::Refused(34, Why::NoConflict)),
    (
        34,
        b": 0 46 10 2 999\n",
        Told::Refused(34, Why::Unknown(999)),
    ),
    (34, b": 19\n", Told::Refused(34, Why::NotUnit(19))),
    (36, b"999: 71 55 48\n", Told::Refused(36, Why::Literal(999))),
    (36, b"0: 71 55 48\n", Told::Refused(36, Why::Literal(0))),
    (
        41,
        b"29: 30 89 64 52 43 1\n",
        Told::Refused(35, Why::Unended),
    ),
    (80, b": 40 86\n", Told::Refused(80, Why::NoConflict)),
    (99, b": 10 0\n", Told::Accepted),
    (99, b": 0\n", Told::Refused(99, Why::NoConflict)),
    (101, b": 4\n", Told::Refused(101, Why::NoConflict)),
    (104, b": 0 10 3\n", Told::Refused(104, Why::NoConflict)),
    (
        107,
        b"model:001110101010101000\n",
        Told::Refused(107, Why::Model),
    ),
    (
        107,
        b"model:101110101010101001\n",
        Told::Refused(107, Why::Model),
    ),
    (110, b": 7\n", Told::Refused(110, Why::NotUnit(7))),
    (111, b"bits:1\n", Told::Refused(111, Why::Trace)),
    (112, b"bits:1\n", Told::Accepted),
    (112, b"bits:11\n", Told::Form(112)),
];

const OF_SPENT: [(u64, &[u8], Told); 7] = [
    (1, b"hll-evidence 1\n", Told::Accepted),
    (3, b"conflicts 3\n", Told::Refused(105, Why::Count)),
    (104, b": 0 10\n", Told::Refused(104, Why::NoConflict)),
    (106, b"-4: 14\n", Told::Refused(106, Why::NoConflict)),
    (106, b"4: 14 9\n", Told::Refused(106, Why::NoConflict)),
    (107, b"9 10: 5 7\n", Told::Accepted),
    (107, b"-4 9: 14 9\n", Told::Refused(105, Why::Idle)),
];

const OF_PARTLY: [(u64, &[u8], Told); 4] = [
    (1, b"hll-evidence 1\n", Told::Accepted),
    (3, b"conflicts 1\n", Told::Refused(33, Why::Count)),
    (
        32,
        b"equal conflicts 1 base\n",
        Told::Refused(34, Why::Literal(27)),
    ),
    (34, b"27 31: 71 55\n", Told::Refused(34, Why::NoConflict)),
];

/// The first change after which something else is told.
fn first_missed(
    alloc: Global,
    text: &[u8],
    changes: &[(u64, &[u8], Told)],
) -> Result<Option<(usize, Told)>, AllocError> {
    for (at, (line, with, expected)) in changes.iter().enumerate() {
        let text = altered(alloc, text, *line, with)?;
        let told = judged_text(alloc, &text)?;
        if told != *expected {
            return Ok(Some((at, told)));
        }
    }
    Ok(None)
}

#[test]
fn the_first_cause_is_told_of_decided_obligations(rt: HostRuntime) -> Result<(), Fail> {
    assert_eq!(rt; first_missed(rt.alloc(), DECIDED, &OF_DECIDED)?, None);
    Ok(())
}

#[test]
fn the_first_cause_is_told_of_a_spent_budget(rt: HostRuntime) -> Result<(), Fail> {
    assert_eq!(rt; first_missed(rt.alloc(), SPENT, &OF_SPENT)?, None);
    Ok(())
}

#[test]
fn the_first_cause_is_told_of_parts_that_are_not_shown(rt: HostRuntime) -> Result<(), Fail> {
    assert_eq!(rt; first_missed(rt.alloc(), PARTLY, &OF_PARTLY)?, None);
    Ok(())
}
