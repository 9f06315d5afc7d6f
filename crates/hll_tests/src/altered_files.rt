//! Small files of evidence, and what is answered once a line or a byte of them is another.
//!
//! The tables of lines with which a file is accepted too were made by another checker, after the description of the format.

ghost use Rattle.std.specs.Prelude.{◌<◌, length};

use crate::memory::answer;
use std::alloc::{AllocError, Global};
use std::test::Fail;
use std::thread::Threads;

/// A file that is accepted, and what is answered of it; and lines with which it is accepted too, each in place of that with
/// its number from 1. Of the bytes that are tried, no others give such a line.
struct Case {
    file: &'static [u8],
    status: u8,
    output: &'static [u8],
    lines: &'static [(usize, &'static [u8])],
}

/// An obligation that is always true, in b by another gate. A larger depth or budget claims no less. That b assumes more
/// claims less: then only the runs count that meet it.
const PROVED: Case = Case {
    file: b"hll-evidence 1\ndepth 1\nconflicts 1\ntext a\nlll 1\n0 one\n1 input a\n2 imp 2 2\nassume 0\nkeep 0\nobligation 4\nend\ntext b\nlll 1\n0 one\n1 input a\n2 eqv 3 3\nassume 0\nkeep 0\nobligation 4\nend\nequal shown 4\nlog 1\n: 0 13\nlog 1\n: 17 30\nlog 1\n: 0 13\nlog 1\n: 17 30\nlog 1\n: 0 13\nlog 1\n: 17 30\nlog 2\n2: 1 7 11 13\n: 13 14 2 6 11\nlog 2\n7: 18 24 28 30\n: 30 31 19 23 28\nentry 1 proved 1\nlog 1\n: 5 1 2\nlog 1\n: 12 8 9\nend\n",
    status: 0,
    output: b"entry 1: proved 1\nproved 1 falsified 0 undecided 0\n",
    lines: &[
        (2, b"depth 2\n"),
        (2, b"depth 3\n"),
        (3, b"conflicts 2\n"),
        (3, b"conflicts 3\n"),
        (18, b"assume 1\n"),
        (18, b"assume 3\n"),
    ],
};

/// A latch that takes over an input, and should not become true. The last inputs of the trace are free. A clause that is
/// there twice may be cited by either number.
const FALSIFIED: Case = Case {
    file: b"hll-evidence 1\ndepth 2\nconflicts 1\ntext a\nlll 1\n0 one\n1 input a\n2 latch 1 2 x\nassume 0\nkeep 0\nobligation 5\nend\ntext b\nlll 1\n0 one\n1 latch 1 4 x\n2 input a\nassume 0\nkeep 0\nobligation 3\nend\nequal shown 5\nlog 1\n: 0 2 4 7 14\nlog 2\n2: 17 19 22 29\n: 29 30 16 18 23\nlog 1\n: 0 14\nlog 1\n: 15 29\nlog 1\n: 0 14\nlog 1\n: 15 29\nlog 1\n: 0 14\nlog 1\n: 15 29\nlog 1\n: 0 2 4 12 14\nlog 2\n2: 17 19 27 29\n: 29 30 16 18 26\nentry 1 falsified 2\nlog 1\n: 0 2 4\nbits:1\nbits:0\nend\n",
    status: 1,
    output: b"entry 1: falsified 2\nproved 0 falsified 1 undecided 0\n",
    lines: &[
        (2, b"depth 3\n"),
        (3, b"conflicts 2\n"),
        (3, b"conflicts 3\n"),
        (18, b"assume 1\n"),
        (18, b"assume 3\n"),
        (47, b": 3 2 4\n"),
        (49, b"bits:1\n"),
    ],
};

/// The same models, tried to a depth of one. The last input of the assignment is free.
const DEPTH: Case = Case {
    file: b"hll-evidence 1\ndepth 1\nconflicts 1\ntext a\nlll 1\n0 one\n1 input a\n2 latch 1 2 x\nassume 0\nkeep 0\nobligation 5\nend\ntext b\nlll 1\n0 one\n1 latch 1 4 x\n2 input a\nassume 0\nkeep 0\nobligation 3\nend\nequal shown 5\nlog 1\n: 0 2 4 7 14\nlog 2\n2: 17 19 22 29\n: 29 30 16 18 23\nlog 1\n: 0 14\nlog 1\n: 15 29\nlog 1\n: 0 14\nlog 1\n: 15 29\nlog 1\n: 0 14\nlog 1\n: 15 29\nlog 1\n: 0 2 4 12 14\nlog 2\n2: 17 19 27 29\n: 29 30 16 18 26\nentry 1 depth\nlog 1\n: 0 2 4\nmodel:110101\nend\n",
    status: 2,
    output: b"entry 1: undecided depth\nproved 0 falsified 0 undecided 1\n",
    lines: &[
        (3, b"conflicts 2\n"),
        (3, b"conflicts 3\n"),
        (18, b"assume 1\n"),
        (18, b"assume 3\n"),
        (47, b": 3 2 4\n"),
        (48, b"model:110111\n"),
    ],
};

/// An obligation whose search was given up.
const SPENT: Case = Case {
    file: b"hll-evidence 1\ndepth 1\nconflicts 1\ntext a\nlll 1\n0 one\n1 input a\n2 input b\n3 eqv 2 4\n4 eqv 4 2\n5 eqv 6 8\nassume 0\nkeep 0\nobligation 10\nend\ntext b\nlll 1\n0 one\n1 input a\n2 input b\n3 eqv 2 4\n4 eqv 4 2\n5 eqv 6 8\nassume 0\nkeep 0\nobligation 10\nend\nequal shown 4\nlog 1\n: 0 18\nlog 1\n: 22 40\nlog 1\n: 0 18\nlog 1\n: 22 40\nlog 1\n: 0 18\nlog 1\n: 22 40\nlog 1\n: 18 15 16\nlog 1\n: 40 37 38\nentry 1 conflicts base 0\nlog 1\n4 5: 11 14\nend\n",
    status: 2,
    output: b"entry 1: undecided conflicts\nproved 0 falsified 0 undecided 1\n",
    lines: &[
        (2, b"depth 2\n"),
        (2, b"depth 3\n"),
        (24, b"assume 1\n"),
        (24, b"assume 3\n"),
    ],
};

/// Two gates whose comparison was given up. The step that was spent speaks of neither's operands, nor of what is assumed
/// and kept; so other models are accepted with it.
const UNEQUAL: Case = Case {
    file: b"hll-evidence 1\ndepth 1\nconflicts 1\ntext a\nlll 1\n0 one\n1 input a\n2 input b\n3 eqv 2 4\nassume 0\nkeep 0\nobligation 6\nend\ntext b\nlll 1\n0 one\n1 input a\n2 input b\n3 eqv 4 2\nassume 0\nkeep 0\nobligation 6\nend\nequal conflicts 4 base\nlog 1\n4 5: 11 14\nend\n",
    status: 2,
    output: b"entry 1: undecided equivalence\nproved 0 falsified 0 undecided 1\n",
    lines: &[
        (2, b"depth 2\n"),
        (2, b"depth 3\n"),
        (9, b"3 eqv 0 4\n"),
        (9, b"3 eqv 1 4\n"),
        (9, b"3 eqv 3 4\n"),
        (9, b"3 eqv 2 0\n"),
        (9, b"3 eqv 2 3\n"),
        (9, b"3 eqv 2 5\n"),
        (10, b"assume 1\n"),
        (10, b"assume 3\n"),
        (11, b"keep 1\n"),
        (11, b"keep 3\n"),
        (19, b"3 eqv 0 2\n"),
        (19, b"3 eqv 3 2\n"),
        (19, b"3 eqv 5 2\n"),
        (19, b"3 eqv 4 0\n"),
        (19, b"3 eqv 4 1\n"),
        (19, b"3 eqv 4 3\n"),
        (20, b"assume 3\n"),
        (21, b"keep 1\n"),
        (21, b"keep 3\n"),
    ],
};

const CASES: [Case; 5] = [PROVED, FALSIFIED, DEPTH, SPENT, UNEQUAL];

/// What is answered of a file that is altered.
#[derive(Clone, Copy, Debug, PartialEq, Eq)]
enum Answered {
    /// It is refused in one of its lines.
    Refused,
    /// The same as before.
    Same,
    Other,
}

fn answer_to<R: Threads + Sync>(
    rt: &R,
    alloc: Global,
    case: &Case,
    file: &[u8],
) -> Result<Answered, AllocError> {
    let (status, out) = answer(rt, alloc, "check m", file)?;
    if status == 8 && out.bytes().starts_with(b"refused evidence line ") {
        return Ok(Answered::Refused);
    }
    if status == case.status && out.bytes() == case.output {
        return Ok(Answered::Same);
    }
    Ok(Answered::Other)
}

/// The lines of a file, each with its line feed.
fn lines_of(alloc: Global, file: &'static [u8]) -> Result<Vec<&'static [u8]>, AllocError> {
    let mut lines = Vec::new(alloc);
    for line in file.split_inclusive(|byte| *byte == b'\n') {
        lines.push(line)?;
    }
    Ok(lines)
}

/// The lines with other bytes in place of so many of them, from one on, which are numbered from 0.
fn replaced(
    alloc: Global,
    lines: &[&[u8]],
    at: usize,
    count: usize,
    with: &[u8],
) -> Result<Vec<u8>, AllocError> {
    let mut file = Vec::new(alloc);
    for (number, line) in lines.iter().enumerate() {
        if number == at {
            file.extend_from_slice(with)?;
        }
        if number < at || at.saturating_add(count) <= number {
            file.extend_from_slice(line)?;
        }
    }
    Ok(file)
}

/// Two pieces, one behind the other.
fn joined(alloc: Global, front: &[u8], back: &[u8]) -> Result<Vec<u8>, AllocError> {
    let mut both = Vec::from_slice(alloc, front)?;
    both.extend_from_slice(back)?;
    Ok(both)
}

/// The bytes that are tried in place of one.
fn others(byte: u8) -> [u8; 5] {
    [
        byte.wrapping_add(1),
        byte.wrapping_sub(1),
        b' ',
        b'\n',
        b'0',
    ]
}

/// Whether the file is accepted too with this line in place of the one with this number from 0.
fn is_listed(case: &Case, at: usize, line: &[u8]) -> bool {
    case.lines.iter().any(|(number, other)| { *number == at.saturating_add(1) && *other == line })
}

/// The first byte of a line with another in its place after which something else is answered than the table says.
fn first_missed_byte<R: Threads + Sync>(
    rt: &R,
    alloc: Global,
    case: &Case,
    lines: &[&[u8]],
    at: usize,
) -> Result<Option<(usize, u8)>, AllocError>
    requires { at < length lines.now }
{
    for (place, byte) in lines[at].iter().enumerate() {
        for other in others(*byte) {
            let mut line = Vec::from_slice(alloc, &lines[at][..place])?;
            line.push(other)?;
            line.extend_from_slice(&lines[at][place + 1..])?;
            let expected = if other == *byte || is_listed(case, at, &line) {
                Answered::Same
            } else {
                Answered::Refused
            };
            let file = replaced(alloc, lines, at, 1, &line)?;
            if answer_to(rt, alloc, case, &file)? != expected {
                return Ok(Some((place, other)));
            }
        }
    }
    Ok(None)
}

#[test]
fn small_files_are_accepted_with_the_lines_of_the_tables(rt: HostRuntime) -> Result<(), Fail> {
    let alloc = rt.alloc();
    for case in &CASES {
        let lines = lines_of(alloc, case.file)?;
        assert_eq!(rt; answer_to(&rt, alloc, case, case.file)?, Answered::Same);
        for (number, line) in case.lines {
            let file = replaced(alloc, &lines, number.saturating_sub(1), 1, line)?;
            assert_eq!(rt;
                answer_to(&rt, alloc, case, &file)?,
                Answered::Same,
                "{number}"
            );
        }
    }
    Ok(())
}

#[test]
fn no_line_is_dropped_doubled_or_swapped(rt: HostRuntime) -> Result<(), Fail> {
    let alloc = rt.alloc();
    for case in &CASES {
        let lines = lines_of(alloc, case.file)?;
        for (at, line) in lines.as_slice().iter().enumerate() {
            let dropped = replaced(alloc, &lines, at, 1, b"")?;
            assert_eq!(rt;
                answer_to(&rt, alloc, case, &dropped)?,
                Answered::Refused,
                "{at}"
            );
            let doubled = replaced(alloc, &lines, at, 1, &joined(alloc, line, line)?)?;
            assert_eq!(rt;
                answer_to(&rt, alloc, case, &doubled)?,
                Answered::Refused,
                "{at}"
            );
        }
        for (at, pair) in lines.as_slice().windows(2).enumerate() {
            let swapped = replaced(alloc, &lines, at, 2, &joined(alloc, pair[1], pair[0])?)?;
            assert_eq!(rt;
                answer_to(&rt, alloc, case, &swapped)?,
                Answered::Refused,
                "{at}"
            );
        }
    }
    Ok(())
}

#[test]
fn no_byte_is_another_but_in_the_lines_of_the_tables(rt: HostRuntime) -> Result<(), Fail> {
    let alloc = rt.alloc();
    for case in &CASES {
        let lines = lines_of(alloc, case.file)?;
        for at in 0..lines.len() {
            assert_eq!(rt;
                first_missed_byte(&rt, alloc, case, &lines, at)?,
                None,
                "{at}"
            );
        }
    }
    Ok(())
}
