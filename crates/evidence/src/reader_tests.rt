//! Texts that are read in pieces, and the first wrong line of texts that are none.

use crate::{EvidenceFault, Feed};
use std::alloc::{AllocError, Global};
use std::test::Fail;

/// Two models with one signal, and two logs for each of three parts.
const SMALL: &[u8] =
    b"hll-evidence 1\ndepth 7\nconflicts 1\ntext a\nlll 1\n0 one\nassume 0\nkeep 0\nend\ntext b\nlll 1\n0 one\nassume 0\nkeep 0\nend\nequal shown 3\nlog 1\n: 0 2\nlog 1\n: 5 7\nlog 1\n: 0 2\nlog 1\n: 5 7\nlog 1\n: 0 2\nlog 1\n: 5 7\nend\n";

/// An entry of each kind.
const EACH: &[u8] =
    b"hll-evidence 1\ndepth 2\nconflicts 3\ntext a\nlll 1\n0 one\n1 input a\n2 latch 1 3 b\nassume 0\nkeep 0\nobligation 4\nobligation 2\nobligation 0\nobligation 5\nend\ntext b\nlll 1\n0 one\n1 input a\n2 latch 1 3 b\nassume 0\nkeep 0\nobligation 4\nobligation 2\nobligation 0\nobligation 5\nend\nequal shown 8\nlog 0\nlog 0\nlog 0\nlog 0\nlog 0\nlog 0\nlog 0\nlog 0\nlog 0\nlog 0\nlog 0\nlog 0\nlog 0\nlog 0\nlog 0\nlog 0\nentry 1 proved 1\nlog 0\nlog 1\n-2147483648 2147483647 0: 3 4294967295\nentry 2 falsified 2\nlog 0\nbits:0\nbits:1\nentry 3 depth\nlog 0\nlog 0\nmodel:010101010\nentry 4 conflicts step 1\nlog 0\nlog 0\nend\n";

/// The budget was spent on the last of five parts, so that neither obligation was tried.
const SPENT: &[u8] =
    b"hll-evidence 1\ndepth 7\nconflicts 1\ntext a\nlll 1\n0 one\nassume 0\nkeep 0\nobligation 0\nobligation 1\nend\ntext b\nlll 1\n0 one\nassume 0\nkeep 0\nobligation 0\nobligation 1\nend\nequal conflicts 5 step\nlog 0\nend\n";

/// What is answered.
#[derive(Clone, Copy, Debug, PartialEq, Eq)]
enum Outcome {
    Read(usize),
    Form(u64),
    Refused(u64),
    Other,
}

fn told(fault: &EvidenceFault) -> Outcome {
    match fault {
        EvidenceFault::Form { line } => Outcome::Form(*line),
        EvidenceFault::Failed => Outcome::Other,
        EvidenceFault::Long => Outcome::Other,
        EvidenceFault::Refused { line, .. } => Outcome::Refused(*line),
        EvidenceFault::Memory => Outcome::Other,
    }
}

fn answered(alloc: Global, text: &[u8], size: usize) -> Result<Outcome, AllocError> {
    let mut feed = Feed::new(alloc);
    for piece in text.chunks(size.max(1)) {
        feed.feed(alloc, piece)?;
    }
    Ok(match feed.end(alloc) {
        Ok(summary) => Outcome::Read(summary.lines.len()),
        Err(fault) => told(&fault),
    })
}

/// The text with other bytes in place of a line and its line feed.
fn altered(alloc: Global, text: &[u8], line: u64, with: &[u8]) -> Result<Vec<u8>, AllocError> {
    let mut changed = Vec::new(alloc);
    let mut at = 1u64;
    for byte in text {
        if at != line {
            changed.push(*byte)?;
        } else if *byte == b'\n' {
            changed.extend_from_slice(with)?;
        }
        if *byte == b'\n' {
            at += 1;
        }
    }
    Ok(changed)
}

/// Changes of a line of the longer text, and the first wrong line after that.
const CHANGES: [(u64, &[u8], u64); 56] = [
    (1, b"hll-evidence 2\n", 1),
    (1, b"hll-evidence 1\r\n", 1),
    (1, b"", 1),
    (2, b"depth 0\n", 2),
    (2, b"depth 65\n", 2),
    (2, b"depth 02\n", 2),
    (2, b"depth  2\n", 2),
    (2, b"depth 2 \n", 2),
    (2, b"depth +2\n", 2),
    (2, b"depth 18446744073709551618\n", 2),
    (3, b"conflicts 0\n", 3),
    (3, b"conflicts 1000001\n", 3),
    (4, b"text b\n", 4),
    (5, b"lll 2\n", 5),
    (8, b"2 latch 1 9 b\n", 8),
    (8, b"", 10),
    (9, b"", 9),
    (15, b"", 15),
    (16, b"text a\n", 16),
    (20, b"2 latch 7 3 b\n", 20),
    (27, b"", 27),
    (28, b"equal shown 7\n", 28),
    (28, b"equal shown 08\n", 28),
    (28, b"equal conflicts 0 base\n", 28),
    (28, b"equal conflicts 9 base\n", 28),
    (28, b"equal conflicts 8\n", 28),
    (28, b"equal conflicts 8 step \n", 28),
    (28, b"equal conflicts 8 step\n", 30),
    (29, b"log 4294967296\n", 29),
    (29, b"log 1\n", 30),
    (29, b"log 00\n", 29),
    (44, b"", 44),
    (45, b"entry 2 proved 1\n", 45),
    (45, b"entry 1 proved 0\n", 45),
    (45, b"entry 1 proved 3\n", 45),
    (45, b"entry 1 proved 2\n", 49),
    (45, b"entry 01 proved 1\n", 45),
    (45, b"end\n", 45),
    (48, b"-0: 3\n", 48),
    (48, b"2147483648: 3\n", 48),
    (48, b"-2147483649: 3\n", 48),
    (48, b"1 :3\n", 48),
    (48, b"1: 4294967296\n", 48),
    (48, b"1: 03\n", 48),
    (48, b"1:  3\n", 48),
    (48, b"1\n", 48),
    (49, b"entry 2 falsified 3\n", 49),
    (51, b"bits:\n", 51),
    (51, b"bits:00\n", 51),
    (51, b"bits: 0\n", 51),
    (56, b"model:01010101\n", 56),
    (57, b"entry 4 conflicts base 2\n", 57),
    (57, b"entry 4 conflicts step 0\n", 57),
    (57, b"entry 4 conflicts step 3\n", 57),
    (57, b"entry 4 conflicts base 0\n", 59),
    (60, b"end", 60),
];

/// The first change after which another line is told, in pieces of this size.
fn first_missed(alloc: Global, size: usize) -> Result<Option<usize>, AllocError> {
    for (at, (line, with, wrong)) in CHANGES.iter().enumerate() {
        let text = altered(alloc, EACH, *line, with)?;
        if answered(alloc, &text, size)? != Outcome::Form(*wrong) {
            return Ok(Some(at));
        }
    }
    Ok(None)
}

#[test]
fn a_text_is_read_in_pieces_of_any_length(rt: HostRuntime) -> Result<(), Fail> {
    for size in [1usize, 7, 100_000] {
        assert_eq!(rt; answered(rt.alloc(), SMALL, size)?, Outcome::Read(0));
        assert_eq!(rt; answered(rt.alloc(), EACH, size)?, Outcome::Refused(29));
        assert_eq!(rt; answered(rt.alloc(), SPENT, size)?, Outcome::Refused(21));
    }
    Ok(())
}

#[test]
fn a_first_wrong_line_is_told(rt: HostRuntime) -> Result<(), Fail> {
    for size in [1usize, 7, 100_000] {
        assert_eq!(rt; first_missed(rt.alloc(), size)?, None);
    }
    Ok(())
}

#[test]
fn a_text_that_ends_early_is_wrong_after_its_last_line(rt: HostRuntime) -> Result<(), Fail> {
    let mut lines = 1;
    for at in 0..EACH.len() {
        assert_eq!(rt;
            answered(rt.alloc(), &EACH[..at], 1000)?,
            Outcome::Form(lines)
        );
        if EACH[at] == b'\n' {
            lines += 1;
        }
    }
    Ok(())
}

#[test]
fn nothing_follows_the_last_line(rt: HostRuntime) -> Result<(), Fail> {
    let mut text = Vec::from_slice(rt.alloc(), SMALL)?;
    text.extend_from_slice(b"\n")?;
    assert_eq!(rt; answered(rt.alloc(), &text, 7)?, Outcome::Form(30));
    let mut text = Vec::from_slice(rt.alloc(), SMALL)?;
    text.extend_from_slice(b"e")?;
    assert_eq!(rt; answered(rt.alloc(), &text, 7)?, Outcome::Form(30));
    Ok(())
}
