//! Texts of values that are made by hand.

use crate::{Evidence, write_evidence};
use kinduction::{Equal, Found, Spot};
use lll_core::Lll;
use lll_text::read_lll;
use ports::MemoryDesk;
use rup_checker::{Log, Step};
use sqlite_items::Items;
use std::alloc::{AllocError, Global};
use std::test::Fail;

/// A model without inputs, latches and obligations.
const EMPTY: &[u8] = b"lll 1\n0 one\nassume 0\nkeep 0\nend\n";

/// The text of the empty model beside itself.
const HANDMADE: &[u8] =
    b"hll-evidence 1\ndepth 7\nconflicts 1\ntext a\nlll 1\n0 one\nassume 0\nkeep 0\nend\ntext b\nlll 1\n0 one\nassume 0\nkeep 0\nend\nequal shown 3\nlog 1\n: 0 2\nlog 1\n: 5 7\nlog 1\n: 0 2\nlog 1\n: 5 7\nlog 1\n: 0 2\nlog 1\n: 5 7\nend\n";

/// A model with an input and four obligations.
const FOUR: &[u8] =
    b"lll 1\n0 one\n1 input a\nassume 0\nkeep 0\nobligation 0\nobligation 2\nobligation 0\nobligation 2\nend\n";

/// The lines after the two models, of an entry of each kind.
const EACH_ENTRY: &[u8] =
    b"equal shown 7\nentry 1 proved 1\nlog 0\nlog 1\n-3 5: 12 14 2\nentry 2 falsified 1\nbits:0\nentry 3 depth\nlog 0\nmodel:0110\nentry 4 conflicts base 1\nlog 0\nlog 1\n2: 0\nend\n";

fn step(alloc: Global, clause: &[i32], hints: &[u32]) -> Result<Step, AllocError> {
    Ok(Step {
        clause: Items::from_vec(Vec::from_slice(alloc, clause)?),
        hints: Items::from_vec(Vec::from_slice(alloc, hints)?),
    })
}

fn log_of(alloc: Global, step: Step) -> Result<Log, AllocError> {
    let mut steps = Items::new(alloc);
    steps.push(step)?;
    Ok(Log { steps })
}

fn no_steps(alloc: Global) -> Log {
    Log {
        steps: Items::new(alloc),
    }
}

fn one_log(log: Log, alloc: Global) -> Result<Items<Log>, AllocError> {
    let mut logs = Items::new(alloc);
    logs.push(log)?;
    Ok(logs)
}

/// The logs of three parts.
fn part_logs(alloc: Global) -> Result<Items<Log>, AllocError> {
    let mut logs = Items::new(alloc);
    for _ in 0..3 {
        logs.push(log_of(alloc, step(alloc, &[], &[0, 2])?)?)?;
        logs.push(log_of(alloc, step(alloc, &[], &[5, 7])?)?)?;
    }
    Ok(logs)
}

fn without_entries(alloc: Global, a: Lll, b: Lll) -> Result<Evidence, AllocError> {
    Ok(Evidence {
        depth: 7,
        conflicts: 1,
        a,
        b,
        equal: Equal::Shown {
            logs: part_logs(alloc)?,
        },
        entries: Items::new(alloc),
    })
}

/// An entry of each kind. What they claim isn't so.
fn entries(alloc: Global) -> Result<Items<Found>, AllocError> {
    let mut entries = Items::new(alloc);
    let step_log = log_of(alloc, step(alloc, &[-3, 5], &[12, 14, 2])?)?;
    entries.push(Found::Proved {
        k: 1,
        bases: one_log(no_steps(alloc), alloc)?,
        step: step_log,
    })?;
    let mut bits = Items::new(alloc);
    bits.push(Items::from_vec(vec![in alloc; false]?))?;
    let bases = Items::new(alloc);
    entries.push(Found::Falsified { bits, bases })?;
    entries.push(Found::Depth {
        step_model: Items::from_vec(vec![in alloc; false, true, true, false]?),
        bases: one_log(no_steps(alloc), alloc)?,
    })?;
    entries.push(Found::Conflicts {
        place: Spot::Base(1),
        log: log_of(alloc, step(alloc, &[2], &[0])?)?,
        bases: one_log(no_steps(alloc), alloc)?,
    })?;
    Ok(entries)
}

#[test]
fn evidence_is_written(rt: HostRuntime) -> Result<(), Fail> {
    let alloc = rt.alloc();
    let evidence = without_entries(alloc, read_lll(alloc, EMPTY)?, read_lll(alloc, EMPTY)?)?;
    let mut desk = MemoryDesk::new(alloc, Vec::new(alloc), Vec::new(alloc));
    write_evidence(alloc, &mut desk, "e", &evidence)?;
    assert_eq!(rt; desk.file("e"), Some(HANDMADE));
    Ok(())
}

#[test]
fn each_entry_is_written(rt: HostRuntime) -> Result<(), Fail> {
    let alloc = rt.alloc();
    let evidence = Evidence {
        depth: 1,
        conflicts: 1,
        a: read_lll(alloc, FOUR)?,
        b: read_lll(alloc, FOUR)?,
        equal: Equal::Shown {
            logs: Items::new(alloc),
        },
        entries: entries(alloc)?,
    };
    let mut desk = MemoryDesk::new(alloc, Vec::new(alloc), Vec::new(alloc));
    write_evidence(alloc, &mut desk, "e", &evidence)?;
    let file = desk.file("e").unwrap_or(b"");
    assert!(rt; file.ends_with(EACH_ENTRY));
    Ok(())
}

#[test]
fn long_evidence_is_written_in_pieces(rt: HostRuntime) -> Result<(), Fail> {
    let alloc = rt.alloc();
    let mut steps = Items::new(alloc);
    for _ in 0..20_000 {
        steps.push(step(alloc, &[-3, 5], &[12])?)?;
    }
    let evidence = Evidence {
        depth: 1,
        conflicts: 20_000,
        a: read_lll(alloc, EMPTY)?,
        b: read_lll(alloc, EMPTY)?,
        equal: Equal::Conflicts {
            part: 2,
            stepping: true,
            log: Log { steps },
        },
        entries: Items::new(alloc),
    };
    let mut desk = MemoryDesk::new(alloc, Vec::new(alloc), Vec::new(alloc));
    write_evidence(alloc, &mut desk, "e", &evidence)?;
    let file = desk.file("e").unwrap_or(b"");
    assert_eq!(rt; file.len(), 150 + 20_000 * 9 + 4);
    assert!(rt; file.ends_with(b"-3 5: 12\n-3 5: 12\nend\n"));
    Ok(())
}
