ghost use Rattle.std.specs.Prelude.{◌≡◌, IfOk, Some, length};

use crate::{
    Desk, FileDesk, FileText, Gate, MemoryDesk, MemorySink, OpenGate, OutSink, PortFault,
    ReadFault, Sink, SureDesk, SureSink, put_all, read_text, write_all,
};
use std::alloc::{AllocError, Global};
use std::fs;
use std::test::Fail;

/// A file of `size` sevens.
fn sevens(alloc: Global, name: &str, size: usize) -> Result<Vec<FileText>, AllocError>
    ensures { IfOk result (λ files. length files.items ≡ 1) }
{
    let file = FileText {
        name: String::from_str(alloc, name)?,
        bytes: vec![in alloc; 7u8; size]?,
    };
    Ok(vec![in alloc; file]?)
}

#[test]
fn read_text_keeps_to_its_limit(rt: HostRuntime) -> Result<(), Fail> {
    let alloc = rt.alloc();
    let table = [
        (0, 0, 0, Ok(0)),
        (3, 0, 2, Err(ReadFault::Long)),
        (3, 0, 3, Ok(3)),
        (3, 1, 9, Err(ReadFault::Failed)),
        (3, 2, 9, Err(ReadFault::Failed)),
        (5000, 0, 4999, Err(ReadFault::Long)),
        (5000, 0, 5000, Ok(5000)),
        (5000, 2, 5000, Err(ReadFault::Failed)),
    ];
    for (size, fails, limit, wanted) in table {
        let files = sevens(alloc, "a", size)?;
        let mut desk = MemoryDesk::new(alloc, files, vec![in alloc; fails]?);
        match read_text(alloc, &mut desk, "a", limit) {
            Ok(text) => {
                assert_eq!(rt; Ok(text.len()), wanted);
                assert!(rt; text.iter().all(|byte| *byte == 7));
            }
            Err(fault) => assert_eq!(rt; Err(fault), wanted),
        }
    }
    Ok(())
}

#[test]
fn memory_desk_fails_as_planned(rt: HostRuntime) -> Result<(), Fail> {
    let alloc = rt.alloc();
    let mut desk = MemoryDesk::new(alloc, sevens(alloc, "a", 3)?, vec![in alloc; 2]?);
    let mut buffer = [0; 4];
    assert_eq!(rt; desk.get("a", 1, &mut buffer), Ok(2));
    assert_eq!(rt; buffer, [7, 7, 0, 0]);
    assert_eq!(rt; desk.get("a", 0, &mut buffer), Err(PortFault::Failed));
    assert_eq!(rt; desk.get("b", 0, &mut buffer), Err(PortFault::Failed));
    Ok(())
}

#[test]
fn memory_desk_keeps_what_it_takes(rt: HostRuntime) -> Result<(), Fail> {
    let alloc = rt.alloc();
    let mut desk = MemoryDesk::new(alloc, Vec::new(alloc), vec![in alloc; 2]?);
    desk.begin("a")?;
    desk.reserve(3)?;
    assert_eq!(rt; put_all(&mut desk, "a", b"one"), Err(PortFault::Failed));
    assert_eq!(rt; put_all(&mut desk, "a", b"two"), Ok(()));
    assert_eq!(rt; desk.file("a"), Some(b"two".as_slice()));
    assert_eq!(rt; desk.file("b"), None);
    Ok(())
}

#[test]
fn sure_desk_keeps_what_it_is_given(rt: HostRuntime) -> Result<(), Fail> {
    let alloc = rt.alloc();
    let mut desk = SureDesk::new(alloc, Vec::new(alloc));
    let mut buffer = [0; 4];
    assert_eq!(rt; desk.get("a", 0, &mut buffer), Ok(0));
    assert_eq!(rt; desk.file("a"), None);
    put_all(&mut desk, "a", b"")?;
    assert_eq!(rt; desk.file("a"), Some(b"".as_slice()));
    desk.begin("b")?;
    desk.reserve(3)?;
    put_all(&mut desk, "b", b"abc")?;
    assert_eq!(rt;
        read_text(alloc, &mut desk, "b", 3)?.as_slice(),
        b"abc".as_slice()
    );
    assert_eq!(rt; desk.file("b"), Some(b"abc".as_slice()));
    Ok(())
}

/// A sink that takes one byte at a time.
#[derive(Drop)]
struct OneByte(MemorySink);

impl Sink for OneByte {
    ghost told = { λ s. Some s.0.bytes };

    ghost faults = { λ s. s.0.faults };

    fn write(&mut self, piece: &[u8]) -> Result<usize, PortFault> {
        let front = piece.len().min(1);
        self.0.write(&piece[..front])
    }
}

#[test]
fn write_all_stops_at_a_fault(rt: HostRuntime) -> Result<(), Fail> {
    let alloc = rt.alloc();
    let table = [
        (0, Ok(()), b"abc".as_slice()),
        (1, Err(PortFault::Failed), b"".as_slice()),
        (2, Err(PortFault::Failed), b"a".as_slice()),
    ];
    for (fails, wanted, left) in table {
        let mut sink = OneByte(MemorySink::new(alloc, vec![in alloc; fails]?));
        sink.0.reserve(2)?;
        assert_eq!(rt; write_all(&mut sink, b"abc"), wanted);
        assert_eq!(rt; sink.0.bytes(), left);
    }
    let mut sure = SureSink::new(alloc);
    sure.reserve(2)?;
    write_all(&mut sure, b"abc")?;
    assert_eq!(rt; sure.bytes(), b"abc".as_slice());
    Ok(())
}

#[test]
fn the_system_keeps_files_and_prints(rt: HostRuntime) -> Result<(), Fail> {
    let alloc = rt.alloc();
    assert!(rt; OpenGate.meet(1));
    write_all(&mut OutSink::new(rt.clone()?), b"to the output\n")?;
    let mut desk = FileDesk::new(alloc, rt.clone()?);
    assert_eq!(rt; desk.get("missing", 0, &mut [0; 4]), Err(PortFault::Failed));
    desk.begin("kept")?;
    put_all(&mut desk, "kept", b"abc")?;
    put_all(&mut desk, "kept", b"def")?;
    assert_eq!(rt;
        read_text(alloc, &mut desk, "kept", 6)?.as_slice(),
        b"abcdef".as_slice()
    );
    desk.begin("kept")?;
    assert_eq!(rt;
        read_text(alloc, &mut desk, "kept", 6)?.as_slice(),
        b"".as_slice()
    );
    Ok(())
}

#[test]
fn a_file_is_read_on_where_another_takes_its_name(rt: HostRuntime) -> Result<(), Fail> {
    let alloc = rt.alloc();
    let mut desk = FileDesk::new(alloc, rt.clone()?);
    let mut buffer = [0; 2];
    for (name, bytes) in [("model", b"old one"), ("other", b"new one")] {
        desk.begin(name)?;
        put_all(&mut desk, name, bytes)?;
    }
    assert_eq!(rt; desk.get("model", 0, &mut buffer), Ok(2));
    fs::rename(&rt, "other", "model")?;
    // The file that was opened is read on, at any place, and what is put goes to the file that was begun.
    for (at, wanted) in [(2, b"d "), (4, b"on"), (0, b"ne"), (1, b"ew")] {
        assert_eq!(rt; desk.get("model", at, &mut buffer), Ok(2));
        assert_eq!(rt; &buffer, wanted);
    }
    put_all(&mut desk, "model", b", too")?;
    let text = read_text(alloc, &mut desk, "model", 99)?;
    assert_eq!(rt; text.as_slice(), b"new one".as_slice());
    let text = read_text(alloc, &mut desk, "other", 99);
    assert_eq!(rt; text.err(), Some(ReadFault::Failed));
    Ok(())
}
