use crate::memory::{answer, file, prove, run_over};
use ports::{MemoryDesk, MemorySink};
use std::alloc::{AllocError, Global};
use std::test::Fail;

#[test]
fn texts_have_these_answers(rt: HostRuntime) -> Result<(), Fail> {
    let table: [(&[u8], u8, &[u8]); 12] = [
        (
            b"Inputs: bool a;\nProof Obligations: a # ~a;\n",
            0,
            b"obligation 1 at 2:22: proved 1\nproved 1 falsified 0 undecided 0\n",
        ),
        (
            b"Inputs: bool a;\nProof Obligations: a;\n",
            1,
            b"obligation 1 at 2:20: falsified 1\n0: a=false\nproved 0 falsified 1 undecided 0\n",
        ),
        (b"", 0, b"proved 0 falsified 0 undecided 0\n"),
        // Every operator, every word for a truth value, and parentheses.
        (
            b"Inputs: bool a, b, c;\nProof Obligations:\n  a & b -> b & a;\n  (a -> b -> c) -> (a & b -> c);\n  ~(a # b) -> ~a & ~b;\n  true & TRUE & ~false & ~FALSE;\n  (a -> b) -> c;\n",
            1,
            b"obligation 1 at 3:9: proved 1\nobligation 2 at 4:17: proved 1\nobligation 3 at 5:12: proved 1\nobligation 4 at 6:8: proved 1\nobligation 5 at 7:12: falsified 1\n0: a=false b=false c=false\nproved 4 falsified 1 undecided 0\n",
        ),
        // `&` binds more tightly than `#`, and this more tightly than `->`, which groups to the right.
        (
            b"Inputs: bool a, b, c;\nProof Obligations: a # b & c; a -> b # c; a -> b -> a;",
            1,
            b"obligation 1 at 2:22: falsified 1\n0: a=false b=false c=false\nobligation 2 at 2:33: falsified 1\n0: a=true b=false c=false\nobligation 3 at 2:45: proved 1\nproved 1 falsified 2 undecided 0\n",
        ),
        // Several sections of each kind, in any order, and empty ones.
        (
            b"Proof Obligations: b;\nInputs: bool a; bool b;\nInputs:\nProof Obligations:\nProof Obligations: a -> a;\nInputs: bool c, d;",
            1,
            b"obligation 1 at 1:20: falsified 1\n0: a=false b=false c=false d=false\nobligation 2 at 5:22: proved 1\nproved 1 falsified 1 undecided 0\n",
        ),
        // Names that only resemble reserved words.
        (
            b"Inputs: bool I1, Input, trueX, _, x, ALLx;\nProof Obligations: I1 & Input & trueX & _ & x & ALLx -> x;",
            0,
            b"obligation 1 at 2:54: proved 1\nproved 1 falsified 0 undecided 0\n",
        ),
        // Comments, and a name in quotes.
        (b"// a comment\n", 0, b"proved 0 falsified 0 undecided 0\n"),
        (
            b"Inputs: bool 'a'; /* a comment */ Proof Obligations: a -> 'a';",
            0,
            b"obligation 1 at 1:56: proved 1\nproved 1 falsified 0 undecided 0\n",
        ),
        // A text of the language that isn't decided yet.
        (b"Inputs: int [0, 3] d;", 3, b"refused Unbuilt\n"),
        (
            b"Inputs: bool a;\nProof Obligations: a",
            3,
            b"refused Unexpected at 2:21\n",
        ),
        (b"Inputs: bool a\xE9;", 3, b"refused Stray at 1:15\n"),
    ];
    for (text, status, output) in table {
        let (answered, out) = prove(&rt, rt.alloc(), text)?;
        assert_eq!(rt; out.bytes(), output);
        assert_eq!(rt; answered, status);
    }
    Ok(())
}

/// A line of words, which read and which write fails (0: none), the status, and what is written.
struct Run {
    line: &'static str,
    failing_read: u64,
    failing_write: u64,
    status: u8,
    output: &'static [u8],
}

const USAGE: &[u8] = b"usage: hll prove MODEL | hll check EVIDENCE | hll format MODEL\n";

/// The runs on one model.
const RUNS: [Run; 17] = [
    Run {
        line: "prove m",
        failing_read: 0,
        failing_write: 0,
        status: 0,
        output: b"obligation 1 at 2:22: proved 1\nproved 1 falsified 0 undecided 0\n",
    },
    Run {
        line: "format m",
        failing_read: 0,
        failing_write: 0,
        status: 0,
        output: b"Inputs:\n  bool a;\nProof Obligations:\n  a # ~a;\n",
    },
    // The first and the second read of the model fail.
    Run {
        line: "prove m",
        failing_read: 1,
        failing_write: 0,
        status: 5,
        output: b"refused read m\n",
    },
    Run {
        line: "format m",
        failing_read: 2,
        failing_write: 0,
        status: 5,
        output: b"refused read m\n",
    },
    Run {
        line: "prove other",
        failing_read: 0,
        failing_write: 0,
        status: 5,
        output: b"refused read other\n",
    },
    // The first write fails.
    Run {
        line: "prove m",
        failing_read: 0,
        failing_write: 1,
        status: 6,
        output: b"",
    },
    Run {
        line: "format m",
        failing_read: 0,
        failing_write: 1,
        status: 6,
        output: b"",
    },
    Run {
        line: "prove m",
        failing_read: 1,
        failing_write: 1,
        status: 6,
        output: b"",
    },
    Run {
        line: "",
        failing_read: 0,
        failing_write: 0,
        status: 4,
        output: USAGE,
    },
    Run {
        line: "prove",
        failing_read: 0,
        failing_write: 0,
        status: 4,
        output: USAGE,
    },
    Run {
        line: "prove m m",
        failing_read: 0,
        failing_write: 0,
        status: 4,
        output: USAGE,
    },
    Run {
        line: "format --help",
        failing_read: 0,
        failing_write: 0,
        status: 4,
        output: USAGE,
    },
    Run {
        line: "check",
        failing_read: 0,
        failing_write: 0,
        status: 4,
        output: USAGE,
    },
    // A text is no evidence.
    Run {
        line: "check m",
        failing_read: 0,
        failing_write: 0,
        status: 8,
        output: b"refused evidence line 1 Form\n",
    },
    Run {
        line: "check m",
        failing_read: 1,
        failing_write: 0,
        status: 5,
        output: b"refused read m\n",
    },
    Run {
        line: "check m",
        failing_read: 2,
        failing_write: 0,
        status: 5,
        output: b"refused read m\n",
    },
    Run {
        line: "check m",
        failing_read: 0,
        failing_write: 1,
        status: 6,
        output: b"",
    },
];

/// A desk with one file `m`, one of whose reads fails.
fn desk(alloc: Global, bytes: &[u8], failing_read: u64) -> Result<MemoryDesk, AllocError> {
    let fails = vec![in alloc; failing_read]?;
    Ok(MemoryDesk::new(alloc, file(alloc, "m", bytes)?, fails))
}

#[test]
fn words_and_ports_have_their_statuses(rt: HostRuntime) -> Result<(), Fail> {
    let alloc = rt.alloc();
    let text = b"Inputs: bool a;\nProof Obligations: a # ~a;\n";
    for case in &RUNS {
        let mut desk = desk(alloc, text, case.failing_read)?;
        let mut out = MemorySink::new(alloc, vec![in alloc; case.failing_write]?);
        let answered = run_over(&rt, alloc, case.line, &mut desk, &mut out)?;
        assert_eq!(rt; out.bytes(), case.output);
        assert_eq!(rt; answered, case.status);
        assert_eq!(rt; desk.file("m"), Some(text.as_slice()));
    }
    Ok(())
}

/// Evidence of two models of one signal, whose first log says so many times more that it is true.
fn evidence(alloc: Global, times: usize) -> Result<String, AllocError> {
    let mut text = format!(in alloc; "hll-evidence 1\ndepth 7\nconflicts 1\n")?;
    for name in ["a", "b"] {
        let model = format!(in alloc; "text {name}\nlll 1\n0 one\nassume 0\nkeep 0\nend\n")?;
        text.push_str(&model)?;
    }
    let count = format!(in alloc; "equal shown 3\nlog {}\n", times.saturating_add(1))?;
    text.push_str(&count)?;
    for _ in 0..times {
        text.push_str("1: 0\n")?;
    }
    text.push_str(": 0 2\nlog 1\n: 5 7\n")?;
    text.push_str("log 1\n: 0 2\nlog 1\n: 5 7\nlog 1\n: 0 2\nlog 1\n: 5 7\nend\n")?;
    Ok(text)
}

const SUMMARY: &[u8] = b"proved 0 falsified 0 undecided 0\n";

/// How often the first log says it, and how many reads a check makes: each gives 4,096 bytes at most, the last one none.
const READS: [(usize, u64); 3] = [(0, 2), (1_000, 3), (2_000, 4)];

#[test]
fn each_call_of_a_check_that_fails_has_its_status(rt: HostRuntime) -> Result<(), Fail> {
    let alloc = rt.alloc();
    for (times, reads) in READS {
        let text = evidence(alloc, times)?;
        for failing in 1..reads + 2 {
            let mut desk = desk(alloc, text.as_bytes(), failing)?;
            let mut out = MemorySink::new(alloc, Vec::new(alloc));
            let answered = run_over(&rt, alloc, "check m", &mut desk, &mut out)?;
            let (status, output) = if failing <= reads {
                (5, b"refused read m\n".as_slice())
            } else {
                (0, SUMMARY)
            };
            assert_eq!(rt; out.bytes(), output, "{failing} of {reads}");
            assert_eq!(rt; answered, status, "{failing} of {reads}");
        }
        // The summary is one write.
        for (failing, status, output) in [(1, 6, b"".as_slice()), (2, 0, SUMMARY)] {
            let mut desk = desk(alloc, text.as_bytes(), 0)?;
            let mut out = MemorySink::new(alloc, vec![in alloc; failing]?);
            let answered = run_over(&rt, alloc, "check m", &mut desk, &mut out)?;
            assert_eq!(rt; out.bytes(), output, "{failing} of {reads}");
            assert_eq!(rt; answered, status, "{failing} of {reads}");
        }
    }
    Ok(())
}

/// A text and the line on its first mistake.
struct Mistaken {
    text: &'static [u8],
    line: &'static [u8],
}

const MISTAKEN: [Mistaken; 15] = [
    Mistaken {
        text: b"Inputs: bool a;\nProof Obligations: a ! a;\n",
        line: b"refused Stray at 2:22\n",
    },
    Mistaken {
        text: b"Inputs: bool a",
        line: b"refused Unexpected at 1:15\n",
    },
    Mistaken {
        text: b"Inputs: bool a b;",
        line: b"refused Unexpected at 1:16\n",
    },
    Mistaken {
        text: b"Proof Obligations: a < b < c;",
        line: b"refused Unexpected at 1:26\n",
    },
    Mistaken {
        text: b"Constraints: ;",
        line: b"refused Unexpected at 1:14\n",
    },
    Mistaken {
        text: b"Proof Constraints: a;",
        line: b"refused Unexpected at 1:7\n",
    },
    Mistaken {
        text: b"Constants: int N := 0x;",
        line: b"refused Unexpected at 1:22\n",
    },
    Mistaken {
        text: b"Constants: int N := 170141183460469231731687303715884105728;",
        line: b"refused Number at 1:21\n",
    },
    Mistaken {
        text: b"/* a",
        line: b"refused Unclosed at 1:1\n",
    },
    Mistaken {
        text: b"Inputs: bool '';",
        line: b"refused Stray at 1:14\n",
    },
    // A mistake of the tokens comes before one of the grammar, and this before a static fault and a form that isn't built.
    Mistaken {
        text: b"Inputs: bool a b; 'c",
        line: b"refused Unclosed at 1:19\n",
    },
    Mistaken {
        text: b"Inputs: bool a, a; b",
        line: b"refused Unexpected at 1:21\n",
    },
    Mistaken {
        text: b"Types: bool t; Inputs: bool a b;",
        line: b"refused Unexpected at 1:31\n",
    },
    Mistaken {
        text: b"Inputs: bool a[2];",
        line: b"refused Unbuilt\n",
    },
    Mistaken {
        text: b"Inputs: bool a; Proof Obligations: a <-> a;",
        line: b"refused Unbuilt\n",
    },
];

#[test]
fn each_first_mistake_is_named_with_its_place(rt: HostRuntime) -> Result<(), Fail> {
    for case in &MISTAKEN {
        let (answered, out) = prove(&rt, rt.alloc(), case.text)?;
        assert_eq!(rt; out.bytes(), case.line);
        assert_eq!(rt; answered, 3);
    }
    Ok(())
}

/// A text for each kind of static fault, and texts with several.
const FAULTY: [Mistaken; 14] = [
    Mistaken {
        text: b"Inputs: bool a;\nProof Obligations: a -> b;",
        line: b"refused Unknown at 2:25\n",
    },
    Mistaken {
        text: b"Inputs: bool a, a;",
        line: b"refused Twice at 1:17\n",
    },
    Mistaken {
        text: b"Types: bool T; Proof Obligations: T;",
        line: b"refused Kind at 1:35\n",
    },
    Mistaken {
        text: b"Inputs: bool a; Proof Obligations: a & 1;",
        line: b"refused Mismatch at 1:40\n",
    },
    Mistaken {
        text: b"Types: int [3, 2] T;",
        line: b"refused Range at 1:13\n",
    },
    Mistaken {
        text: b"Constants: int N := x; Inputs: bool x;",
        line: b"refused Constant at 1:21\n",
    },
    Mistaken {
        text: b"Inputs: int unsigned 64 u; Proof Obligations: u + 1 > u;",
        line: b"refused Wide at 1:49\n",
    },
    Mistaken {
        text: b"Declarations: bool x[2]; Definitions: x[i, j] := true;",
        line: b"refused Shape at 1:44\n",
    },
    Mistaken {
        text: b"Inputs: bool a[100000]; bool b;",
        line: b"refused Cells at 1:30\n",
    },
    Mistaken {
        text: b"Declarations: bool x;",
        line: b"refused Undefined at 1:20\n",
    },
    Mistaken {
        text: b"Inputs: bool a; Proof Obligations: pre(a);",
        line: b"refused FirstMissing at 1:36\n",
    },
    // What is declared comes before what is asked, wherever it stands.
    Mistaken {
        text: b"Proof Obligations: b;\nInputs: bool a, a;",
        line: b"refused Twice at 2:17\n",
    },
    // A static fault comes before a form that isn't built, and before a limit.
    Mistaken {
        text: b"Inputs: int [0, 3] d; bool a, a;",
        line: b"refused Twice at 1:31\n",
    },
    Mistaken {
        text: b"Inputs: bool a, b, c, d, e, f, g, h, i, j, k, l, m, a;",
        line: b"refused Twice at 1:53\n",
    },
];

#[test]
fn each_first_static_fault_is_named_with_its_place(rt: HostRuntime) -> Result<(), Fail> {
    for case in &FAULTY {
        let (answered, out) = prove(&rt, rt.alloc(), case.text)?;
        assert_eq!(rt; out.bytes(), case.line);
        assert_eq!(rt; answered, 3);
        let (printed, _) = answer(&rt, rt.alloc(), "format m", case.text)?;
        assert_eq!(rt; printed, 0);
    }
    Ok(())
}
