use crate::memory::{answer, prove};
use std::alloc::{AllocError, Global};
use std::test::Fail;

const UNBUILT: &[u8] = b"refused Unbuilt\n";

const DEEP: &[u8] = b"refused Deep at 1:236\n";

const FALSIFIED: &[u8] =
    b"obligation 1 at 1:36: falsified 1\n0: a=false\nproved 0 falsified 1 undecided 0\n";

const HEAD: &[u8] = b"Inputs: bool a; Proof Obligations: ";

const DEEPER: &[u8] = b"Inputs: bool a; Proof Obligations: ~";

/// A nested text by its parts, its status and what is written.
struct Nested {
    head: &'static [u8],
    opening: &'static [u8],
    times: usize,
    middle: &'static [u8],
    closing: &'static [u8],
    tail: &'static [u8],
    status: u8,
    output: &'static [u8],
}

impl Nested {
    /// A head, so many openings, a middle, as many closings, and a tail.
    fn text(&self, alloc: Global) -> Result<Vec<u8>, AllocError> {
        let mut text = Vec::from_slice(alloc, self.head)?;
        for _ in 0..self.times {
            text.extend_from_slice(self.opening)?;
        }
        text.extend_from_slice(self.middle)?;
        for _ in 0..self.times {
            text.extend_from_slice(self.closing)?;
        }
        text.extend_from_slice(self.tail)?;
        Ok(text)
    }
}

const NESTED: [Nested; 11] = [
    // Levels of `~`, of `(`, and of both: 200 and 201.
    Nested {
        head: HEAD,
        opening: b"~",
        times: 200,
        middle: b"a",
        closing: b"",
        tail: b";",
        status: 1,
        output: FALSIFIED,
    },
    Nested {
        head: HEAD,
        opening: b"~",
        times: 201,
        middle: b"a",
        closing: b"",
        tail: b";",
        status: 3,
        output: DEEP,
    },
    Nested {
        head: HEAD,
        opening: b"(",
        times: 200,
        middle: b"a",
        closing: b")",
        tail: b";",
        status: 1,
        output: b"obligation 1 at 1:236: falsified 1\n0: a=false\nproved 0 falsified 1 undecided 0\n",
    },
    Nested {
        head: HEAD,
        opening: b"(",
        times: 201,
        middle: b"a",
        closing: b")",
        tail: b";",
        status: 3,
        output: DEEP,
    },
    Nested {
        head: HEAD,
        opening: b"~(",
        times: 100,
        middle: b"a",
        closing: b")",
        tail: b";",
        status: 1,
        output: FALSIFIED,
    },
    Nested {
        head: DEEPER,
        opening: b"~(",
        times: 100,
        middle: b"a",
        closing: b")",
        tail: b";",
        status: 3,
        output: DEEP,
    },
    // The levels of one operand are not those of the next.
    Nested {
        head: HEAD,
        opening: b"~",
        times: 200,
        middle: b"a & ~a",
        closing: b"",
        tail: b";",
        status: 1,
        output: b"obligation 1 at 1:238: falsified 1\n0: a=false\nproved 0 falsified 1 undecided 0\n",
    },
    // 20,000 tokens, and one more.
    Nested {
        head: HEAD,
        opening: b"a & ",
        times: 9_995,
        middle: b"a",
        closing: b"",
        tail: b";",
        status: 1,
        output: b"obligation 1 at 1:38: falsified 1\n0: a=false\nproved 0 falsified 1 undecided 0\n",
    },
    Nested {
        head: HEAD,
        opening: b"a & ",
        times: 9_995,
        middle: b"~a",
        closing: b"",
        tail: b";",
        status: 3,
        output: UNBUILT,
    },
    // Of two mistakes the first is named.
    Nested {
        head: b"Proof Obligations: ",
        opening: b"(",
        times: 201,
        middle: b"",
        closing: b"",
        tail: b"",
        status: 3,
        output: b"refused Deep at 1:220\n",
    },
    Nested {
        head: b"Proof Obligations: a a; ",
        opening: b"~",
        times: 201,
        middle: b"",
        closing: b"",
        tail: b"",
        status: 3,
        output: b"refused Unexpected at 1:22\n",
    },
];

/// Texts of 2^24 bytes, and of one more.
const LONG: [Nested; 9] = [
    // 2^24 bytes of blanks, and one more.
    Nested {
        head: b"",
        opening: b" ",
        times: 16_777_216,
        middle: b"",
        closing: b"",
        tail: b"",
        status: 0,
        output: b"proved 0 falsified 0 undecided 0\n",
    },
    Nested {
        head: b"",
        opening: b" ",
        times: 16_777_217,
        middle: b"",
        closing: b"",
        tail: b"",
        status: 3,
        output: b"refused Long\n",
    },
    // A comment, one that is too long, and one that isn't closed; a name; a number, and one that is too great; a last byte with
    // which no token begins.
    Nested {
        head: b"//",
        opening: b"/",
        times: 16_777_214,
        middle: b"",
        closing: b"",
        tail: b"",
        status: 0,
        output: b"proved 0 falsified 0 undecided 0\n",
    },
    Nested {
        head: b"//",
        opening: b"/",
        times: 16_777_215,
        middle: b"",
        closing: b"",
        tail: b"",
        status: 3,
        output: b"refused Long\n",
    },
    Nested {
        head: b"/*",
        opening: b"*",
        times: 16_777_214,
        middle: b"",
        closing: b"",
        tail: b"",
        status: 3,
        output: b"refused Unclosed at 1:1\n",
    },
    Nested {
        head: b"Inputs: bool ",
        opening: b"a",
        times: 16_777_202,
        middle: b"",
        closing: b"",
        tail: b";",
        status: 0,
        output: b"proved 0 falsified 0 undecided 0\n",
    },
    Nested {
        head: b"Proof Obligations: ",
        opening: b"0",
        times: 16_777_195,
        middle: b"",
        closing: b"",
        tail: b"1;",
        status: 3,
        output: b"refused Mismatch at 1:20\n",
    },
    Nested {
        head: b"Proof Obligations: ",
        opening: b"9",
        times: 16_777_196,
        middle: b"",
        closing: b"",
        tail: b";",
        status: 3,
        output: b"refused Number at 1:20\n",
    },
    Nested {
        head: b"",
        opening: b"\n",
        times: 16_777_215,
        middle: b"",
        closing: b"",
        tail: b"?",
        status: 3,
        output: b"refused Stray at 16777216:1\n",
    },
];

#[test]
fn levels_and_tokens_are_limited(rt: HostRuntime) -> Result<(), Fail> {
    for case in &NESTED {
        let text = case.text(rt.alloc())?;
        let (answered, out) = prove(&rt, rt.alloc(), &text)?;
        assert_eq!(rt; out.bytes(), case.output);
        assert_eq!(rt; answered, case.status);
    }
    Ok(())
}

#[test]
fn bytes_are_limited(rt: HostRuntime) -> Result<(), Fail> {
    for case in &LONG {
        let text = case.text(rt.alloc())?;
        let (answered, out) = prove(&rt, rt.alloc(), &text)?;
        assert_eq!(rt; out.bytes(), case.output);
        assert_eq!(rt; answered, case.status);
    }
    Ok(())
}

#[test]
fn a_chain_of_200_000_operands_is_printed(rt: HostRuntime) -> Result<(), Fail> {
    let mut text = Vec::from_slice(rt.alloc(), b"Proof Obligations:\n  a")?;
    for _ in 1..200_000 {
        text.extend_from_slice(b" & a")?;
    }
    text.extend_from_slice(b";\n")?;
    let (status, out) = answer(&rt, rt.alloc(), "format m", &text)?;
    assert_eq!(rt; out.bytes(), text.as_slice());
    assert_eq!(rt; status, 0);
    Ok(())
}

#[test]
fn inputs_are_limited_and_declared_once(rt: HostRuntime) -> Result<(), Fail> {
    let alloc = rt.alloc();
    let table: [(&[u8], u8, &[u8]); 5] = [
        (
            b"Inputs: bool a, b, c, d, e, f, g, h, i, j, k, l; Proof Obligations: l;",
            1,
            b"obligation 1 at 1:69: falsified 1\n0: a=false b=false c=false d=false e=false f=false g=false h=false i=false j=false k=false l=false\nproved 0 falsified 1 undecided 0\n",
        ),
        (
            b"Inputs: bool a, b, c, d, e, f, g, h, i, j, k, l, m;",
            3,
            UNBUILT,
        ),
        (b"Inputs: bool a, b, a;", 3, b"refused Twice at 1:20\n"),
        (
            b"Inputs: bool a; Inputs: bool a;",
            3,
            b"refused Twice at 1:30\n",
        ),
        (
            b"Inputs: bool a; Proof Obligations: a -> b;",
            3,
            b"refused Unknown at 1:41\n",
        ),
    ];
    for (text, status, output) in table {
        let (answered, out) = prove(&rt, alloc, text)?;
        assert_eq!(rt; out.bytes(), output);
        assert_eq!(rt; answered, status);
    }
    Ok(())
}

#[test]
fn no_reserved_word_is_a_name(rt: HostRuntime) -> Result<(), Fail> {
    let alloc = rt.alloc();
    let words = [
        "Constants",
        "Types",
        "Inputs",
        "Declarations",
        "Definitions",
        "Constraints",
        "Proof",
        "Obligations",
        "bool",
        "int",
        "signed",
        "unsigned",
        "enum",
        "sort",
        "struct",
        "true",
        "TRUE",
        "false",
        "FALSE",
        "if",
        "then",
        "elif",
        "else",
        "ALL",
        "SOME",
        "SUM",
        "pre",
        "X",
        "I",
    ];
    for word in words {
        let text = format!(in alloc; "Inputs: bool {word};")?;
        let (answered, out) = prove(&rt, alloc, text.as_bytes())?;
        assert_eq!(rt; out.bytes(), b"refused Unexpected at 1:14\n".as_slice());
        assert_eq!(rt; answered, 3);
    }
    Ok(())
}
