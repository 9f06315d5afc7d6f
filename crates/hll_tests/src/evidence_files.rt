//! What `check` answers of files of evidence.

use crate::memory::answer;
use std::alloc::{AllocError, Global};
use std::test::Fail;

/// Two models of one signal, without obligations.
const MODELS: &[u8] =
    b"hll-evidence 1\ndepth 7\nconflicts 1\ntext a\nlll 1\n0 one\nassume 0\nkeep 0\nend\ntext b\nlll 1\n0 one\nassume 0\nkeep 0\nend\n";

/// What stands behind the models, the status, and what is written.
struct Case {
    behind: &'static [u8],
    status: u8,
    output: &'static [u8],
}

/// The three parts of their miter: each is the literal 0. A base formula has the clauses `(1)`, `(1)` and `(-1)`, and a step
/// formula `(1)` five times, `(2)` twice and `(-2)`.
const CASES: [Case; 14] = [
    Case {
        behind: b"equal shown 3\nlog 1\n: 0 2\nlog 1\n: 5 7\nlog 1\n: 0 2\nlog 1\n: 5 7\nlog 1\n: 0 2\nlog 1\n: 5 7\nend\n",
        status: 0,
        output: b"proved 0 falsified 0 undecided 0\n",
    },
    // The false clause may come before a unit one.
    Case {
        behind: b"equal shown 3\nlog 1\n: 0 2\nlog 1\n: 7 5\nlog 1\n: 0 2\nlog 1\n: 5 7\nlog 1\n: 0 2\nlog 1\n: 5 7\nend\n",
        status: 0,
        output: b"proved 0 falsified 0 undecided 0\n",
    },
    Case {
        behind: b"equal shown 2\nlog 1\n: 0 2\nlog 1\n: 5 7\nlog 1\n: 0 2\nlog 1\n: 5 7\nend\n",
        status: 8,
        output: b"refused evidence line 16 Form\n",
    },
    Case {
        behind: b"equal shown 3\nlog 1\n: 0\nlog 1\n: 5 7\nlog 1\n: 0 2\nlog 1\n: 5 7\nlog 1\n: 0 2\nlog 1\n: 5 7\nend\n",
        status: 8,
        output: b"refused evidence line 18 NoConflict\n",
    },
    Case {
        behind: b"equal shown 3\nlog 1\n2: 0 2\nlog 1\n: 5 7\nlog 1\n: 0 2\nlog 1\n: 5 7\nlog 1\n: 0 2\nlog 1\n: 5 7\nend\n",
        status: 8,
        output: b"refused evidence line 18 Literal 2\n",
    },
    Case {
        behind: b"equal shown 3\nlog 1\n: 4000000000 2\nlog 1\n: 5 7\nlog 1\n: 0 2\nlog 1\n: 5 7\nlog 1\n: 0 2\nlog 1\n: 5 7\nend\n",
        status: 8,
        output: b"refused evidence line 18 Unknown 4000000000\n",
    },
    Case {
        behind: b"equal shown 3\nlog 1\n1: 0\nlog 1\n: 5 7\nlog 1\n: 0 2\nlog 1\n: 5 7\nlog 1\n: 0 2\nlog 1\n: 5 7\nend\n",
        status: 8,
        output: b"refused evidence line 17 Unended\n",
    },
    Case {
        behind: b"equal conflicts 1 base\nlog 0\nend\n",
        status: 8,
        output: b"refused evidence line 17 Count\n",
    },
    Case {
        behind: b"equal conflicts 1 base\nlog 1\n1: 0\nend\n",
        status: 8,
        output: b"refused evidence line 17 Idle\n",
    },
    // A wrong line comes before a claim that fails in an earlier one.
    Case {
        behind: b"equal shown 3\nlog 1\n1: 0\nlog 1\n: 5 7\nlog 1\n: 0 2\nlog 1\n: 5 7\nlog 1\n: 0 2\nlog 1\n: 05 7\nend\n",
        status: 8,
        output: b"refused evidence line 28 Form\n",
    },
    // The file ends early, and it goes on behind its end.
    Case {
        behind: b"equal shown 3\nlog 1\n",
        status: 8,
        output: b"refused evidence line 18 Form\n",
    },
    Case {
        behind: b"",
        status: 8,
        output: b"refused evidence line 16 Form\n",
    },
    Case {
        behind: b"equal shown 3\nlog 1\n: 0 2\nlog 1\n: 5 7\nlog 1\n: 0 2\nlog 1\n: 5 7\nlog 1\n: 0 2\nlog 1\n: 5 7\nend\n\n",
        status: 8,
        output: b"refused evidence line 30 Form\n",
    },
    // The last line has no line feed.
    Case {
        behind: b"equal shown 3\nlog 1\n: 0 2\nlog 1\n: 5 7\nlog 1\n: 0 2\nlog 1\n: 5 7\nlog 1\n: 0 2\nlog 1\n: 5 7\nend",
        status: 8,
        output: b"refused evidence line 29 Form\n",
    },
];

/// The models, and what stands behind them.
fn with_models(alloc: Global, behind: &[u8]) -> Result<Vec<u8>, AllocError> {
    let mut file = Vec::from_slice(alloc, MODELS)?;
    file.extend_from_slice(behind)?;
    Ok(file)
}

#[test]
fn files_of_evidence_have_these_answers(rt: HostRuntime) -> Result<(), Fail> {
    for case in &CASES {
        let file = with_models(rt.alloc(), case.behind)?;
        let (status, out) = answer(&rt, rt.alloc(), "check m", &file)?;
        assert_eq!(rt; out.bytes(), case.output);
        assert_eq!(rt; status, case.status);
    }
    Ok(())
}
