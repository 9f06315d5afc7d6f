//! Lines of words with what they ask for.

use crate::Command;
use std::alloc::{AllocError, Global};
use std::test::Fail;

/// Words with spaces between them, and what they ask for.
const LINES: [(&str, Option<Command<'static>>); 27] = [
    ("prove m", Some(Command::Prove { model: "m" })),
    ("format m", Some(Command::Format { model: "m" })),
    ("check e", Some(Command::Check { evidence: "e" })),
    ("check check", Some(Command::Check { evidence: "check" })),
    ("check -- -e", Some(Command::Check { evidence: "-e" })),
    ("prove help", Some(Command::Prove { model: "help" })),
    ("prove prove", Some(Command::Prove { model: "prove" })),
    ("prove -", Some(Command::Prove { model: "-" })),
    ("prove -- m", Some(Command::Prove { model: "m" })),
    ("prove m --", Some(Command::Prove { model: "m" })),
    ("prove -- -m", Some(Command::Prove { model: "-m" })),
    ("prove -- --", Some(Command::Prove { model: "--" })),
    (
        "format -- --help",
        Some(Command::Format { model: "--help" }),
    ),
    ("prove", None),
    ("check", None),
    ("check e e", None),
    ("prove --", None),
    ("prove m m", None),
    ("prove -m", None),
    ("prove --model m", None),
    ("prove --help", None),
    ("prov m", None),
    ("help", None),
    ("help prove", None),
    ("--help", None),
    ("--version", None),
    ("-- prove m", None),
];

/// The words of a line.
fn words(alloc: Global, line: &str) -> Result<Vec<String>, AllocError> {
    let mut words = Vec::new(alloc);
    for word in line.split(' ') {
        words.push(String::from_str(alloc, word)?)?;
    }
    Ok(words)
}

#[test]
fn lines_ask_for_commands(rt: HostRuntime) -> Result<(), Fail> {
    for (line, asked) in LINES {
        let words = words(rt.alloc(), line)?;
        assert_eq!(rt; Command::read(rt.alloc(), &words)?, asked, "{line}");
    }
    let none = Vec::<String>::new(rt.alloc());
    assert_eq!(rt; Command::read(rt.alloc(), &none)?, None);
    Ok(())
}
