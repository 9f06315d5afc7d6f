//! The value of an expression at each row, compared with a plain function.

ghost use Rattle.std.specs.Prelude.{◌<◌};

use crate::memory::prove;
use std::alloc::{AllocError, Global};
use std::test::Fail;

/// Expressions over `a`, `b` and `c`, that show how operators group.
const EXPRESSIONS: [&str; 18] = [
    "a -> b -> c",
    "(a -> b) -> c",
    "a -> b # c",
    "a # b -> c",
    "a -> b & c",
    "a & b -> c",
    "a # b & c",
    "a & b # c",
    "(a # b) & c",
    "a & (b # c)",
    "~a & b # c",
    "~(a & b) # c",
    "~a -> ~b -> ~c",
    "~~a & ~(~b # c)",
    "a & ~b & c -> false",
    "true -> a # FALSE",
    "a # b # c",
    "(a -> b -> c) -> (a & b -> c)",
];

/// The value of the expression with this number.
fn value(number: usize, a: bool, b: bool, c: bool) -> bool {
    match number {
        0 => !a || (!b || c),
        1 => !(!a || b) || c,
        2 => !a || (b || c),
        3 => !(a || b) || c,
        4 => !a || (b && c),
        5 => !(a && b) || c,
        6 => a || (b && c),
        7 => (a && b) || c,
        8 => (a || b) && c,
        9 => a && (b || c),
        10 => (!a && b) || c,
        11 => !(a && b) || c,
        12 => a || (b || !c),
        13 => a && !(!b || c),
        14 => !(a && !b && c),
        15 => a,
        16 => a || b || c,
        _ => true,
    }
}

/// What makes a literal true where its input has this value.
fn sign(value: bool) -> &'static str {
    if value { " " } else { "~" }
}

/// An obligation that is the expression at one row, and true at every other.
fn push_obligation(text: &mut String, expression: &str, row: [bool; 3]) -> Result<(), AllocError> {
    let [a, b, c] = row.map(sign);
    write!(text, "~({a}a&{b}b&{c}c) # ({expression});\n")
}

/// The lines on an obligation: where it is false, it is so at its one row.
fn push_verdict(
    report: &mut String,
    number: usize,
    value: bool,
    row: [bool; 3],
) -> Result<(), AllocError>
    requires { number < 8 }
{
    let [a, b, c] = row;
    let (line, number) = (number + 2, number + 1);
    write!(report, "obligation {number} at {line}:13: ")?;
    if value {
        report.push_str("proved 1\n")
    } else {
        write!(report, "falsified 1\n0: a={a} b={b} c={c}\n")
    }
}

/// A text with an obligation for each row of an expression, and its report by the plain function.
fn text_and_report(
    alloc: Global,
    number: usize,
    expression: &str,
) -> Result<(String, String), AllocError> {
    let mut text = String::from_str(alloc, "Inputs: bool a, b, c; Proof Obligations:\n")?;
    let mut report = String::new(alloc);
    let mut falsified: usize = 0;
    for place in 0..8 {
        let row = [place % 2 == 1, place / 2 % 2 == 1, place / 4 == 1];
        let value = value(number, row[0], row[1], row[2]);
        push_obligation(&mut text, expression, row)?;
        push_verdict(&mut report, place, value, row)?;
        if !value {
            falsified += 1;
        }
    }
    let proved = 8 - falsified;
    write!(
        report,
        "proved {proved} falsified {falsified} undecided 0\n"
    )?;
    Ok((text, report))
}

#[test]
fn expressions_have_their_values_at_each_row(rt: HostRuntime) -> Result<(), Fail> {
    for (number, expression) in EXPRESSIONS.iter().enumerate() {
        let (text, report) = text_and_report(rt.alloc(), number, expression)?;
        let (_, out) = prove(&rt, rt.alloc(), text.as_bytes())?;
        assert_eq!(rt; out.bytes(), report.as_bytes());
    }
    Ok(())
}
