//! The report: each obligation with its place and its verdict, and how many were proved and falsified.

ghost use Rattle.std.specs.Prelude.{◌≡◌, ◌≤◌, ◌++◌, length, map, IfOk, OnOk};
ghost use Rattle.std.specs.List.{list_any, AllByRecursion};
ghost use Rattle.hll_lexer.specs.Place.{place_of};
ghost use Rattle.hll_cli.specs.Report.{is_falsified, value_text, values_text, instant_text, trace_text, verdict_text, obligations_text, counts_text};

use crate::line::{Heading, Printed, Totals};
use crate::verdict::Verdict;
use hll_lexer::{LineColumn, place, place_from};
use hll_tree::Expr;
use sqlite_items::Items;
use std::alloc::{AllocError, Global};

/// Whether a verdict is a falsified one.
fn is_falsified(verdict: &Verdict) -> bool
    ensures { result ≡ is_falsified verdict.now }
{
    matches!(verdict, Verdict::Falsified(_))
}

/// Whether a falsified verdict is among these.
pub fn any_falsified(verdicts: &[Verdict]) -> bool
    ensures { result ≡ list_any is_falsified verdicts.now }
{
    verdicts.iter().any(is_falsified)
}

/// Appends the value of an input.
#[tactic(auto, unfolding(crate::specs::Report::value_text))]
fn push_value(out: &mut Vec<u8>, name: &[u8], value: bool) -> Result<(), AllocError>
    ensures { OnOk result (out.new.items ≡ out.old.items ++ value_text name.now value) }
{
    out.extend_from_slice(b" ")?;
    out.extend_from_slice(name)?;
    out.extend_from_slice(b"=")?;
    value.print(out)
}

/// Appends the values of the inputs.
fn push_values(out: &mut Vec<u8>, names: &[&[u8]], values: &[bool]) -> Result<(), AllocError>
    ensures { OnOk result (out.new.items ≡ out.old.items ++ values_text (map (λ n. n.now) names.now) values.now) }
{
    for (name, value) in names.iter().zip(values) {
        push_value(out, name, *value)?;
    }
    Ok(())
}

/// Appends a line on an instant: its time and its values.
#[tactic(auto, unfolding(crate::specs::Report::instant_text))]
fn push_instant(
    out: &mut Vec<u8>,
    names: &[&[u8]],
    time: u64,
    values: &[bool],
) -> Result<(), AllocError>
    ensures { OnOk result (out.new.items ≡ out.old.items ++ instant_text (map (λ n. n.now) names.now) time values.now) }
{
    time.print(out)?;
    out.extend_from_slice(b":")?;
    push_values(out, names, values)?;
    out.extend_from_slice(b"\n")
}

/// Appends the instants of a trace.
fn push_trace(out: &mut Vec<u8>, names: &[&[u8]], trace: &[Items<bool>]) -> Result<(), AllocError>
    ensures { OnOk result (out.new.items ≡ out.old.items ++ trace_text (map (λ n. n.now) names.now) 0 trace.now) }
{
    for (time, values) in trace.iter().enumerate() {
        push_instant(out, names, time as u64, values.as_slice())?;
    }
    Ok(())
}

/// Appends a verdict, and the trace of a falsified one.
#[tactic(auto, unfolding(crate::specs::Report::verdict_text))]
fn push_verdict(out: &mut Vec<u8>, names: &[&[u8]], verdict: &Verdict) -> Result<(), AllocError>
    ensures { OnOk result (out.new.items ≡ out.old.items ++ verdict_text (map (λ n. n.now) names.now) verdict.now) }
{
    match verdict {
        Verdict::Proved(round) => {
            out.extend_from_slice(b"proved ")?;
            u64::from(*round).print(out)?;
            out.extend_from_slice(b"\n")
        }
        Verdict::Falsified(trace) => {
            out.extend_from_slice(b"falsified ")?;
            (trace.len() as u64).print(out)?;
            out.extend_from_slice(b"\n")?;
            push_trace(out, names, trace.as_slice())
        }
    }
}

/// The place of a byte offset: on from an earlier place where that stands before it.
fn place_after(text: &[u8], from: usize, start: LineColumn, at: usize) -> LineColumn
    requires within { at ≤ length text.now }
    requires start { start ≡ place_of text.now from }
    ensures { result ≡ place_of text.now at }
{
    if from <= at {
        place_from(text, from, start, at)
    } else {
        place(text, at)
    }
}

/// Appends the obligations with their verdicts.
fn push_obligations(
    out: &mut Vec<u8>,
    text: &[u8],
    names: &[&[u8]],
    obligations: &[&Expr],
    verdicts: &[Verdict],
) -> Result<(), AllocError>
    requires { AllByRecursion (λ e. e.at ≤ length text.now) (map (λ e. e.now) obligations.now) }
    ensures { OnOk result (out.new.items ≡ out.old.items
        ++ obligations_text text.now (map (λ n. n.now) names.now) 1 (map (λ e. e.now) obligations.now) verdicts.now) }
{
    let mut from = 0;
    let mut here = place(text, 0);
    let mut number = 0;
    for (obligation, verdict) in obligations.iter().zip(verdicts) {
        let at = obligation.at as usize;
        here = place_after(text, from, here, at);
        from = at;
        number += 1;
        Heading {
            number,
            place: here,
        }
        .print(out)?;
        push_verdict(out, names, verdict)?;
    }
    Ok(())
}

/// Appends how many verdicts are of each kind.
fn push_counts(out: &mut Vec<u8>, verdicts: &[Verdict]) -> Result<(), AllocError>
    ensures { OnOk result (out.new.items ≡ out.old.items ++ counts_text verdicts.now) }
{
    let falsified = verdicts
        .iter()
        .filter(|verdict| is_falsified(verdict))
        .count();
    Totals {
        proved: (verdicts.len() - falsified) as u64,
        falsified: falsified as u64,
        undecided: 0,
    }
    .print(out)
}

/// The report on obligations with their verdicts, as bytes.
pub fn report(
    alloc: Global,
    text: &[u8],
    names: &[&[u8]],
    obligations: &[&Expr],
    verdicts: &[Verdict],
) -> Result<Vec<u8>, AllocError>
    requires within { AllByRecursion (λ e. e.at ≤ length text.now) (map (λ e. e.now) obligations.now) }
    requires same { length obligations.now ≡ length verdicts.now }
    ensures { IfOk result (λ out. out.items
        ≡ obligations_text text.now (map (λ n. n.now) names.now) 1 (map (λ e. e.now) obligations.now) verdicts.now ++ counts_text verdicts.now) }
{
    let mut out = Vec::new(alloc);
    push_obligations(&mut out, text, names, obligations, verdicts)?;
    push_counts(&mut out, verdicts)?;
    Ok(out)
}

#[cfg(test)]
mod tests {
    use super::*;
    use hll_tree::Form;
    use std::test::Fail;

    /// An obligation that stands at this byte.
    fn obligation(at: u64) -> Expr
        ensures { result.at ≡ at }
    {
        Expr {
            at,
            form: Form::Truth(true),
        }
    }

    /// A trace of two instants of two inputs.
    fn trace(alloc: Global) -> Result<Items<Items<bool>>, AllocError> {
        let mut instants = Items::new(alloc);
        instants.push(Items::from_slice(alloc, &[true, false])?)?;
        instants.push(Items::from_slice(alloc, &[false, true])?)?;
        Ok(instants)
    }

    /// Three verdicts, the second of which has a trace.
    fn three_verdicts(alloc: Global) -> Result<Items<Verdict>, AllocError>
        ensures { IfOk result (λ verdicts. length verdicts ≡ 3) }
    {
        let mut verdicts = Items::new(alloc);
        verdicts.push(Verdict::Proved(1))?;
        verdicts.push(Verdict::Falsified(trace(alloc)?))?;
        verdicts.push(Verdict::Proved(12))?;
        Ok(verdicts)
    }

    /// The report on three obligations.
    fn printed(alloc: Global, verdicts: &[Verdict]) -> Result<Vec<u8>, AllocError>
        requires { length verdicts.now ≡ 3 }
    {
        let names: [&[u8]; 2] = [b"p", b"go"];
        let (first, second, third) = (obligation(2), obligation(8), obligation(4));
        let obligations = [&first, &second, &third];
        report(alloc, b"a b\nc\n\nde\n", &names, &obligations, verdicts)
    }

    #[test]
    fn prints_each_obligation(rt: HostRuntime) -> Result<(), Fail> {
        let verdicts = three_verdicts(rt.alloc())?;
        let printed = printed(rt.alloc(), verdicts.as_slice())?;
        assert_eq!(rt;
            printed.as_slice(),
            b"obligation 1 at 1:3: proved 1\n\
              obligation 2 at 4:2: falsified 2\n\
              0: p=true go=false\n\
              1: p=false go=true\n\
              obligation 3 at 2:1: proved 12\n\
              proved 2 falsified 1 undecided 0\n"
                .as_slice()
        );
        assert!(rt; any_falsified(verdicts.as_slice()));
        Ok(())
    }

    #[test]
    fn prints_the_counts_of_no_obligation(rt: HostRuntime) -> Result<(), Fail> {
        let none = report(rt.alloc(), b"", &[], &[], &[])?;
        assert_eq!(rt;
            none.as_slice(),
            b"proved 0 falsified 0 undecided 0\n".as_slice()
        );
        assert!(rt; !any_falsified(&[]));
        Ok(())
    }
}
