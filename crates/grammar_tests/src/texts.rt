//! Texts with their trees, and texts that are refused, with the place.

use hll_grammar::{SyntaxFault, parse};
use hll_lexer::{Mark, Reserved, Token, TokenKind, tokens};
use hll_tree::{
    Cmp, Decl, Def, Domain, Expr, Form, HllModel, Op, Part, Quant, Reach, Section, TypeItem,
    TypeText,
};
use std::alloc::{AllocError, Global};
use std::test::Fail;

// ---- trees in short: a word for each node, with the number of its parts

fn chain_word(op: Op) -> &'static str {
    match op {
        Op::Same => "same",
        Op::Differ => "differ",
        Op::Implies => "implies",
        Op::Or => "or",
        Op::And => "and",
        Op::Plus => "plus",
        Op::Less => "less",
        Op::Times => "times",
        Op::Over => "over",
        Op::Rest => "rest",
    }
}

fn comparison_word(comparison: Cmp) -> &'static str {
    match comparison {
        Cmp::Eq => "equal",
        Cmp::Ne => "unequal",
        Cmp::Lt => "below",
        Cmp::Le => "at most",
        Cmp::Gt => "above",
        Cmp::Ge => "at least",
    }
}

/// An expression in short. A chain has its last operator.
fn expression_head(expr: &Expr) -> (&'static str, usize) {
    match &expr.form {
        Form::Number(_) => ("number", 0),
        Form::Truth(value) => (if *value { "true" } else { "false" }, 0),
        Form::Path(_, reaches) => ("path", reaches.len()),
        Form::Chain(_, links) => match links.as_slice() {
            [.., last] => (chain_word(last.op), links.len()),
            [] => ("none", 0),
        },
        Form::Compare(comparison, _, _) => (comparison_word(*comparison), 2),
        Form::Minus(_) => ("minus", 1),
        Form::Not(_) => ("not", 1),
        Form::Choice(branches, _) => ("if", branches.len()),
        Form::Group(parts) => ("group", parts.len()),
        Form::Quant(Quant::All, _, _, _) => ("all", 1),
        Form::Quant(Quant::Any, _, _, _) => ("some", 1),
        Form::Quant(Quant::Sum, _, _, _) => ("sum", 1),
        Form::Pre(_, first) => ("pre", if first.is_some() { 2 } else { 1 }),
        Form::Least(parts) => ("least", parts.len()),
        Form::Greatest(parts) => ("greatest", parts.len()),
        Form::Size(_) => ("size", 1),
        Form::Starting => ("starting", 0),
        Form::Within(_, _) => ("within", 1),
    }
}

fn index_of(reach: &Reach) -> Option<&Expr> {
    match reach {
        Reach::At(index) => Some(index),
        Reach::Field(_) => None,
    }
}

/// The first expression in another.
fn first_part(expr: &Expr) -> Option<&Expr> {
    match &expr.form {
        Form::Number(_) | Form::Truth(_) | Form::Starting => None,
        Form::Path(_, reaches) => index_of(reaches.get(0)?),
        Form::Chain(inner, _)
        | Form::Compare(_, inner, _)
        | Form::Minus(inner)
        | Form::Not(inner)
        | Form::Pre(inner, _)
        | Form::Size(inner)
        | Form::Within(inner, _)
        | Form::Quant(_, _, Domain::Bounds(inner, _), _)
        | Form::Quant(_, _, Domain::Bool | Domain::Named(_), inner) => Some(inner.get()),
        Form::Choice(branches, _) => Some(&branches.get(0)?.when),
        Form::Group(parts) | Form::Least(parts) | Form::Greatest(parts) => parts.get(0),
    }
}

/// The last expression in another.
fn last_part(expr: &Expr) -> Option<&Expr> {
    match &expr.form {
        Form::Number(_) | Form::Truth(_) | Form::Starting => None,
        Form::Path(_, reaches) => index_of(reaches.as_slice().last()?),
        Form::Chain(_, links) => Some(&links.as_slice().last()?.with),
        Form::Compare(_, _, inner)
        | Form::Minus(inner)
        | Form::Not(inner)
        | Form::Choice(_, inner)
        | Form::Pre(_, Some(inner))
        | Form::Pre(inner, None)
        | Form::Size(inner)
        | Form::Within(inner, _)
        | Form::Quant(_, _, _, inner) => Some(inner.get()),
        Form::Group(parts) | Form::Least(parts) | Form::Greatest(parts) => parts.as_slice().last(),
    }
}

fn type_head(ty: &TypeText) -> &'static str {
    match ty {
        TypeText::Bool => "bool",
        TypeText::Bounds(_, _) => "bounds",
        TypeText::Signed(_) => "signed",
        TypeText::Unsigned(_) => "unsigned",
        TypeText::Named(_) => "named",
    }
}

fn type_item_head(item: &TypeItem) -> (&'static str, usize) {
    match item {
        TypeItem::Alias(ty, declared) => (type_head(ty), declared.dims.len()),
        TypeItem::Enumeration(elements, _) => ("enum", elements.len()),
        TypeItem::Structure(fields, _) => ("struct", fields.len()),
        TypeItem::Leaves(elements, _) => ("leaves", elements.len()),
        TypeItem::Children(joined, _) => ("children", joined.len()),
    }
}

fn definition_head(item: &Def) -> (&'static str, usize) {
    let word = match item.part {
        Part::Value(_) => "value",
        Part::Both(_, _) => "both",
        Part::First(_) => "first",
        Part::Next(_) => "next",
    };
    (word, item.indices.len())
}

fn declaration_head(item: &Decl) -> (&'static str, usize) {
    (type_head(&item.ty), item.names.len())
}

fn push_head(out: &mut String, head: (&str, usize)) -> Result<(), AllocError> {
    write!(out, "{} {}; ", head.0, head.1)
}

/// An item in short, for each item of a section.
fn push_section(out: &mut String, section: &Section) -> Result<(), AllocError> {
    match section {
        Section::Constants(items) => {
            for item in items.as_slice() {
                push_head(out, (if item.boolean { "bool" } else { "int" }, 1))?;
            }
        }
        Section::Types(items) => {
            for item in items.as_slice() {
                push_head(out, type_item_head(item))?;
            }
        }
        Section::Inputs(items) | Section::Declarations(items) => {
            for item in items.as_slice() {
                push_head(out, declaration_head(item))?;
            }
        }
        Section::Definitions(items) => {
            for item in items.as_slice() {
                push_head(out, definition_head(item))?;
            }
        }
        Section::Constraints(items) | Section::Obligations(items) => {
            for item in items.as_slice() {
                push_head(out, expression_head(item))?;
            }
        }
    }
    Ok(())
}

fn section_word(section: &Section) -> &'static str {
    match section {
        Section::Constants(_) => "Constants: ",
        Section::Types(_) => "Types: ",
        Section::Inputs(_) => "Inputs: ",
        Section::Declarations(_) => "Declarations: ",
        Section::Definitions(_) => "Definitions: ",
        Section::Constraints(_) => "Constraints: ",
        Section::Obligations(_) => "Obligations: ",
    }
}

// ---- texts that are read

#[tactic(auto, using(hll_grammar::proofs::TokensWithin::split_within))]
fn read(alloc: Global, text: &str) -> Result<HllModel, Fail> {
    let text = text.as_bytes();
    let tokens = tokens(alloc, text)?;
    Ok(parse(alloc, text, tokens.as_slice())?)
}

/// Texts, each with its sections and their items in short.
const SECTIONS: [(&str, &str); 13] = [
    ("", ""),
    (
        "Constants: bool a := true; int b := 0x10;",
        "Constants: bool 1; int 1; ",
    ),
    (
        "Types: bool a; t b[1]; int [0, 3] c[2, 'd e'];",
        "Types: bool 0; named 1; bounds 2; ",
    ),
    (
        "Types: int signed 8 a; int unsigned n b; int signed (n) c;",
        "Types: signed 0; unsigned 0; signed 0; ",
    ),
    (
        "Types: enum {a, b} c; struct {a: bool, b: t[1]} d;",
        "Types: enum 2; struct 2; ",
    ),
    (
        "Types: sort {a} b; sort b, c < d;",
        "Types: leaves 1; children 2; ",
    ),
    ("Inputs: bool a, b[1]; t c;", "Inputs: bool 2; named 1; "),
    ("Declarations: int [0, 1] a;", "Declarations: bounds 1; "),
    (
        "Definitions: a := 1; a[i, 2] := i; 'I' := 1;",
        "Definitions: value 0; value 2; value 0; ",
    ),
    (
        "Definitions: a := 0, 1; I(a) := 1; X(a[i]) := b;",
        "Definitions: both 0; first 0; next 1; ",
    ),
    (
        "Constraints: true; FALSE; 1; a;",
        "Constraints: true 0; false 0; number 0; path 0; ",
    ),
    (
        "Proof Obligations: a.b; b[1, 2];",
        "Obligations: path 1; path 2; ",
    ),
    (
        "Inputs: Inputs: bool a; Proof Obligations:",
        "Inputs: Inputs: bool 1; Obligations: ",
    ),
];

#[test]
fn reads_sections(rt: HostRuntime) -> Result<(), Fail> {
    for (text, wanted) in &SECTIONS {
        let model = read(rt.alloc(), text)?;
        let mut out = String::new(rt.alloc());
        for section in model.sections.as_slice() {
            out.push_str(section_word(section))?;
            push_section(&mut out, section)?;
        }
        assert_eq!(rt; out.as_str(), *wanted, "in {text:?}");
    }
    Ok(())
}

/// A node with its place.
fn push_node(out: &mut String, expr: Option<&Expr>) -> Result<(), AllocError> {
    let Some(expr) = expr else {
        return Ok(());
    };
    let (word, parts) = expression_head(expr);
    write!(out, "{}: {word} {parts}; ", expr.at)
}

/// Expressions, each with its node, its first part and its last one, and their places. The text begins at byte 12.
const EXPRESSIONS: [(&str, &str); 29] = [
    ("a[1, 2].b['c']", "12: path 4; 14: number 0; 22: path 0; "),
    ("((a))", "14: path 0; "),
    ("- -1", "12: minus 1; 14: minus 1; 14: minus 1; "),
    ("~a & b", "15: and 1; 12: not 1; 17: path 0; "),
    ("a -> b -> c", "14: implies 2; 12: path 0; 22: path 0; "),
    (
        "a <-> b #! c -> d",
        "14: differ 2; 12: path 0; 25: implies 1; ",
    ),
    ("a # b & c", "14: or 1; 12: path 0; 18: and 1; "),
    ("(a # b) & c", "20: and 1; 15: or 1; 22: path 0; "),
    ("a & b < c # d", "22: or 1; 14: and 1; 24: path 0; "),
    (
        "a + b - c * d / e % f",
        "14: less 2; 12: path 0; 22: rest 3; ",
    ),
    ("a #! b <-> c", "14: same 2; 12: path 0; 23: path 0; "),
    ("a - b + c", "14: plus 2; 12: path 0; 20: path 0; "),
    ("a % b * c", "14: times 2; 12: path 0; 20: path 0; "),
    ("a * b / c", "14: over 2; 12: path 0; 20: path 0; "),
    (
        "a * b + c <= 1",
        "22: at most 2; 18: plus 1; 25: number 0; ",
    ),
    ("a = 1", "14: equal 2; 12: path 0; 16: number 0; "),
    ("a != 1", "14: unequal 2; 12: path 0; 17: number 0; "),
    ("a > 1 & a >= 1", "18: and 1; 14: above 2; 22: at least 2; "),
    ("if a then b else c", "12: if 1; 15: path 0; 29: path 0; "),
    (
        "if a then b elif c -> d then e else if f then g else h",
        "12: if 2; 15: path 0; 48: if 1; ",
    ),
    ("{1, {a}, b}", "12: group 3; 13: number 0; 21: path 0; "),
    (
        "ALL i:[0, 3] (a[i])",
        "12: all 1; 19: number 0; 26: path 1; ",
    ),
    (
        "SOME i:bool, j:t (i)",
        "12: some 1; 25: some 1; 25: some 1; ",
    ),
    ("SUM i:t (1) + 2", "24: plus 1; 12: sum 1; 26: number 0; "),
    ("pre(a)", "12: pre 1; 16: path 0; 16: path 0; "),
    ("pre(a, 0)", "12: pre 2; 16: path 0; 19: number 0; "),
    ("$min(1, 2, 3)", "12: least 3; 17: number 0; 23: number 0; "),
    ("$max(1, a)", "12: greatest 2; 17: number 0; 20: path 0; "),
    ("$abs(-1)", "12: size 1; 17: minus 1; 17: minus 1; "),
];

/// The node of the first constraint, its first part and its last one.
fn nodes_of(alloc: Global, text: &str) -> Result<String, Fail> {
    let whole = format!(in alloc; "Constraints:{text};")?;
    let model = read(alloc, whole.as_str())?;
    let mut out = String::new(alloc);
    if let [Section::Constraints(items)] = model.sections.as_slice()
        && let [expr] = items.as_slice()
    {
        push_node(&mut out, Some(expr))?;
        push_node(&mut out, first_part(expr))?;
        push_node(&mut out, last_part(expr))?;
    }
    Ok(out)
}

#[test]
fn reads_expressions(rt: HostRuntime) -> Result<(), Fail> {
    for (text, wanted) in &EXPRESSIONS {
        let found = nodes_of(rt.alloc(), text)?;
        assert_eq!(rt; found.as_str(), *wanted, "in {text:?}");
    }
    Ok(())
}

// ---- texts that are refused

#[tactic(auto, using(hll_grammar::proofs::TokensWithin::split_within))]
fn fault_of(alloc: Global, text: &str) -> Result<Option<SyntaxFault>, Fail> {
    let text = text.as_bytes();
    let tokens = tokens(alloc, text)?;
    Ok(parse(alloc, text, tokens.as_slice()).err())
}

/// Texts that are refused, each with the place of what may not stand there.
const REFUSED: [(&str, usize); 33] = [
    ("Inputs: bool a b;", 15),
    ("Proof Obligations: a < b < c;", 25),
    ("Constraints: ;", 13),
    ("Proof Constraints: a;", 6),
    ("Constants: int N := 0x;", 21),
    ("Constraints: a", 14),
    ("Constraints: a + // nothing", 27),
    ("bool a;", 0),
    ("Inputs", 6),
    ("Inputs bool a;", 7),
    ("Inputs: bool a,;", 15),
    ("Inputs: bool;", 12),
    ("Inputs: a;", 9),
    ("Inputs: bool a[];", 15),
    ("Constants: a := 1;", 11),
    ("Constants: bool a = 1;", 18),
    ("Types: int a;", 11),
    ("Types: int signed a b c;", 22),
    ("Types: enum {} a;", 13),
    ("Types: sort a;", 13),
    ("Types: struct {a} b;", 16),
    ("Definitions: a[i] b;", 18),
    ("Definitions: I a := 1;", 15),
    ("Definitions: I(a) := 1, 2;", 22),
    ("Definitions: a := 1, 2, 3;", 22),
    ("Constraints: if a then b;", 24),
    ("Constraints: if a elif b then c else d;", 18),
    ("Constraints: a + if b then c else d;", 17),
    ("Constraints: $min(a);", 19),
    ("Constraints: pre a;", 17),
    ("Constraints: ALL i (a);", 19),
    ("Constraints: a -> ~;", 19),
    ("Constraints: a.1;", 15),
];

#[test]
fn refuses_at_the_first_fault(rt: HostRuntime) -> Result<(), Fail> {
    for (text, at) in &REFUSED {
        let wanted = Some(SyntaxFault::Unexpected { at: *at });
        assert_eq!(rt; fault_of(rt.alloc(), text)?, wanted, "in {text:?}");
    }
    Ok(())
}

/// A text with each form of section.
const RICH: &str = "Constants: bool A := true; int N := 3; Types: enum {x, 'y z'} E; \
struct {f: bool, g: E[N, 2]} S; sort {s} L; sort L, M < P; int signed (N + 1) Q; S R[2]; \
Inputs: int [0, N] i, j[2]; bool b; Declarations: int unsigned N m; E e; \
Definitions: m := 0, m + 1; e[k, 2] := {x, {pre(e, x)}}; I(m) := 1; X(m[0]) := -1; \
Constraints: ALL k:[0, 3], l:bool (j[k, 1].f < N) & ~b; SOME k:E (k = x) #! b; \
Proof Obligations: if b then i elif $max(i, m, 2) > 1 then SUM k:E (1) else $abs(i) % 2;";

/// Whether a text may end behind these tokens: behind an item, or behind the words that begin a section.
fn may_end(tokens: &[Token]) -> bool {
    match tokens {
        [.., before, last] => match (before.kind, last.kind) {
            (_, TokenKind::Mark(Mark::Semicolon)) => true,
            (TokenKind::Reserved(word), TokenKind::Mark(Mark::Colon)) => {
                !matches!(word, Reserved::Bool)
            }
            _ => false,
        },
        _ => false,
    }
}

#[test]
fn a_text_that_is_cut_is_refused_at_its_end(rt: HostRuntime) -> Result<(), Fail> {
    let all = tokens(rt.alloc(), RICH.as_bytes())?;
    for (number, token) in all.iter().enumerate() {
        let front = RICH.get(..token.to).ok_or("no front")?;
        let behind = all.get(..number + 1).ok_or("no tokens")?;
        let wanted = if may_end(behind) {
            None
        } else {
            Some(SyntaxFault::Unexpected { at: front.len() })
        };
        assert_eq!(rt; fault_of(rt.alloc(), front)?, wanted, "in {front:?}");
    }
    Ok(())
}

// ---- levels

/// A construct that opens levels: what stands before its inner expression and behind it, and how often it is nested.
type Tower = (&'static str, &'static str, usize);

/// Constructs in an expression, each as often as it opens 200 levels, with the place of its first opening token.
const TOWERS: [(Tower, usize); 18] = [
    (("(", ")", 200), 0),
    (("~", "", 200), 0),
    (("- ", "", 200), 0),
    (("{", "}", 200), 0),
    (("a[", "]", 200), 1),
    (("pre(", ")", 200), 3),
    (("pre(a, ", ")", 200), 3),
    (("$min(a, ", ")", 200), 4),
    (("$max(", ", a)", 200), 4),
    (("$abs(", ")", 200), 4),
    (("if ", " then a else a", 200), 0),
    (("if a then ", " else a", 200), 0),
    (("if a then a elif a then a else ", "", 200), 0),
    (("ALL i:t (", ")", 200), 4),
    (("SUM i:t (a) + (", ")", 200), 4),
    (("SUM i:bool, j:t (", ")", 100), 4),
    (("SOME i:[", ", 2] (a)", 100), 5),
    (
        (
            "~-{a[pre($abs($max(if ALL i:t ((",
            ")) then a else a, a)))]}",
            20,
        ),
        0,
    ),
];

/// What stands before and behind an expression, and how many levels may be opened in it.
const AROUND: [Tower; 7] = [
    ("Constants: int a := ", ";", 200),
    ("Types: int signed (", ") b;", 199),
    ("Types: int [1, ", "] b;", 199),
    ("Inputs: bool a[", "];", 199),
    ("Definitions: a[1] := ", ";", 200),
    ("Proof Obligations: ((~a)) = b[1] & ", ";", 200),
    ("Constraints: if a then b else c[1, ", "];", 198),
];

fn push_times(text: &mut String, piece: &str, times: usize) -> Result<(), AllocError> {
    for _ in 0..times {
        text.push_str(piece)?;
    }
    Ok(())
}

/// The fault of a text with an expression in nested constructs, and the place of the expression.
fn fault_in(
    alloc: Global,
    around: (&str, &str),
    tower: Tower,
    inner: &str,
) -> Result<(Option<SyntaxFault>, usize), Fail> {
    let (opening, closing, times) = tower;
    let mut text = String::from_str(alloc, around.0)?;
    push_times(&mut text, opening, times)?;
    let place = text.len();
    text.push_str(inner)?;
    push_times(&mut text, closing, times)?;
    text.push_str(around.1)?;
    Ok((fault_of(alloc, text.as_str())?, place))
}

#[test]
fn opens_200_levels_and_no_more(rt: HostRuntime) -> Result<(), Fail> {
    let around = ("Constraints: ", ";");
    for (tower, at) in &TOWERS {
        let (fault, _) = fault_in(rt.alloc(), around, *tower, "a")?;
        assert_eq!(rt; fault, None, "in {:?}", tower.0);
        let (fault, place) = fault_in(rt.alloc(), around, *tower, "(a)")?;
        assert_eq!(rt;
            fault,
            Some(SyntaxFault::Deep { at: place }),
            "in {:?}",
            tower.0
        );
        let (fault, place) = fault_in(rt.alloc(), around, ("(", ")", 200), tower.0)?;
        let at = place.saturating_add(*at);
        assert_eq!(rt; fault, Some(SyntaxFault::Deep { at }), "at {:?}", tower.0);
    }
    for (before, behind, levels) in &AROUND {
        let (fault, _) = fault_in(rt.alloc(), (before, behind), ("(", ")", *levels), "a")?;
        assert_eq!(rt; fault, None, "in {before:?}");
        let (fault, place) = fault_in(rt.alloc(), (before, behind), ("(", ")", *levels), "(a)")?;
        assert_eq!(rt;
            fault,
            Some(SyntaxFault::Deep { at: place }),
            "in {before:?}"
        );
    }
    Ok(())
}

#[test]
fn the_first_of_two_faults_is_answered(rt: HostRuntime) -> Result<(), Fail> {
    let before = ("Proof Obligations: a a; ", "");
    let (fault, _) = fault_in(rt.alloc(), before, ("~", "", 201), "")?;
    assert_eq!(rt; fault, Some(SyntaxFault::Unexpected { at: 21 }));
    let (fault, _) = fault_in(
        rt.alloc(),
        ("Proof Obligations: ", ""),
        ("(", "", 201),
        "a a",
    )?;
    assert_eq!(rt; fault, Some(SyntaxFault::Deep { at: 219 }));
    Ok(())
}
