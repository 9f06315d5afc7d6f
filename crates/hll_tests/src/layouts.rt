//! The one layout of texts.

use crate::memory::answer;
use std::test::Fail;

/// A text and its layout.
struct Layout {
    text: &'static [u8],
    printed: &'static [u8],
}

const LAYOUTS: [Layout; 12] = [
    Layout {
        text: b"Inputs:bool a,b;Proof Obligations:(a&b)->a;",
        printed: b"Inputs:\n  bool a, b;\nProof Obligations:\n  a & b -> a;\n",
    },
    Layout {
        text: b"",
        printed: b"",
    },
    // Every section, and what stands in it.
    Layout {
        text: b"Constants: int N := 0x10; bool 'on' := TRUE; Types: int[0,N-1] Route; enum{stop,go}Aspect; struct{lit:Aspect,age:int[0,3][2]}Lamp; sort{s1,s2}Main; sort Main,Yard<Signal;",
        printed: b"Constants:\n  int N := 16;\n  bool on := true;\nTypes:\n  int [0, N - 1] Route;\n  enum {stop, go} Aspect;\n  struct {lit: Aspect, age: int [0, 3][2]} Lamp;\n  sort {s1, s2} Main;\n  sort Main, Yard < Signal;\n",
    },
    Layout {
        text: b"Inputs: int signed 8 a; int unsigned(N+1)b; int unsigned(M)c; Declarations: bool d[2,3],e; Definitions: I(x):=0; X(x):=x+1; d[i,0]:=true,false; Constraints: e; Proof Obligations:",
        printed: b"Inputs:\n  int signed 8 a;\n  int unsigned (N + 1) b;\n  int unsigned M c;\nDeclarations:\n  bool d[2, 3], e;\nDefinitions:\n  I(x) := 0;\n  X(x) := x + 1;\n  d[i, 0] := true, false;\nConstraints:\n  e;\nProof Obligations:\n",
    },
    // Parentheses that must stay, and such that go.
    Layout {
        text: b"Proof Obligations: (a->b)->c; a->(b->c); (a#b)&c; a#(b&c); ((a+b))*c; a-(b-c); (a-b)-c; a+(b*c); (a<b)=c; ~(~a); -(-(a)); (-a)*(b%c); (if a then b else c)&d; if(a)then(b)else(c);",
        printed: b"Proof Obligations:\n  (a -> b) -> c;\n  a -> (b -> c);\n  (a # b) & c;\n  a # b & c;\n  (a + b) * c;\n  a - (b - c);\n  (a - b) - c;\n  a + b * c;\n  (a < b) = c;\n  ~~a;\n  --a;\n  -a * (b % c);\n  (if a then b else c) & d;\n  if a then b else c;\n",
    },
    // Every other form.
    Layout {
        text: b"Proof Obligations: ALL i:[0,2],j:bool(a[i][j].f=b[i,j]); SOME s:Sort(s==x); SUM k:T((if k!=0 then 1 elif k>1 then 2 else 3))>=$abs(-5); pre(a); pre(a,true)<->$min(1,2,3)<>$max(4,5); {a,{b,c}}#!d;",
        printed: b"Proof Obligations:\n  ALL i : [0, 2] (ALL j : bool (a[i, j].f = b[i, j]));\n  SOME s : Sort (s = x);\n  SUM k : T (if k <> 0 then 1 elif k > 1 then 2 else 3) >= $abs(-5);\n  pre(a);\n  pre(a, true) <-> $min(1, 2, 3) <> $max(4, 5);\n  {a, {b, c}} #! d;\n",
    },
    // Names that need quotes, and such that don't.
    Layout {
        text: b"Inputs: bool 'a', 'a b', 'if', 'X', '1', '_', 'A\\\"';",
        printed: b"Inputs:\n  bool a, 'a b', 'if', 'X', '1', _, 'A\\\"';\n",
    },
    // Signals with lamps, over a sort and two enumerations.
    Layout {
        text: b"Types:\n  enum {stop, go} Aspect;\n  sort {s1, s2} Main; sort {y1} Yard; sort Main, Yard < Signal;\n  struct {lit: Aspect, age: int [0, 3]} Lamp;\nInputs:\n  bool occ[3];\nDeclarations:\n  Aspect shown[3];\n  Lamp lamp;\nDefinitions:\n  shown[i] := stop, if occ[i] then stop else go;\n  lamp := {stop, 0}, {if occ[0] then stop else go, if lamp.age < 3 then lamp.age + 1 else 3};\nProof Obligations:\n  ALL i : [0, 2] (pre(occ[i], true) -> shown[i] = stop);\n  lamp.lit = shown[0];\n  SUM s : Signal (if s = y1 then 1 else 0) = 1;\n",
        printed: b"Types:\n  enum {stop, go} Aspect;\n  sort {s1, s2} Main;\n  sort {y1} Yard;\n  sort Main, Yard < Signal;\n  struct {lit: Aspect, age: int [0, 3]} Lamp;\nInputs:\n  bool occ[3];\nDeclarations:\n  Aspect shown[3];\n  Lamp lamp;\nDefinitions:\n  shown[i] := stop, if occ[i] then stop else go;\n  lamp := {stop, 0}, {if occ[0] then stop else go, if lamp.age < 3 then lamp.age + 1 else 3};\nProof Obligations:\n  ALL i : [0, 2] (pre(occ[i], true) -> shown[i] = stop);\n  lamp.lit = shown[0];\n  SUM s : Signal (if s = y1 then 1 else 0) = 1;\n",
    },
    // A counter, and a copy of an input along an array.
    Layout {
        text: b"Declarations: int [0, 9] x; Definitions: I(x) := 0; X(x) := if x = 3 then 0 else x + 1; Proof Obligations: x <= 3;",
        printed: b"Declarations:\n  int [0, 9] x;\nDefinitions:\n  I(x) := 0;\n  X(x) := if x = 3 then 0 else x + 1;\nProof Obligations:\n  x <= 3;\n",
    },
    Layout {
        text: b"Inputs: bool b; Declarations: bool a[4]; Definitions: a[i] := if i = 0 then b else a[i - 1]; Proof Obligations: a[3] <-> b;",
        printed: b"Inputs:\n  bool b;\nDeclarations:\n  bool a[4];\nDefinitions:\n  a[i] := if i = 0 then b else a[i - 1];\nProof Obligations:\n  a[3] <-> b;\n",
    },
    // Comments and blanks.
    Layout {
        text: b"// one\nInputs: /* two ; */ bool\ta\r\n;/**/",
        printed: b"Inputs:\n  bool a;\n",
    },
    // Several sections of one kind stay apart.
    Layout {
        text: b"Inputs: bool a; Inputs: Inputs: bool b;",
        printed: b"Inputs:\n  bool a;\nInputs:\nInputs:\n  bool b;\n",
    },
];

#[test]
fn texts_have_one_layout_which_is_its_own(rt: HostRuntime) -> Result<(), Fail> {
    for layout in &LAYOUTS {
        for text in [layout.text, layout.printed] {
            let (status, out) = answer(&rt, rt.alloc(), "format m", text)?;
            assert_eq!(rt; out.bytes(), layout.printed);
            assert_eq!(rt; status, 0);
        }
    }
    Ok(())
}

/// The operators between two operands.
const OPERATORS: [&str; 16] = [
    "<->", "#!", "->", "#", "&", "=", "<>", "<", "<=", ">", ">=", "+", "-", "*", "/", "%",
];

/// For each of them whether the parentheses around one of its operands stay, by the operator in these.
const STAY: [&[u8; 16]; 16] = [
    b"((..............",
    b"((..............",
    b"(((.............",
    b"((((............",
    b"(((((...........",
    b"(((((((((((.....",
    b"(((((((((((.....",
    b"(((((((((((.....",
    b"(((((((((((.....",
    b"(((((((((((.....",
    b"(((((((((((.....",
    b"(((((((((((((...",
    b"(((((((((((((...",
    b"((((((((((((((((",
    b"((((((((((((((((",
    b"((((((((((((((((",
];

#[test]
fn parentheses_stay_only_where_they_are_needed(rt: HostRuntime) -> Result<(), Fail> {
    let mut text = String::from_str(rt.alloc(), "Proof Obligations:\n")?;
    let mut printed = String::from_str(rt.alloc(), "Proof Obligations:\n")?;
    for (outer, row) in OPERATORS.iter().zip(STAY.iter()) {
        for (inner, stays) in OPERATORS.iter().zip(row.iter()) {
            write!(
                text,
                "  (a {inner} b) {outer} c;\n  a {outer} (b {inner} c);\n"
            )?;
            if *stays == b'(' {
                write!(
                    printed,
                    "  (a {inner} b) {outer} c;\n  a {outer} (b {inner} c);\n"
                )?;
            } else {
                write!(
                    printed,
                    "  a {inner} b {outer} c;\n  a {outer} b {inner} c;\n"
                )?;
            }
        }
    }
    for text in [&text, &printed] {
        let (status, out) = answer(&rt, rt.alloc(), "format m", text.as_bytes())?;
        assert_eq!(rt; out.bytes(), printed.as_bytes());
        assert_eq!(rt; status, 0);
    }
    Ok(())
}
