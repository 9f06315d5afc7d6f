//! Texts, each with its first static fault, if it has one: the kind, and the byte at which it stands.

use crate::models::model_of;
use hll_meaning::StaticKind;
use hll_types::{StaticFault, check};
use std::alloc::Global;
use std::test::Fail;

/// Worked out by hand.
const TEXTS: &[(&[u8], Option<(StaticKind, u64)>)] = &[
    (b"Inputs: bool a, a;", Some((StaticKind::Twice, 16))),
    (b"Types: int [3, 2] T;", Some((StaticKind::Range, 12))),
    (
        b"Declarations: bool x; Definitions: X(x) := x;",
        Some((StaticKind::FirstMissing, 35)),
    ),
    (
        b"Inputs: bool a; Proof Obligations: pre(a);",
        Some((StaticKind::FirstMissing, 35)),
    ),
    (
        b"Inputs: int unsigned 64 u; Proof Obligations: u + 1 > u;",
        Some((StaticKind::Wide, 48)),
    ),
    (
        b"Inputs: int unsigned 64 u; Proof Obligations: $min(u, 5) <= 5;",
        None,
    ),
    (
        b"Constants: int N := 3; int M := N * 2 + 1; Inputs: bool a[M]; Proof Obligations: a[N] -> a[M - 1];",
        None,
    ),
    (
        b"Constants: int N := x; Inputs: bool x;",
        Some((StaticKind::Constant, 20)),
    ),
    (b"Constants: int N := N;", Some((StaticKind::Unknown, 20))),
    (b"Constants: int N := 7 / 0;", Some((StaticKind::Range, 22))),
    (
        b"Types: sort {a, b} S; sort {c} T; sort S, T < U; sort S < V;",
        Some((StaticKind::Twice, 54)),
    ),
    (
        b"Types: sort {a, b} S; sort {c} T; sort S, T < U; Inputs: S s; T t; Proof Obligations: s <> t;",
        None,
    ),
    (
        b"Types: enum {stop, go} Aspect; struct {lit: Aspect, age: int [0, 3]} Lamp; Inputs: bool occ[3]; Declarations: Aspect shown[3]; Lamp lamp; Definitions: shown[i] := stop, if occ[i] then stop else go; lamp := {stop, 0}, {if occ[0] then stop else go, if lamp.age < 3 then lamp.age + 1 else 3}; Proof Obligations: lamp.age <= 3;",
        None,
    ),
    (
        b"Declarations: bool x[2]; Definitions: x[i, j] := true;",
        Some((StaticKind::Shape, 43)),
    ),
    (
        b"Declarations: bool x[2]; Definitions: x := {true};",
        Some((StaticKind::Shape, 43)),
    ),
    (
        b"Declarations: bool x[2]; Definitions: x := {true, 1};",
        Some((StaticKind::Mismatch, 50)),
    ),
    (b"Declarations: bool x;", Some((StaticKind::Undefined, 19))),
    (
        b"Declarations: bool x; Definitions: x := true; x := false;",
        Some((StaticKind::Twice, 46)),
    ),
    (
        b"Inputs: bool a[100000]; bool b;",
        Some((StaticKind::Cells, 29)),
    ),
    (
        b"Inputs: int [0, 3] d; Proof Obligations: ALL i : [0, d] (i = i);",
        Some((StaticKind::Constant, 53)),
    ),
    (
        b"Inputs: int [0, 3] d; Proof Obligations: SUM i : [0, 2] (d) < 10;",
        None,
    ),
    (
        b"Inputs: bool a; Proof Obligations: a.x;",
        Some((StaticKind::Mismatch, 35)),
    ),
    (
        b"Inputs: bool a; Proof Obligations: if a then 1 else a;",
        Some((StaticKind::Mismatch, 52)),
    ),
    (
        b"Constants: int N := M; int M := 1;",
        Some((StaticKind::Unknown, 20)),
    ),
    (b"Inputs: T x;", Some((StaticKind::Unknown, 8))),
    (
        b"Inputs: bool a; Proof Obligations: b;",
        Some((StaticKind::Unknown, 35)),
    ),
    (
        b"Inputs: bool a; Definitions: x := a;",
        Some((StaticKind::Unknown, 29)),
    ),
    (
        b"Types: struct {f: bool} S; Inputs: S s; Proof Obligations: s.g;",
        Some((StaticKind::Unknown, 61)),
    ),
    (b"Types: sort A < B;", Some((StaticKind::Unknown, 12))),
    (
        b"Proof Obligations: ALL i : T (true);",
        Some((StaticKind::Unknown, 27)),
    ),
    (b"Types: struct {f: S} S;", Some((StaticKind::Unknown, 18))),
    (
        b"Inputs: bool a; Declarations: int [0, 1] a;",
        Some((StaticKind::Twice, 41)),
    ),
    (b"Types: enum {x, x} T;", Some((StaticKind::Twice, 16))),
    (b"Types: enum {x, T} T;", Some((StaticKind::Twice, 19))),
    (
        b"Types: struct {f: bool, f: bool} S;",
        Some((StaticKind::Twice, 24)),
    ),
    (
        b"Constants: bool a := true; Types: enum {a} T;",
        Some((StaticKind::Twice, 40)),
    ),
    (
        b"Declarations: bool x[2, 2]; Definitions: x[i, i] := true;",
        Some((StaticKind::Twice, 46)),
    ),
    (
        b"Declarations: bool x; Definitions: I(x) := true; x := true;",
        Some((StaticKind::Twice, 49)),
    ),
    (
        b"Declarations: bool x; Definitions: X(x) := x; X(x) := x;",
        Some((StaticKind::Twice, 48)),
    ),
    (
        b"Declarations: bool x; Definitions: x := true, x; I(x) := x;",
        Some((StaticKind::Twice, 51)),
    ),
    (
        b"Types: sort {a} A; sort A, A < B;",
        Some((StaticKind::Twice, 27)),
    ),
    (
        b"Types: bool T; Proof Obligations: T;",
        Some((StaticKind::Kind, 34)),
    ),
    (b"Inputs: bool a; a b;", Some((StaticKind::Kind, 16))),
    (
        b"Inputs: bool a; Definitions: a := true;",
        Some((StaticKind::Kind, 29)),
    ),
    (
        b"Constants: bool C := true; Definitions: C := true;",
        Some((StaticKind::Kind, 40)),
    ),
    (
        b"Types: enum {a} E; sort E < T;",
        Some((StaticKind::Kind, 24)),
    ),
    (
        b"Types: sort {a} A; A B; sort B < T;",
        Some((StaticKind::Kind, 29)),
    ),
    (
        b"Types: bool T[2]; Proof Obligations: ALL i : T (true);",
        Some((StaticKind::Kind, 45)),
    ),
    (
        b"Inputs: bool a; Proof Obligations: ALL i : a (true);",
        Some((StaticKind::Kind, 43)),
    ),
    (
        b"Declarations: bool x[2]; Definitions: x[0] := true;",
        Some((StaticKind::Kind, 40)),
    ),
    (
        b"Types: int [0, 3] T; Proof Obligations: ALL T : [0, 1], j : T (true);",
        Some((StaticKind::Kind, 60)),
    ),
    (b"Proof Obligations: 1;", Some((StaticKind::Mismatch, 19))),
    (b"Constraints: 1 + 2;", Some((StaticKind::Mismatch, 15))),
    (
        b"Inputs: bool a; Proof Obligations: a & 1;",
        Some((StaticKind::Mismatch, 39)),
    ),
    (
        b"Inputs: bool a; Proof Obligations: a + 1 = 2;",
        Some((StaticKind::Mismatch, 35)),
    ),
    (
        b"Inputs: bool a; Proof Obligations: 1 = a;",
        Some((StaticKind::Mismatch, 39)),
    ),
    (
        b"Inputs: bool a; Proof Obligations: a = 1;",
        Some((StaticKind::Mismatch, 39)),
    ),
    (
        b"Inputs: bool a; Proof Obligations: a < 1;",
        Some((StaticKind::Mismatch, 35)),
    ),
    (
        b"Types: enum {p} P; enum {q} Q; Proof Obligations: p = q;",
        Some((StaticKind::Mismatch, 54)),
    ),
    (
        b"Inputs: bool a[2]; Proof Obligations: a;",
        Some((StaticKind::Mismatch, 38)),
    ),
    (
        b"Inputs: bool a[2]; Proof Obligations: a[true];",
        Some((StaticKind::Mismatch, 40)),
    ),
    (
        b"Inputs: bool a[2]; Proof Obligations: a[0][1];",
        Some((StaticKind::Mismatch, 38)),
    ),
    (
        b"Types: struct {f: bool} S; Inputs: S s; Proof Obligations: s[0];",
        Some((StaticKind::Mismatch, 59)),
    ),
    (
        b"Inputs: bool a[2]; Proof Obligations: a.f;",
        Some((StaticKind::Mismatch, 38)),
    ),
    (b"Inputs: bool a[true];", Some((StaticKind::Mismatch, 15))),
    (
        b"Inputs: int [true, 3] a;",
        Some((StaticKind::Mismatch, 13)),
    ),
    (
        b"Inputs: int [0, true] a;",
        Some((StaticKind::Mismatch, 16)),
    ),
    (
        b"Inputs: int signed (true) a;",
        Some((StaticKind::Mismatch, 20)),
    ),
    (
        b"Constants: int N := true;",
        Some((StaticKind::Mismatch, 20)),
    ),
    (b"Constants: bool N := 1;", Some((StaticKind::Mismatch, 21))),
    (
        b"Proof Obligations: if 1 then true else false;",
        Some((StaticKind::Mismatch, 22)),
    ),
    (
        b"Proof Obligations: (if true then 1 else false) = 1;",
        Some((StaticKind::Mismatch, 40)),
    ),
    (
        b"Proof Obligations: pre(1, true);",
        Some((StaticKind::Mismatch, 26)),
    ),
    (
        b"Inputs: bool a[2]; Proof Obligations: pre(a, true);",
        Some((StaticKind::Mismatch, 42)),
    ),
    (
        b"Inputs: bool a[2]; Proof Obligations: pre(a);",
        Some((StaticKind::Mismatch, 42)),
    ),
    (
        b"Proof Obligations: ALL i : bool (1);",
        Some((StaticKind::Mismatch, 33)),
    ),
    (
        b"Proof Obligations: (SUM i : bool (true)) = 1;",
        Some((StaticKind::Mismatch, 34)),
    ),
    (
        b"Proof Obligations: $min(1, true) = 1;",
        Some((StaticKind::Mismatch, 27)),
    ),
    (
        b"Proof Obligations: $abs(true) = 1;",
        Some((StaticKind::Mismatch, 24)),
    ),
    (b"Proof Obligations: ~1;", Some((StaticKind::Mismatch, 20))),
    (
        b"Proof Obligations: -true = 1;",
        Some((StaticKind::Mismatch, 20)),
    ),
    (
        b"Proof Obligations: {true};",
        Some((StaticKind::Mismatch, 19)),
    ),
    (
        b"Declarations: bool x; Definitions: x := 1;",
        Some((StaticKind::Mismatch, 40)),
    ),
    (
        b"Declarations: bool x; Definitions: x := {true};",
        Some((StaticKind::Mismatch, 40)),
    ),
    (
        b"Declarations: bool x[2]; Definitions: x := true;",
        Some((StaticKind::Mismatch, 43)),
    ),
    (
        b"Inputs: bool a[3]; Declarations: bool x[2]; Definitions: x := a;",
        Some((StaticKind::Mismatch, 62)),
    ),
    (
        b"Types: struct {f: bool} S; struct {f: bool} R; Inputs: S s; Declarations: R r; Definitions: r := s;",
        Some((StaticKind::Mismatch, 97)),
    ),
    (
        b"Declarations: bool x[2]; Definitions: x := {true, 1};",
        Some((StaticKind::Mismatch, 50)),
    ),
    (
        b"Inputs: bool c; Declarations: int [0, 1] x[2]; Definitions: x := if c then {1, 0} else {1, true};",
        Some((StaticKind::Mismatch, 87)),
    ),
    (b"Inputs: int [3, 2] a;", Some((StaticKind::Range, 13))),
    (b"Inputs: bool a[0];", Some((StaticKind::Range, 15))),
    (b"Inputs: bool a[-1];", Some((StaticKind::Range, 15))),
    (b"Inputs: int signed 0 a;", Some((StaticKind::Range, 19))),
    (b"Inputs: int unsigned 65 a;", Some((StaticKind::Range, 21))),
    (b"Constants: int N := 1 / 0;", Some((StaticKind::Range, 22))),
    (b"Constants: int N := 1 % 0;", Some((StaticKind::Range, 22))),
    (
        b"Constants: int N := if true then 1 else 1 / 0;",
        Some((StaticKind::Range, 42)),
    ),
    (
        b"Proof Obligations: ALL i : [2, 1] (true);",
        Some((StaticKind::Range, 28)),
    ),
    (b"Inputs: int [0, 1] d; Proof Obligations: 1 / 0 = d;", None),
    (
        b"Types: enum {red} E; Constants: int N := red;",
        Some((StaticKind::Constant, 41)),
    ),
    (
        b"Constants: int N := {1};",
        Some((StaticKind::Constant, 20)),
    ),
    (
        b"Constants: int N := SUM i : [0, 1] (1);",
        Some((StaticKind::Constant, 20)),
    ),
    (
        b"Constants: int N := SUM i : [0, 1] (i);",
        Some((StaticKind::Constant, 36)),
    ),
    (
        b"Constants: bool N := pre(true, false);",
        Some((StaticKind::Constant, 21)),
    ),
    (
        b"Inputs: bool a; bool b[a];",
        Some((StaticKind::Constant, 23)),
    ),
    (
        b"Inputs: bool a[2]; Constants: bool C := a[0];",
        Some((StaticKind::Constant, 40)),
    ),
    (
        b"Inputs: bool a[2]; Constants: bool C := a[true];",
        Some((StaticKind::Mismatch, 42)),
    ),
    (
        b"Constants: bool C := a[true]; Inputs: bool a[2];",
        Some((StaticKind::Constant, 21)),
    ),
    (
        b"Constants: bool C := a[b]; Inputs: bool a[2];",
        Some((StaticKind::Unknown, 23)),
    ),
    (b"Inputs: bool x[x];", Some((StaticKind::Constant, 15))),
    (
        b"Declarations: int [0, 1] x, y[x[0]];",
        Some((StaticKind::Constant, 30)),
    ),
    (
        b"Constants: int N := 18446744073709551616;",
        Some((StaticKind::Wide, 20)),
    ),
    (
        b"Constants: int N := 18446744073709551615 + 1;",
        Some((StaticKind::Wide, 41)),
    ),
    (
        b"Inputs: int unsigned 64 u; Proof Obligations: -u = 0;",
        Some((StaticKind::Wide, 46)),
    ),
    (
        b"Inputs: int [-1, 18446744073709551615] a;",
        Some((StaticKind::Wide, 13)),
    ),
    (
        b"Inputs: int unsigned 64 u; int signed 64 s; bool c; Proof Obligations: (if c then u else s) = 0;",
        Some((StaticKind::Wide, 72)),
    ),
    (
        b"Inputs: int unsigned 64 u; int signed 64 s; Proof Obligations: pre(u, s) = 0;",
        Some((StaticKind::Wide, 63)),
    ),
    (
        b"Inputs: int unsigned 64 u; Proof Obligations: (SUM i : bool (u)) = 0;",
        Some((StaticKind::Wide, 47)),
    ),
    (
        b"Inputs: int unsigned 64 u; Proof Obligations: u - 1 - 1 = 0;",
        Some((StaticKind::Wide, 48)),
    ),
    (
        b"Inputs: int unsigned 63 u; Proof Obligations: u + u + u = 0;",
        Some((StaticKind::Wide, 52)),
    ),
    (
        b"Declarations: bool x; Definitions: x[i] := true;",
        Some((StaticKind::Shape, 37)),
    ),
    (
        b"Declarations: bool x[2]; Definitions: x := {true, true, true};",
        Some((StaticKind::Shape, 43)),
    ),
    (
        b"Inputs: bool c; Declarations: bool x[2]; Definitions: x := if c then {true} else {true, false};",
        Some((StaticKind::Shape, 59)),
    ),
    (b"Types: bool T[100001];", Some((StaticKind::Cells, 12))),
    (
        b"Types: bool T[400]; Inputs: T a[400];",
        Some((StaticKind::Cells, 30)),
    ),
    (
        b"Types: struct {f: bool[100000], g: bool} S;",
        Some((StaticKind::Cells, 41)),
    ),
    (
        b"Types: struct {f: bool[100001]} S;",
        Some((StaticKind::Cells, 32)),
    ),
    (
        b"Inputs: bool a[60000], b[60000];",
        Some((StaticKind::Cells, 23)),
    ),
    (
        b"Declarations: bool x; Definitions: I(x) := true;",
        Some((StaticKind::Undefined, 19)),
    ),
    (
        b"Declarations: bool x; Definitions: X(x) := true;",
        Some((StaticKind::FirstMissing, 35)),
    ),
    (
        b"Declarations: bool y; bool x; Definitions: X(x) := true;",
        Some((StaticKind::Undefined, 19)),
    ),
    (
        b"Inputs: bool a; Proof Obligations: pre(a);",
        Some((StaticKind::FirstMissing, 35)),
    ),
    (
        b"Proof Obligations: b & 1;",
        Some((StaticKind::Unknown, 19)),
    ),
    (
        b"Inputs: bool a; Proof Obligations: a & 1 & b;",
        Some((StaticKind::Mismatch, 39)),
    ),
    (
        b"Declarations: bool x; Definitions: x := 1; Constraints: b;",
        Some((StaticKind::Mismatch, 40)),
    ),
    (
        b"Declarations: bool x; Constraints: b;",
        Some((StaticKind::Unknown, 35)),
    ),
    (
        b"Types: sort {a, b} S; sort {c} T; sort S, T < U; Inputs: U u; Proof Obligations: ALL s : S (s <> c);",
        None,
    ),
    (
        b"Inputs: bool b; Declarations: bool a[4]; Definitions: a[i] := if i = 0 then b else a[i - 1]; Proof Obligations: a[3] <-> b;",
        None,
    ),
    (
        b"Declarations: int [0, 9] x; Definitions: I(x) := 0; X(x) := if x = 3 then 0 else x + 1; Proof Obligations: x <= 3;",
        None,
    ),
    (
        b"Constants: int N := 7 % 4; int M := 2 * (N - 1); bool B := N > M -> false; Inputs: bool a[M + 1];",
        None,
    ),
    (
        b"Constants: int N := $max(1, $min(2, 3), $abs(-4)); Inputs: bool a[N]; Proof Obligations: a[3];",
        None,
    ),
];

/// The first static fault of a text.
fn first_fault(alloc: Global, text: &[u8]) -> Result<Option<(StaticKind, u64)>, Fail> {
    match check(alloc, model_of(alloc, text)?) {
        Ok(_) => Ok(None),
        Err(StaticFault::Fault { kind, at }) => Ok(Some((kind, at))),
        Err(StaticFault::Memory) => Err(Fail::new("out of memory")),
    }
}

#[test]
fn texts_have_these_first_faults(rt: HostRuntime) -> Result<(), Fail> {
    for &(text, expected) in TEXTS {
        assert_eq!(rt; first_fault(rt.alloc(), text)?, expected, "{text:?}");
    }
    Ok(())
}
