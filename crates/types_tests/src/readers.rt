//! What a text without static faults gives its readers, worked out by hand.

use crate::models::model_of;
use hll_meaning::Ty;
use hll_types::{Checked, Role, check};
use std::alloc::Global;
use std::test::Fail;

/// Elements of two sorts under one root, the first child first.
const IN_ORDER: &[u8] =
    b"Constants: int N := 3; int M := 1 - N; bool yes := true; bool no := N < 0; Types: sort {a, b} S; sort {c} T; sort S, T < U; enum {stop, go} Aspect; int [0, 9] Digit; Inputs: bool track[N], free; U element; Declarations: Aspect shown; Digit level, kept, next; Definitions: shown := if free then go else stop; I(level) := 0; X(level) := level; kept := 1, kept; next := level; Proof Obligations: level = 0;";

/// The same with the other child first.
const TURNED: &[u8] =
    b"Constants: int N := 3; int M := 1 - N; bool yes := true; bool no := N < 0; Types: sort {a, b} S; sort {c} T; sort T, S < U; enum {stop, go} Aspect; int [0, 9] Digit; Inputs: bool track[N], free; U element; Declarations: Aspect shown; Digit level, kept, next; Definitions: shown := if free then go else stop; I(level) := 0; X(level) := level; kept := 1, kept; next := level; Proof Obligations: level = 0;";

/// The variables of the first text: their names, places and roles.
const VARIABLES: &[(&[u8], u64, Role)] = &[
    (b"track", 179, Role::Input),
    (b"free", 189, Role::Input),
    (b"element", 197, Role::Input),
    (b"shown", 227, Role::Value),
    (b"level", 240, Role::Memory),
    (b"kept", 247, Role::Memory),
    (b"next", 253, Role::Value),
];

/// Names, and what they are worth, with the children in order or turned.
const VALUES: &[(bool, &[u8], Option<i128>)] = &[
    (false, b"N", Some(3)),
    (false, b"M", Some(-2)),
    (false, b"yes", Some(1)),
    (false, b"no", Some(0)),
    (false, b"a", Some(0)),
    (false, b"b", Some(1)),
    (false, b"c", Some(2)),
    (false, b"go", Some(1)),
    (false, b"U", None),
    (false, b"level", None),
    (false, b"track", None),
    (false, b"nothing", None),
    (true, b"c", Some(0)),
    (true, b"a", Some(1)),
    (true, b"b", Some(2)),
];

/// Names, and the roots and ends of their types: a range has no root.
const TYPES: &[(bool, &[u8], Option<(&[u8], i128, i128)>)] = &[
    (false, b"S", Some((b"U", 0, 1))),
    (false, b"T", Some((b"U", 2, 2))),
    (false, b"U", Some((b"U", 0, 2))),
    (false, b"Aspect", Some((b"Aspect", 0, 1))),
    (false, b"Digit", Some((b"", 0, 9))),
    (false, b"N", None),
    (false, b"a", None),
    (false, b"level", None),
    (false, b"nothing", None),
    (true, b"S", Some((b"U", 1, 2))),
    (true, b"T", Some((b"U", 0, 0))),
];

/// Roots and codes, and the elements that have them.
const ELEMENTS: &[(bool, &[u8], u64, Option<&[u8]>)] = &[
    (false, b"U", 0, Some(b"a")),
    (false, b"U", 1, Some(b"b")),
    (false, b"U", 2, Some(b"c")),
    (false, b"U", 3, None),
    (false, b"S", 0, None),
    (false, b"Aspect", 0, Some(b"stop")),
    (false, b"Aspect", 1, Some(b"go")),
    (false, b"Aspect", 2, None),
    (false, b"a", 0, None),
    (false, b"nothing", 0, None),
    (true, b"U", 0, Some(b"c")),
    (true, b"U", 1, Some(b"a")),
    (true, b"U", 2, Some(b"b")),
];

/// Numbers, truth values and operators at their places.
const RANGED: &[u8] =
    b"Inputs: int [0, 3] d; bool b; Proof Obligations: b # d + 1 > 2; ALL i : bool (i <-> b);";

/// Places of that text, and the ends of the ranges there.
const RANGES: &[(u64, Option<(i128, i128)>)] = &[
    (13, Some((0, 0))),
    (16, Some((3, 3))),
    (49, Some((0, 1))),
    (51, Some((0, 1))),
    (53, Some((0, 3))),
    (55, Some((1, 4))),
    (57, Some((1, 1))),
    (59, Some((0, 1))),
    (61, Some((2, 2))),
    (64, Some((0, 1))),
    (78, Some((0, 1))),
    (80, Some((0, 1))),
    (84, Some((0, 1))),
    (0, None),
    (19, None),
    (50, None),
    (72, None),
    (1000, None),
];

/// A text that is checked.
fn checked_of(alloc: Global, text: &[u8]) -> Result<Checked, Fail> {
    match check(alloc, model_of(alloc, text)?) {
        Ok(checked) => Ok(checked),
        Err(_) => Err(Fail::new("a static fault")),
    }
}

/// The text with the children of the sort in order, or turned.
fn sorted(alloc: Global, turned: bool) -> Result<Checked, Fail> {
    checked_of(alloc, if turned { TURNED } else { IN_ORDER })
}

/// The root and the ends of a scalar type.
fn ends_of(ty: &Ty) -> Option<(&[u8], i128, i128)> {
    match ty {
        Ty::Int(ends) => Some((b"", ends.lo, ends.hi)),
        Ty::Elem(root, codes) => Some((root.bytes(), codes.lo, codes.hi)),
        Ty::Bool | Ty::Array(_, _) | Ty::Struct(_, _) => None,
    }
}

#[test]
fn variables_have_places_and_roles(rt: HostRuntime) -> Result<(), Fail> {
    let checked = checked_of(rt.alloc(), IN_ORDER)?;
    assert_eq!(rt; checked.variables().len(), VARIABLES.len());
    for (variable, &(name, at, role)) in checked.variables().iter().zip(VARIABLES) {
        assert_eq!(rt; variable.name.bytes(), name);
        assert_eq!(rt; variable.at, at, "{name:?}");
        assert_eq!(rt; variable.role, role, "{name:?}");
    }
    for (position, &(name, _, _)) in VARIABLES.iter().enumerate() {
        assert_eq!(rt; checked.variable_of(name), Some(position), "{name:?}");
    }
    assert_eq!(rt; checked.variable_of(b"N"), None);
    assert_eq!(rt; checked.variable_of(b"nothing"), None);
    Ok(())
}

#[test]
fn constants_and_elements_have_their_numbers(rt: HostRuntime) -> Result<(), Fail> {
    for &(turned, name, value) in VALUES {
        let checked = sorted(rt.alloc(), turned)?;
        assert_eq!(rt; checked.value_of(name), value, "{name:?}");
    }
    Ok(())
}

#[test]
fn types_have_their_roots_and_ends(rt: HostRuntime) -> Result<(), Fail> {
    for &(turned, name, ends) in TYPES {
        let checked = sorted(rt.alloc(), turned)?;
        assert_eq!(rt; checked.type_of(name).and_then(ends_of), ends, "{name:?}");
    }
    Ok(())
}

#[test]
fn roots_have_their_elements(rt: HostRuntime) -> Result<(), Fail> {
    for &(turned, root, code, element) in ELEMENTS {
        let checked = sorted(rt.alloc(), turned)?;
        let found = checked.element_of(root, code).map(|word| word.bytes());
        assert_eq!(rt; found, element, "{root:?} {code}");
    }
    Ok(())
}

#[test]
fn scalar_expressions_have_ranges_at_their_places(rt: HostRuntime) -> Result<(), Fail> {
    let checked = checked_of(rt.alloc(), RANGED)?;
    for &(at, ends) in RANGES {
        let found = checked.interval_of(at).map(|range| (range.lo, range.hi));
        assert_eq!(rt; found, ends, "at {at}");
    }
    Ok(())
}
