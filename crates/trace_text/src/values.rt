//! The values of cells: how they are written, and what stands at the front of some bytes.

ghost use Rattle.std.specs.Prelude.{◌≡◌, ◌++◌, ◌∷◌, [], ◌<◌, ◌^◌, ◌≤ℤ◌, ◌-◌, pos, true, ℤ, length, MatchOption, OnOk};
ghost use Rattle.hll_lexer.specs.Pieces.{Stops};
ghost use Rattle.hll_lexer.specs.Words.{continues_word};
ghost use Rattle.hll_meaning.specs.Declarations.{names};
ghost use Rattle.hll_meaning.specs.Kinds.{element, is_in, truth, whole, IsOf};
ghost use Rattle.hll_meaning.specs.Names.{Names};
ghost use Rattle.hll_meaning.specs.StaticRules.{Well};
ghost use Rattle.hll_meaning.specs.Types.{ends};
ghost use Rattle.trace_text.specs.Faults.{HasValue, Never};
ghost use Rattle.cell_columns.specs.Columns.{kind_of_values};
ghost use Rattle.trace_text.specs.Traces.{element_name, value_text};

use crate::spelling::{push_name, push_signed};
use crate::words::{after, name_at, stops_word, whole_at};
use cell_columns::Values;
use hll_types::Checked;
use intervals::Interval;
use std::alloc::AllocError;

/// The name of the element of a root with a code: no bytes where there is none.
fn element_name<'a>(checked: &'a Checked, root: &[u8], code: i128) -> &'a [u8]
    requires well { Well checked.now }
    requires within { code ≤ℤ pos (2 ^ 64 - 1) }
    ensures { result.now ≡ element_name (names checked.now) root.now code }
{
    match u64::try_from(code) {
        Ok(code) => match checked.element_of(root, code) {
            Some(name) => name.bytes(),
            None => &[],
        },
        Err(_) => &[],
    }
}

/// Appends a value.
pub(crate) fn push_value(
    out: &mut Vec<u8>,
    checked: &Checked,
    values: &Values,
    value: i128,
) -> Result<(), AllocError>
    requires well { Well checked.now }
    requires value { IsOf (kind_of_values values.now) (value ∷ []) }
    ensures { OnOk result (out.new.items ≡ out.old.items ++ value_text (names checked.now) (kind_of_values values.now) value) }
{
    match values {
        Values::Truth => {
            if value == 0 {
                out.extend_from_slice(b"false")
            } else {
                out.extend_from_slice(b"true")
            }
        }
        Values::Whole(_) => push_signed(out, value),
        Values::Elements(root, _) => push_name(out, element_name(checked, root.bytes(), value)),
    }
}

fn holds(within: Interval, value: i128) -> bool
    ensures { result ≡ is_in (ends within) value }
{
    within.lo <= value && value <= within.hi
}

/// A value with what follows it, where its word ends there.
fn before_end(value: i128, rest: &[u8]) -> Option<(i128, &[u8])>
    ensures { MatchOption result (Stops continues_word rest.now → ⊥) (λ r. (r.0 ≡ value) × (r.1.now ≡ rest.now) × Stops continues_word rest.now) }
{
    if stops_word(rest) {
        Some((value, rest))
    } else {
        None
    }
}

/// The truth value at the front.
fn truth_at(text: &[u8]) -> Option<(i128, &[u8])>
    ensures { (all : Names) → MatchOption result ((x : ℤ) → Never (HasValue all truth text.now x)) (λ r. HasValue all truth text.now r.0 r.1.now) }
{
    match after(text, b"true") {
        Some(rest) => before_end(1, rest),
        None => before_end(0, after(text, b"false")?),
    }
}

/// The whole number at the front, if it lies between these ends.
fn whole_within(within: Interval, text: &[u8]) -> Option<(i128, &[u8])>
    ensures { (all : Names) → MatchOption result ((x : ℤ) → Never (HasValue all (whole (ends within)) text.now x))
        (λ r. HasValue all (whole (ends within)) text.now r.0 r.1.now) }
{
    let (value, rest) = whole_at(text)?;
    if holds(within, value) {
        Some((value, rest))
    } else {
        None
    }
}

/// The code of the element of a root that has this name, if it is one of these.
fn code_of(checked: &Checked, root: &[u8], codes: Interval, name: &[u8]) -> Option<i128>
    requires well { Well checked.now }
    requires some { 0 < length name.now }
    ensures { MatchOption result ((x : ℤ) → is_in (ends codes) x ≡ true → element_name (names checked.now) root.now x ≡ name.now → ⊥)
        (λ x. (is_in (ends codes) x ≡ true) × (element_name (names checked.now) root.now x ≡ name.now)) }
{
    let value = checked.value_of(name)?;
    if !holds(codes, value) {
        return None;
    }
    if element_name(checked, root, value) == name {
        Some(value)
    } else {
        None
    }
}

/// The element at the front, if it is one of a root that has one of these codes.
fn element_within<'a>(
    checked: &Checked,
    root: &[u8],
    codes: Interval,
    text: &'a [u8],
) -> Option<(i128, &'a [u8])>
    requires { Well checked.now }
    ensures { MatchOption result ((x : ℤ) → Never (HasValue (names checked.now) (element root.now (ends codes)) text.now x))
        (λ r. HasValue (names checked.now) (element root.now (ends codes)) text.now r.0 r.1.now) }
{
    let (name, rest) = name_at(text)?;
    let code = code_of(checked, root, codes, name)?;
    Some((code, rest))
}

/// The value at the front, if it is one of these.
pub(crate) fn value_at<'a>(
    checked: &Checked,
    values: &Values,
    text: &'a [u8],
) -> Option<(i128, &'a [u8])>
    requires { Well checked.now }
    ensures { MatchOption result ((x : ℤ) → Never (HasValue (names checked.now) (kind_of_values values.now) text.now x))
        (λ r. HasValue (names checked.now) (kind_of_values values.now) text.now r.0 r.1.now) }
{
    match values {
        Values::Truth => truth_at(text),
        Values::Whole(within) => whole_within(*within, text),
        Values::Elements(root, codes) => element_within(checked, root.bytes(), *codes, text),
    }
}
