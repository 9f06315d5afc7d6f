//! The lines of signals.

ghost use Rattle.std.specs.Prelude.{◌≡◌, ◌+◌, ◌<◌, ◌≤◌, ◌∷◌, ◌++◌, [], ℕ, List, length, IfOk, OnOk};
ghost use Rattle.lll_core.specs.declared.signal.Signal.{Signal};
ghost use Rattle.lll_core.specs.Signals.{own_names};
ghost use Rattle.lll_text.specs.Fields.{Gives, begins_number, new_name_at, form_at, input_at, latch_at, operands_at, gate_at, signal_of_form, signal_at, first_at, later_at, signal_number_at, signal_line_at};

use crate::fault::{LllKind, Unread};
use crate::field::{after, due, is_digit, line_end, literal, name, number, number_field};
use crate::names::Names;
use hll_lexer::Word;
use lll_core::Signal;
use std::alloc::Global;

/// There are fewer signals than this.
const LIMIT: usize = 0x7FFF_FFFF;

/// What a signal after the first is.
#[derive(Clone, Copy, Debug, PartialEq, Eq)]
pub enum Form {
    Input,
    Latch,
    Imp,
    Eqv,
}

/// The word that says what a signal is.
#[tactic(auto, unfolding(crate::specs::Fields::form_at))]
fn read_form(text: &[u8]) -> Result<(Form, &[u8]), Unread>
    ensures exact { Gives (λ x. (x.0, x.1.now)) result (form_at text.now) }
    ensures shorter { IfOk result (λ x. length x.1.now ≤ length text.now) }
{
    if let Some(rest) = after(text, b" input") {
        return Ok((Form::Input, rest));
    }
    if let Some(rest) = after(text, b" latch") {
        return Ok((Form::Latch, rest));
    }
    if let Some(rest) = after(text, b" imp") {
        return Ok((Form::Imp, rest));
    }
    match after(text, b" eqv") {
        Some(rest) => Ok((Form::Eqv, rest)),
        None => Err(Unread::Wrong(LllKind::Word)),
    }
}

/// A space and a name that no input or latch has yet.
#[tactic(auto, unfolding(crate::specs::Fields::new_name_at))]
fn new_name<'a>(names: &mut Names<'a>, text: &'a [u8]) -> Result<(&'a [u8], &'a [u8]), Unread>
    ensures exact { Gives (λ x. (x.0.now, x.1.now)) result (new_name_at names.old text.now) }
    ensures taken { IfOk result (λ x. names.new ≡ names.old ++ x.0.now ∷ []) }
    ensures shorter { IfOk result (λ x. length x.1.now ≤ length text.now) }
{
    let (name, rest) = name(text)?;
    if names.insert(name)? {
        Ok((name, rest))
    } else {
        Err(Unread::Wrong(LllKind::Name))
    }
}

#[tactic(auto, unfolding(crate::specs::Fields::input_at))]
fn input<'a>(
    alloc: Global,
    names: &mut Names<'a>,
    text: &'a [u8],
) -> Result<(Signal, &'a [u8]), Unread>
    ensures exact { Gives (λ x. (x.0, x.1.now)) result (input_at names.old text.now) }
    ensures taken { IfOk result (λ x. names.new ≡ names.old ++ own_names x.0) }
    ensures shorter { IfOk result (λ x. length x.1.now ≤ length text.now) }
{
    let (name, rest) = new_name(names, text)?;
    let name = Word::new(alloc, name)?;
    Ok((Signal::Input(name), rest))
}

#[tactic(auto, unfolding(crate::specs::Fields::latch_at))]
fn latch<'a>(
    alloc: Global,
    count: usize,
    names: &mut Names<'a>,
    text: &'a [u8],
) -> Result<(Signal, &'a [u8]), Unread>
    ensures exact { Gives (λ x. (x.0, x.1.now)) result (latch_at count names.old text.now) }
    ensures taken { IfOk result (λ x. names.new ≡ names.old ++ own_names x.0) }
    ensures shorter { IfOk result (λ x. length x.1.now ≤ length text.now) }
{
    let (init, rest) = literal(text, count, LllKind::Order)?;
    let (next, rest) = number_field(rest)?;
    let (name, rest) = new_name(names, rest)?;
    let name = Word::new(alloc, name)?;
    Ok((Signal::Latch { name, init, next }, rest))
}

/// The operands of a gate.
#[tactic(auto, unfolding(crate::specs::Fields::operands_at))]
fn operands(count: usize, text: &[u8]) -> Result<(u32, u32, &[u8]), Unread>
    ensures exact { Gives (λ x. (x.0, x.1, x.2.now)) result (operands_at count text.now) }
    ensures shorter { IfOk result (λ x. length x.2.now ≤ length text.now) }
{
    let (a, rest) = literal(text, count, LllKind::Order)?;
    let (b, rest) = literal(rest, count, LllKind::Order)?;
    Ok((a, b, rest))
}

/// What a signal after the first is.
#[tactic(auto, unfolding(crate::specs::Fields::later_at))]
fn later<'a>(
    alloc: Global,
    count: usize,
    names: &mut Names<'a>,
    text: &'a [u8],
) -> Result<(Signal, &'a [u8]), Unread>
    ensures exact { Gives (λ x. (x.0, x.1.now)) result (later_at count names.old text.now) }
    ensures taken { IfOk result (λ x. names.new ≡ names.old ++ own_names x.0) }
    ensures shorter { IfOk result (λ x. length x.1.now ≤ length text.now) }
{
    let (form, rest) = read_form(text)?;
    match form {
        Form::Input => input(alloc, names, rest),
        Form::Latch => latch(alloc, count, names, rest),
        Form::Imp => {
            let (a, b, rest) = operands(count, rest)?;
            Ok((Signal::Imp(a, b), rest))
        }
        Form::Eqv => {
            let (a, b, rest) = operands(count, rest)?;
            Ok((Signal::Eqv(a, b), rest))
        }
    }
}

/// What the first signal is.
#[tactic(auto, unfolding(crate::specs::Fields::first_at))]
fn first(text: &[u8]) -> Result<(Signal, &[u8]), Unread>
    ensures exact { Gives (λ x. (x.0, x.1.now)) result (first_at text.now) }
    ensures one { IfOk result (λ x. own_names x.0 ≡ []) }
    ensures shorter { IfOk result (λ x. length x.1.now ≤ length text.now) }
{
    let rest = due(text, b" one", LllKind::Word)?;
    Ok((Signal::One, rest))
}

/// What the signal is that follows so many.
fn signal<'a>(
    alloc: Global,
    count: usize,
    names: &mut Names<'a>,
    text: &'a [u8],
) -> Result<(Signal, &'a [u8]), Unread>
    ensures exact { Gives (λ x. (x.0, x.1.now)) result (signal_at count names.old text.now) }
    ensures taken { IfOk result (λ x. names.new ≡ names.old ++ own_names x.0) }
    ensures shorter { IfOk result (λ x. length x.1.now ≤ length text.now) }
{
    if count == 0 {
        first(text)
    } else {
        later(alloc, count, names, text)
    }
}

/// The number of the signal that follows so many.
#[tactic(auto, unfolding(crate::specs::Fields::signal_number_at))]
fn signal_number(count: usize, text: &[u8]) -> Result<&[u8], Unread>
    ensures exact { Gives (λ r. r.now) result (signal_number_at count text.now) }
    ensures shorter { IfOk result (λ r. length r.now ≤ length text.now) }
{
    let (n, rest) = number(text)?;
    if n as usize == count && count < LIMIT {
        Ok(rest)
    } else {
        Err(Unread::Wrong(LllKind::Number))
    }
}

/// Whether the line begins with a digit.
fn begins_number(text: &[u8]) -> bool
    ensures { result ≡ begins_number text.now }
{
    match text {
        [] => false,
        [byte, ..] => is_digit(*byte),
    }
}

/// The line of the signal that follows so many.
#[tactic(auto, unfolding(crate::specs::Fields::signal_line_at))]
pub(crate) fn signal_line<'a>(
    alloc: Global,
    count: usize,
    names: &mut Names<'a>,
    text: &'a [u8],
) -> Result<(Signal, &'a [u8]), Unread>
    ensures exact { Gives (λ x. (x.0, x.1.now)) result (signal_line_at count names.old text.now) }
    ensures taken { IfOk result (λ x. names.new ≡ names.old ++ own_names x.0) }
    ensures shorter { IfOk result (λ x. length x.1.now < length text.now) }
{
    if !begins_number(text) {
        return Err(Unread::Wrong(LllKind::Word));
    }
    let rest = signal_number(count, text)?;
    let (signal, rest) = signal(alloc, count, names, rest)?;
    let rest = line_end(rest)?;
    Ok((signal, rest))
}
