//! Truth tables: the column of an expression has its value at each row of the inputs.

ghost use Rattle.std.specs.Prelude.{◌≡◌, ℕ, ◌≤◌, ◌<◌, ◌^◌, List, ◌∷◌, length, map, Contains, IfOk, Bool, true, false, not, ◌||◌};
ghost use Rattle.std.specs.List.{slice_index_or};
ghost use Rattle.hll_tree.specs.declared.tree.Op.{Op};
ghost use Rattle.hll_cli.specs.BooleanTexts.{UsesOnly, is_boolean_op as is_boolean_operator, is_boolean};
ghost use Rattle.hll_cli.specs.Accepted.{input_limit};
ghost use Rattle.hll_cli.specs.Table.{value_at, chain_value, row, IsColumn};

use hll_tree::{Expr, Form, Op};
use std::alloc::{AllocError, Global};

/// The greatest number of inputs that a table has rows for.
pub const MAX_INPUTS: usize = 12;

/// How many rows a table over so many inputs has.
fn rows(inputs: usize) -> usize
    requires { inputs ≤ input_limit }
    ensures { result ≡ 2 ^ inputs }
{
    1 << inputs
}

/// A column with one value at every row.
fn constant(alloc: Global, rows: usize, value: bool) -> Result<Vec<bool>, AllocError>
    ensures length { IfOk result (λ c. length c.items ≡ rows) }
    ensures each { IfOk result (λ c. (k : ℕ) → k < rows → slice_index_or c.items k false ≡ value) }
{
    vec![in alloc; value; rows]
}

/// The column of an input, by its position among the inputs.
fn input(alloc: Global, inputs: usize, position: usize) -> Result<Vec<bool>, AllocError>
    requires few { inputs ≤ input_limit }
    requires there { position < inputs }
    ensures length { IfOk result (λ c. length c.items ≡ 2 ^ inputs) }
    ensures each { IfOk result (λ c. (k : ℕ) → k < 2 ^ inputs →
        slice_index_or c.items k false ≡ slice_index_or (row inputs k) position false) }
{
    let rows = rows(inputs);
    let mut column = Vec::with_capacity(alloc, rows)?;
    for number in 0..rows {
        column.push((number >> position) % 2 == 1)?;
    }
    Ok(column)
}

/// The position of an input, by its name.
fn position(names: &[&[u8]], name: &[u8]) -> usize
    requires { Contains (map (λ n. n.now) names.now) name.now }
    ensures there { result < length names.now }
    ensures value { (values : List Bool) → length values ≡ length names.now →
        value_at (map (λ n. n.now) names.now) values name.now ≡ slice_index_or values result false }
{
    for (i, n) in names.iter().enumerate() {
        if *n == name {
            return i;
        }
    }
    unreachable!()
}

/// The opposite at each row.
fn negate(column: &mut [bool])
    ensures length { length column.new ≡ length column.old }
    ensures each { (k : ℕ) → k < length column.old → slice_index_or column.new k false ≡ not (slice_index_or column.old k false) }
{
    for value in column.iter_mut() {
        *value = !*value;
    }
}

/// A chain at one row, as far as it was read: whether an earlier premise is false, which makes it true
/// whatever follows, and the value of what was read after that premise.
fn take_link(op: Op, settled: bool, value: bool, next: bool) -> (bool, bool)
    requires { is_boolean_operator op ≡ true }
    ensures { (links : List (Op × Bool)) →
        (result.0 || chain_value result.1 links) ≡ (settled || chain_value value ((op, next) ∷ links)) }
{
    match op {
        Op::Implies => (settled || !value, next),
        Op::Or => (settled, value || next),
        Op::And => (settled, value && next),
        Op::Same | Op::Differ | Op::Plus | Op::Less | Op::Times | Op::Over | Op::Rest => {
            unreachable!()
        }
    }
}

/// The same at each row.
fn take_links(op: Op, settled: &mut [bool], value: &mut [bool], next: &[bool])
    requires operator { is_boolean_operator op ≡ true }
    requires opens { length value.old ≡ length settled.old }
    requires nexts { length next.now ≡ length settled.old }
    ensures settled_length { length settled.new ≡ length settled.old }
    ensures value_length { length value.new ≡ length settled.old }
    ensures each { (k : ℕ) (links : List (Op × Bool)) → k < length settled.old →
        (slice_index_or settled.new k false || chain_value (slice_index_or value.new k false) links)
        ≡ (slice_index_or settled.old k false
        || chain_value (slice_index_or value.old k false) ((op, slice_index_or next.now k false) ∷ links)) }
{
    for row in 0..settled.len() {
        let (now_settled, now_value) = take_link(op, settled[row], value[row], next[row]);
        settled[row] = now_settled;
        value[row] = now_value;
    }
}

/// True at each row at which either is.
fn or(column: &mut [bool], other: &[bool])
    requires { length other.now ≡ length column.old }
    ensures length { length column.new ≡ length column.old }
    ensures each { (k : ℕ) → k < length column.old →
        slice_index_or column.new k false ≡ (slice_index_or other.now k false || slice_index_or column.old k false) }
{
    for row in 0..column.len() {
        column[row] = other[row] || column[row];
    }
}

/// The column of a Boolean expression over these inputs.
#[tactic(auto, using(crate::proofs::Booleans::not_number, crate::proofs::Booleans::not_compare, crate::proofs::Booleans::not_minus, crate::proofs::Booleans::not_choice, crate::proofs::Booleans::not_group, crate::proofs::Booleans::not_quant, crate::proofs::Booleans::not_pre, crate::proofs::Booleans::not_least, crate::proofs::Booleans::not_greatest, crate::proofs::Booleans::not_size, crate::proofs::Booleans::not_starting, crate::proofs::Booleans::not_within))]
pub fn column(alloc: Global, names: &[&[u8]], expr: &Expr) -> Result<Vec<bool>, AllocError>
    requires few { length names.now ≤ input_limit }
    requires boolean { is_boolean expr.now ≡ true }
    requires declared { UsesOnly (map (λ n. n.now) names.now) expr.now }
    ensures { IfOk result (λ c. IsColumn (map (λ n. n.now) names.now) expr.now c.items) }
{
    let rows = rows(names.len());
    match &expr.form {
        Form::Truth(value) => {
            let column = constant(alloc, rows, *value)?;
            Ok(column)
        }
        Form::Path(name, _) => {
            let position = position(names, name.text.bytes());
            let column = input(alloc, names.len(), position)?;
            Ok(column)
        }
        Form::Not(inner) => {
            let mut column = column(alloc, names, inner.get())?;
            negate(&mut column);
            Ok(column)
        }
        Form::Chain(first, links) => {
            let mut value = column(alloc, names, first.get())?;
            let mut settled = constant(alloc, rows, false)?;
            for link in links.as_slice() {
                let next = column(alloc, names, &link.with)?;
                take_links(link.op, &mut settled, &mut value, &next);
            }
            or(&mut value, &settled);
            Ok(value)
        }
        Form::Number(_)
        | Form::Compare(_, _, _)
        | Form::Minus(_)
        | Form::Choice(_, _)
        | Form::Group(_)
        | Form::Quant(_, _, _, _)
        | Form::Pre(_, _)
        | Form::Least(_)
        | Form::Greatest(_)
        | Form::Size(_)
        | Form::Starting
        | Form::Within(_, _) => unreachable!(),
    }
}
