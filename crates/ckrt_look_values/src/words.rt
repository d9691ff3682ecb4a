//! Values of many words at once.
ghost use Rattle.std.specs.Prelude.{◌≡◌, ◌≤◌, ◌+◌, length, replicate, IfOk};
ghost use Rattle.ckrt_look_values.specs.Values.{few, filled, get_value, known, set_value};

use crate::value::{Value, known};
use ckrt_look_heap::Part;
use std::alloc::{AllocError, Global};

/// So many values of which all is known.
pub(crate) fn known_values(alloc: Global, count: usize) -> Result<Vec<Value>, AllocError>
    ensures { IfOk result (λ values. values.items ≡ replicate count known) }
{
    let mut values = Vec::with_capacity(alloc, count)?;
    for _ in 0..count {
        if values.push(known()).is_err() {
            return Err(AllocError);
        }
    }
    Ok(values)
}

/// The value at a place; where there is none all is known.
pub(crate) fn get_value(values: &[Value], at: usize) -> Value
    ensures { result ≡ get_value at values.now }
{
    match values.get(at) {
        Some(value) => *value,
        None => known(),
    }
}

/// Puts a value, if there is such a place.
pub(crate) fn set_value(values: &mut Vec<Value>, at: usize, value: Value)
    ensures { values.new.items ≡ set_value at value values.old.items }
{
    if at < values.len() {
        values[at] = value;
    }
}

/// How many words of a part there are.
fn few(values: &[Value], part: Part) -> usize
    ensures { result ≡ few part values.now }
{
    let from = part.first as usize;
    let all = values.len();
    if all <= from {
        return 0;
    }
    let left = all - from;
    let count = part.count as usize;
    if count < left { count } else { left }
}

/// The same value for so many words.
fn fill_words(values: &mut Vec<Value>, first: usize, count: usize, value: Value)
    requires { first + count ≤ length values.old.items }
    ensures { values.new.items ≡ filled count first value values.old.items }
{
    for done in 0..count {
        values[first + done] = value;
    }
}

/// The same value for each word of a part that there is.
pub(crate) fn fill(values: &mut Vec<Value>, part: Part, value: Value)
    ensures { values.new.items
        ≡ filled (few part values.old.items) part.first value values.old.items }
{
    let count = few(values.as_slice(), part);
    if count > 0 {
        fill_words(values, part.first as usize, count, value);
    }
}
