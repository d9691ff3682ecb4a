//! The functions of stacks.
ghost use Rattle.std.specs.Prelude.{◌≡◌, ◌≤◌, length, IfOk};
ghost use Rattle.ckrt_look_profile.specs.Functions.{first_of, function_place, functions_of, joined, with_stack};

use crate::row::Row;
use std::alloc::{AllocError, Global};

/// A function, with all stacks on top of which it is.
#[derive(Clone, Copy, Debug, Drop)]
pub struct Function {
    /// The address of its first instruction.
    pub entry: u32,
    /// How often it was called.
    pub calls: u64,
    /// How many steps were made in it.
    pub steps: u64,
}

/// A function with one stack.
fn first_of(row: &Row) -> Function
    ensures { result ≡ first_of row.now }
{
    Function {
        entry: row.entry,
        calls: row.calls,
        steps: row.steps,
    }
}

/// A function with a stack more.
fn joined(function: Function, row: &Row) -> Function
    ensures { result ≡ joined function row.now }
{
    Function {
        entry: function.entry,
        calls: function.calls.saturating_add(row.calls),
        steps: function.steps.saturating_add(row.steps),
    }
}

/// The number of the function at an address, or that of functions.
#[tactic(auto, using(crate::proofs::ListLemmas::function_here, crate::proofs::ListLemmas::function_further, crate::proofs::ListLemmas::no_function_ahead))]
fn function_place(entry: u32, functions: &[Function]) -> usize
    ensures place { result ≡ function_place entry functions.now }
    ensures within { result ≤ length functions.now }
{
    for place in 0..functions.len() {
        if functions[place].entry == entry {
            return place;
        }
    }
    functions.len()
}

/// Functions with a stack more.
#[tactic(auto, using(crate::proofs::ListLemmas::joined_last))]
fn join_stack(functions: &mut Vec<Function>, row: &Row) -> Result<(), AllocError>
    ensures { IfOk result (λ _. functions.new.items ≡ with_stack row.now functions.old.items) }
{
    let place = function_place(row.entry, functions.as_slice());
    if place < functions.len() {
        functions[place] = joined(functions[place], row);
        return Ok(());
    }
    match functions.push(first_of(row)) {
        Ok(()) => Ok(()),
        Err(_) => Err(AllocError),
    }
}

/// The functions of stacks, in the order in which they were met.
pub(crate) fn join_stacks(alloc: Global, rows: &[Row]) -> Result<Vec<Function>, AllocError>
    ensures { IfOk result (λ functions. functions.items ≡ functions_of rows.now) }
{
    let mut functions = Vec::with_capacity(alloc, rows.len())?;
    for row in rows {
        join_stack(&mut functions, row)?;
    }
    Ok(functions)
}
