//! What was counted, by function and by wait, and that with the most steps first.
ghost use Rattle.std.specs.Prelude.{◌≡◌, ◌≤◌, length, IfOk};
ghost use Rattle.ckrt_look_profile.specs.Shares.{function_share, function_shares, functions, placed, rank_of, ranked, steps_of, thread_shares, total_behind, wait_share, wait_shares};

use crate::functions::{Function, join_stacks};
use crate::row::Row;
use crate::stacks::Frame;
use crate::waits::{Awaited, Waited};
use std::alloc::{AllocError, Global};

/// What steps are counted of.
#[derive(Clone, Copy, Debug, Drop)]
pub enum Subject {
    /// A function, by the address of its first instruction, and how often that was called.
    Function(u32, u64),
    /// A thread, by its number.
    Thread(usize),
    /// What a thread waited for.
    Wait(u8, Awaited),
}

/// So many steps of something.
#[derive(Clone, Copy, Debug, Drop)]
pub struct Share {
    pub steps: u64,
    pub subject: Subject,
}

/// A function.
fn function_share(function: &Function) -> Share
    ensures { result ≡ function_share function.now }
{
    Share {
        steps: function.steps,
        subject: Subject::Function(function.entry, function.calls),
    }
}

/// Functions, in their order.
fn function_shares(alloc: Global, functions: &[Function]) -> Result<Vec<Share>, AllocError>
    ensures { IfOk result (λ shares. shares.items ≡ function_shares functions.now) }
{
    let mut shares = Vec::with_capacity(alloc, functions.len())?;
    for function in functions {
        if shares.push(function_share(function)).is_err() {
            return Err(AllocError);
        }
    }
    Ok(shares)
}

/// The functions of stacks, in the order in which they were met.
///
/// # Errors
///
/// `AllocError` where memory was refused.
pub fn functions_of(alloc: Global, rows: &[Row]) -> Result<Vec<Share>, AllocError>
    ensures { IfOk result (λ shares. shares.items ≡ functions rows.now) }
{
    let functions = join_stacks(alloc, rows)?;
    function_shares(alloc, functions.as_slice())
}

/// The threads, by number.
///
/// # Errors
///
/// `AllocError` where memory was refused.
pub fn threads_of(alloc: Global, frames: &[Frame]) -> Result<Vec<Share>, AllocError>
    ensures { IfOk result (λ shares. shares.items ≡ thread_shares frames.now) }
{
    let mut shares = Vec::with_capacity(alloc, frames.len())?;
    let mut thread: usize = 0;
    for frame in frames {
        let share = Share {
            steps: frame.steps,
            subject: Subject::Thread(thread),
        };
        if shares.push(share).is_err() {
            return Err(AllocError);
        }
        thread += 1;
    }
    Ok(shares)
}

/// All steps of threads, as far as 64 bits count.
pub fn total_of(frames: &[Frame]) -> u64
    ensures { result ≡ total_behind 0 frames.now }
{
    let mut total: u64 = 0;
    for frame in frames {
        total = total.saturating_add(frame.steps);
    }
    total
}

/// All steps of shares, as far as 64 bits count.
pub fn steps_of(shares: &[Share]) -> u64
    ensures { result ≡ steps_of shares.now }
{
    let mut steps: u64 = 0;
    for share in shares {
        steps = steps.saturating_add(share.steps);
    }
    steps
}

/// How long something was waited for.
fn wait_share(waited: &Waited) -> Share
    ensures { result ≡ wait_share waited.now }
{
    Share {
        steps: waited.steps,
        subject: Subject::Wait(waited.thread, waited.awaited),
    }
}

/// The waits, in the order in which they were met.
///
/// # Errors
///
/// `AllocError` where memory was refused.
pub fn waits_of(alloc: Global, rows: &[Waited]) -> Result<Vec<Share>, AllocError>
    ensures { IfOk result (λ shares. shares.items ≡ wait_shares rows.now) }
{
    let mut shares = Vec::with_capacity(alloc, rows.len())?;
    for waited in rows {
        if shares.push(wait_share(waited)).is_err() {
            return Err(AllocError);
        }
    }
    Ok(shares)
}

/// How many of the first have no fewer steps.
#[tactic(auto, using(crate::proofs::ListLemmas::rank_here, crate::proofs::ListLemmas::rank_further, crate::proofs::ListLemmas::no_rank_ahead))]
fn rank_of(ranked: &[Share], steps: u64) -> usize
    ensures rank { result ≡ rank_of steps ranked.now }
    ensures within { result ≤ length ranked.now }
{
    for place in 0..ranked.len() {
        if ranked[place].steps < steps {
            return place;
        }
    }
    ranked.len()
}

/// A share more.
#[tactic(auto, using(crate::proofs::ListLemmas::placed_there))]
fn place(ranked: &mut Vec<Share>, share: &Share) -> Result<(), AllocError>
    ensures { IfOk result (λ _. ranked.new.items ≡ placed share.now ranked.old.items) }
{
    let rank = rank_of(ranked.as_slice(), share.steps);
    match ranked.insert(rank, *share) {
        Ok(()) => Ok(()),
        Err(_) => Err(AllocError),
    }
}

/// The same, the one with the most steps first: of the same number what came first.
///
/// # Errors
///
/// `AllocError` where memory was refused.
pub fn rank(alloc: Global, shares: &[Share]) -> Result<Vec<Share>, AllocError>
    ensures { IfOk result (λ shares'. shares'.items ≡ ranked shares.now) }
{
    let mut ranked = Vec::with_capacity(alloc, shares.len())?;
    for share in shares {
        place(&mut ranked, share)?;
    }
    Ok(ranked)
}
