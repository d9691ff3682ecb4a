//! How long threads waited.
ghost use Rattle.std.specs.Prelude.{◌≡◌, ◌≤◌, length, vec_capacity, IfOk};
ghost use Rattle.ckrt_look_profile.specs.declared.waits.TheConstants.{WAITS as waits_limit};
ghost use Rattle.ckrt_look_profile.specs.Waits.{is_awaited, is_waited, wait_place};

use std::alloc::{AllocError, Global};

/// How many waits are told apart.
pub const WAITS: usize = 256;

/// What a thread waits for: input, an end of its sleep, another thread's end, or an object by its address.
#[derive(Clone, Copy, Debug, Drop)]
pub enum Awaited {
    Input,
    Sleep,
    Join(u8),
    Mutex(u32),
    Condition(u32),
    Barrier(u32),
    Read(u32),
    Write(u32),
}

/// How long a thread waited for something.
#[derive(Clone, Copy, Debug, Drop)]
pub struct Waited {
    pub thread: u8,
    pub awaited: Awaited,
    /// How many steps were made meanwhile.
    pub steps: u64,
}

/// How long threads waited, and how many steps were made since waits were counted.
#[derive(Drop)]
pub(crate) struct Waits {
    pub(crate) rows: Vec<Waited>,
    pub(crate) unkept: u64,
    pub(crate) since: u64,
    ghost room: { waits_limit ≤ vec_capacity rows },
}

/// Whether two wait for the same.
fn is_awaited(one: Awaited, other: Awaited) -> bool
    ensures { result ≡ is_awaited one other }
{
    match (one, other) {
        (Awaited::Input, Awaited::Input) => true,
        (Awaited::Sleep, Awaited::Sleep) => true,
        (Awaited::Join(thread), Awaited::Join(other)) => thread == other,
        (Awaited::Mutex(address), Awaited::Mutex(other)) => address == other,
        (Awaited::Condition(address), Awaited::Condition(other)) => address == other,
        (Awaited::Barrier(address), Awaited::Barrier(other)) => address == other,
        (Awaited::Read(address), Awaited::Read(other)) => address == other,
        (Awaited::Write(address), Awaited::Write(other)) => address == other,
        _ => false,
    }
}

/// Whether a row is that of a thread and what it waits for.
fn is_waited(thread: u8, awaited: Awaited, row: &Waited) -> bool
    ensures { result ≡ is_waited thread awaited row.now }
{
    row.thread == thread && is_awaited(awaited, row.awaited)
}

/// The number of its row, or that of rows.
#[tactic(auto, using(crate::proofs::ListLemmas::wait_here, crate::proofs::ListLemmas::wait_further, crate::proofs::ListLemmas::no_wait_ahead))]
fn wait_place(thread: u8, awaited: Awaited, rows: &[Waited]) -> usize
    ensures place { result ≡ wait_place thread awaited rows.now }
    ensures within { result ≤ length rows.now }
{
    for place in 0..rows.len() {
        if is_waited(thread, awaited, &rows[place]) {
            return place;
        }
    }
    rows.len()
}

impl Waits {
    ghost use Rattle.ckrt_look_profile.specs.Waits.{looked, no_waits, passed, waited};
    ghost use Rattle.ckrt_look_profile.specs.Counts.{waits_in};

    /// Nobody waited yet.
    pub(crate) fn new(alloc: Global) -> Result<Waits, AllocError>
        ensures { IfOk result (λ waits. waits_in waits ≡ no_waits) }
    {
        Ok(Waits {
            rows: Vec::with_capacity(alloc, WAITS)?,
            unkept: 0,
            since: 0,
        })
    }

    /// So many steps were made.
    pub(crate) fn pass(&mut self, steps: u64)
        ensures { waits_in self.new ≡ passed steps (waits_in self.old) }
    {
        self.since = self.since.saturating_add(steps);
    }

    /// A thread waits for this, since waits were counted.
    pub(crate) fn wait(&mut self, thread: u8, awaited: Awaited)
        ensures { waits_in self.new ≡ waited thread awaited (waits_in self.old) }
    {
        let steps = self.since;
        let place = wait_place(thread, awaited, self.rows.as_slice());
        if place < self.rows.len() {
            self.rows[place].steps = self.rows[place].steps.saturating_add(steps);
            return;
        }
        if place < WAITS {
            let _ = self.rows.push(Waited {
                thread,
                awaited,
                steps,
            });
            return;
        }
        self.unkept = self.unkept.saturating_add(steps);
    }

    /// All waits are counted.
    pub(crate) fn look(&mut self)
        ensures { waits_in self.new ≡ looked (waits_in self.old) }
    {
        self.since = 0;
    }
}
