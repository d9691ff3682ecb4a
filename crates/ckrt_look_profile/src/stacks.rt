//! The stacks of all threads.
ghost use Rattle.std.specs.Prelude.{◌≡◌, ◌≤◌, ◌<◌, length, vec_capacity, IfOk};
ghost use Rattle.ckrt_look_profile.specs.declared.row.TheConstants.{ROWS as rows_limit};
ghost use Rattle.ckrt_look_profile.specs.declared.stacks.TheConstants.{THREADS as threads_limit};
ghost use Rattle.ckrt_look_profile.specs.Stacks.{arrived, begin, bottom};

use crate::row;
use crate::row::{Base, Position, ROWS, Row, enter, leave};
use crate::turn::Turn;
use std::alloc::{AllocError, Global};

/// The numbers of threads are below this.
pub const THREADS: usize = 65;

/// A thread.
#[derive(Clone, Copy, Debug)]
pub struct Frame {
    /// Where it is.
    pub position: Position,
    /// How it goes on from its last step, if it made one.
    pub last: Option<Turn>,
    /// How many steps it made.
    pub steps: u64,
}

/// A thread that made no step yet.
const BEGIN: Frame = Frame {
    position: Position {
        base: Base::Thread(0),
        lost: 0,
    },
    last: None,
    steps: 0,
};

/// The stacks of all threads.
#[derive(Drop)]
pub(crate) struct Stacks {
    pub(crate) rows: Vec<Row>,
    pub(crate) unkept: u64,
    pub(crate) frames: [Frame; THREADS],
    ghost room: { rows_limit ≤ vec_capacity rows },
}

/// Before any call of a thread.
fn bottom(thread: u8) -> Position
    ensures { result ≡ bottom thread }
{
    Position {
        base: Base::Thread(thread),
        lost: 0,
    }
}

/// Where a thread comes to that went on so from its step before.
fn arrive(
    rows: &mut Vec<Row>,
    thread: u8,
    pc: u32,
    position: Position,
    last: Option<Turn>,
) -> Position
    requires room { rows_limit ≤ vec_capacity rows.old }
    ensures rows { rows.new.items ≡ (arrived thread pc position last rows.old.items).rows }
    ensures position { result ≡ (arrived thread pc position last rows.old.items).position }
    ensures room { rows_limit ≤ vec_capacity rows.new }
{
    match last {
        None => enter(rows, bottom(thread), pc),
        Some(Turn::Onward) => position,
        Some(Turn::Call) => enter(rows, position, pc),
        Some(Turn::Return) => leave(rows.as_slice(), position),
        Some(Turn::Swap) => {
            let caller = leave(rows.as_slice(), position);
            enter(rows, caller, pc)
        }
        Some(Turn::Runtime(behind)) => {
            if behind == pc {
                return position;
            }
            enter(rows, bottom(thread), pc)
        }
    }
}

impl Stacks {
    ghost use Rattle.ckrt_look_profile.specs.Stacks.{met, no_stacks, stepped};
    ghost use Rattle.ckrt_look_profile.specs.Counts.{stacks_in};

    /// No step was made yet.
    pub(crate) fn new(alloc: Global) -> Result<Stacks, AllocError>
        ensures { IfOk result (λ stacks. stacks_in stacks ≡ no_stacks) }
    {
        Ok(Stacks {
            rows: Vec::with_capacity(alloc, ROWS)?,
            unkept: 0,
            frames: [BEGIN; THREADS],
        })
    }

    /// A thread that made steps before, whose next one is at `pc`.
    pub(crate) fn meet(&mut self, thread: u8, pc: u32)
        requires { thread < threads_limit }
        ensures { stacks_in self.new ≡ met thread pc (stacks_in self.old) }
    {
        let place = usize::from(thread);
        let steps = self.frames[place].steps;
        let position = enter(&mut self.rows, bottom(thread), pc);
        self.frames[place] = Frame {
            position,
            last: Some(Turn::Runtime(pc)),
            steps,
        };
    }

    /// So many steps of a thread on one stack, the first of them at `pc`, from the last of which it goes on so.
    pub(crate) fn step(&mut self, thread: u8, pc: u32, turn: Turn, count: u64)
        requires { thread < threads_limit }
        ensures stacks { stacks_in self.new ≡ stepped count thread pc turn (stacks_in self.old) }
        ensures threads { length (stacks_in self.old).frames ≡ threads_limit }
    {
        let place = usize::from(thread);
        let Frame {
            position,
            last,
            steps,
        } = self.frames[place];
        let position = arrive(&mut self.rows, thread, pc, position, last);
        row::count(&mut self.rows, &mut self.unkept, position, count);
        self.frames[place] = Frame {
            position,
            last: Some(turn),
            steps: steps.saturating_add(count),
        };
    }
}
