//! Runs lives of one program, and says what it met. It is run with each growth of memory refused in turn
//! (`tests/growths`).

ghost use Rattle.std.specs.Prelude.{IsTrue, All};
ghost use Rattle.ckrt_main.specs.Lives.{IsInRangeLife};

use crate::growth::{CONFIG, IMAGE};
use ckrt_events::Event;
use ckrt_main::{Command, Life, LivesFault, lives};
use std::alloc::{AllocError, Global};

/// A life of these commands that is stopped at a call, or never.
fn life(alloc: Global, commands: &[Command], stop_at: u64) -> Result<Life, AllocError> {
    let mut list = Vec::new(alloc);
    for command in commands {
        list.push(command.clone()?)?;
    }
    let mut fill = Vec::new(alloc);
    fill.push(0xa5)?;
    Ok(Life {
        commands: list,
        stop_at,
        fill,
    })
}

/// A life that is stopped at the gate of its commit, one that is stopped before it recovered, and one that goes on.
fn three_lives(alloc: Global) -> Result<Vec<Life>, AllocError> {
    let first = [
        Command::Submit(Event::Place(0, 1)),
        Command::Submit(Event::Run(0, 2)),
        Command::Commit,
    ];
    let last = [Command::Submit(Event::Run(0, 4)), Command::Checkpoint];
    let mut list = Vec::new(alloc);
    list.push(life(alloc, &first, 4)?)?;
    list.push(life(alloc, &[], 1)?)?;
    list.push(life(alloc, &last, 0)?)?;
    Ok(list)
}

/// Whether the arguments of each command of each life are in their ranges.
fn are_in_range(list: &[Life]) -> bool
    ensures { IsTrue result → All IsInRangeLife list.now }
{
    list.iter().all(|life| life.in_range())
}

/// What the lives met.
pub fn report_lives(alloc: Global) -> &'static str {
    let Ok(list) = three_lives(alloc) else {
        return "no lives";
    };
    if !are_in_range(&list) {
        return "lives out of range";
    }
    match lives(alloc, &IMAGE, CONFIG, &list) {
        Ok(_) => "lived",
        Err(LivesFault::OutOfMemory) => "lives: OutOfMemory",
        Err(LivesFault::Format) => "lives met something else",
    }
}
