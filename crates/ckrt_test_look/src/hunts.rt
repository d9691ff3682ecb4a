//! Hunts of small programs, and what their seeds come to.

ghost use Rattle.std.specs.Prelude.{◌≤◌};

use crate::expect::{expect_eq, image_of};
use ckrt_drive::Nobody;
use ckrt_hunt_schedules::{Hunt, Input, Outcome, Outcomes, Row, Seeds, Shape, Tally, Waiting};
use ckrt_rv32i::Cause;
use std::process::Abort;

/// What each program is run with.
pub const SHAPE: Shape = Shape {
    pages: 16,
    harts: 2,
    limit: 10_000,
    ignores_output: false,
};

/// The outcome that is wanted.
#[derive(Drop)]
pub enum Wanted {
    Exited(u32),
    Faulted(u8, u32, Cause),
    Deadlock(&'static [Waiting]),
    WaitsForInput,
    /// Who waits for whom in a circle.
    NoEnd(&'static [Waiting]),
}

/// The hunt of a program that begins with these words.
fn hunt_of<R: Abort + AllocGlobal>(rt: &R, words: &[u32]) -> Hunt<'static> {
    let image = image_of(rt, words);
    match Hunt::new(rt.alloc(), image.as_slice(), SHAPE, Input::none()) {
        Ok(hunt) => hunt,
        Err(error) => panic!(rt; "{error}"),
    }
}

/// The outcomes of a tally.
pub fn outcomes_in<R: Abort + AllocGlobal>(rt: &R, tally: &mut Tally) -> Outcomes {
    match Outcomes::new(rt.alloc()) {
        Ok(outcomes) => {
            let mut outcomes = outcomes;
            outcomes.take(tally);
            outcomes
        }
        Err(_) => panic!(rt; "memory for outcomes"),
    }
}

/// What so many seeds of a program come to, from seed 0 on.
pub fn outcomes_of<R: Abort + AllocGlobal>(rt: &R, words: &[u32], seeds: u64) -> Outcomes
    requires some { 1 ≤ seeds }
{
    let seeds = Seeds {
        first: 0,
        last: seeds - 1,
    };
    match Tally::new(rt.alloc()) {
        Ok(tally) => {
            let mut tally = tally;
            hunt_of(rt, words).note_seeds(&mut tally, seeds, false, &mut Nobody);
            outcomes_in(rt, &mut tally)
        }
        Err(_) => panic!(rt; "memory for a tally"),
    }
}

/// The outcome of a row.
pub fn expect_outcome<R: Abort>(rt: &R, row: &Row, want: &Wanted) {
    match (&row.told.outcome, want) {
        (Outcome::Exited(got), Wanted::Exited(want)) => expect_eq(rt, *got, *want),
        (Outcome::Faulted(thread, pc, cause), Wanted::Faulted(want, at, why)) => {
            expect_eq(rt, *thread, *want);
            expect_eq(rt, *pc, *at);
            expect_eq(rt, *cause, *why);
        }
        (Outcome::Deadlock(got), Wanted::Deadlock(want)) => {
            expect_eq(rt, got.as_slice(), *want);
        }
        (Outcome::WaitsForInput, Wanted::WaitsForInput) => {}
        (Outcome::NoEnd(got), Wanted::NoEnd(want)) => {
            expect_eq(rt, got.as_slice(), *want);
        }
        _ => panic!(rt; "another kind of outcome"),
    }
}
