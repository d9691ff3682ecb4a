//! A closed witness of the promise of many lives. What stops a test meets any clause, so it shows its witness by coming to its end.
ghost use Rattle.ckrt_stored.specs.Programs.{formatted_program};
ghost use Rattle.ckrt_witness.specs.Lives.{LivesWitness};

use crate::closed::{SMALL, copied};
use crate::closed_machine::WAITERS;
use crate::lives::live_four_times;
use ckrt_events::{Command, Event};
use ckrt_main::Life;
use ckrt_recovery::Config;
use std::process::Abort;

/// A life of these commands that is stopped at a call of its disk, or never.
fn life<R: Abort + AllocGlobal>(rt: &R, commands: &[Command], stop_at: u64) -> Life {
    let mut list = Vec::new(rt.alloc());
    for command in commands {
        let command = command.clone().expect(rt, "memory for a command");
        list.push(command).expect(rt, "memory for a command");
    }
    Life {
        commands: list,
        stop_at,
        fill: copied(rt, &[0xa5]),
    }
}

/// Lives of a program, of which two release their first byte: they meet all premises of the promise.
fn many_lives<R: Abort + AllocGlobal>(rt: &R, image: &[u8], config: Config, list: &[Life])
    ensures { LivesWitness (formatted_program config image.now) }
{
    match live_four_times(rt.alloc(), image, config, list, 0) {
        Some(_) => {}
        None => panic!(rt; "the lives are others, or no byte is released twice"),
    }
}

#[test]
fn the_premises_of_many_lives_are_met(rt: HostRuntime) {
    let run = [
        Command::Submit(Event::Place(0, 1)),
        Command::Submit(Event::Run(0, 9)),
        Command::Commit,
    ];
    let tick = [
        Command::Submit(Event::Tick(1)),
        Command::Auto(0, 3),
        Command::Commit,
    ];
    // the fourth call of the first life opens the gate of its commit
    let list = [
        life(&rt, &run, 4),
        life(&rt, &tick, 1),
        life(&rt, &tick, 0),
        life(&rt, &[], 0),
    ];
    many_lives(&rt, WAITERS, SMALL, &list);
}
