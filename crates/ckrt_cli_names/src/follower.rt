//! A recording that is made once more beside the lines that tell of it, up to the place of each.
use ckrt_events::Event;
use ckrt_look_calls::is_stopped;
use ckrt_look_recording::Frame;
use ckrt_machine::Machine;
use ckrt_memory::Memory;
use ckrt_thread::{Thread, ThreadId};
use std::alloc::Global;

/// A recording, and how far it is made.
#[derive(Drop)]
pub(crate) struct Follower {
    pub(crate) alloc: Global,
    machine: Machine,
    events: Vec<Event>,
    /// How many events were done before these.
    first: u64,
    /// How many of them are done.
    done: usize,
    /// How many steps of the next one are made.
    step: u32,
}

/// The hart of a run and its steps.
fn run_of(event: &Event) -> Option<(u8, u32)> {
    match event {
        Event::Run(hart, limit) => Some((*hart, u32::from(*limit))),
        Event::RunLong(hart, limit) => Some((*hart, *limit)),
        _ => None,
    }
}

/// Makes an event, where it is accepted.
fn make(machine: &mut Machine, event: &Event) -> bool {
    if !event.in_range() || machine.accept(0, event).is_err() {
        return false;
    }
    machine.step(event);
    true
}

/// Makes the steps of a run from so many to so many, where it can begin.
fn make_steps(machine: &mut Machine, hart: u8, from: u32, to: u32) -> bool {
    let mut from = from;
    if from == 0 {
        if !make(machine, &Event::Run(hart, 1)) {
            return false;
        }
        from = 1;
    }
    if from < to && !is_stopped(machine, hart) {
        machine.go_on(hart, to - from);
    }
    true
}

impl Follower {
    /// One at the begin of a recording.
    pub(crate) fn new(alloc: Global, machine: Machine, first: u64, events: Vec<Event>) -> Follower {
        Follower {
            alloc,
            machine,
            events,
            first,
            done: 0,
            step: 0,
        }
    }

    /// The memory there.
    pub(crate) fn memory(&self) -> &Memory {
        self.machine.memory()
    }

    /// The frame of a thread that hasn't ended there.
    pub(crate) fn frame_of(&self, thread: ThreadId) -> Option<Frame> {
        let threads = &self.machine.tables().threads;
        match threads.thread(u32::from(thread)) {
            Some(Thread::Live(live)) => {
                Some(Frame::of(&live.regs, threads.wait_of(thread).is_some()))
            }
            _ => None,
        }
    }

    /// Makes what is left of the next event.
    fn finish(&mut self) -> bool {
        let Some(event) = self.events.get(self.done) else {
            return false;
        };
        let is_made = match run_of(event) {
            Some((hart, limit)) if self.step > 0 => {
                make_steps(&mut self.machine, hart, self.step, limit)
            }
            _ => make(&mut self.machine, event),
        };
        self.done = self.done.saturating_add(1);
        self.step = 0;
        is_made
    }

    /// Makes the steps of the next event up to so many.
    fn begin(&mut self, step: u32) -> bool {
        let Some((hart, _)) = self.events.get(self.done).and_then(run_of) else {
            return false;
        };
        let is_made = make_steps(&mut self.machine, hart, self.step, step);
        self.step = step;
        is_made
    }

    /// Whether so many events are done, which it makes.
    fn go_to_event(&mut self, event: u64) -> bool {
        let Some(more) = event.checked_sub(self.first) else {
            return false;
        };
        for _ in self.done..self.events.len() {
            if self.done as u64 >= more {
                break;
            }
            if !self.finish() {
                return false;
            }
        }
        self.done as u64 == more
    }

    /// Goes onward to a place, behind so many events and so many steps of the next one. `false` where it can't.
    pub(crate) fn go_to(&mut self, event: u64, step: u32) -> bool {
        if !self.go_to_event(event) || step < self.step {
            return false;
        }
        step == self.step || self.begin(step)
    }
}
