//! Runs a guest on the machine, and tells how many steps it made in how much processor time.

ghost use Rattle.std.specs.Prelude.{◌≤◌};

use anyhow::{Result, bail, ensure};
use ckrt_calls::Status;
use ckrt_events::Event;
use ckrt_machine::{Answer, Machine};
use ckrt_memory::MemoryError;
use ckrt_schedule::{next_input, taken_by};
use std::io::Write;
use std::time::CpuClock;
use std::{fs, io};

/// How to run a guest.
#[derive(Clone, Copy)]
pub struct Shape {
    pages: u32,
    harts: u8,
    steps: u16,
    ghost few_pages: { (16 ≤ pages) × (pages ≤ 1024) },
    ghost few_harts: { (1 ≤ harts) × (harts ≤ 8) },
}

/// A Run has at most that many steps.
pub fn shape_of(pages: u32, harts: u32, steps: u32) -> Result<Shape> {
    ensure!(16 <= pages && pages <= 1024, "PAGES from 16 to 1024");
    ensure!(1 <= harts && harts <= 8, "HARTS from 1 to 8");
    ensure!(1 <= steps && steps <= 65_535, "STEPS from 1 to 65535");
    Ok(Shape {
        pages,
        harts: harts as u8,
        steps: steps as u16,
    })
}

/// Does the event if the machine accepts it, and writes what it put.
fn offer(machine: &mut Machine, event: &Event, console: &mut impl Write) -> io::Result<u64> {
    if !event.in_range() || machine.accept(0, event).is_err() {
        return Ok(0);
    }
    let answer = machine.step(event);
    console.write_all(machine.last_output())?;
    match answer {
        Answer::Ran(steps, _) => Ok(u64::from(steps)),
        _ => Ok(0),
    }
}

/// One turn of every hart: its next thread, and a Run.
fn turn(machine: &mut Machine, shape: Shape, console: &mut impl Write) -> io::Result<u64> {
    let mut steps = 0u64;
    for hart in 0..shape.harts {
        if let Some(thread) = machine.planned(hart) {
            offer(machine, &Event::Place(hart, thread), console)?;
        }
        let made = offer(machine, &Event::Run(hart, shape.steps), console)?;
        steps = steps.wrapping_add(made);
    }
    Ok(steps)
}

/// The input of a guest, and how many of its bytes were given.
#[derive(Drop)]
struct Input {
    bytes: Vec<u8>,
    taken: usize,
}

impl Input {
    /// What is given next, if anything is.
    fn next(&self, machine: &Machine) -> Option<Event> {
        let (_, rest) = self.bytes.split_at(self.taken.min(self.bytes.len()));
        next_input(machine.tables(), rest)
    }

    /// Gives what there is room for.
    fn give(&mut self, machine: &mut Machine, console: &mut impl Write) -> io::Result<()> {
        for _ in 0..u64::MAX {
            let Some(event) = self.next(machine) else {
                break;
            };
            offer(machine, &event, console)?;
            self.taken = self.taken.saturating_add(taken_by(&event));
        }
        Ok(())
    }
}

/// Gives the guest what there is room for of its input, where it has one.
fn feed(
    machine: &mut Machine,
    input: &mut Option<Input>,
    console: &mut impl Write,
) -> io::Result<()> {
    match input {
        Some(input) => input.give(machine, console),
        None => Ok(()),
    }
}

/// Turns until the program ends or no hart makes a step.
fn drive(
    machine: &mut Machine,
    shape: Shape,
    input: &mut Option<Input>,
    console: &mut impl Write,
) -> io::Result<u64> {
    let mut steps = 0u64;
    for _ in 0..u64::MAX {
        feed(machine, input, console)?;
        let made = turn(machine, shape, console)?;
        if made == 0 {
            break;
        }
        steps = steps.wrapping_add(made);
    }
    Ok(steps)
}

/// Drives the machine, and writes how long that took.
fn time_drive(
    rt: &HostRuntime,
    machine: &mut Machine,
    shape: Shape,
    input: &mut Option<Input>,
) -> Result<()> {
    let start = rt.process_cpu_time()?;
    let steps = drive(machine, shape, input, &mut io::writer(rt))?;
    let end = rt.process_cpu_time()?;
    let nanoseconds = end.as_nanos().saturating_sub(start.as_nanos());
    eprintln!(rt; "steps {steps} nanoseconds {nanoseconds}")?;
    ensure!(machine.status() != Status::Running, "no thread can run");
    Ok(())
}

/// The machine that has the image of a file.
fn machine_of(rt: &HostRuntime, path: &str, shape: Shape) -> Result<Machine> {
    let image = fs::read(rt, path)?;
    match Machine::new(
        rt.alloc(),
        shape.pages,
        shape.harts as usize,
        image.as_slice(),
    ) {
        Ok(machine) => Ok(machine),
        Err(MemoryError::ImageTooLong) => bail!("the image is too long"),
        Err(MemoryError::OutOfMemory) => bail!("out of memory"),
    }
}

/// Runs the guest of a file. Its console goes to standard output.
pub fn time_run(rt: &HostRuntime, path: &str, shape: Shape) -> Result<()> {
    let mut machine = machine_of(rt, path, shape)?;
    time_drive(rt, &mut machine, shape, &mut None)
}

/// Runs the guest of a file, whose input is another file. It is given by the same rule as a drive gives it.
pub fn time_fed(rt: &HostRuntime, path: &str, shape: Shape, input: &str) -> Result<()> {
    let bytes = fs::read(rt, input)?;
    let mut machine = machine_of(rt, path, shape)?;
    time_drive(
        rt,
        &mut machine,
        shape,
        &mut Some(Input { bytes, taken: 0 }),
    )
}
