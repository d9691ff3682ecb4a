//! Which events are refused.
ghost use Rattle.std.specs.Prelude.{◌≡◌, ℕ};
ghost use Rattle.ckrt_events.specs.declared.event.Event.TheVariants.{Place, Input, Eof, Tick};
ghost use Rattle.ckrt_machine.specs.Refusals.{refusal_in, run_refusal, running_refusal};

use crate::event::Refusal;
use crate::hart::{RUN_OUTPUT, is_running};
use arrayvec::ArrayVec;
use ckrt_calls::{HELD_LIMIT, INPUT_LIMIT, Tables};
use ckrt_events::Event;
use ckrt_thread::{Hart, MOMENT_END, ThreadId};

/// The first reason to refuse the event where that many bytes of output are held, if there is one.
pub fn refusal(tables: &Tables, held: usize, event: &Event) -> Option<Refusal>
    ensures { result ≡ refusal_in held event.now tables.now }
{
    if is_running(tables) {
        running_refusal(tables, held, event)
    } else {
        Some(Refusal::Ended)
    }
}

/// The same while the program runs.
fn running_refusal(tables: &Tables, held: usize, event: &Event) -> Option<Refusal>
    ensures { result ≡ running_refusal held event.now tables.now }
{
    match event {
        Event::Place(hart, thread) => place_refusal(tables, *hart, *thread),
        Event::Run(hart, _) | Event::RunLong(hart, _) => run_refusal(tables, held, *hart),
        Event::Input(bytes) => input_refusal(tables, bytes),
        Event::Eof => eof_refusal(tables),
        Event::Tick(ticks) => tick_refusal(tables, *ticks),
    }
}

fn place_refusal(tables: &Tables, hart: Hart, thread: ThreadId) -> Option<Refusal>
    ensures { (held : ℕ) → result ≡ running_refusal held (Place hart thread) tables.now }
{
    if usize::from(hart) >= tables.threads.hart_count() {
        return Some(Refusal::NoSuchHart);
    }
    if tables.threads.thread(u32::from(thread)).is_none() {
        return Some(Refusal::NoSuchThread);
    }
    if !tables.threads.is_ready(thread) {
        return Some(Refusal::NotReady);
    }
    None
}

fn run_refusal(tables: &Tables, held: usize, hart: Hart) -> Option<Refusal>
    ensures { result ≡ run_refusal held hart tables.now }
{
    if usize::from(hart) >= tables.threads.hart_count() {
        return Some(Refusal::NoSuchHart);
    }
    if tables.threads.on_hart(usize::from(hart)).is_none() {
        return Some(Refusal::HartIdle);
    }
    if held > HELD_LIMIT - RUN_OUTPUT {
        return Some(Refusal::OutputFull);
    }
    None
}

fn input_refusal(tables: &Tables, bytes: &ArrayVec<u8, 64>) -> Option<Refusal>
    ensures { (held : ℕ) → result ≡ running_refusal held (Input bytes.now) tables.now }
{
    if tables.closed {
        return Some(Refusal::InputClosed);
    }
    if tables.input.len() + bytes.len() > INPUT_LIMIT {
        return Some(Refusal::InputFull);
    }
    None
}

fn eof_refusal(tables: &Tables) -> Option<Refusal>
    ensures { (held : ℕ) → result ≡ running_refusal held Eof tables.now }
{
    tables.closed.then_some(Refusal::InputClosed)
}

fn tick_refusal(tables: &Tables, ticks: u32) -> Option<Refusal>
    ensures { (held : ℕ) → result ≡ running_refusal held (Tick ticks) tables.now }
{
    if tables.clock >= MOMENT_END - u64::from(ticks) {
        return Some(Refusal::ClockEnd);
    }
    None
}
