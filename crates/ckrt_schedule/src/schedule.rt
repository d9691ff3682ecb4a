//! Which event a schedule has next.
ghost use Rattle.std.specs.Prelude.{◌≡◌, ◌≤◌, ◌<◌, ℕ, IfSome, Some};
ghost use Rattle.ckrt_events.specs.Bytes.{IsInRange};
ghost use Rattle.ckrt_events.specs.declared.event.TheConstants.{LONG_RUN_LIMIT};
ghost use Rattle.ckrt_thread.specs.declared.records.Object.TheVariants.{Input};
ghost use Rattle.ckrt_machine.specs.Plans.{least_ready, planned};
ghost use Rattle.ckrt_machine.specs.Runs.{is_running};
ghost use Rattle.ckrt_schedule.specs.declared.schedule.Sought.TheVariants.{Busy};
ghost use Rattle.ckrt_schedule.specs.Schedules.{IsInRangeNext, chosen, earliest_deadline, event_at, first_ready, greatest_ready, idle_until, is_any_ready, is_sought, next_by, next_event, next_sought, of_busy, run_by, runner_at, sooner, ticks_to, turn_at, turn_by};

use crate::lot::lot_of;
use crate::next::{Next, ScheduleEnd};
use ckrt_calls::{Status, Tables};
use ckrt_events::{Event, LONG_RUN_LIMIT, RUN_LIMIT};
use ckrt_machine::Machine;
use ckrt_thread::{Hart, MAX_THREADS, Object, ThreadId, Threads, Wait};

/// By what events are chosen.
#[derive(Clone, Copy, Debug, PartialEq, Eq)]
pub struct Schedule {
    /// How many steps a run has at most.
    pub turn: u32,
    /// The seed of the lots by which harts and steps are drawn. Without one they go in their fixed order.
    pub seed: Option<u64>,
}

/// Which hart is sought.
#[derive(Clone, Copy, Debug, PartialEq, Eq)]
pub enum Sought {
    /// One that a thread is on.
    Occupied,
    /// One that a thread is on, or is ready for.
    Busy,
}

/// A turn in a round.
#[derive(Clone, Copy, Debug, PartialEq, Eq)]
pub struct Turn {
    /// Its place in the round.
    pub place: u8,
    /// The thread whose round it is.
    pub owner: ThreadId,
    /// The hart that is looked at first.
    pub first: u8,
    /// The thread at which an empty hart begins to look for one that is ready.
    pub start: ThreadId,
    /// How many steps a run has.
    pub steps: u32,
}

/// Whether some thread is ready.
fn is_any_ready(threads: &Threads) -> bool
    ensures { result ≡ is_any_ready threads.now }
{
    ready_from(threads, 1).is_some()
}

/// Whether the hart is one that is sought.
fn is_sought(machine: &Machine, sought: Sought, hart: Hart) -> bool
    ensures { result ≡ is_sought sought machine.now.state.tables hart }
{
    let is_occupied = machine
        .tables()
        .threads
        .on_hart(usize::from(hart))
        .is_some();
    match sought {
        Sought::Occupied => is_occupied,
        Sought::Busy => is_occupied || is_any_ready(&machine.tables().threads),
    }
}

/// The first one from a hart on, up to the last hart.
fn next_sought(machine: &Machine, sought: Sought, from: Hart) -> Option<Hart>
    requires { from ≤ 8 }
    ensures found { result ≡ next_sought sought from machine.now.state.tables }
    ensures small { IfSome result (λ hart. hart ≤ 7) }
    ensures within { IfSome result (λ hart. hart < machine.now.state.tables.threads.hart_count) }
{
    let count = machine.tables().threads.hart_count() as u8;
    for hart in from..count {
        if is_sought(machine, sought, hart) {
            return Some(hart);
        }
    }
    None
}

/// The sooner of two deadlines, where there are two.
fn sooner(first: Option<u64>, second: Option<u64>) -> Option<u64>
    ensures { result ≡ sooner first second }
{
    match (first, second) {
        (None, other) => other,
        (Some(deadline), None) => Some(deadline),
        (Some(deadline), Some(other)) => Some(deadline.min(other)),
    }
}

/// The least deadline of the waits.
fn earliest_deadline(waits: &[Wait]) -> Option<u64>
    ensures { result ≡ earliest_deadline waits.now }
{
    let mut earliest = None;
    for place in (0..waits.len()).rev() {
        earliest = sooner(waits[place].deadline, earliest);
    }
    earliest
}

/// The ticks from one moment to a later one, as many as one event takes.
fn ticks_to(deadline: u64, clock: u64) -> u32
    ensures ticks { result ≡ ticks_to deadline clock }
    ensures some { 1 ≤ result }
{
    deadline
        .saturating_sub(clock)
        .min(u64::from(u32::MAX))
        .max(1) as u32
}

/// What is next where nobody is on a hart or ready.
pub fn idle(tables: &Tables) -> Next
    ensures next { result ≡ idle_until (earliest_deadline tables.now.threads.waits) tables.now }
    ensures in_range { IsInRangeNext result }
{
    if let Some(deadline) = earliest_deadline(tables.threads.waits().as_slice()) {
        return Next::Submit(Event::Tick(ticks_to(deadline, tables.clock)));
    }
    if tables.threads.first_waiter(Object::Input).is_some() {
        return Next::End(ScheduleEnd::WaitsForInput);
    }
    Next::End(ScheduleEnd::Deadlock)
}

/// The turn of a seed, or of none, at a place of a round: after that many events, among that many harts.
fn turn_by(seed: Option<u64>, most: u32, place: u8, behind: u64, harts: u32) -> Turn
    requires some { 1 ≤ most }
    requires place { place ≤ 16 }
    requires harts { (1 ≤ harts) × (harts ≤ 8) }
    ensures turn { result ≡ turn_by seed most place behind harts }
    ensures owner { (1 ≤ result.owner) × (result.owner ≤ 64) }
    ensures first { result.first ≤ 8 }
    ensures start { (1 ≤ result.start) × (result.start ≤ 64) }
    ensures steps { (1 ≤ result.steps) × (result.steps ≤ most) }
{
    let owner = (behind / u64::from(2 * harts + 1) % 64 + 1) as ThreadId;
    match seed {
        None => Turn {
            place,
            owner,
            first: place / 2,
            start: owner,
            steps: most,
        },
        Some(seed) => {
            let lot = lot_of(seed, behind);
            Turn {
                place,
                owner,
                first: (lot % harts) as u8,
                start: (lot / 8 % 64 + 1) as ThreadId,
                steps: lot / 8 % most + 1,
            }
        }
    }
}

/// The turn after that many events.
fn turn_at(machine: &Machine, schedule: Schedule, behind: u64) -> Turn
    requires some { 1 ≤ schedule.turn }
    requires few { schedule.turn ≤ LONG_RUN_LIMIT }
    requires harts { 1 ≤ machine.now.state.tables.threads.hart_count }
    ensures turn { result ≡ turn_at schedule behind machine.now.state.tables }
    ensures owner { (1 ≤ result.owner) × (result.owner ≤ 64) }
    ensures first { result.first ≤ 8 }
    ensures start { (1 ≤ result.start) × (result.start ≤ 64) }
    ensures steps { (1 ≤ result.steps) × (result.steps ≤ LONG_RUN_LIMIT) }
{
    let harts = machine.tables().threads.hart_count() as u32;
    let place = behind % u64::from(2 * harts + 1);
    turn_by(schedule.seed, schedule.turn, place as u8, behind, harts)
}

/// A run of that many steps, by the shortest event that has as many.
pub fn run_by(hart: Hart, steps: u32) -> Event
    requires hart { hart ≤ 7 }
    requires some { 1 ≤ steps }
    requires few { steps ≤ LONG_RUN_LIMIT }
    ensures event { result ≡ run_by hart steps }
    ensures in_range { IsInRange result }
{
    if steps <= RUN_LIMIT {
        Event::Run(hart, steps as u16)
    } else {
        Event::RunLong(hart, steps)
    }
}

/// The hart whose thread runs at a turn.
fn runner_at(machine: &Machine, turn: Turn) -> Option<Hart>
    requires { turn.first ≤ 8 }
    ensures runner { result ≡ runner_at turn machine.now.state.tables }
    ensures small { IfSome result (λ hart. hart ≤ 7) }
{
    if turn.place % 2 != 1 {
        return None;
    }
    match next_sought(machine, Sought::Occupied, turn.first) {
        Some(hart) => Some(hart),
        None => next_sought(machine, Sought::Occupied, 0),
    }
}

/// The least ready thread from this id on.
fn ready_from(threads: &Threads, from: ThreadId) -> Option<ThreadId>
    requires { (1 ≤ from) × (from ≤ 64) }
    ensures ready { result ≡ least_ready from threads.now }
    ensures numbered { IfSome result (λ t. (1 ≤ t) × (t ≤ 64)) }
{
    for thread in from..MAX_THREADS as ThreadId + 1 {
        if threads.is_ready(thread) {
            return Some(thread);
        }
    }
    None
}

/// The thread that is planned for a hart.
fn planned_for(machine: &Machine, hart: Hart) -> Option<ThreadId>
    ensures who { result ≡ planned hart machine.now.state.tables }
    ensures numbered { IfSome result (λ t. (1 ≤ t) × (t ≤ 64)) }
{
    machine.planned(hart)
}

/// The greatest ready thread.
fn greatest_ready(threads: &Threads) -> Option<ThreadId>
    ensures greatest { result ≡ greatest_ready 64 threads.now }
    ensures numbered { IfSome result (λ t. (1 ≤ t) × (t ≤ 64)) }
{
    for thread in (1..MAX_THREADS as ThreadId + 1).rev() {
        if threads.is_ready(thread) {
            return Some(thread);
        }
    }
    None
}

/// The thread that an empty hart gets: the least ready one from a start on, which is folded into the ids up to the greatest ready one.
fn first_ready(threads: &Threads, start: ThreadId) -> Option<ThreadId>
    requires { (1 ≤ start) × (start ≤ 64) }
    ensures first { result ≡ first_ready start threads.now }
    ensures numbered { IfSome result (λ t. (1 ≤ t) × (t ≤ 64)) }
{
    match greatest_ready(threads) {
        Some(greatest) => ready_from(threads, (start - 1) % greatest + 1),
        None => None,
    }
}

/// Who goes onto a hart at a turn: the thread whose round it is, where it is ready. Else onto an occupied hart the one that is planned,
/// and onto an empty one the first ready thread from the turn's start on.
fn chosen(machine: &Machine, turn: Turn, hart: Hart) -> Option<ThreadId>
    requires owner { (1 ≤ turn.owner) × (turn.owner ≤ 64) }
    requires start { (1 ≤ turn.start) × (turn.start ≤ 64) }
    ensures who { result ≡ chosen turn hart machine.now.state.tables }
    ensures numbered { IfSome result (λ t. (1 ≤ t) × (t ≤ 64)) }
{
    if machine.tables().threads.is_ready(turn.owner) {
        return Some(turn.owner);
    }
    if is_sought(machine, Sought::Occupied, hart) {
        return planned_for(machine, hart);
    }
    first_ready(&machine.tables().threads, turn.start)
}

/// The event of a busy hart: the thread that is chosen for it goes onto it, and where nobody is, its thread runs.
fn of_busy(machine: &Machine, turn: Turn, hart: Hart) -> Event
    requires owner { (1 ≤ turn.owner) × (turn.owner ≤ 64) }
    requires start { (1 ≤ turn.start) × (turn.start ≤ 64) }
    requires hart { hart ≤ 7 }
    requires some { 1 ≤ turn.steps }
    requires few { turn.steps ≤ LONG_RUN_LIMIT }
    ensures event { result ≡ of_busy turn hart machine.now.state.tables }
    ensures in_range { IsInRange result }
{
    match chosen(machine, turn, hart) {
        Some(thread) => Event::Place(hart, thread),
        None => run_by(hart, turn.steps),
    }
}

/// The event of a turn, where `least` is the least busy hart.
fn event_at(machine: &Machine, turn: Turn, least: u8) -> Event
    requires owner { (1 ≤ turn.owner) × (turn.owner ≤ 64) }
    requires first { turn.first ≤ 8 }
    requires start { (1 ≤ turn.start) × (turn.start ≤ 64) }
    requires some { 1 ≤ turn.steps }
    requires few { turn.steps ≤ LONG_RUN_LIMIT }
    requires least { least ≤ 7 }
    ensures event { result ≡ event_at turn least machine.now.state.tables }
    ensures in_range { IsInRange result }
{
    if usize::from(turn.place) == 2 * machine.tables().threads.hart_count() {
        return Event::Tick(1);
    }
    if let Some(runner) = runner_at(machine, turn) {
        return run_by(runner, turn.steps);
    }
    match next_sought(machine, Sought::Busy, turn.first) {
        Some(hart) => of_busy(machine, turn, hart),
        None => of_busy(machine, turn, least),
    }
}

/// The event that the schedule has next for a program that runs, or why there is none.
fn next_scheduled(machine: &Machine, schedule: Schedule, behind: u64) -> Next
    requires some { 1 ≤ schedule.turn }
    requires few { schedule.turn ≤ LONG_RUN_LIMIT }
    ensures next { result ≡ next_by (next_sought Busy 0 machine.now.state.tables)
        (turn_at schedule behind machine.now.state.tables) machine.now.state.tables }
    ensures in_range { IsInRangeNext result }
{
    let Some(least) = next_sought(machine, Sought::Busy, 0) else {
        return idle(machine.tables());
    };
    let turn = turn_at(machine, schedule, behind);
    Next::Submit(event_at(machine, turn, least))
}

/// The event that is next after that many others, or why there is none: what is given, and else what the schedule has.
pub fn next_event(machine: &Machine, schedule: Schedule, given: Option<Event>, behind: u64) -> Next
    requires some { 1 ≤ schedule.turn }
    requires few { schedule.turn ≤ LONG_RUN_LIMIT }
    requires given { IfSome given IsInRange }
    ensures next { result ≡ next_event schedule given behind machine.now.state.tables }
    ensures in_range { IsInRangeNext result }
{
    if !matches!(machine.status(), Status::Running) {
        return Next::End(ScheduleEnd::Ended);
    }
    match given {
        Some(event) => Next::Submit(event),
        None => next_scheduled(machine, schedule, behind),
    }
}
