//! Which event comes next.
ghost use Rattle.std.specs.Prelude.{◌≡◌, ◌≤◌, ◌<◌, ◌+◌, IfSome, false};
ghost use Rattle.ckrt_thread.specs.State.{holds, is_live};
ghost use Rattle.ckrt_events.specs.Bytes.{IsInRange};
ghost use Rattle.ckrt_machine.specs.Steps.{hart_of};
ghost use Rattle.ckrt_machine.specs.Runs.{is_running};
ghost use Rattle.ckrt_schedule.specs.Schedules.{IsInRangeNext};
ghost use Rattle.ckrt_hunt_schedules.specs.declared.made.Made.{Made};
ghost use Rattle.ckrt_hunt_schedules.specs.declared.plan.Plan.{Plan};
ghost use Rattle.ckrt_schedule.specs.Next.{given_in};
ghost use Rattle.ckrt_hunt_schedules.specs.Lots.{lots_of};
ghost use Rattle.ckrt_hunt_schedules.specs.Turns.{Chooses, IsFitNext, IsNumbered, IsWithin, best_among, better, bytes_of, clock_period, considered, drawn_length, drawn_rank, drawn_tick, drawn_turn, event_for, given_or_next, hart_from, is_clocks, is_enough, length_of, may_run, nearer, next, next_for, next_point, on_or_onto, or_a_tick, or_enough, rank_of, ranked, runner_of, steps_in, steps_of, tick_by, wanted_hart};

use crate::given::{Turn, given_turn};
use crate::lots::{CLOCK, HART, LENGTH, SCALE, TurnLots, shortest_of};
use crate::made::Made;
use crate::plan::Plan;
use ckrt_calls::{Status, Tables};
use ckrt_events::Event;
use ckrt_machine::Machine;
use ckrt_schedule::{Next, ScheduleEnd, idle, next_input, run_by};
use ckrt_thread::{Hart, MAX_HARTS, MAX_THREADS, Thread, ThreadId, Threads};

/// A thread with its rank at a turn.
#[derive(Clone, Copy, Debug, PartialEq, Eq)]
pub struct Ranked {
    pub thread: ThreadId,
    pub rank: u64,
}

/// By what a turn is chosen.
#[derive(Clone, Copy, Debug, PartialEq, Eq)]
pub enum Chooser {
    /// It is given.
    Given(Turn),
    /// It is drawn, by these lots.
    Drawn(TurnLots),
}

/// By what the next turn is chosen.
fn chooser_of(plan: &Plan<'_>, made: &Made) -> Chooser
    ensures { Chooses plan.now made.now result }
{
    match given_turn(plan, made) {
        Some(turn) => Chooser::Given(turn),
        None => Chooser::Drawn(TurnLots::new(plan.seed, u64::from(made.turns) + 1)),
    }
}

// Whose turn it is.

/// Whether there is such a thread, and it has not ended.
fn is_live(threads: &Threads, thread: ThreadId) -> bool
    ensures { result ≡ is_live threads.now thread }
{
    matches!(threads.thread(u32::from(thread)), Some(Thread::Live(_)))
}

/// Whether the thread has not ended, and waits for nothing.
fn may_run(threads: &Threads, thread: ThreadId) -> bool
    ensures { result ≡ may_run threads.now thread }
{
    threads.wait_of(thread).is_none() && is_live(threads, thread)
}

/// The rank of a thread at a turn that is drawn.
fn drawn_rank(lots: TurnLots, plan: &Plan<'_>, made: &Made, thread: ThreadId) -> u64
    requires { lots.state ≡ lots_of plan.now.seed (made.now.turns + 1) }
    ensures { result ≡ drawn_rank plan.now made.now thread }
{
    if made.steps < plan.horizon {
        made.lowered.priority_of(plan.seed, thread)
    } else {
        u64::from(lots.at(thread))
    }
}

/// The rank of a thread.
fn rank_of(by: Chooser, plan: &Plan<'_>, made: &Made, thread: ThreadId) -> u64
    requires { Chooses plan.now made.now by }
    ensures { result ≡ rank_of plan.now made.now thread }
{
    match by {
        Chooser::Given(turn) => turn.rank_of(thread),
        Chooser::Drawn(lots) => drawn_rank(lots, plan, made, thread),
    }
}

/// The better of two; of the same rank the one before.
fn better(best: Option<Ranked>, other: Ranked) -> Ranked
    requires best { IfSome best IsNumbered }
    requires other { IsNumbered other }
    ensures better { Some result ≡ better best other }
    ensures number { IsNumbered result }
{
    match best {
        None => other,
        Some(best) if best.rank < other.rank => other,
        Some(best) => best,
    }
}

/// The better one of the best so far and a thread, where that may run.
#[inline(always)]
fn consider(
    by: Chooser,
    plan: &Plan<'_>,
    made: &Made,
    threads: &Threads,
    thread: ThreadId,
    best: Option<Ranked>,
) -> Option<Ranked>
    requires by { Chooses plan.now made.now by }
    requires number { (1 ≤ thread) × (thread ≤ 64) }
    requires best { IfSome best IsNumbered }
    ensures best { result
        ≡ considered (may_run threads.now thread) (ranked plan.now made.now thread) best }
    ensures number { IfSome result IsNumbered }
{
    if !may_run(threads, thread) {
        return best;
    }
    let rank = rank_of(by, plan, made, thread);
    Some(better(best, Ranked { thread, rank }))
}

/// Of the threads that may run, the one with the highest rank.
fn best(by: Chooser, plan: &Plan<'_>, made: &Made, threads: &Threads) -> Option<Ranked>
    requires { Chooses plan.now made.now by }
    ensures best { result ≡ best_among plan.now made.now threads.now 64 }
    ensures number { IfSome result IsNumbered }
{
    let mut best = None;
    for thread in 1..MAX_THREADS as ThreadId + 1 {
        best = consider(by, plan, made, threads, thread, best);
    }
    best
}

// How long.

/// The nearer of two points, one of them ahead.
fn nearer(steps: u32, point: u32, ahead: u32) -> u32
    requires { steps < ahead }
    ensures nearer { result ≡ nearer steps point ahead }
    ensures ahead { steps < result }
    ensures within { result ≤ ahead }
{
    if steps < point && point < ahead {
        point
    } else {
        ahead
    }
}

/// The next change point, or the end of the priorities.
fn next_point(plan: &Plan<'_>, steps: u32) -> u32
    requires { steps < plan.now.horizon }
    ensures point { result ≡ next_point plan.now steps }
    ensures ahead { steps < result }
    ensures within { result ≤ plan.now.horizon }
{
    let third = nearer(steps, plan.third, plan.horizon);
    let second = nearer(steps, plan.second, third);
    nearer(steps, plan.first, second)
}

/// A length by lot.
fn drawn_length(lots: TurnLots, made: &Made) -> u32
    ensures length { (p : Plan) → lots.state ≡ lots_of p.seed (made.now.turns + 1)
        → result ≡ drawn_length p made.now }
    ensures some { 1 ≤ result }
    ensures few { result ≤ 1000000 }
{
    let most = shortest_of(made.is_near_call, lots.at(SCALE));
    lots.at(LENGTH) % most + 1
}

/// How long a turn is that is drawn.
fn drawn_turn(lots: TurnLots, plan: &Plan<'_>, made: &Made) -> u32
    requires { lots.state ≡ lots_of plan.now.seed (made.now.turns + 1) }
    ensures length { result ≡ drawn_turn plan.now made.now }
    ensures some { 1 ≤ result }
    ensures few { result ≤ 1000000 }
{
    let drawn = drawn_length(lots, made);
    if made.steps < plan.horizon {
        drawn.min(next_point(plan, made.steps) - made.steps)
    } else {
        drawn
    }
}

/// How long the turn of a thread is.
fn length_of(by: Chooser, plan: &Plan<'_>, made: &Made, thread: ThreadId) -> u32
    requires { Chooses plan.now made.now by }
    ensures length { result ≡ length_of plan.now made.now thread }
    ensures some { 1 ≤ result }
    ensures few { result ≤ 1000000 }
{
    match by {
        Chooser::Given(turn) => turn.length_of(thread),
        Chooser::Drawn(lots) => drawn_turn(lots, plan, made),
    }
}

/// The steps of a thread's turn, as many as are left.
fn steps_of(by: Chooser, plan: &Plan<'_>, made: &Made, thread: ThreadId) -> u32
    requires by { Chooses plan.now made.now by }
    requires left { made.now.steps < plan.now.limit }
    ensures steps { result ≡ steps_of plan.now made.now thread }
    ensures some { 1 ≤ result }
    ensures few { result ≤ 1000000 }
    ensures within { made.now.steps + result ≤ plan.now.limit }
{
    length_of(by, plan, made, thread).min(plan.limit - made.steps)
}

// What it is.

/// Whether the thread is on the hart.
fn is_on(tables: &Tables, hart: usize, thread: ThreadId) -> bool
    ensures { result ≡ holds thread (hart_of tables.now hart) }
{
    match tables.threads.on_hart(hart) {
        Some(other) => thread == other,
        None => false,
    }
}

/// The hart that the thread is on.
fn hart_with(tables: &Tables, thread: ThreadId) -> Option<Hart>
    ensures hart { result ≡ hart_from 0 thread tables.now }
    ensures small { IfSome result (λ hart. hart ≤ 7) }
{
    for hart in 0..MAX_HARTS {
        if is_on(tables, hart, thread) {
            return Some(hart as u8);
        }
    }
    None
}

/// Which hart is wanted for a thread that is on none; of so many harts it is that one modulo their number.
fn wanted_hart(by: Chooser) -> u32
    ensures { (p : Plan) (m : Made) → Chooses p m by → result ≡ wanted_hart p m }
{
    match by {
        Chooser::Given(turn) => turn.hart(),
        Chooser::Drawn(lots) => lots.at(HART),
    }
}

/// A thread runs on its hart, and goes onto the one that is wanted where it is on none.
fn on_or_onto(by: Chooser, plan: &Plan<'_>, made: &Made, tables: &Tables, thread: ThreadId) -> Event
    requires by { Chooses plan.now made.now by }
    requires number { (1 ≤ thread) × (thread ≤ 64) }
    requires left { made.now.steps < plan.now.limit }
    requires harts { (1 ≤ tables.now.threads.hart_count) × (tables.now.threads.hart_count ≤ 8) }
    ensures event { result ≡ on_or_onto (hart_from 0 thread tables.now)
        plan.now made.now thread tables.now }
    ensures in_range { IsInRange result }
    ensures within { made.now.steps + steps_in result ≤ plan.now.limit }
{
    if let Some(hart) = hart_with(tables, thread) {
        return run_by(hart, steps_of(by, plan, made, thread));
    }
    let harts = tables.threads.hart_count() as u32;
    let hart = wanted_hart(by) % harts;
    Event::Place(hart as u8, thread)
}

/// One turn in that many is the clock's.
fn clock_period(plan: &Plan<'_>) -> u32
    ensures period { result ≡ clock_period plan.now }
    ensures some { 1 ≤ result }
{
    if plan.is_early { 8 } else { 64 }
}

/// Whether the turn is the clock's.
fn is_clocks(by: Chooser, plan: &Plan<'_>) -> bool
    ensures { (m : Made) → Chooses plan.now m by → result ≡ is_clocks plan.now m }
{
    match by {
        Chooser::Given(turn) => turn.is_clocks(),
        Chooser::Drawn(lots) => lots.at(CLOCK) % clock_period(plan) == 0,
    }
}

/// The event of a clock's turn that is drawn.
fn drawn_tick(plan: &Plan<'_>, tables: &Tables) -> Event
    ensures event { result ≡ drawn_tick plan.now tables.now }
    ensures in_range { IsInRange result }
    ensures none { steps_in result ≡ 0 }
{
    if !plan.is_early {
        return Event::Tick(1);
    }
    match idle(tables) {
        Next::Submit(event) => event,
        Next::End(_) => Event::Tick(1),
    }
}

/// The event of a clock's turn.
fn tick_by(by: Chooser, plan: &Plan<'_>, tables: &Tables) -> Event
    ensures event { (m : Made) → Chooses plan.now m by
        → result ≡ tick_by plan.now m tables.now }
    ensures in_range { IsInRange result }
    ensures none { steps_in result ≡ 0 }
{
    match by {
        Chooser::Given(turn) => Event::Tick(turn.ticks()),
        Chooser::Drawn(_) => drawn_tick(plan, tables),
    }
}

/// The event of a turn, for the thread whose turn it is.
fn event_for(by: Chooser, plan: &Plan<'_>, made: &Made, tables: &Tables, thread: ThreadId) -> Event
    requires by { Chooses plan.now made.now by }
    requires number { (1 ≤ thread) × (thread ≤ 64) }
    requires left { made.now.steps < plan.now.limit }
    requires harts { (1 ≤ tables.now.threads.hart_count) × (tables.now.threads.hart_count ≤ 8) }
    ensures event { result ≡ event_for plan.now made.now thread tables.now }
    ensures in_range { IsInRange result }
    ensures within { made.now.steps + steps_in result ≤ plan.now.limit }
{
    if is_clocks(by, plan) {
        tick_by(by, plan, tables)
    } else {
        on_or_onto(by, plan, made, tables, thread)
    }
}

/// The event of the thread whose turn it is; of the clock, where no thread may run.
fn next_for(plan: &Plan<'_>, made: &Made, tables: &Tables) -> Next
    requires left { made.now.steps < plan.now.limit }
    requires harts { (1 ≤ tables.now.threads.hart_count) × (tables.now.threads.hart_count ≤ 8) }
    ensures next { result
        ≡ next_for (best_among plan.now made.now tables.now.threads 64)
        plan.now made.now tables.now }
    ensures within { IsWithin plan.now made.now result }
{
    let by = chooser_of(plan, made);
    match best(by, plan, made, &tables.threads) {
        Some(best) => Next::Submit(event_for(by, plan, made, tables, best.thread)),
        None => idle(tables),
    }
}

/// Whether as many events or steps are made as there may be.
fn is_enough(plan: &Plan<'_>, made: &Made) -> bool
    ensures enough { result ≡ is_enough plan.now made.now }
    ensures steps { result ≡ false → made.now.steps < plan.now.limit }
    ensures events { result ≡ false → made.now.events < plan.now.limit }
    ensures limit { plan.now.limit < 4294967296 }
{
    plan.limit <= made.events || plan.limit <= made.steps
}

/// What the program is given of its input, if it is given something.
fn given_by(plan: &Plan<'_>, made: &Made, tables: &Tables) -> Option<Event>
    ensures given { result ≡ given_in (bytes_of plan.now.input) made.now.taken tables.now }
    ensures in_range { IfSome result IsInRange }
    ensures none { IfSome result (λ e. steps_in e ≡ 0) }
{
    let bytes = plan.input.bytes?;
    let at = (made.taken as usize).min(bytes.len());
    let (_, rest) = bytes.split_at(at);
    next_input(tables, rest)
}

/// What the program is given of its input comes first, as soon as there is room for it.
fn given_or_next(plan: &Plan<'_>, made: &Made, tables: &Tables) -> Next
    requires left { made.now.steps < plan.now.limit }
    requires harts { (1 ≤ tables.now.threads.hart_count) × (tables.now.threads.hart_count ≤ 8) }
    ensures next { result ≡ given_or_next plan.now made.now tables.now }
    ensures within { IsWithin plan.now made.now result }
{
    match given_by(plan, made, tables) {
        Some(event) => Next::Submit(event),
        None => next_for(plan, made, tables),
    }
}

/// An event that is refused ends a run, as a tick that the clock has no room for.
fn or_enough(machine: &Machine, next: Next) -> Next
    ensures next { result ≡ or_enough next machine.now.state.tables }
    ensures fit { (p : Plan) (m : Made) → p.limit < 4294967296 → m.events < p.limit
        → IsWithin p m next → IsFitNext p m machine.now.state.tables result }
{
    match next {
        Next::Submit(event) => match machine.accept(0, &event) {
            Ok(()) => Next::Submit(event),
            Err(_) => Next::End(ScheduleEnd::Enough),
        },
        Next::End(ending) => Next::End(ending),
    }
}

/// The event that is next, or why there is none.
pub fn next(machine: &Machine, plan: &Plan<'_>, made: &Made) -> Next
    requires harts { 1 ≤ machine.now.state.tables.threads.hart_count }
    ensures next { result ≡ next plan.now made.now machine.now.state.tables }
    ensures fit { IsFitNext plan.now made.now machine.now.state.tables result }
{
    if !matches!(machine.status(), Status::Running) {
        return Next::End(ScheduleEnd::Ended);
    }
    if is_enough(plan, made) {
        return Next::End(ScheduleEnd::Enough);
    }
    let next = given_or_next(plan, made, machine.tables());
    or_enough(machine, next)
}

/// The thread on the hart of a run.
pub fn runner_of(tables: &Tables, event: &Event) -> Option<ThreadId>
    ensures { result ≡ runner_of event.now tables.now }
{
    match event {
        Event::Run(hart, _) | Event::RunLong(hart, _) => tables.threads.on_hart(usize::from(*hart)),
        Event::Place(_, _) | Event::Input(_) | Event::Eof | Event::Tick(_) => None,
    }
}
