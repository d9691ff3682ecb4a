//! Where a walk through a history stops.
ghost use Rattle.std.specs.Prelude.{◌≡◌, ◌<◌, ◌≤◌, ◌+◌, ◌++◌, [], length, false, IsTrue, Some, None};
ghost use Rattle.std.specs.List.{list_any};
ghost use Rattle.ckrt_gdb_history.specs.Stops.{AreNone, accesses_for, accesses_in, bytes_at, bytes_from, bytes_in, is_any_hit, is_hit, is_wanted, runner_in, sees, watched, width, widths};
ghost use Rattle.ckrt_gdb_history.specs.Positions.{run_in};
ghost use Rattle.ckrt_machine.specs.Steps.{hart_of};

use crate::accessing::Accessing;
use crate::replay::run_in;
use arrayvec::ArrayVec;
use ckrt_events::Event;
use ckrt_machine::Machine;
use ckrt_memory::Memory;
use ckrt_rv32i::{Bus, Size};

/// How many addresses all watches have at most.
pub const WATCH_LIMIT: usize = 256;

/// How many breakpoints there are at most.
pub const BREAKPOINT_LIMIT: usize = 64;

/// The bytes under all watches of changes.
pub type Watched = ArrayVec<u8, 256>;

/// Stops before a step whose instruction is at an address.
#[derive(Clone, Copy, Debug, Default, PartialEq, Eq)]
pub struct Breakpoint {
    pub address: u32,
    /// Only steps of this thread, 1 to 64; none is any.
    pub thread: Option<u8>,
}

/// Which steps a watch stops for.
#[derive(Clone, Copy, Debug, Default, PartialEq, Eq)]
pub enum WatchKind {
    /// Those that change a byte.
    #[default]
    Changes,
    /// Those that load one.
    Loads,
    /// Those that load one or store to one, whatever they change.
    Accesses,
}

impl WatchKind {
    /// Whether a watch of the kind stops for loads, or for stores, whatever they change.
    #[inline]
    pub(crate) fn sees(self, is_store: bool) -> bool
        ensures { result ≡ sees is_store self }
    {
        match self {
            WatchKind::Changes => false,
            WatchKind::Loads => !is_store,
            WatchKind::Accesses => true,
        }
    }
}

/// Stops after a step that does so with a byte at one of these addresses.
#[derive(Clone, Copy, Debug, Default, PartialEq, Eq)]
pub struct Watch {
    pub kind: WatchKind,
    pub first: u32,
    /// The last address, `first` or above.
    pub last: u32,
}

/// The reasons to stop.
#[derive(Drop)]
pub struct Stops {
    pub breakpoints: ArrayVec<Breakpoint, 64>,
    /// They have [`WATCH_LIMIT`] addresses at most.
    pub watches: ArrayVec<Watch, 16>,
    /// Stops before each step of this thread, 1 to 64; none is for nobody's.
    pub thread: Option<u8>,
    /// Stops where no event is under way.
    pub event_ends: bool,
}

impl Stops {
    /// No reason to stop.
    pub fn new() -> Stops
        ensures breakpoints { result.breakpoints.items ≡ [] }
        ensures watches { result.watches.items ≡ [] }
        ensures thread { result.thread ≡ None }
        ensures event_ends { result.event_ends ≡ false }
    {
        Stops {
            breakpoints: ArrayVec::new(),
            watches: ArrayVec::new(),
            thread: None,
            event_ends: false,
        }
    }

    /// Whether there is no reason to stop, wherever somebody stands.
    #[tactic(auto, using(crate::proofs::SearchLemmas::none_stops))]
    pub fn are_none(&self) -> bool
        ensures { IsTrue result → AreNone self.now }
    {
        self.breakpoints.is_empty()
            && self.watches.is_empty()
            && self.thread.is_none()
            && !self.event_ends
    }

    /// Whether one of the watches is of loads, or of loads and stores.
    pub fn sees_loads(&self) -> bool
        ensures { result ≡ list_any (λ w. sees false w.kind) self.now.watches.items }
    {
        see_loads(self.watches.as_slice())
    }

    /// How many addresses the watches have.
    pub fn width(&self) -> u64
        ensures { result ≡ widths self.now.watches.items }
    {
        let mut sum = 0;
        for watch in self.watches.as_slice() {
            sum += width(watch);
        }
        sum
    }
}

/// Whether one of the watches is of loads, or of loads and stores.
fn see_loads(watches: &[Watch]) -> bool
    ensures { result ≡ list_any (λ w. sees false w.kind) watches.now }
{
    watches.iter().any(|watch| watch.kind.sees(false))
}

/// How many addresses the watch has.
fn width(watch: &Watch) -> u64
    ensures width { result ≡ width watch.now }
    ensures within { result ≤ 4294967296 }
{
    (u64::from(watch.last) + 1).saturating_sub(u64::from(watch.first))
}

/// The byte at an address goes behind those that there are, where there is one.
fn append_byte(memory: &Memory, address: u32, bytes: &mut Watched)
    requires { length bytes.old.items < 256 }
    ensures { bytes.new.items ≡ bytes.old.items ++ bytes_at address memory.now.bytes }
{
    let Some(byte) = memory.load(address, Size::Byte) else {
        return;
    };
    bytes.push(byte as u8);
}

/// The bytes at the addresses of a watch go behind those that there are.
fn append_range(memory: &Memory, watch: &Watch, bytes: &mut Watched)
    requires { length bytes.old.items + width watch.now ≤ 256 }
    ensures { bytes.new.items
        ≡ bytes.old.items ++ bytes_from (width watch.now) watch.now.first memory.now.bytes }
{
    for address in u64::from(watch.first)..u64::from(watch.last) + 1 {
        append_byte(memory, address as u32, bytes);
    }
}

/// The bytes under a watch of changes go behind those that there are.
fn append_bytes(memory: &Memory, watch: &Watch, bytes: &mut Watched)
    requires { length bytes.old.items + width watch.now ≤ 256 }
    ensures { bytes.new.items ≡ bytes.old.items ++ bytes_in memory.now.bytes watch.now }
{
    match watch.kind {
        WatchKind::Changes => append_range(memory, watch, bytes),
        WatchKind::Loads | WatchKind::Accesses => {}
    }
}

/// The bytes under all watches of changes.
pub fn watched(memory: &Memory, watches: &[Watch]) -> Watched
    requires { widths watches.now ≤ 256 }
    ensures { result.items ≡ watched watches.now memory.now.bytes }
{
    let mut bytes = ArrayVec::new();
    for watch in watches {
        append_bytes(memory, watch, &mut bytes);
    }
    bytes
}

/// Whether the thread's instruction at an address is at the breakpoint.
fn is_hit(breakpoint: &Breakpoint, thread: u8, pc: u32) -> bool
    ensures { result ≡ is_hit (thread, pc) breakpoint.now }
{
    breakpoint.address == pc && breakpoint.thread.is_none_or(|of| of == thread)
}

/// Whether it is at one of them.
fn is_any_hit(breakpoints: &[Breakpoint], thread: u8, pc: u32) -> bool
    ensures { result ≡ is_any_hit (Some (thread, pc)) breakpoints.now }
{
    breakpoints
        .iter()
        .any(|breakpoint| is_hit(breakpoint, thread, pc))
}

/// Whether the thread's step, whose instruction is at an address, is at a breakpoint, or of the thread whose steps are looked for.
pub fn is_wanted(stops: &Stops, thread: u8, pc: u32) -> bool
    ensures { result ≡ is_wanted stops.now (Some (thread, pc)) }
{
    is_any_hit(stops.breakpoints.as_slice(), thread, pc) || stops.thread == Some(thread)
}

/// Whose step is next, and where its instruction is, where the event is a run.
pub fn runner(machine: &Machine, event: &Event) -> Option<(u8, u32)>
    ensures { result ≡ runner_in (run_in event.now) machine.now.state }
{
    let (hart, _limit) = run_in(event)?;
    let tables = machine.tables();
    let thread = tables.threads.on_hart(usize::from(hart))?;
    let live = tables.threads.live(thread);
    Some((thread, live.regs.pc()))
}

/// Whether a watch stops for what the thread on a hart loads or stores by its next step.
fn accesses_on(machine: &Machine, hart: u8, watches: &[Watch]) -> bool
    ensures { result ≡ accesses_for watches.now (hart_of machine.now.state.tables hart)
        machine.now.state }
{
    let threads = &machine.tables().threads;
    let Some(thread) = threads.on_hart(usize::from(hart)) else {
        return false;
    };
    let live = threads.live(thread);
    if live.cancellation.is_immediate() {
        return false;
    }
    machine.memory().meets(&live.regs, &Accessing { watches })
}

/// Whether a watch stops for what the next step loads or stores, where the event is a run.
pub fn accesses_by(machine: &Machine, event: &Event, watches: &[Watch]) -> bool
    ensures { result ≡ accesses_in watches.now (run_in event.now) machine.now.state }
{
    match run_in(event) {
        Some((hart, _)) => accesses_on(machine, hart, watches),
        None => false,
    }
}
