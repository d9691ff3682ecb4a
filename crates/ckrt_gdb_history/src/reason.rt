//! What a search looks for inside a run.
ghost use Rattle.std.specs.Prelude.{◌≡◌, ◌≤◌, ◌<◌, ◌+◌, ◌++◌, ◌∷◌, [], length};
ghost use Rattle.ckrt_gdb_history.specs.Stops.{width, widths};
ghost use Rattle.ckrt_look_recording.specs.Quiet.{or_call};
ghost use Rattle.ckrt_gdb_history.specs.Search.{are_there, byte_if, is_at, is_there, may_stop, or_access, seen_byte, seen_from, seen_in, seen_under};

use crate::accessing::Accessing;
use crate::stop::{Breakpoint, Watch, WatchKind};
use arrayvec::ArrayVec;
use ckrt_look_recording::AtCalls;
use ckrt_memory::StopReason;

/// The address of the first byte of a memory.
const FIRST_ADDRESS: u32 = 4_096;

/// A byte that was seen at an address; none, where there was none.
#[derive(Clone, Copy, Debug, Default, PartialEq, Eq)]
pub struct SeenByte {
    pub address: u32,
    pub byte: Option<u8>,
}

/// The bytes that were seen under all watches of changes.
pub type SeenBytes = ArrayVec<SeenByte, 256>;

/// The byte at an address, where there is one.
#[inline]
fn byte_if(bytes: &[u8], address: u32) -> Option<u8>
    ensures { result ≡ byte_if address bytes.now }
{
    if address < FIRST_ADDRESS {
        return None;
    }
    bytes.get((address - FIRST_ADDRESS) as usize).copied()
}

impl SeenByte {
    /// Whether it is there as it was.
    #[inline]
    fn is_there(&self, bytes: &[u8]) -> bool
        ensures { result ≡ is_there bytes.now self.now }
    {
        byte_if(bytes, self.address) == self.byte
    }
}

/// Whether all of them are there as they were.
#[inline]
fn are_there(bytes: &[u8], seen: &[SeenByte]) -> bool
    ensures { result ≡ are_there bytes.now seen.now }
{
    seen.iter().all(|byte| byte.is_there(bytes))
}

/// Whether one of the breakpoints has an address.
#[inline]
fn is_at(breakpoints: &[Breakpoint], pc: u32) -> bool
    ensures { result ≡ is_at pc breakpoints.now }
{
    breakpoints
        .iter()
        .any(|breakpoint| breakpoint.address == pc)
}

/// What is seen at an address goes behind what there is.
fn see_byte(bytes: &[u8], address: u32, seen: &mut SeenBytes)
    requires { length seen.old.items < 256 }
    ensures { seen.new.items ≡ seen.old.items ++ seen_byte address bytes.now ∷ [] }
{
    let byte = byte_if(bytes, address);
    seen.push(SeenByte { address, byte });
}

/// What is seen at the addresses of a watch goes behind what there is.
fn see_range(bytes: &[u8], watch: &Watch, seen: &mut SeenBytes)
    requires { length seen.old.items + width watch.now ≤ 256 }
    ensures { seen.new.items
        ≡ seen.old.items ++ seen_from (width watch.now) watch.now.first bytes.now }
{
    for address in u64::from(watch.first)..u64::from(watch.last) + 1 {
        see_byte(bytes, address as u32, seen);
    }
}

/// What is seen under a watch of changes goes behind what there is.
fn see(bytes: &[u8], watch: &Watch, seen: &mut SeenBytes)
    requires { length seen.old.items + width watch.now ≤ 256 }
    ensures { seen.new.items ≡ seen.old.items ++ seen_in bytes.now watch.now }
{
    match watch.kind {
        WatchKind::Changes => see_range(bytes, watch, seen),
        WatchKind::Loads | WatchKind::Accesses => {}
    }
}

/// What is seen under all watches of changes.
pub fn seen_under(bytes: &[u8], watches: &[Watch]) -> SeenBytes
    requires { widths watches.now ≤ 256 }
    ensures { result.items ≡ seen_under watches.now bytes.now }
{
    let mut seen = ArrayVec::new();
    for watch in watches {
        see(bytes, watch, &mut seen);
    }
    seen
}

/// There may be a reason to stop before an instruction, whichever thread makes it: it is at the address of a breakpoint, or a
/// byte isn't as it was seen.
#[derive(Clone, Copy, Debug)]
pub struct Sought<'a> {
    pub breakpoints: &'a [Breakpoint],
    pub seen: &'a [SeenByte],
}

impl<'a> StopReason for Sought<'a> {
    ghost meets = { λ sought r bytes. may_stop sought.breakpoints.now sought.seen.now r bytes };

    #[inline]
    fn is_met(&self, pc: u32, _file: &[u32; 33], bytes: &[u8]) -> bool {
        is_at(self.breakpoints, pc) || !are_there(bytes, self.seen)
    }

    #[inline]
    fn is_only_at_jumps(&self) -> bool {
        self.breakpoints.is_empty() && self.seen.is_empty()
    }
}

/// The same reason, or a watch stops for what the instruction loads or stores.
#[derive(Clone, Copy, Debug)]
pub struct SoughtOrAccess<'a> {
    pub sought: Sought<'a>,
    pub accessing: Accessing<'a>,
}

impl<'a> StopReason for SoughtOrAccess<'a> {
    ghost meets = { λ s. or_access s.accessing.watches.now
        (may_stop s.sought.breakpoints.now s.sought.seen.now) };

    #[inline]
    fn is_met(&self, pc: u32, file: &[u32; 33], bytes: &[u8]) -> bool {
        self.sought.is_met(pc, file, bytes) || self.accessing.is_met(pc, file, bytes)
    }

    #[inline]
    fn is_only_at_jumps(&self) -> bool {
        false
    }
}

/// A reason, and one before each call and at each gate: up to there a thread stays on its hart.
#[derive(Clone, Copy, Debug)]
pub struct OrCall<'a, R> {
    pub reason: &'a R,
}

impl<'a, R: StopReason> StopReason for OrCall<'a, R> {
    ghost meets = { λ s. or_call (R.meets s.reason.now) };

    #[inline]
    fn is_met(&self, pc: u32, file: &[u32; 33], bytes: &[u8]) -> bool {
        AtCalls.is_met(pc, file, bytes) || self.reason.is_met(pc, file, bytes)
    }

    #[inline]
    fn is_only_at_jumps(&self) -> bool {
        self.reason.is_only_at_jumps()
    }
}
