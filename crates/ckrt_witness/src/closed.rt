//! Closed witnesses, over disks in memory: the clause of each has no premise. What stops a test meets any clause, so each shows its
//! witness by coming to its end.
ghost use Rattle.std.specs.Prelude.{◌≡◌, ◌≢◌, ℕ, List, [], None, Ok, Some};
ghost use Rattle.ckrt_machine.specs.Steps.{State};
ghost use Rattle.ckrt_drive.specs.Offset.{offset_from};
ghost use Rattle.ckrt_stored.specs.Programs.{Program, RecoversToStart};
ghost use Rattle.ckrt_witness.specs.Drives.{Drove, Witness};
ghost use Rattle.ckrt_witness.specs.Power.{PowerWitness};
ghost use Rattle.ckrt_witness.specs.Turns.{TurnWitness};

use crate::drives::{Left, drive_once, two_drives};
use crate::power::{commit_one, save_one};
use crate::turns::make_turns;
use ckrt_disk::{Disk, MemoryDisk, StoppingDisk};
use ckrt_drive::{DriveFault, Options, RECORD_BYTES, read_offset};
use ckrt_events::Event;
use ckrt_machine::Machine;
use ckrt_recovery::Config;
use ckrt_schedule::ScheduleEnd;
use ckrt_stored::format;
use std::fmt::Debug;
use std::process::Abort;

/// A guest that puts the first byte of its input, and exits.
pub(crate) const GUEST: &[u8] = &[
    0x93, 0x08, 0x30, 0x00, // addi x17, x0, 3
    0x73, 0x00, 0x00, 0x00, // ecall
    0x93, 0x08, 0x20, 0x00, // addi x17, x0, 2
    0x73, 0x00, 0x00, 0x00, // ecall
    0x13, 0x05, 0x00, 0x00, // addi x10, x0, 0
    0x93, 0x08, 0x10, 0x00, // addi x17, x0, 1
    0x73, 0x00, 0x00, 0x00, // ecall
];

/// A guest that goes round for ever.
pub(crate) const ENDLESS: &[u8] = &[
    0x6f, 0x00, 0x00, 0x00, // jal x0, 0
];

/// How many steps a turn has.
const TURN: u32 = 100;

/// The smallest machine.
pub(crate) const SMALL: Config = Config {
    pages: 16,
    harts: 1,
    journal: 4_096,
};

/// The call of its disk at which the first drive is stopped: within its first commit, behind the sync of recovery and the write of a batch.
pub(crate) const STOP: u64 = 3;

/// Two values of any kind.
fn expect_eq<R: Abort, T: Debug + PartialEq + Drop>(rt: &R, got: T, want: T) {
    assert_eq!(rt; got, want);
}

/// A copy of bytes.
pub(crate) fn copied<R: Abort + AllocGlobal>(rt: &R, bytes: &[u8]) -> Vec<u8>
    ensures { result.items ≡ bytes.now }
{
    bytes.to_vec(rt.alloc()).expect(rt, "memory for bytes")
}

/// A disk in memory with these bytes.
pub(crate) fn memory_disk<R: Abort + AllocGlobal>(rt: &R, bytes: Vec<u8>) -> MemoryDisk
    ensures content { ⟦<MemoryDisk as Disk>⟧.content result ≡ bytes.items }
    ensures settled { (i : ℕ) → ¬ ⟦<MemoryDisk as Disk>⟧.pending result i }
{
    MemoryDisk::new(rt.alloc(), bytes).expect(rt, "memory for a disk")
}

/// One that stops at a call, and lays open gates over its pending bytes then.
pub(crate) fn stopping_disk<R: Abort + AllocGlobal>(
    rt: &R,
    bytes: Vec<u8>,
    at_call: u64,
) -> StoppingDisk
    ensures content { ⟦<StoppingDisk as Disk>⟧.content result ≡ bytes.items }
    ensures settled { (i : ℕ) → ¬ ⟦<StoppingDisk as Disk>⟧.pending result i }
{
    let fill = copied(rt, &[0xa5]);
    StoppingDisk::new(rt.alloc(), bytes, at_call, fill).expect(rt, "memory for a disk")
}

/// The bytes of a disk that was formatted with a guest, with room for a record.
pub(crate) fn formatted<R: Abort + AllocGlobal>(rt: &R, guest: &[u8]) -> Vec<u8>
    ensures { (p : Program) × RecoversToStart p result.items }
{
    let size = SMALL.size_needed().saturating_add(RECORD_BYTES);
    let zeros = vec![in rt.alloc(); 0; size].expect(rt, "memory for bytes");
    let mut disk = memory_disk(rt, zeros);
    match format(rt.alloc(), &mut disk, SMALL, guest) {
        Ok(()) => disk.into_image(),
        Err(fault) => panic!(rt; "{fault}"),
    }
}

/// How much of its input the program of these bytes has taken.
fn taken<R: Abort + AllocGlobal>(rt: &R, image: &[u8]) -> u64
    ensures { offset_from None image.now ≡ Ok (Some result) }
{
    let mut disk = memory_disk(rt, copied(rt, image));
    match read_offset(&mut disk, None) {
        Ok(taken) => taken,
        Err(fault) => panic!(rt; "{fault}"),
    }
}

/// A drive of a disk with these bytes, which stops at a call.
pub(crate) fn drove<R: Abort + AllocGlobal>(
    rt: &R,
    image: Vec<u8>,
    at_call: u64,
    output: MemoryDisk,
    text: &[u8],
) -> Left<StoppingDisk, MemoryDisk, MemoryDisk>
    ensures { (start : StoppingDisk) × (⟦<StoppingDisk as Disk>⟧.content start ≡ image.items)
        × ((i : ℕ) → ¬ ⟦<StoppingDisk as Disk>⟧.pending start i)
        × Drove ⟦<StoppingDisk as Disk>⟧ ⟦<MemoryDisk as Disk>⟧ start output text.now
        result.session.disk result.output }
{
    let taken = taken(rt, &image);
    let disk = stopping_disk(rt, image, at_call);
    let input = memory_disk(rt, copied(rt, text));
    match drive_once(
        rt.alloc(),
        disk,
        output,
        input,
        taken,
        Options::new(300, 1, u64::MAX),
    ) {
        Ok(left) => left,
        Err(fault) => panic!(rt; "{fault}"),
    }
}

/// Two drives of the guest, the first of which is stopped within a call: they meet all premises of the promise of many drives.
fn many_drives<R: Abort + AllocGlobal>(rt: &R, text: &[u8], old: &[u8])
    requires text { text.now ≢ [] }
    requires old { old.now ≢ [] }
    ensures { Witness ⟦<StoppingDisk as Disk>⟧ ⟦<MemoryDisk as Disk>⟧ text.now }
{
    let image = formatted(rt, GUEST);
    let output = memory_disk(rt, copied(rt, old));
    let first = drove(rt, image, STOP, output, text);
    expect_eq(rt, first.answer, Err(DriveFault::Device));
    let left = first.session.into_disk().into_image();
    let opened = memory_disk(rt, first.output.into_image());
    let second = drove(rt, left, 0, opened, text);
    expect_eq(rt, second.answer, Ok(Some(ScheduleEnd::Ended)));
    two_drives::<StoppingDisk, MemoryDisk>();
}

/// A session of the guest takes an event and commits it: that meets all premises of the promise on power loss.
fn power_loss<R: Abort + AllocGlobal>(rt: &R)
    ensures { (p : Program) × PowerWitness ⟦<MemoryDisk as Disk>⟧ p }
{
    let disk = memory_disk(rt, formatted(rt, GUEST));
    match commit_one(rt.alloc(), disk, &Event::Tick(1)) {
        Some(_) => {}
        None => panic!(rt; "the disk doesn't recover, or the event is refused"),
    }
}

/// The same with a checkpoint in place of the commit.
fn checkpoint<R: Abort + AllocGlobal>(rt: &R)
    ensures { (p : Program) × PowerWitness ⟦<MemoryDisk as Disk>⟧ p }
{
    let disk = memory_disk(rt, formatted(rt, GUEST));
    match save_one(rt.alloc(), disk, &Event::Tick(1)) {
        Some(_) => {}
        None => panic!(rt; "the disk doesn't recover, or the event is refused"),
    }
}

/// An endless guest on one hart, and as many events as the promise of turns speaks of: they meet all premises of its laws.
fn turns<R: Abort + AllocGlobal>(rt: &R)
    ensures { (s : State) × TurnWitness 100 s }
{
    let mut machine = Machine::new(rt.alloc(), 16, 1, ENDLESS).expect(rt, "memory for a machine");
    if !make_turns(&mut machine, TURN) {
        panic!(rt; "the guest came to an end");
    }
}

#[test]
fn the_premises_of_turns_are_met(rt: HostRuntime) {
    turns(&rt);
}

#[test]
fn the_premises_of_many_drives_are_met(rt: HostRuntime) {
    many_drives(&rt, b"Ab", b"..");
}

#[test]
fn the_premises_of_power_loss_are_met(rt: HostRuntime) {
    power_loss(&rt);
}

#[test]
fn the_premises_of_a_checkpoint_are_met(rt: HostRuntime) {
    checkpoint(&rt);
}
