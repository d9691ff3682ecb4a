//! Guests that a drive runs to their ends.

use crate::expect::{
    expect_bytes, expect_eq, expect_eq_at, filled, image_of, memory_disk, old_disk, stopping_disk,
};
use crate::sessions::submitted;
use crate::small_disk::{SMALL, format_outcome, recovered_in_memory, recovery_outcome};
use arrayvec::ArrayVec;
use ckrt_disk::{Disk, MemoryDisk, StoppingDisk};
use ckrt_drive::{Drive, DriveFault, Nobody, Nothing, Onlooker, Options, StepDone, StreamOutput};
use ckrt_events::Event;
use ckrt_machine::{Answer, RunEnd};
use ckrt_recovery::{Config, Session};
use ckrt_schedule::ScheduleEnd;
use ckrt_test_storage::{BOUNDED, COUNTERS, LOOPS, PAIR, READERS, ROUNDS, SIZE, SLEEPERS};
use std::io::{self, ErrorKind, Write};
use std::process::Abort;

/// Sleeps until the moment 7 · 2^32 + 5, puts a Y and exits.
const SLEEPS_LONG: [u32; 10] = [
    0x00500513, // addi x10, x0, 5
    0x00700593, // addi x11, x0, 7
    0x00500893, // addi x17, x0, 5
    0x00000073, // ecall
    0x05900513, // addi x10, x0, 0x59
    0x00200893, // addi x17, x0, 2
    0x00000073, // ecall
    0x00000513, // addi x10, x0, 0
    0x00100893, // addi x17, x0, 1
    0x00000073, // ecall
];

/// Thread 1 locks 0x5000, sleeps until 100 and locks 0x6000; thread 2 locks 0x6000 and then 0x5000.
const DEADLOCK: [u32; 23] = [
    0x00005537, // lui x10, 5
    0x01600893, // addi x17, x0, 22
    0x00000073, // ecall
    0x00001537, // lui x10, 1
    0x04450513, // addi x10, x10, other
    0x00000593, // addi x11, x0, 0
    0x00000613, // addi x12, x0, 0
    0x00000693, // addi x13, x0, 0
    0x00a00893, // addi x17, x0, 10
    0x00000073, // ecall
    0x06400513, // addi x10, x0, 100
    0x00000593, // addi x11, x0, 0
    0x00500893, // addi x17, x0, 5
    0x00000073, // ecall
    0x00006537, // lui x10, 6
    0x01600893, // addi x17, x0, 22
    0x00000073, // ecall
    // other:
    0x00006537, // lui x10, 6
    0x01600893, // addi x17, x0, 22
    0x00000073, // ecall
    0x00005537, // lui x10, 5
    0x01600893, // addi x17, x0, 22
    0x00000073, // ecall
];

/// Puts an A and exits.
const PUTS_ONCE: [u32; 6] = [
    0x04100513, // addi x10, x0, 0x41
    0x00200893, // addi x17, x0, 2
    0x00000073, // ecall
    0x00000513, // addi x10, x0, 0
    0x00100893, // addi x17, x0, 1
    0x00000073, // ecall
];

/// Puts its argument for ever.
const PUTS_FOR_EVER: [u32; 3] = [0x00200893, 0x00000073, 0xffdff06f];

/// Two threads that put eight letters each, with no lock: in which order depends on their turns.
pub const RACERS: [u32; 26] = [
    0x00001537, // lui x10, 1
    0x03c50513, // addi x10, x10, puts
    0x06200593, // addi x11, x0, 0x62
    0x00000613, // addi x12, x0, 0
    0x00000693, // addi x13, x0, 0
    0x00a00893, // addi x17, x0, 10
    0x00000073, // ecall
    0x06100513, // addi x10, x0, 0x61
    0x01c000ef, // jal x1, puts
    0x00200513, // addi x10, x0, 2
    0x00b00893, // addi x17, x0, 11
    0x00000073, // ecall
    0x00000513, // addi x10, x0, 0
    0x00100893, // addi x17, x0, 1
    0x00000073, // ecall
    // puts:
    0x00050293, // addi x5, x10, 0
    0x00800313, // addi x6, x0, 8
    // again:
    0x00c00393, // addi x7, x0, 12
    // count:
    0xfff38393, // addi x7, x7, -1
    0xfe039ee3, // bne x7, x0, count
    0x00028513, // addi x10, x5, 0
    0x00200893, // addi x17, x0, 2
    0x00000073, // ecall
    0xfff30313, // addi x6, x6, -1
    0xfe0312e3, // bne x6, x0, again
    0x00008067, // jalr x0, 0(x1)
];

/// Turns of the most steps, and a commit after 16 rounds.
pub fn usual(events: u64) -> Options {
    Options::new(65_535, 16, events)
}

/// A disk of zeros with an image formatted onto it, for that many harts.
pub fn formatted_for<R: Abort + AllocGlobal>(rt: &R, words: &[u32], harts: u32) -> Vec<u8> {
    let image = image_of(rt, words);
    let mut disk = memory_disk(rt, filled(rt, 0, SIZE));
    let config = Config { harts, ..SMALL };
    expect_eq(
        rt,
        format_outcome(rt, &mut disk, config, image.as_slice()),
        Ok(()),
    );
    disk.into_image()
}

/// The session and the output, once a drive has come to this end.
pub fn ended<R: Abort, D: Disk, O: Disk>(
    rt: &R,
    session: Session<D>,
    output: O,
    options: Options,
    ending: ScheduleEnd,
) -> (Session<D>, O) {
    let mut drive = Drive::new(session, output, options);
    expect_eq(rt, drive.run(1_000_000, &mut Nobody), Ok(Some(ending)));
    let (session, output, Nothing) = drive.into_parts();
    (session, output)
}

/// The output holds these bytes from its beginning on, and zeros after them.
pub fn expect_held<R: Abort + AllocGlobal>(rt: &R, output: MemoryDisk, want: &[u8]) {
    let image = output.into_image();
    let count = want.len();
    assert!(rt; count <= image.len());
    let (front, back) = image.as_slice().split_at(count);
    expect_bytes(rt, front, want);
    expect_eq(rt, back.iter().all(|byte| *byte == 0), true);
}

/// The guest comes to this end on 1, 3 and 8 harts, and puts these bytes.
fn expect_driven<R: Abort + AllocGlobal>(rt: &R, words: &[u32], ending: ScheduleEnd, want: &[u8]) {
    for harts in [1, 3, 8] {
        let session = recovered_in_memory(rt, formatted_for(rt, words, harts));
        let output = memory_disk(rt, filled(rt, 0, 64));
        let (session, output) = ended(rt, session, output, usual(u64::MAX), ending);
        expect_eq_at(rt, harts, session.confirmed(), want.len() as u64);
        expect_held(rt, output, want);
    }
}

#[test]
fn guests_are_driven_to_their_ends(rt: HostRuntime) {
    expect_driven(&rt, &BOUNDED, ScheduleEnd::Ended, &[0x6e]);
    expect_driven(
        &rt,
        &ROUNDS,
        ScheduleEnd::Ended,
        &[0x06, 0x0c, 0x12, 0x18, 0x00],
    );
    expect_driven(&rt, &PAIR, ScheduleEnd::Ended, &[0x14]);
    expect_driven(&rt, &COUNTERS, ScheduleEnd::Ended, &[0x50]);
}

/// Compares what it is told with a list.
#[derive(Drop)]
struct Listener<'a> {
    awaited: &'a [StepDone],
    told: usize,
    first_difference: Option<usize>,
}

impl Onlooker for Listener<'_> {
    fn look<D: Disk>(&mut self, did: &StepDone, _session: &Session<D>) {
        if self.first_difference.is_none() && self.awaited.get(self.told) != Some(did) {
            self.first_difference = Some(self.told);
        }
        self.told = self.told.saturating_add(1);
    }
}

/// What a drive tells an onlooker in all its steps.
fn expect_told<R: Abort, D: Disk, O: Disk>(
    rt: &R,
    drive: &mut Drive<D, O, Nothing>,
    ending: ScheduleEnd,
    awaited: &[StepDone],
) {
    let mut listener = Listener {
        awaited,
        told: 0,
        first_difference: None,
    };
    expect_eq(rt, drive.run(100, &mut listener), Ok(Some(ending)));
    expect_eq(
        rt,
        (listener.told, listener.first_difference),
        (awaited.len(), None),
    );
}

/// A journal of 4,096 bytes has no room for a full batch after another one, so a checkpoint follows each commit.
#[test]
fn an_onlooker_is_told_each_step(rt: HostRuntime) {
    let session = recovered_in_memory(&rt, formatted_for(&rt, &PUTS_ONCE, 1));
    let output = memory_disk(&rt, filled(&rt, 0, 64));
    let awaited = [
        StepDone::Submitted(Event::Place(0, 1), Answer::Placed),
        StepDone::Submitted(Event::Run(0, 65_535), Answer::Ran(6, RunEnd::End)),
        StepDone::Committed,
        StepDone::Released,
        StepDone::Checkpointed,
        StepDone::Stopped(ScheduleEnd::Ended),
    ];
    let mut drive = Drive::new(session, output, usual(u64::MAX));
    expect_told(&rt, &mut drive, ScheduleEnd::Ended, &awaited);
}

/// An area of version 1 is checkpointed first. A round of one hart has a place for placing, where the hart runs if nobody is to
/// be placed, one for running, and the clock's.
#[test]
fn a_disk_of_version_1_is_checkpointed_first(rt: HostRuntime) {
    let session = recovered_in_memory(&rt, old_disk(&rt, &LOOPS));
    let output = memory_disk(&rt, filled(&rt, 0, 64));
    let awaited = [
        StepDone::Checkpointed,
        StepDone::Submitted(Event::Place(0, 1), Answer::Placed),
        StepDone::Submitted(Event::RunLong(0, 100_000), Answer::Ran(100_000, RunEnd::On)),
        StepDone::Submitted(Event::Tick(1), Answer::Ticked(0)),
        StepDone::Committed,
        StepDone::Checkpointed,
        StepDone::Submitted(Event::RunLong(0, 100_000), Answer::Ran(100_000, RunEnd::On)),
        StepDone::Submitted(Event::RunLong(0, 100_000), Answer::Ran(100_000, RunEnd::On)),
        StepDone::Committed,
        StepDone::Checkpointed,
        StepDone::Stopped(ScheduleEnd::Enough),
    ];
    let mut drive = Drive::new(session, output, Options::new(100_000, 1, 5));
    expect_told(&rt, &mut drive, ScheduleEnd::Enough, &awaited);
}

#[test]
fn guests_are_driven_by_lot(rt: HostRuntime) {
    for seed in 0..8 {
        for harts in [1, 3, 8] {
            let session = recovered_in_memory(&rt, formatted_for(&rt, &COUNTERS, harts));
            let output = memory_disk(&rt, filled(&rt, 0, 64));
            let options = Options::new(7, 16, u64::MAX).with_seed(seed);
            let (_, output) = ended(&rt, session, output, options, ScheduleEnd::Ended);
            expect_held(&rt, output, &[0x50]);
        }
    }
}

#[test]
fn idle_time_passes_at_once(rt: HostRuntime) {
    expect_driven(&rt, &SLEEPERS, ScheduleEnd::Ended, &[0x14, 0x28, 0x3c]);
    expect_driven(&rt, &SLEEPS_LONG, ScheduleEnd::Ended, b"Y");
}

#[test]
fn nobody_can_ever_go_on(rt: HostRuntime) {
    expect_driven(&rt, &DEADLOCK, ScheduleEnd::Deadlock, b"");
}

/// Twenty times the bytes 1 and 3, and the end of input.
fn feed<R: Abort, D: Disk>(rt: &R, session: &mut Session<D>) {
    let mut bytes = ArrayVec::new();
    bytes.push(1);
    bytes.push(3);
    let event = Event::Input(bytes);
    for _ in 0..20 {
        assert!(rt; submitted(rt, session, &event).is_ok());
    }
    assert!(rt; submitted(rt, session, &Event::Eof).is_ok());
}

#[test]
fn waits_for_input_and_goes_on(rt: HostRuntime) {
    let session = recovered_in_memory(&rt, formatted_for(&rt, &READERS, 3));
    let output = memory_disk(&rt, filled(&rt, 0, 64));
    let (mut session, output) = ended(
        &rt,
        session,
        output,
        usual(u64::MAX),
        ScheduleEnd::WaitsForInput,
    );
    feed(&rt, &mut session);
    let (_, output) = ended(&rt, session, output, usual(u64::MAX), ScheduleEnd::Ended);
    expect_held(&rt, output, &[0x50]);
}

#[test]
fn output_goes_on_over_many_checkpoints(rt: HostRuntime) {
    let session = recovered_in_memory(&rt, formatted_for(&rt, &PUTS_FOR_EVER, 1));
    let output = memory_disk(&rt, filled(&rt, 0xff, 200_000));
    let (session, output) = ended(&rt, session, output, usual(200), ScheduleEnd::Enough);
    let end = session.confirmed() as usize;
    let image = output.into_image();
    assert!(rt; end <= image.len());
    let (front, back) = image.as_slice().split_at(end);
    expect_eq(&rt, session.acknowledged(), 200);
    expect_eq(&rt, end > 100_000, true);
    expect_eq(&rt, front.iter().all(|byte| *byte == 0), true);
    expect_eq(&rt, back.iter().all(|byte| *byte == 0xff), true);
}

#[test]
fn output_without_room(rt: HostRuntime) {
    let session = recovered_in_memory(&rt, formatted_for(&rt, &PUTS_FOR_EVER, 1));
    let output = memory_disk(&rt, filled(&rt, 0, 100));
    let mut drive = Drive::new(session, output, usual(200));
    expect_eq(
        &rt,
        drive.run(1_000, &mut Nobody),
        Err(DriveFault::OutputFull),
    );
    let (session, output, Nothing) = drive.into_parts();
    expect_eq(&rt, session.confirmed(), 0);
    expect_held(&rt, output, b"");
}

#[test]
fn output_that_fails(rt: HostRuntime) {
    let session = recovered_in_memory(&rt, formatted_for(&rt, &PAIR, 3));
    let output = stopping_disk(&rt, filled(&rt, 0, 64), 2, &[0xee]);
    let mut drive = Drive::new(session, output, usual(u64::MAX));
    expect_eq(
        &rt,
        drive.run(1_000_000, &mut Nobody),
        Err(DriveFault::Output),
    );
    let (session, output, Nothing) = drive.into_parts();
    expect_eq(&rt, session.confirmed(), 0);
    let (_, output) = ended(
        &rt,
        session,
        memory_disk(&rt, output.into_image()),
        usual(u64::MAX),
        ScheduleEnd::Ended,
    );
    expect_held(&rt, output, &[0x14]);
}

/// Takes that many bytes, and no more.
#[derive(Drop)]
struct Narrow {
    bytes: Vec<u8>,
    takes: usize,
}

impl Write for Narrow {
    fn write(&mut self, buf: &[u8]) -> io::Result<usize> {
        let left = self.takes.saturating_sub(self.bytes.len());
        let size = buf.len().min(left);
        if size == 0 && !buf.is_empty() {
            return Err(io::Error::from(ErrorKind::BrokenPipe));
        }
        self.bytes.write_all(&buf[..size])?;
        Ok(size)
    }

    fn flush(&mut self) -> io::Result<()> {
        Ok(())
    }
}

/// A writer that takes that many bytes.
fn narrow_writer<R: AllocGlobal>(rt: &R, takes: usize) -> Narrow {
    let bytes = Vec::new(rt.alloc());
    Narrow { bytes, takes }
}

/// The session is driven to its end.
fn drive_to_end<R: Abort, D: Disk + Drop, O: Disk + Drop>(rt: &R, session: Session<D>, output: O) {
    let _ended = ended(rt, session, output, usual(u64::MAX), ScheduleEnd::Ended);
}

/// The session is driven to its end, and hands these bytes on, which lie at or after an offset.
fn expect_streamed<R: Abort + AllocGlobal, D: Disk + Drop>(
    rt: &R,
    session: Session<D>,
    from: u64,
    want: &[u8],
) {
    let mut writer = narrow_writer(rt, 64);
    drive_to_end(rt, session, StreamOutput::new(&mut writer, from));
    expect_bytes(rt, writer.bytes.as_slice(), want);
}

#[test]
fn a_stream_leaves_out_the_bytes_below_its_offset(rt: HostRuntime) {
    let formatted = formatted_for(&rt, &ROUNDS, 3);
    let wanted = [0x06, 0x0c, 0x12, 0x18, 0x00];
    for from in [0, 1, 4, 5] {
        let bytes = formatted.to_vec(rt.alloc()).expect(&rt, "memory for bytes");
        let session = recovered_in_memory(&rt, bytes);
        expect_streamed(&rt, session, from as u64, &wanted[from..]);
    }
}

/// Two drives of a session, one after the other, which both end as their output fails; nothing is confirmed then.
fn expect_broken<R: Abort, D: Disk + Drop, O: Disk + Drop>(rt: &R, session: Session<D>, output: O) {
    let mut drive = Drive::new(session, output, usual(u64::MAX));
    for _ in 0..2 {
        expect_eq(
            rt,
            drive.run(1_000_000, &mut Nobody),
            Err(DriveFault::Output),
        );
    }
    expect_eq(rt, drive.session().confirmed(), 0);
}

/// The writer takes two bytes of five, and then no more; another one gets those after them.
#[test]
fn a_stream_that_breaks(rt: HostRuntime) {
    let formatted = formatted_for(&rt, &ROUNDS, 3);
    let bytes = formatted.to_vec(rt.alloc()).expect(&rt, "memory for bytes");
    let mut writer = narrow_writer(&rt, 2);
    let session = recovered_in_memory(&rt, bytes);
    expect_broken(&rt, session, StreamOutput::new(&mut writer, 0));
    expect_bytes(&rt, writer.bytes.as_slice(), &[0x06, 0x0c]);
    let again = recovered_in_memory(&rt, formatted);
    expect_streamed(&rt, again, 2, &[0x12, 0x18, 0x00]);
}

/// What is left of a disk that stops at a call, after a drive of small turns with a commit after each round.
fn left_by_drive<R: Abort + AllocGlobal, O: Disk + Drop>(
    rt: &R,
    disk: StoppingDisk,
    at_call: u64,
    output: O,
) -> Vec<u8> {
    match recovery_outcome(rt, disk) {
        Ok(session) => {
            let mut drive = Drive::new(session, output, Options::new(40, 1, u64::MAX));
            expect_eq_at(
                rt,
                at_call,
                drive.run(1_000_000, &mut Nobody),
                Err(DriveFault::Device),
            );
            let (session, _output, Nothing) = drive.into_parts();
            session.into_disk().into_image()
        }
        Err(unrecovered) => unrecovered.disk.into_image(),
    }
}

/// A drive onto a stream, over a disk that stops at a call, and then one to the end over what is left, onto a stream that
/// begins after what the first one handed on: each byte is handed on once.
fn expect_streamed_once<R: Abort + AllocGlobal>(rt: &R, formatted: &[u8], at_call: u64) {
    let bytes = formatted.to_vec(rt.alloc()).expect(rt, "memory for bytes");
    let disk = stopping_disk(rt, bytes, at_call, &[0xa5]);
    let mut writer = narrow_writer(rt, 64);
    let image = left_by_drive(rt, disk, at_call, StreamOutput::new(&mut writer, 0));
    let got = writer.bytes;
    let wanted = [0x14, 0x28, 0x3c];
    assert!(rt; got.len() <= wanted.len());
    let (front, back) = wanted.split_at(got.len());
    expect_bytes(rt, got.as_slice(), front);
    let session = recovered_in_memory(rt, image);
    expect_streamed(rt, session, got.len() as u64, back);
}

#[test]
fn each_byte_is_handed_on_once_after_a_stop_at_each_call(rt: HostRuntime) {
    let formatted = formatted_for(&rt, &SLEEPERS, 3);
    for at_call in 1..63 {
        expect_streamed_once(&rt, formatted.as_slice(), at_call);
    }
}
