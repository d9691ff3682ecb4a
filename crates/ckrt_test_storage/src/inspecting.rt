//! The inspector over disks: whole, earlier and with code, damaged and missing, and with reads and writes that fail.
//!
//! The batches and the listings were written down from the formats, and the digests are those of `sha256sum`.

use crate::SIZE;
use crate::expect::{
    copied, expect_bytes, expect_eq, expect_eq_at, filled, image_of, lay, memory_disk,
};
use crate::small_disk::formatted;
use ckrt_disk::{Disk, FailingDisk};
use ckrt_inspect::{InspectFault, Shown, inspect, inspect_with};
use std::io::{self, ErrorKind, Write};
use std::process::Abort;

/// Where journal 0 begins.
const JOURNAL: usize = 339_968;

/// Reads a byte, puts it, and so on.
const READER: [u32; 6] = [
    0x00300893, // addi x17, x0, 3
    0x00000073, // ecall
    0x00200893, // addi x17, x0, 2
    0x00000073, // ecall
    0xff1ff06f, // jal x0, -16
    0xffffffff, // no instruction
];

/// Joins a thread that puts a byte.
const JOINER: [u32; 13] = [
    0x00001537, // lui x10, 1
    0x02850513, // addi x10, x10, 40
    0x04200593, // addi x11, x0, 66
    0x00a00893, // addi x17, x0, 10
    0x00000073, // ecall
    0x00058513, // addi x10, x11, 0
    0x00b00893, // addi x17, x0, 11
    0x00000073, // ecall
    0x00100893, // addi x17, x0, 1
    0x00000073, // ecall
    0x00200893, // addi x17, x0, 2
    0x00000073, // ecall
    0x00008067, // jalr x0, 0(x1)
];

/// A batch of thread 1 on hart 0 and 9 steps of it, and one of 99 steps.
const NINE_STEPS: [u8; 11] = [0xa5, 7, 0, 1, 0, 1, 2, 0, 9, 0, 0];

const MORE_STEPS: [u8; 11] = [0xa5, 7, 0, 1, 0, 1, 2, 0, 99, 0, 0];

const READING: &[u8] = b"events 2\nclock 0\nstatus running\nhart 0 idle\n\
thread 1 joinable blocked pc 00001008 enabled deferred none handlers 0\nwait 1 input\n\
program bd290fac3e7b733d9e7b496de085fc5ebbdf49007e5967e216a3baef9fb040d4 24\n";

/// A disk with a guest, and with these bytes at the beginning of its journal.
fn disk_bytes<R: Abort + AllocGlobal>(rt: &R, words: &[u32], journal: &[u8]) -> Vec<u8> {
    let image = image_of(rt, words);
    let mut bytes = formatted(rt, image.as_slice());
    lay(rt, &mut bytes, JOURNAL, journal);
    bytes
}

/// What the inspector answers of a disk. It ensures nothing, so tests that call it are cheap to prove.
fn outcome<R: AllocGlobal, D: Disk, W: Write>(
    rt: &R,
    disk: &mut D,
    shown: Shown,
    writer: &mut W,
) -> Result<(), InspectFault> {
    inspect_with(rt.alloc(), disk, shown, writer)
}

/// What is listed of these bytes; they stay.
fn expect_listing<R: Abort + AllocGlobal>(rt: &R, bytes: &[u8], shown: Shown, want: &[u8]) {
    let mut disk = memory_disk(rt, copied(rt, bytes));
    let mut writer = Vec::new(rt.alloc());
    expect_eq(rt, outcome(rt, &mut disk, shown, &mut writer), Ok(()));
    expect_bytes(rt, writer.as_slice(), want);
    expect_eq(rt, disk.into_image().as_slice() == bytes, true);
}

/// Why nothing is listed of these bytes; nothing is written.
fn expect_fault<R: Abort + AllocGlobal>(rt: &R, bytes: Vec<u8>, shown: Shown, want: InspectFault) {
    let mut disk = memory_disk(rt, bytes);
    let mut writer = Vec::new(rt.alloc());
    expect_eq(rt, outcome(rt, &mut disk, shown, &mut writer), Err(want));
    expect_eq(rt, writer.len(), 0);
}

/// The program after that many events, without code.
fn after(count: u64) -> Shown {
    Shown {
        at: Some(count),
        with_code: false,
    }
}

#[test]
fn a_guest_that_waits_for_input_is_listed(rt: HostRuntime) {
    let bytes = disk_bytes(&rt, &READER, &NINE_STEPS);
    expect_listing(&rt, bytes.as_slice(), Shown::default(), READING);
    let mut writer = Vec::new(rt.alloc());
    expect_eq(
        &rt,
        inspect(rt.alloc(), memory_disk(&rt, bytes), &mut writer),
        Ok(()),
    );
    expect_bytes(&rt, writer.as_slice(), READING);
}

#[test]
fn a_guest_that_joins_is_listed(rt: HostRuntime) {
    let bytes = disk_bytes(&rt, &JOINER, &MORE_STEPS);
    expect_listing(
        &rt,
        bytes.as_slice(),
        Shown::default(),
        b"events 2\nclock 0\nstatus running\nhart 0 idle\n\
thread 1 joinable blocked pc 00001020 enabled deferred none handlers 0\n\
thread 2 joinable ready pc 00001028 enabled deferred none handlers 0\nwait 1 join 2\n\
program ec0875cb8d67df690fb828e738d951cb8e4a3af88aa0e36633997be5311dc530 52\n",
    );
}

#[test]
fn earlier_states_are_listed(rt: HostRuntime) {
    let bytes = disk_bytes(&rt, &READER, &NINE_STEPS);
    expect_listing(
        &rt,
        bytes.as_slice(),
        after(0),
        b"events 0\nclock 0\nstatus running\nhart 0 idle\n\
thread 1 joinable ready pc 00001000 enabled deferred none handlers 0\n\
program bd290fac3e7b733d9e7b496de085fc5ebbdf49007e5967e216a3baef9fb040d4 24\n",
    );
    expect_listing(
        &rt,
        bytes.as_slice(),
        after(1),
        b"events 1\nclock 0\nstatus running\nhart 0 1\n\
thread 1 joinable ready pc 00001000 enabled deferred none handlers 0\n\
program bd290fac3e7b733d9e7b496de085fc5ebbdf49007e5967e216a3baef9fb040d4 24\n",
    );
    expect_listing(&rt, bytes.as_slice(), after(2), READING);
    expect_fault(&rt, copied(&rt, &bytes), after(3), InspectFault::Range);
    expect_fault(&rt, bytes, after(u64::MAX), InspectFault::Range);
}

#[test]
fn states_before_the_area_are_gone(rt: HostRuntime) {
    let mut bytes = disk_bytes(&rt, &READER, &NINE_STEPS);
    // The area has the state after five events.
    lay(&rt, &mut bytes, 4_096 + 16, &[5]);
    expect_fault(&rt, copied(&rt, &bytes), after(4), InspectFault::Range);
    expect_listing(
        &rt,
        bytes.as_slice(),
        after(5),
        b"events 5\nclock 0\nstatus running\nhart 0 idle\n\
thread 1 joinable ready pc 00001000 enabled deferred none handlers 0\n\
program bd290fac3e7b733d9e7b496de085fc5ebbdf49007e5967e216a3baef9fb040d4 24\n",
    );
    expect_fault(&rt, bytes, after(8), InspectFault::Range);
}

#[test]
fn code_is_listed(rt: HostRuntime) {
    let bytes = disk_bytes(&rt, &READER, &NINE_STEPS);
    let shown = Shown {
        at: None,
        with_code: true,
    };
    expect_listing(
        &rt,
        bytes.as_slice(),
        shown,
        b"events 2\nclock 0\nstatus running\nhart 0 idle\n\
thread 1 joinable blocked pc 00001008 enabled deferred none handlers 0\n\
\x20 00001008 00200893 addi x17, x0, 2\n\
\x20 0000100c 00000073 ecall\n\
\x20 00001010 ff1ff06f jal x0, -16\n\
\x20 00001014 ffffffff illegal\n\
wait 1 input\n\
program bd290fac3e7b733d9e7b496de085fc5ebbdf49007e5967e216a3baef9fb040d4 24\n",
    );
}

#[test]
fn what_recovers_to_nothing_is_refused(rt: HostRuntime) {
    let good = disk_bytes(&rt, &READER, &NINE_STEPS);
    let shown = Shown::default();
    expect_fault(&rt, Vec::new(rt.alloc()), shown, InspectFault::NotFormatted);
    expect_fault(&rt, filled(&rt, 0, SIZE), shown, InspectFault::NotFormatted);
    let mut bytes = copied(&rt, &good);
    lay(&rt, &mut bytes, 16, &[2]);
    expect_fault(&rt, bytes, shown, InspectFault::Version);
    let mut bytes = copied(&rt, &good);
    // A hart in the tables that there isn't.
    lay(&rt, &mut bytes, 8_192 + 23, &[1]);
    expect_fault(&rt, bytes, shown, InspectFault::Damaged);
    let mut bytes = good;
    // An event of no kind: damaged, also where what is asked for stands before it.
    lay(&rt, &mut bytes, JOURNAL + 6, &[9]);
    expect_fault(&rt, copied(&rt, &bytes), shown, InspectFault::Damaged);
    expect_fault(&rt, bytes, after(0), InspectFault::Damaged);
}

/// A disk that fails each of its calls in turn, up to one that it isn't asked for.
fn expect_device_faults<R: Abort + AllocGlobal>(rt: &R, bytes: &[u8], shown: Shown) {
    for call in 1..100u64 {
        let mut disk = FailingDisk::new(memory_disk(rt, copied(rt, bytes)), call);
        let mut writer = Vec::new(rt.alloc());
        let got = outcome(rt, &mut disk, shown, &mut writer);
        if got.is_ok() {
            assert!(rt; call > 5);
            return;
        }
        expect_eq_at(rt, call, got, Err(InspectFault::Device));
        expect_eq_at(rt, call, writer.len(), 0);
    }
    panic!(rt; "a disk that fails no call is asked for more than a hundred");
}

#[test]
fn each_failing_read_is_answered(rt: HostRuntime) {
    let bytes = disk_bytes(&rt, &READER, &NINE_STEPS);
    expect_device_faults(&rt, bytes.as_slice(), Shown::default());
    expect_device_faults(&rt, bytes.as_slice(), after(1));
}

/// Takes one byte a write, and fails where it has that many.
#[derive(Drop)]
struct Narrow {
    bytes: Vec<u8>,
    fails_at: usize,
}

impl Write for Narrow {
    fn write(&mut self, buf: &[u8]) -> io::Result<usize> {
        if self.bytes.len() == self.fails_at {
            return Err(io::Error::from(ErrorKind::BrokenPipe));
        }
        match buf {
            [first, ..] => {
                self.bytes.write_all(&[*first])?;
                Ok(1)
            }
            [] => Ok(0),
        }
    }

    fn flush(&mut self) -> io::Result<()> {
        Ok(())
    }
}

#[test]
fn each_failing_write_is_answered(rt: HostRuntime) {
    let bytes = disk_bytes(&rt, &READER, &NINE_STEPS);
    let mut disk = memory_disk(&rt, bytes);
    for fails_at in 0..=READING.len() {
        let mut writer = Narrow {
            bytes: Vec::new(rt.alloc()),
            fails_at,
        };
        let got = outcome(&rt, &mut disk, Shown::default(), &mut writer);
        let want = if fails_at < READING.len() {
            Err(InspectFault::Write)
        } else {
            Ok(())
        };
        expect_eq_at(&rt, fails_at, got, want);
        expect_eq_at(&rt, fails_at, READING.starts_with(&writer.bytes), true);
    }
}
